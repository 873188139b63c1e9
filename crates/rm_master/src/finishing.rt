//! A master finishes.
ghost use Rattle.std.specs.Prelude.{◌≡◌, IfOk, OnOk, OnErr};
ghost use Rattle.rm_types.specs.declared.messages.MasterAsk.{MasterAsk as Ask};
ghost use Rattle.rm_refinement.specs.Services.{finishes_by, is_ending};
ghost use Rattle.rm_master.specs.Answers.{after_master, said};
ghost use Rattle.rm_master.specs.Told.{finish_told};
ghost use Rattle.rm_tables.specs.Actions.{found_in};
ghost use Rattle.rm_tables.specs.Rows.{row_of};

use crate::living::{dialogue, goes_on};
use crate::recorded::{finished, has_ended_with};
use rm_states::attempt::AttemptState;
use rm_tables::{MainEvent, Rows, Tables, Talk};
use rm_types::{AttemptId, Duplicate, NoMemory, Reply, Text};

/// Whether the end of an attempt awaits, as FINISHED.
fn finishes(rows: &Rows, attempt: AttemptId) -> bool
    ensures { result ≡ finishes_by attempt (row_of rows.now attempt.app) }
{
    let Some(row) = rows.find(attempt.app) else {
        return false;
    };
    let Some(current) = row.current else {
        return false;
    };
    current.number == attempt.number && current.state == AttemptState::Ending && current.finished
}

/// What a master that finishes is answered.
fn answer(t: &Tables, attempt: AttemptId) -> Reply
    ensures { result ≡ finish_told attempt (found_in t.now attempt.app) (row_of t.now.rows attempt.app) }
{
    if has_ended_with(&t.tree, attempt) {
        return Reply::Finished;
    }
    if dialogue(&t.rows, attempt).is_some()
        || finishes(&t.rows, attempt)
        || finished(&t.tree, attempt)
    {
        return Reply::Finishing;
    }
    Reply::NotRegistered
}

/// A master said that it finishes. `NoMemory` changes nothing.
fn say(t: &mut Tables, attempt: AttemptId, text: &Text) -> Result<(), NoMemory>
    ensures ok { OnOk result (t.new ≡ said attempt text.now t.old) }
    ensures err { OnErr result (t.new ≡ t.old) }
{
    let text = text.copy()?;
    t.main.push(MainEvent::AttemptFinish(attempt))?;
    t.rows.talk(attempt.app, Talk::Finish { text });
    Ok(())
}

/// A master that finishes is answered; where it is registered, its text is kept.
pub fn finish(t: &mut Tables, attempt: AttemptId, text: &Text) -> Result<Reply, NoMemory>
    ensures reply { IfOk result (λ reply. reply ≡ finish_told attempt (found_in t.old attempt.app) (row_of t.old.rows attempt.app)) }
    ensures changed { IfOk result (λ reply. t.new ≡ after_master attempt (Ask.Finish text.now) reply t.old) }
    ensures err { OnErr result (t.new ≡ t.old) }
{
    let reply = answer(t, attempt);
    if let Reply::Finishing = reply {
        if goes_on(&t.rows, attempt) {
            say(t, attempt, text)?;
        }
    }
    Ok(reply)
}

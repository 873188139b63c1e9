ghost use Rattle.std.specs.Prelude.{◌≡◌, ◌+◌, ◌<◌, ◌^◌, length, IfOk, OnOk, OnErr};
ghost use Rattle.rm_model.specs.Facts.{attempts_in};
ghost use Rattle.rm_model.specs.Issuing.{killed_text};
ghost use Rattle.rm_tables.specs.Actions.{ends_app, ends_attempt, found_in, next_in, schedules};
ghost use Rattle.rm_tables.specs.MainEvents.{attempt_kill, with_attempt_requeued};

use rm_tables::{AttemptChange, RowChange, SchedEvent, Tables};
use rm_types::{AppId, AttemptId, Boxed, Duplicate, Entry, How, NoMemory, Op, Text};

/// The text with which a client's kill ends an application.
pub fn killed_text(t: &Tables) -> Result<Text, NoMemory>
    ensures { IfOk result (λ text. text ≡ killed_text) }
{
    Text::from_bytes(t.alloc, b"killed by client")
}

/// The attempt after the kept ones.
pub fn next_attempt(t: &Tables, id: AppId) -> AttemptId
    requires few { length (attempts_in (found_in t.now id)) + 1 < 2 ^ 32 }
    ensures { result ≡ next_in t.now id }
{
    let kept = match t.tree.find(id) {
        Some(app) => app.attempts.len(),
        None => 0,
    };
    AttemptId {
        app: id,
        number: kept as u32 + 1,
    }
}

/// An application's end is issued.
pub fn end_app(t: &mut Tables, id: AppId, how: How, text: Text) -> Result<Entry, NoMemory>
    requires few { length (attempts_in (found_in t.old id)) + 1 < 2 ^ 32 }
    ensures ok { IfOk result (λ e. (e, t.new) ≡ ends_app id how text t.old) }
    ensures err { OnErr result (t.new ≡ t.old) }
{
    let next = next_attempt(t, id);
    let logged = text.copy()?;
    let op = Boxed::new(
        t.alloc,
        Op::AppEnd {
            id,
            how,
            text: logged,
        },
    )?;
    t.awaiting.push(Op::AppEnd { id, how, text })?;
    t.rows.change(id, RowChange::End);
    t.asks.clear(next);
    Ok(Entry::Issued { op })
}

/// The end of an attempt that lives is issued, since its application is killed.
pub fn kill_attempt(t: &mut Tables, id: AttemptId) -> Result<Entry, NoMemory>
    ensures ok { IfOk result (λ e. (e, t.new) ≡ attempt_kill id t.old) }
    ensures err { OnErr result (t.new ≡ t.old) }
{
    let how = How::Killed;
    let text = killed_text(t)?;
    let logged = killed_text(t)?;
    let op = Boxed::new(
        t.alloc,
        Op::AttemptEnd {
            id,
            how,
            text: logged,
        },
    )?;
    t.awaiting.push(Op::AttemptEnd { id, how, text })?;
    t.rows.change(id.app, RowChange::Kill);
    Ok(Entry::Issued { op })
}

/// The end of an attempt is issued.
pub fn end_attempt(t: &mut Tables, id: AttemptId, how: How, text: Text) -> Result<Entry, NoMemory>
    ensures ok { IfOk result (λ e. (e, t.new) ≡ ends_attempt id how text t.old) }
    ensures err { OnErr result (t.new ≡ t.old) }
{
    let logged = text.copy()?;
    let op = Boxed::new(
        t.alloc,
        Op::AttemptEnd {
            id,
            how,
            text: logged,
        },
    )?;
    t.awaiting.push(Op::AttemptEnd { id, how, text })?;
    let change = AttemptChange::End { how };
    t.rows.change(id.app, RowChange::OfAttempt { change });
    Ok(Entry::Issued { op })
}

/// An attempt waits for another container for its master.
pub fn requeue(t: &mut Tables, id: AttemptId) -> Result<(), NoMemory>
    ensures ok { OnOk result (t.new ≡ with_attempt_requeued id t.old) }
    ensures err { OnErr result (t.new ≡ t.old) }
{
    t.sched.push(SchedEvent::AttemptAdded(id))?;
    let change = AttemptChange::Requeue;
    t.rows.change(id.app, RowChange::OfAttempt { change });
    Ok(())
}

/// An attempt is scheduled: it goes to the scheduler, to ask for its master's container.
pub fn schedule(t: &mut Tables, id: AttemptId) -> Result<(), NoMemory>
    ensures ok { OnOk result (t.new ≡ schedules id t.old) }
    ensures err { OnErr result (t.new ≡ t.old) }
{
    t.sched.push(SchedEvent::AttemptAdded(id))?;
    t.rows
        .change(id.app, RowChange::Schedule { number: id.number });
    Ok(())
}

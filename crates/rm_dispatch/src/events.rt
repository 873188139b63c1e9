ghost use Rattle.std.specs.Prelude.{◌≡◌, ◌+◌, ◌<◌, ◌^◌, [], ◌∷◌, ◌++◌, length, None, IfOk, OnOk, OnErr};
ghost use Rattle.rm_types.specs.declared.operations.Op.{Op as Issued};
ghost use Rattle.rm_model.specs.Facts.{attempts_in};
ghost use Rattle.rm_model.specs.Issuing.{killed_text as text_of_kill};
ghost use Rattle.rm_tables.specs.declared.events.MainEvent.{MainEvent as Event};
ghost use Rattle.rm_tables.specs.Actions.{ends_app, found_in};
ghost use Rattle.rm_tables.specs.MainEvents.{epoch_start, start_of_row, save_of_row, accept_of_row, kill_of_attempt_state, kill_of_state, kill_of_row, removal_of_first};
ghost use Rattle.rm_tables.specs.Rows.{row_of};

use crate::ends::{end_app, kill_attempt, killed_text, schedule};
use rm_states::app::AppState;
use rm_states::attempt::AttemptState;
use rm_tables::{MainEvent, RowChange, SchedEvent, Tables};
use rm_types::{AppId, AttemptId, Boxed, Duplicate, Entry, How, Lane, NoMemory, Op, Queue};

/// An event had nothing to do.
pub fn quiet() -> Entry
    ensures { result ≡ Entry.Quiet Lane.Main }
{
    Entry::Quiet { lane: Lane::Main }
}

/// EpochStart: the life's Epoch is issued.
pub fn start_epoch(t: &mut Tables) -> Result<Entry, NoMemory>
    requires few { t.old.epoch + 1 < 2 ^ 32 }
    ensures ok { IfOk result (λ e. (e, t.new) ≡ epoch_start t.old) }
    ensures err { OnErr result (t.new ≡ t.old) }
{
    let next = t.epoch + 1;
    let stamp = t.stamp;
    let op = Boxed::new(t.alloc, Op::Epoch { next, stamp })?;
    t.awaiting.push(Op::Epoch { next, stamp })?;
    Ok(Entry::Issued { op })
}

/// AppStart: the App of a submission that waits is issued.
pub fn start(t: &mut Tables, id: AppId) -> Result<Entry, NoMemory>
    ensures ok { IfOk result (λ e. (e, t.new) ≡ start_of_row (row_of t.old.rows id) id t.old) }
    ensures err { OnErr result (t.new ≡ t.old) }
{
    let Some(row) = t.rows.find(id) else {
        return Ok(quiet());
    };
    let Some(pending) = &row.pending else {
        return Ok(quiet());
    };
    let submission = pending.copy()?;
    let logged = pending.copy()?;
    let op = Boxed::new(
        t.alloc,
        Op::App {
            id,
            submission: logged,
        },
    )?;
    t.awaiting.push(Op::App { id, submission })?;
    t.rows.change(id, RowChange::Issue);
    Ok(Entry::Issued { op })
}

/// An application that a client killed ends.
fn end_killed(t: &mut Tables, id: AppId) -> Result<Entry, NoMemory>
    requires few { length (attempts_in (found_in t.old id)) + 1 < 2 ^ 32 }
    ensures ok { IfOk result (λ e. (e, t.new) ≡ ends_app id How.Killed text_of_kill t.old) }
    ensures err { OnErr result (t.new ≡ t.old) }
{
    let text = killed_text(t)?;
    end_app(t, id, How::Killed, text)
}

/// AppSaved: an application that is killed ends, and any other goes to the scheduler.
pub fn saved(t: &mut Tables, id: AppId) -> Result<Entry, NoMemory>
    requires few { length (attempts_in (found_in t.old id)) + 1 < 2 ^ 32 }
    ensures ok { IfOk result (λ e. (e, t.new) ≡ save_of_row (row_of t.old.rows id) id t.old) }
    ensures err { OnErr result (t.new ≡ t.old) }
{
    let Some(row) = t.rows.find(id) else {
        return Ok(quiet());
    };
    if row.state != AppState::Submitted {
        return Ok(quiet());
    }
    if row.wish {
        return end_killed(t, id);
    }
    t.sched.push(SchedEvent::AppAdded(id))?;
    Ok(quiet())
}

/// AppAccepted: the application is accepted, and its first attempt scheduled.
pub fn accepted(t: &mut Tables, id: AppId) -> Result<Entry, NoMemory>
    ensures ok { IfOk result (λ e. (e, t.new) ≡ accept_of_row (row_of t.old.rows id) id t.old) }
    ensures err { OnErr result (t.new ≡ t.old) }
{
    let Some(row) = t.rows.find(id) else {
        return Ok(quiet());
    };
    if row.state != AppState::Submitted {
        return Ok(quiet());
    }
    schedule(t, AttemptId { app: id, number: 1 })?;
    Ok(Entry::Accepted { app: id })
}

/// AppKill of an application with an attempt in this state.
fn kill_current(t: &mut Tables, id: AttemptId, state: AttemptState) -> Result<Entry, NoMemory>
    requires few { length (attempts_in (found_in t.old id.app)) + 1 < 2 ^ 32 }
    ensures ok { IfOk result (λ e. (e, t.new) ≡ kill_of_attempt_state state id t.old) }
    ensures err { OnErr result (t.new ≡ t.old) }
{
    match state {
        AttemptState::Scheduled | AttemptState::Granted => end_killed(t, id.app),
        AttemptState::Live | AttemptState::Registered | AttemptState::Finishing => {
            kill_attempt(t, id)
        }
        AttemptState::Saving | AttemptState::Ending | AttemptState::Ended => {
            t.rows.change(id.app, RowChange::Kill);
            Ok(quiet())
        }
        AttemptState::Dropped => Ok(quiet()),
    }
}

/// AppKill of an application without an attempt.
fn kill_alone(t: &mut Tables, id: AppId, state: AppState) -> Result<Entry, NoMemory>
    requires few { length (attempts_in (found_in t.old id)) + 1 < 2 ^ 32 }
    ensures ok { IfOk result (λ e. (e, t.new) ≡ kill_of_state state None id t.old) }
    ensures err { OnErr result (t.new ≡ t.old) }
{
    match state {
        AppState::Submitted => end_killed(t, id),
        _ => Ok(quiet()),
    }
}

/// AppKill: a client wished to kill it.
pub fn kill(t: &mut Tables, id: AppId) -> Result<Entry, NoMemory>
    requires few { length (attempts_in (found_in t.old id)) + 1 < 2 ^ 32 }
    ensures ok { IfOk result (λ e. (e, t.new) ≡ kill_of_row (row_of t.old.rows id) id t.old) }
    ensures err { OnErr result (t.new ≡ t.old) }
{
    let Some(row) = t.rows.find(id) else {
        return Ok(quiet());
    };
    let state = row.state;
    let Some(current) = row.current else {
        return kill_alone(t, id, state);
    };
    let attempt = AttemptId {
        app: id,
        number: current.number,
    };
    match state {
        AppState::Submitted => end_killed(t, id),
        AppState::Accepted => kill_current(t, attempt, current.state),
        AppState::Running => kill_current(t, attempt, current.state),
        AppState::Killing => kill_current(t, attempt, current.state),
        _ => Ok(quiet()),
    }
}

/// Retire: where more are completed than are remembered, the one that completed first is removed.
pub fn retire(t: &mut Tables) -> Result<Entry, NoMemory>
    ensures ok { IfOk result (λ e. (e, t.new) ≡ removal_of_first t.old.ended t.old) }
    ensures err { OnErr result (t.new ≡ t.old) }
{
    let Some(first) = t.ended.first() else {
        return Ok(quiet());
    };
    let id = *first;
    if t.ended.len() <= t.settings.max_completed as usize {
        return Ok(quiet());
    }
    let op = Boxed::new(t.alloc, Op::Remove { id })?;
    t.awaiting.push_made(
        &mut t.main,
        |main: &mut Queue<MainEvent>| -> Result<Op, NoMemory>
            ensures op { IfOk result (λ made. made ≡ Issued.Remove id) }
            ensures ok { OnOk result (main.new ≡ main.old ++ Event.Retire ∷ []) }
            ensures err { OnErr result (main.new ≡ main.old) }
        {
            main.push(MainEvent::Retire)?;
            Ok(Op::Remove { id })
        },
    )?;
    let _ = t.ended.take_first();
    Ok(Entry::Issued { op })
}

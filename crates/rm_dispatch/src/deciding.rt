ghost use Rattle.std.specs.Prelude.{◌≡◌, ◌+◌, ◌<◌, ◌^◌, length, option_map, if◌then◌else◌, Some, None, IfOk, OnErr};
ghost use Rattle.rm_model.specs.Issuing.{killed_text as text_of_kill};
ghost use Rattle.std.specs.Option.{option_copied};
ghost use Rattle.rm_types.specs.Records.{last_attempt};
ghost use Rattle.rm_model.specs.Facts.{attempts_in, bound, reaches_bound};
ghost use Rattle.rm_tables.specs.Actions.{found_in};
ghost use Rattle.rm_tables.specs.MainEvents.{decision_of_end, decision_of_attempt_state, decision_of_state, decision_of_row, end_with, last_end_in};
ghost use Rattle.rm_tables.specs.Rows.{row_of};

use crate::ends::{end_app, killed_text, next_attempt, schedule};
use crate::events::quiet;
use rm_states::app::AppState;
use rm_states::attempt::AttemptState;
use rm_tables::{Tables, last_attempt};
use rm_types::{AppId, AppRecord, Duplicate, Entry, How, NoMemory, Settings, Submission, Text};

/// How many attempts an application may have.
fn bound(settings: &Settings, submission: &Submission) -> u32
    ensures { result ≡ bound settings.now submission.now }
{
    if submission.attempts == 0 {
        settings.max_attempts
    } else {
        settings.max_attempts.min(submission.attempts)
    }
}

/// Whether the kept attempts of an application have reached the bound.
fn reaches_bound(settings: &Settings, app: &AppRecord) -> bool
    ensures { result ≡ reaches_bound settings.now (Some app.now) }
{
    bound(settings, &app.submission) as usize <= app.attempts.len()
}

/// The kept end of the last attempt of an application.
fn last_end(app: &AppRecord) -> Option<&(How, Text)>
    ensures { option_copied result ≡ last_end_in (Some app.now) }
{
    match last_attempt(app) {
        Some(last) => last.ending.as_ref(),
        None => None,
    }
}

/// The end of an application that a client wished to kill.
fn killed_if(t: &Tables, wish: bool) -> Result<Option<(How, Text)>, NoMemory>
    ensures { IfOk result (λ end. end ≡ if wish then Some (How.Killed, text_of_kill) else None) }
{
    if wish {
        Ok(Some((How::Killed, killed_text(t)?)))
    } else {
        Ok(None)
    }
}

/// The end of an application whose last attempt failed.
fn failed_end(
    t: &Tables,
    app: &AppRecord,
    wish: bool,
    text: &Text,
) -> Result<Option<(How, Text)>, NoMemory>
    ensures { IfOk result (λ end. end ≡ end_with t.now.settings wish (Some app.now) (Some (How.Failed, text.now))) }
{
    if wish {
        return killed_if(t, true);
    }
    if reaches_bound(&t.settings, app) {
        Ok(Some((How::Failed, text.copy()?)))
    } else {
        Ok(None)
    }
}

/// The end that an application comes to by the end of its last attempt, and by a kill wish, if it ends.
fn end_of(t: &Tables, app: &AppRecord, wish: bool) -> Result<Option<(How, Text)>, NoMemory>
    ensures { IfOk result (λ end. end ≡ end_with t.now.settings wish (Some app.now) (last_end_in (Some app.now))) }
{
    match last_end(app) {
        None => killed_if(t, wish),
        Some((How::Finished, text)) => Ok(Some((How::Finished, text.copy()?))),
        Some((How::Killed, _)) => killed_if(t, true),
        Some((How::Failed, text)) => failed_end(t, app, wish, text),
    }
}

/// An application ends, or its next attempt is scheduled.
fn decide(t: &mut Tables, id: AppId, end: Option<(How, Text)>) -> Result<Entry, NoMemory>
    requires few { length (attempts_in (found_in t.old id)) + 1 < 2 ^ 32 }
    ensures ok { IfOk result (λ e. (e, t.new) ≡ decision_of_end end id t.old) }
    ensures err { OnErr result (t.new ≡ t.old) }
{
    match end {
        Some((how, text)) => end_app(t, id, how, text),
        None => {
            let next = next_attempt(t, id);
            schedule(t, next)?;
            Ok(quiet())
        }
    }
}

/// AttemptDone of an application that isn't over, with a current attempt in this state.
fn done_at(t: &mut Tables, id: AppId, state: AttemptState, wish: bool) -> Result<Entry, NoMemory>
    requires few { length (attempts_in (found_in t.old id)) + 1 < 2 ^ 32 }
    ensures ok { IfOk result (λ e. (e, t.new) ≡ decision_of_attempt_state state wish id t.old) }
    ensures err { OnErr result (t.new ≡ t.old) }
{
    if state != AttemptState::Ended {
        return Ok(quiet());
    }
    let end = match t.tree.find(id) {
        Some(app) => end_of(t, app, wish)?,
        None => killed_if(t, wish)?,
    };
    decide(t, id, end)
}

/// AttemptDone of an application in this state, with a current attempt in this one.
fn done_in(
    t: &mut Tables,
    id: AppId,
    app: AppState,
    attempt: AttemptState,
    wish: bool,
) -> Result<Entry, NoMemory>
    requires few { length (attempts_in (found_in t.old id)) + 1 < 2 ^ 32 }
    ensures ok { IfOk result (λ e. (e, t.new) ≡ decision_of_state app attempt wish id t.old) }
    ensures err { OnErr result (t.new ≡ t.old) }
{
    match app {
        AppState::Accepted => done_at(t, id, attempt, wish),
        AppState::Running => done_at(t, id, attempt, wish),
        AppState::Killing => done_at(t, id, attempt, wish),
        _ => Ok(quiet()),
    }
}

/// AttemptDone: the application ends as its last attempt did, or its next attempt is scheduled.
pub fn done(t: &mut Tables, id: AppId) -> Result<Entry, NoMemory>
    requires few { length (attempts_in (found_in t.old id)) + 1 < 2 ^ 32 }
    ensures ok { IfOk result (λ e. (e, t.new) ≡ decision_of_row (row_of t.old.rows id) id t.old) }
    ensures err { OnErr result (t.new ≡ t.old) }
{
    let Some(row) = t.rows.find(id) else {
        return Ok(quiet());
    };
    let (app, wish) = (row.state, row.wish);
    let Some(current) = row.current else {
        return Ok(quiet());
    };
    done_in(t, id, app, current.state, wish)
}

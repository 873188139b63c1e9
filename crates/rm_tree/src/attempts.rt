ghost use Rattle.std.specs.Prelude.{◌≡◌, ◌&&◌, ◌+◌, ◌==◌, length, is_none, IsTrue, OnOk, OnErr};
ghost use Rattle.std.specs.List.{list_any};
ghost use Rattle.std.specs.Option.{option_copied};
ghost use Rattle.rm_types.specs.Records.{all_ended, last_attempt};
ghost use Rattle.rm_types.specs.Ids.{is_attempt};
ghost use Rattle.rm_tree.specs.Changes.{is_end_recorded, is_unended_last, with_ended};
ghost use Rattle.rm_tree.specs.Numbers.{AreAttemptsFrom};

use rm_types::{AppRecord, AttemptId, AttemptRecord, Duplicate, How, NoMemory, Text};

/// An application's last attempt, if it has one.
fn last_attempt(app: &AppRecord) -> Option<&AttemptRecord>
    ensures { option_copied result ≡ last_attempt app.now.attempts }
{
    app.attempts.as_slice().last()
}

/// Whether an application has no end and no attempt that goes on.
pub fn has_stopped(app: &AppRecord) -> bool
    ensures { result ≡ (is_none app.now.ending && all_ended app.now.attempts) }
{
    app.ending.is_none() && all_ended(app.attempts.as_slice())
}

/// Whether each attempt has ended.
fn all_ended(attempts: &[AttemptRecord]) -> bool
    ensures { result ≡ all_ended attempts.now }
{
    attempts.iter().all(|attempt| attempt.ending.is_some())
}

/// Whether an application may have an attempt of this number next.
pub fn is_next_attempt(app: &AppRecord, number: u32) -> bool
    ensures { result ≡ (is_none app.now.ending && (all_ended app.now.attempts && (number == length app.now.attempts + 1))) }
{
    has_stopped(app) && number != 0 && number as usize - 1 == app.attempts.len()
}

/// Whether an attempt is an application's last, and goes on.
pub fn is_unended_last(app: &AppRecord, id: AttemptId) -> bool
    ensures { result ≡ is_unended_last id app.now }
{
    match last_attempt(app) {
        Some(last) => last.id == id && last.ending.is_none(),
        None => false,
    }
}

/// Whether an attempt is among these.
fn has_attempt(attempts: &[AttemptRecord], id: AttemptId) -> bool
    ensures { result ≡ list_any (λ one. is_attempt one.id id) attempts.now }
{
    attempts.iter().any(|attempt| attempt.id == id)
}

/// Whether an attempt is among these without an end.
fn has_unended(attempts: &[AttemptRecord], id: AttemptId) -> bool
    ensures { result ≡ list_any (λ one. is_attempt one.id id && is_none one.ending) attempts.now }
{
    attempts
        .iter()
        .any(|attempt| attempt.id == id && attempt.ending.is_none())
}

/// Whether an attempt of an application is recorded with its end.
pub fn is_end_recorded(app: &AppRecord, id: AttemptId) -> bool
    ensures { result ≡ is_end_recorded id app.now }
{
    let attempts = app.attempts.as_slice();
    has_attempt(attempts, id) && !has_unended(attempts, id)
}

/// Says how an application's last attempt ended, where the attempts are numbered and it is this one, which goes on. `NoMemory` leaves
/// the record as it was.
pub fn end_last_attempt(
    app: &mut AppRecord,
    id: AttemptId,
    how: How,
    text: &Text,
) -> Result<(), NoMemory>
    ensures ok { OnOk result (AreAttemptsFrom app.old.id 0 app.old.attempts → IsTrue (is_unended_last id app.old) → app.new ≡ with_ended id how text.now app.old) }
    ensures err { OnErr result (app.new ≡ app.old) }
{
    let Some(last) = last_attempt(app) else {
        return Ok(());
    };
    let mut ended = last.copy()?;
    ended.ending = Some((how, text.copy()?));
    app.attempts.set_last(ended);
    Ok(())
}

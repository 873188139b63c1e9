ghost use Rattle.std.specs.Prelude.{◌≡◌, ◌<◌, ◌≤◌, ◌^◌, count_by, length, IfOk, OnErr, Some, None};
ghost use Rattle.std.specs.Option.{option_copied};
ghost use Rattle.rm_types.specs.declared.ids.AppId.{AppId as App};
ghost use Rattle.rm_types.specs.Ids.{is_app};
ghost use Rattle.rm_model.specs.State.{Scene};
ghost use Rattle.rm_model.specs.Facts.{attempts_in, kept_record, submission_of};
ghost use Rattle.rm_model.specs.ClientReplies.{end_text, live_of, report_of};
ghost use Rattle.rm_tables.specs.Actions.{found_in};
ghost use Rattle.rm_client.specs.Answers.{report_with};
ghost use Rattle.rm_refinement.specs.Clients.{RowRefines, RefinesForClients};

use crate::words::{end_word, going_word};
use rm_tables::{AppRow, Tables};
use rm_types::{
    AppId, AppRecord, Duplicate, How, NoMemory, Reply, Report, StateWord, Submission, Text,
};

/// What was submitted for an application that is known: as it is recorded, else as it waits.
pub fn submission_of(t: &Tables, id: AppId) -> Option<&Submission>
    ensures { (m : Scene) → RefinesForClients m t.now → option_copied result ≡ submission_of m id }
{
    match t.tree.find(id) {
        Some(app) => Some(&app.submission),
        None => match t.rows.find(id) {
            Some(row) => row.pending.as_ref(),
            None => None,
        },
    }
}

/// The text of a kept end, else no text.
fn end_text(t: &Tables, ending: &Option<(How, Text)>) -> Result<Text, NoMemory>
    ensures { IfOk result (λ text. text ≡ end_text ending.now) }
{
    match ending {
        Some((_, text)) => Ok(text.copy()?),
        None => Ok(Text::empty()),
    }
}

/// How many containers of an application live. `NoMemory` comes only where that takes more than 32 bits.
fn live_of(t: &Tables, id: AppId) -> Result<u32, NoMemory>
    ensures live { (m : Scene) → RefinesForClients m t.now → IfOk result (λ live. live ≡ live_of m id) }
    ensures err { OnErr result (2 ^ 32 ≤ count_by (λ row. is_app row.id.attempt.app id) t.now.book.rows) }
{
    // So many containers wouldn't fit memory.
    let Ok(live) = u32::try_from(t.book.living_of(id)) else {
        return Err(NoMemory);
    };
    Ok(live)
}

/// A report by what was submitted, and what there is of attempts, living containers and an end.
fn report_with(
    t: &Tables,
    state: StateWord,
    submission: &Submission,
    attempts: u32,
    live: u32,
    ending: &Option<(How, Text)>,
) -> Result<Report, NoMemory>
    ensures { IfOk result (λ report. report ≡ report_with state submission.now attempts live (end_text ending.now)) }
{
    let user = submission.user.copy()?;
    let queue = submission.queue.copy()?;
    let name = submission.name.copy()?;
    let text = end_text(t, ending)?;
    Ok(Report {
        state,
        user,
        queue,
        name,
        attempts,
        live,
        text,
    })
}

/// A report of an application that is kept, of which so many containers live.
fn report_kept(t: &Tables, row: &AppRow, app: &AppRecord, live: u32) -> Result<Reply, NoMemory>
    requires few { length app.now.attempts < 2 ^ 32 }
    ensures { (m : Scene) (id : App) → RowRefines m id row.now → kept_record m id ≡ Some app.now → live ≡ live_of m id → IfOk result (λ reply. reply ≡ report_of m id (Some app.now.submission)) }
{
    let state = match &app.ending {
        Some((how, _)) => end_word(*how),
        None => going_word(row, Some(app)),
    };
    let attempts = app.attempts.len() as u32;
    let report = report_with(t, state, &app.submission, attempts, live, &app.ending)?;
    Ok(Reply::Report(report))
}

/// A report of an application that isn't kept, of which so many containers live.
fn report_waiting(
    t: &Tables,
    row: &AppRow,
    submission: &Submission,
    live: u32,
) -> Result<Reply, NoMemory>
    ensures { (m : Scene) (id : App) → RowRefines m id row.now → kept_record m id ≡ None → live ≡ live_of m id → IfOk result (λ reply. reply ≡ report_of m id (Some submission.now)) }
{
    let state = going_word(row, None);
    let report = report_with(t, state, submission, 0, live, &None)?;
    Ok(Reply::Report(report))
}

/// A report of an application that has a row.
fn report_row(t: &Tables, id: AppId, row: &AppRow) -> Result<Reply, NoMemory>
    requires few { length (attempts_in (found_in t.now id)) < 2 ^ 32 }
    ensures { (m : Scene) → RefinesForClients m t.now → RowRefines m id row.now → IfOk result (λ reply. reply ≡ report_of m id (submission_of m id)) }
{
    let live = live_of(t, id)?;
    match t.tree.find(id) {
        Some(app) => report_kept(t, row, app, live),
        None => match &row.pending {
            Some(submission) => report_waiting(t, row, submission, live),
            None => Ok(Reply::Unknown),
        },
    }
}

/// What a client is told of an application.
pub fn report(t: &Tables, id: AppId) -> Result<Reply, NoMemory>
    requires few { length (attempts_in (found_in t.now id)) < 2 ^ 32 }
    ensures { (m : Scene) → RefinesForClients m t.now → IfOk result (λ reply. reply ≡ report_of m id (submission_of m id)) }
{
    match t.rows.find(id) {
        Some(row) => report_row(t, id, row),
        None => Ok(Reply::Unknown),
    }
}

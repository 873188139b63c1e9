ghost use Rattle.std.specs.Prelude.{◌≡◌};
ghost use Rattle.std.specs.Option.{option_copied};
ghost use Rattle.rm_types.specs.declared.ids.AppId.{AppId};
ghost use Rattle.rm_model.specs.State.{Scene};
ghost use Rattle.rm_model.specs.Attempts.{has_failed, is_failed};
ghost use Rattle.rm_model.specs.Facts.{kept_record};
ghost use Rattle.rm_model.specs.ClientReplies.{end_word, going_word};
ghost use Rattle.rm_refinement.specs.Clients.{RowRefines, current_registered, is_saving_app, last_failed, runs};

use rm_states::app::AppState;
use rm_tables::{AppRow, Current, last_attempt};
use rm_types::{AppRecord, AttemptRecord, How, StateWord};

/// The word of a kept end.
pub fn end_word(how: How) -> StateWord
    ensures { result ≡ end_word how }
{
    match how {
        How::Finished => StateWord::Finished,
        How::Failed => StateWord::Failed,
        How::Killed => StateWord::Killed,
    }
}

/// Whether an application's App was issued and isn't kept.
fn is_saving(state: AppState) -> bool
    ensures { result ≡ is_saving_app state }
{
    matches!(state, AppState::NewSaving)
}

/// Whether the current attempt's master registered in this life.
fn has_registered(current: Option<Current>) -> bool
    ensures { result ≡ current_registered current }
{
    match current {
        Some(current) => current.registered,
        None => false,
    }
}

fn is_failed(how: How) -> bool
    ensures { result ≡ is_failed how }
{
    match how {
        How::Failed => true,
        How::Finished | How::Killed => false,
    }
}

/// Whether an attempt has a kept end, and it is FAILED.
fn has_failed(attempt: &AttemptRecord) -> bool
    ensures { result ≡ has_failed attempt.now }
{
    match &attempt.ending {
        Some((how, _)) => is_failed(*how),
        None => false,
    }
}

/// Whether the last kept attempt of an application has failed.
fn last_failed(app: Option<&AppRecord>) -> bool
    ensures { result ≡ last_failed (option_copied app.entry) }
{
    match app {
        Some(app) => match last_attempt(app) {
            Some(last) => has_failed(last),
            None => false,
        },
        None => false,
    }
}

/// Whether an application runs, by its row and its record, if it is kept.
fn runs(row: &AppRow, app: Option<&AppRecord>) -> bool
    ensures { result ≡ runs row.now (option_copied app.entry) }
{
    has_registered(row.current) && !last_failed(app)
}

/// The word of an application without a kept end, by its row and its record, if it is kept.
pub fn going_word(row: &AppRow, app: Option<&AppRecord>) -> StateWord
    ensures { (m : Scene) (id : AppId) → RowRefines m id row.now → kept_record m id ≡ option_copied app.entry → result ≡ going_word m id }
{
    if runs(row, app) {
        StateWord::Running
    } else if row.current.is_some() {
        StateWord::Accepted
    } else if app.is_some() {
        StateWord::Submitted
    } else if is_saving(row.state) {
        StateWord::NewSaving
    } else {
        StateWord::New
    }
}

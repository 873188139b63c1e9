ghost use Rattle.std.specs.Prelude.{◌≡◌, ◌↔◌, ◌⊎◌, IsTrue, Some, IfSome};
ghost use Rattle.rm_states.specs.app.Table.{AppTransition, IsFinalApp, end_state};

use crate::app::states::{AppAction, AppEvent, AppState};
use rm_types::How;

/// What follows when an event meets an application in a state: its next state, and what is then to be done.
/// `None` comes exactly where the table has no row for the two: the event is then ignored.
pub fn step(state: AppState, event: AppEvent) -> Option<(AppState, AppAction)>
    ensures row { IfSome result (λ answer. AppTransition state event answer.0 answer.1) }
    ensures answered { (next : AppState) (action : AppAction) → AppTransition state event next action → result ≡ Some (next, action) }
{
    let row = match (state, event) {
        (AppState::New, AppEvent::Start) => (AppState::NewSaving, AppAction::IssueApp),
        (AppState::NewSaving, AppEvent::Kept) => (AppState::Submitted, AppAction::PostSaved),
        (AppState::Submitted, AppEvent::Accept) => (AppState::Accepted, AppAction::PostAttempt),
        (AppState::Accepted, AppEvent::Register) => (AppState::Running, AppAction::Nothing),
        (AppState::Running, AppEvent::Failed) => (AppState::Accepted, AppAction::Nothing),
        (AppState::Accepted, AppEvent::Kill) => (AppState::Killing, AppAction::Nothing),
        (AppState::Running, AppEvent::Kill) => (AppState::Killing, AppAction::Nothing),
        (AppState::Submitted, AppEvent::End) => (AppState::FinalSaving, AppAction::IssueEnd),
        (AppState::Accepted, AppEvent::End) => (AppState::FinalSaving, AppAction::IssueEnd),
        (AppState::Running, AppEvent::End) => (AppState::FinalSaving, AppAction::IssueEnd),
        (AppState::Killing, AppEvent::End) => (AppState::FinalSaving, AppAction::IssueEnd),
        (AppState::FinalSaving, AppEvent::EndKept(how)) => (
            ended_state(how),
            AppAction::PostRetire,
        ),
        _ => return None,
    };
    Some(row)
}

/// The state of an application whose end is kept.
fn ended_state(how: How) -> AppState
    ensures { result ≡ end_state how }
{
    match how {
        How::Finished => AppState::Finished,
        How::Failed => AppState::Failed,
        How::Killed => AppState::Killed,
    }
}

/// Whether an application in this state is over, with its end kept: nothing follows any more.
pub fn is_final(state: AppState) -> bool
    ensures none_follows { IsTrue result ↔ IsFinalApp state }
    ensures which { IsTrue result ↔ ((state ≡ AppState.Finished) ⊎ (state ≡ AppState.Failed) ⊎ (state ≡ AppState.Killed)) }
{
    matches!(
        state,
        AppState::Finished | AppState::Failed | AppState::Killed
    )
}

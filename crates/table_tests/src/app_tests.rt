//! What no clause says: one life of an application, from its submission to its end.
use rm_states::app::{AppAction, AppEvent, AppState, is_final, step};
use rm_types::How;
use std::process::Abort;

/// What happens, the state after it, and what is to be done then.
const LIFE: [(AppEvent, AppState, AppAction); 8] = [
    (AppEvent::Start, AppState::NewSaving, AppAction::IssueApp),
    (AppEvent::Kept, AppState::Submitted, AppAction::PostSaved),
    (AppEvent::Accept, AppState::Accepted, AppAction::PostAttempt),
    (AppEvent::Register, AppState::Running, AppAction::Nothing),
    (AppEvent::Failed, AppState::Accepted, AppAction::Nothing),
    (AppEvent::Register, AppState::Running, AppAction::Nothing),
    (AppEvent::End, AppState::FinalSaving, AppAction::IssueEnd),
    (
        AppEvent::EndKept(How::Finished),
        AppState::Finished,
        AppAction::PostRetire,
    ),
];

/// An application that isn't at its end may come to it where its end is being saved alone, and takes this step.
fn see_step<R: Abort>(rt: &R, state: AppState, event: AppEvent, next: AppState, action: AppAction) {
    assert!(rt; !is_final(state));
    let may_end = step(state, AppEvent::EndKept(How::Killed)).is_some();
    assert!(rt; may_end == (state == AppState::FinalSaving));
    assert!(rt; step(state, event) == Some((next, action)));
}

#[test]
fn an_application_lives_through_a_failed_attempt(rt: HostRuntime) {
    let mut state = AppState::New;
    for (event, next, action) in LIFE.as_slice() {
        see_step(&rt, state, *event, *next, *action);
        state = *next;
    }
    assert!(rt; is_final(state));
    assert!(rt; step(state, AppEvent::Kill).is_none());
}

//! What no clause says: one life of an attempt, from its scheduling to its end.
use rm_states::attempt::{AttemptAction, AttemptEvent, AttemptState, is_final, step};

/// What happens, the state after it, and what is to be done then.
const LIFE: [(AttemptEvent, AttemptState, AttemptAction); 9] = [
    (
        AttemptEvent::Grant,
        AttemptState::Granted,
        AttemptAction::PostGranted,
    ),
    (
        AttemptEvent::Requeue,
        AttemptState::Scheduled,
        AttemptAction::PostAdded,
    ),
    (
        AttemptEvent::Grant,
        AttemptState::Granted,
        AttemptAction::PostGranted,
    ),
    (
        AttemptEvent::Issue,
        AttemptState::Saving,
        AttemptAction::IssueAttempt,
    ),
    (
        AttemptEvent::Kept,
        AttemptState::Live,
        AttemptAction::PostSaved,
    ),
    (
        AttemptEvent::Register,
        AttemptState::Registered,
        AttemptAction::Nothing,
    ),
    (
        AttemptEvent::Finish,
        AttemptState::Finishing,
        AttemptAction::PostFinish,
    ),
    (
        AttemptEvent::End,
        AttemptState::Ending,
        AttemptAction::IssueEnd,
    ),
    (
        AttemptEvent::EndKept,
        AttemptState::Ended,
        AttemptAction::PostDone,
    ),
];

#[test]
fn an_attempt_lives_through_a_lost_container(rt: HostRuntime) {
    let mut state = AttemptState::Scheduled;
    for (event, next, action) in LIFE.as_slice() {
        assert!(rt; !is_final(state));
        assert!(rt; step(state, *event) == Some((*next, *action)));
        state = *next;
    }
    assert!(rt; is_final(state));
    assert!(rt; step(state, AttemptEvent::Drop).is_none());
    assert!(rt; step(AttemptState::Saving, AttemptEvent::Drop).is_none());
}

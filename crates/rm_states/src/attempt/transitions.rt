ghost use Rattle.std.specs.Prelude.{◌≡◌, ◌↔◌, ◌⊎◌, IsTrue, Some, IfSome};
ghost use Rattle.rm_states.specs.attempt.Table.{AttemptTransition, IsFinalAttempt};

use crate::attempt::states::{
    AttemptAction as Action, AttemptEvent as Event, AttemptState as State,
};

/// What follows when an event meets an attempt in a state: its next state, and what is then to be done.
/// `None` comes exactly where the table has no row for the two: the event is then ignored.
pub fn step(state: State, event: Event) -> Option<(State, Action)>
    ensures row { IfSome result (λ answer. AttemptTransition state event answer.0 answer.1) }
    ensures answered { (next : State) (action : Action) → AttemptTransition state event next action → result ≡ Some (next, action) }
{
    let row = match (state, event) {
        (State::Scheduled, Event::Grant) => (State::Granted, Action::PostGranted),
        (State::Granted, Event::Requeue) => (State::Scheduled, Action::PostAdded),
        (State::Granted, Event::Issue) => (State::Saving, Action::IssueAttempt),
        (State::Saving, Event::Kept) => (State::Live, Action::PostSaved),
        (State::Live, Event::Register) => (State::Registered, Action::Nothing),
        (State::Registered, Event::Finish) => (State::Finishing, Action::PostFinish),
        (State::Live, Event::End) => (State::Ending, Action::IssueEnd),
        (State::Registered, Event::End) => (State::Ending, Action::IssueEnd),
        (State::Finishing, Event::End) => (State::Ending, Action::IssueEnd),
        (State::Ending, Event::EndKept) => (State::Ended, Action::PostDone),
        (State::Scheduled, Event::Drop) => (State::Dropped, Action::Nothing),
        (State::Granted, Event::Drop) => (State::Dropped, Action::Nothing),
        _ => return None,
    };
    Some(row)
}

/// Whether an attempt in this state is over, with its end kept, or dropped: nothing follows any more.
pub fn is_final(state: State) -> bool
    ensures none_follows { IsTrue result ↔ IsFinalAttempt state }
    ensures which { IsTrue result ↔ ((state ≡ State.Ended) ⊎ (state ≡ State.Dropped)) }
{
    matches!(state, State::Ended | State::Dropped)
}

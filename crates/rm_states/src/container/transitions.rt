ghost use Rattle.std.specs.Prelude.{◌≡◌, ◌↔◌, IsTrue, Some, IfSome};
ghost use Rattle.rm_states.specs.container.Table.{ContainerTransition, IsFinalContainer};

use crate::container::states::{ContainerAction, ContainerEvent};
use rm_types::ContainerState;

/// What follows when an event meets a container in a state: its next state, and what is then to be done.
/// `None` comes exactly where the table has no row for the two: the event is then ignored.
pub fn step(
    state: ContainerState,
    event: ContainerEvent,
) -> Option<(ContainerState, ContainerAction)>
    ensures row { IfSome result (λ answer. ContainerTransition state event answer.0 answer.1) }
    ensures answered { (next : ContainerState) (action : ContainerAction) → ContainerTransition state event next action → result ≡ Some (next, action) }
{
    let next = match (state, event) {
        (ContainerState::Granted, ContainerEvent::Tell) => ContainerState::Acquired,
        (ContainerState::Granted, ContainerEvent::Run) => ContainerState::Running,
        (ContainerState::Acquired, ContainerEvent::Run) => ContainerState::Running,
        (ContainerState::Granted, ContainerEvent::End) => ContainerState::Completed,
        (ContainerState::Acquired, ContainerEvent::End) => ContainerState::Completed,
        (ContainerState::Running, ContainerEvent::End) => ContainerState::Completed,
        _ => return None,
    };
    Some((next, ContainerAction::Nothing))
}

/// Whether a container in this state has ended: nothing follows any more.
pub fn is_final(state: ContainerState) -> bool
    ensures none_follows { IsTrue result ↔ IsFinalContainer state }
    ensures which { IsTrue result ↔ (state ≡ ContainerState.Completed) }
{
    matches!(state, ContainerState::Completed)
}

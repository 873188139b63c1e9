ghost use Rattle.std.specs.Prelude.{◌≡◌, ◌↔◌, ◌⊎◌, IsTrue, Some, IfSome};
ghost use Rattle.rm_states.specs.node.Table.{NodeTransition, is_known_node};

use crate::node::states::{NodeAction, NodeEvent, NodeState};

/// What follows when an event meets a node in a state: its next state, and what is then to be done. `None`
/// comes exactly where the table has no row for the two: the event is then ignored.
pub fn step(state: NodeState, event: NodeEvent) -> Option<(NodeState, NodeAction)>
    ensures row { IfSome result (λ answer. NodeTransition state event answer.0 answer.1) }
    ensures answered { (next : NodeState) (action : NodeAction) → NodeTransition state event next action → result ≡ Some (next, action) }
{
    let row = match (state, event) {
        (NodeState::Absent, NodeEvent::Register) => (NodeState::Waiting, NodeAction::PostAdded),
        (NodeState::Waiting, NodeEvent::Register) => (NodeState::Waiting, NodeAction::PostAdded),
        (NodeState::Ready, NodeEvent::Register) => (NodeState::Waiting, NodeAction::PostAdded),
        (NodeState::Lost, NodeEvent::Register) => (NodeState::Waiting, NodeAction::PostAdded),
        (NodeState::Waiting, NodeEvent::Absorb) => (NodeState::Ready, NodeAction::Nothing),
        (NodeState::Waiting, NodeEvent::Expire) => (NodeState::Lost, NodeAction::PostLost),
        (NodeState::Ready, NodeEvent::Expire) => (NodeState::Lost, NodeAction::PostLost),
        _ => return None,
    };
    Some(row)
}

/// Whether a node in this state is registered, and can be lost.
pub fn is_registered(state: NodeState) -> bool
    ensures can_be_lost { IsTrue result ↔ NodeTransition state NodeEvent.Expire NodeState.Lost NodeAction.PostLost }
    ensures test { result ≡ is_known_node state }
    ensures which { IsTrue result ↔ ((state ≡ NodeState.Waiting) ⊎ (state ≡ NodeState.Ready)) }
{
    matches!(state, NodeState::Waiting | NodeState::Ready)
}

//! What no clause says: one life of a node, through a loss and a second registration.
use rm_states::node::{NodeAction, NodeEvent, NodeState, is_registered, step};

/// What happens, the state after it, and what is to be done then.
const LIFE: [(NodeEvent, NodeState, NodeAction); 7] = [
    (
        NodeEvent::Register,
        NodeState::Waiting,
        NodeAction::PostAdded,
    ),
    (NodeEvent::Absorb, NodeState::Ready, NodeAction::Nothing),
    (
        NodeEvent::Register,
        NodeState::Waiting,
        NodeAction::PostAdded,
    ),
    (NodeEvent::Absorb, NodeState::Ready, NodeAction::Nothing),
    (NodeEvent::Expire, NodeState::Lost, NodeAction::PostLost),
    (
        NodeEvent::Register,
        NodeState::Waiting,
        NodeAction::PostAdded,
    ),
    (NodeEvent::Expire, NodeState::Lost, NodeAction::PostLost),
];

#[test]
fn a_node_lives_through_its_loss(rt: HostRuntime) {
    let mut state = NodeState::Absent;
    for (event, next, action) in LIFE.as_slice() {
        let wanted = *event != NodeEvent::Register || state == NodeState::Ready;
        assert!(rt; is_registered(state) == wanted);
        assert!(rt; step(state, *event) == Some((*next, *action)));
        state = *next;
    }
    assert!(rt; !is_registered(state));
    assert!(rt; step(state, NodeEvent::Absorb).is_none());
}

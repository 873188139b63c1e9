//! What no clause says: one life of a container, from its grant to its end.
use rm_states::container::{ContainerAction, ContainerEvent, is_final, step};
use rm_types::ContainerState;

/// What happens, and the state after it.
const LIFE: [(ContainerEvent, ContainerState); 3] = [
    (ContainerEvent::Tell, ContainerState::Acquired),
    (ContainerEvent::Run, ContainerState::Running),
    (ContainerEvent::End, ContainerState::Completed),
];

#[test]
fn a_container_lives_from_its_grant_to_its_end(rt: HostRuntime) {
    let mut state = ContainerState::Granted;
    for (event, next) in LIFE.as_slice() {
        assert!(rt; !is_final(state));
        assert!(rt; step(state, *event) == Some((*next, ContainerAction::Nothing)));
        state = *next;
    }
    assert!(rt; is_final(state));
    assert!(rt; step(state, ContainerEvent::Run).is_none());
}

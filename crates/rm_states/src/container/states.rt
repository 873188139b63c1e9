/// What happens to a container.
#[derive(Clone, Copy, PartialEq, Eq)]
pub enum ContainerEvent {
    /// Its master was told of it, or its node was ordered to run it.
    Tell,
    /// Its node reports it as running.
    Run,
    /// It ended.
    End,
}

/// What is to be done after a transition.
#[derive(Clone, Copy, PartialEq, Eq)]
pub enum ContainerAction {
    /// Nothing.
    Nothing,
}

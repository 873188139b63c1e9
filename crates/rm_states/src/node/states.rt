/// How a node stands with the manager.
#[derive(Clone, Copy, PartialEq, Eq)]
pub enum NodeState {
    /// It has never registered in this life.
    Absent,
    /// It is registered, and what it runs isn't taken in yet: nothing is granted on it.
    Waiting,
    /// What it runs is taken in: containers may be granted on it.
    Ready,
    /// It was silent for too long.
    Lost,
}

/// What happens to a node.
#[derive(Clone, Copy, PartialEq, Eq)]
pub enum NodeEvent {
    /// It registers, and says what it runs.
    Register,
    /// What it runs was taken in.
    Absorb,
    /// It was silent for too long.
    Expire,
}

/// What is to be done after a transition.
#[derive(Clone, Copy, PartialEq, Eq)]
pub enum NodeAction {
    /// Have what it runs taken in.
    PostAdded,
    /// Have its containers ended.
    PostLost,
    /// Nothing.
    Nothing,
}

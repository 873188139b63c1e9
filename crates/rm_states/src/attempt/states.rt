ghost use Rattle.std.specs.Prelude.{◌≡◌};
ghost use Rattle.rm_states.specs.attempt.Table.{is_alive};

/// How far an attempt to run an application's master has come.
#[derive(Clone, Copy, PartialEq, Eq)]
pub enum AttemptState {
    /// Its master waits for a container.
    Scheduled,
    /// Its master has a container, and the attempt isn't saved yet.
    Granted,
    /// Its save is on the way.
    Saving,
    /// It is saved, and its master hasn't registered.
    Live,
    /// Its master is registered.
    Registered,
    /// Its master says that it has finished.
    Finishing,
    /// It is over, and its end's save is on the way.
    Ending,
    /// Its end is saved.
    Ended,
    /// It was given up before it was saved.
    Dropped,
}

impl AttemptState {
    /// Whether an attempt in this state lives: the store has it, and its end isn't on the way to the store.
    pub fn is_alive(self) -> bool
        ensures { result ≡ is_alive self }
    {
        matches!(
            self,
            AttemptState::Live | AttemptState::Registered | AttemptState::Finishing
        )
    }
}

/// What happens to an attempt.
#[derive(Clone, Copy, PartialEq, Eq)]
pub enum AttemptEvent {
    /// A container was granted to its master.
    Grant,
    /// The container was lost before the attempt was saved.
    Requeue,
    /// It is to be saved.
    Issue,
    /// The store has it.
    Kept,
    /// Its master registered.
    Register,
    /// Its master says that it has finished.
    Finish,
    /// It is over.
    End,
    /// The store has its end.
    EndKept,
    /// Its application is over before the attempt was saved.
    Drop,
}

/// What is to be done after a transition.
#[derive(Clone, Copy, PartialEq, Eq)]
pub enum AttemptAction {
    /// Tell that its master has a container.
    PostGranted,
    /// Ask for a container for its master.
    PostAdded,
    /// Issue the attempt to the store.
    IssueAttempt,
    /// Tell that it is saved.
    PostSaved,
    /// Tell that its master has finished.
    PostFinish,
    /// Issue its end to the store.
    IssueEnd,
    /// Tell its application that it is over.
    PostDone,
    /// Nothing.
    Nothing,
}

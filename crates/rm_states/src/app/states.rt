use rm_types::How;

/// How far an application has come.
#[derive(Clone, Copy, PartialEq, Eq)]
pub enum AppState {
    /// It has an id, and isn't saved.
    New,
    /// Its save is on the way.
    NewSaving,
    /// It is saved, and not accepted yet.
    Submitted,
    /// It is accepted, and waits for an attempt's master to register.
    Accepted,
    /// An attempt's master is registered.
    Running,
    /// It was killed, and its attempt hasn't ended yet.
    Killing,
    /// It is over, and its end's save is on the way.
    FinalSaving,
    /// It ended well, and its end is saved.
    Finished,
    /// It failed, and its end is saved.
    Failed,
    /// It was killed, and its end is saved.
    Killed,
}

/// What happens to an application.
#[derive(Clone, Copy, PartialEq, Eq)]
pub enum AppEvent {
    /// A client submitted it.
    Start,
    /// The store has it.
    Kept,
    /// The scheduler took it in.
    Accept,
    /// An attempt's master registered.
    Register,
    /// An attempt failed, and another one may be made.
    Failed,
    /// A client kills it.
    Kill,
    /// It is over.
    End,
    /// The store has its end, and how it ended.
    EndKept(How),
}

/// What is to be done after a transition.
#[derive(Clone, Copy, PartialEq, Eq)]
pub enum AppAction {
    /// Issue the application to the store.
    IssueApp,
    /// Tell the scheduler that the application is saved.
    PostSaved,
    /// Ask for its first attempt.
    PostAttempt,
    /// Issue its end to the store.
    IssueEnd,
    /// Have it retire among the completed ones.
    PostRetire,
    /// Nothing.
    Nothing,
}

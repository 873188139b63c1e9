ghost use Rattle.std.specs.Prelude.{◌≡◌};
ghost use Rattle.rm_states.specs.app.Table.{next_app_state, end_state};
ghost use Rattle.rm_states.specs.attempt.Table.{next_attempt_state as next_attempt_state};
ghost use Rattle.rm_tables.specs.Changes.{state_with, changed_state, scheduled, granted, attempt_after, current_with, current_after, changed};

use crate::rows::{AppRow, Current};
use rm_states::app::{AppEvent, AppState};
use rm_states::attempt::{AttemptEvent, AttemptState};
use rm_types::{ContainerId, How};

/// What happens to an application.
#[derive(Clone, Copy, PartialEq, Eq)]
pub enum RowChange {
    /// Its App is issued.
    Issue,
    /// Its App is kept.
    Keep,
    /// A client wishes to kill it.
    Wish,
    /// It is killed, and its attempt has to end first: the end of one that lives is issued.
    Kill,
    /// It is accepted, or goes on after a failure: an attempt of this number waits for its master's container.
    Schedule { number: u32 },
    /// The master of its current attempt registered.
    Register,
    /// Its AppEnd is issued; an attempt that isn't issued is dropped.
    End,
    /// Its AppEnd is kept.
    KeepEnd { how: How },
    /// Something happens to its current attempt.
    OfAttempt { change: AttemptChange },
}

/// What happens to the current attempt of an application.
#[derive(Clone, Copy, PartialEq, Eq)]
pub enum AttemptChange {
    /// A pass granted it a container: its master's, where it waits for that one.
    Grant { container: ContainerId },
    /// Its master's container left the book before the attempt was issued: it waits for another.
    Requeue,
    /// Its Attempt is issued.
    Issue,
    /// Its master's container left the book while the attempt was being saved.
    Lose,
    /// Its Attempt is kept.
    Keep,
    /// Its master finished.
    Finish,
    /// Its AttemptEnd is issued.
    End { how: How },
    /// Its AttemptEnd is kept.
    KeepEnd { how: How },
}

/// The state of an application whose end is kept.
pub fn state_of(how: How) -> AppState
    ensures { result ≡ end_state how }
{
    match how {
        How::Finished => AppState::Finished,
        How::Failed => AppState::Failed,
        How::Killed => AppState::Killed,
    }
}

/// The state of an application after an event: where the row of the two leads, and the same where there is none.
fn next_state(state: AppState, event: AppEvent) -> AppState
    ensures { result ≡ next_app_state state event }
{
    match rm_states::app::step(state, event) {
        Some((next, _action)) => next,
        None => state,
    }
}

/// The state of an attempt after an event, in the same way.
fn next_attempt_state(state: AttemptState, event: AttemptEvent) -> AttemptState
    ensures { result ≡ next_attempt_state state event }
{
    match rm_states::attempt::step(state, event) {
        Some((next, _action)) => next,
        None => state,
    }
}

fn state_with(change: AttemptChange, state: AppState) -> AppState
    ensures { result ≡ state_with change state }
{
    match change {
        AttemptChange::KeepEnd { how: How::Failed } => next_state(state, AppEvent::Failed),
        _ => state,
    }
}

fn state_after(change: RowChange, state: AppState) -> AppState
    ensures { result ≡ changed_state change state }
{
    match change {
        RowChange::Issue => next_state(state, AppEvent::Start),
        RowChange::Keep => next_state(state, AppEvent::Kept),
        RowChange::Wish => state,
        RowChange::Kill => next_state(state, AppEvent::Kill),
        RowChange::Schedule { .. } => next_state(state, AppEvent::Accept),
        RowChange::Register => next_state(state, AppEvent::Register),
        RowChange::End => next_state(state, AppEvent::End),
        RowChange::KeepEnd { how } => next_state(state, AppEvent::EndKept(how)),
        RowChange::OfAttempt { change } => state_with(change, state),
    }
}

/// An attempt that waits for its master's container.
fn scheduled(number: u32) -> Current
    ensures { result ≡ scheduled number }
{
    Current {
        number,
        state: AttemptState::Scheduled,
        master: None,
        registered: false,
        lost: false,
        granted: 0,
        finished: false,
    }
}

fn granted(container: ContainerId, current: Current) -> Current
    ensures { result ≡ granted container current }
{
    match current.state {
        AttemptState::Scheduled => Current {
            state: next_attempt_state(AttemptState::Scheduled, AttemptEvent::Grant),
            master: Some(container),
            lost: false,
            granted: container.seq,
            ..current
        },
        _ => Current {
            granted: container.seq,
            ..current
        },
    }
}

fn attempt_after(change: AttemptChange, current: Current) -> Current
    ensures { result ≡ attempt_after change current }
{
    match change {
        AttemptChange::Grant { container } => granted(container, current),
        AttemptChange::Requeue => Current {
            state: next_attempt_state(current.state, AttemptEvent::Requeue),
            granted: current.granted,
            ..scheduled(current.number)
        },
        AttemptChange::Issue => Current {
            state: next_attempt_state(current.state, AttemptEvent::Issue),
            lost: false,
            ..current
        },
        AttemptChange::Lose => Current {
            lost: true,
            ..current
        },
        AttemptChange::Keep => with_event(AttemptEvent::Kept, current),
        AttemptChange::Finish => with_event(AttemptEvent::Finish, current),
        AttemptChange::End { how } => Current {
            state: next_attempt_state(current.state, AttemptEvent::End),
            finished: how == How::Finished,
            ..current
        },
        AttemptChange::KeepEnd { .. } => with_event(AttemptEvent::EndKept, current),
    }
}

/// An attempt after an event that changes its state alone.
fn with_event(event: AttemptEvent, current: Current) -> Current
    ensures { result ≡ record current { state = next_attempt_state current.state event } }
{
    Current {
        state: next_attempt_state(current.state, event),
        ..current
    }
}

fn current_with(change: RowChange, current: Current) -> Current
    ensures { result ≡ current_with change current }
{
    match change {
        RowChange::Register => Current {
            state: next_attempt_state(current.state, AttemptEvent::Register),
            registered: true,
            ..current
        },
        RowChange::Kill => with_event(AttemptEvent::End, current),
        RowChange::End => with_event(AttemptEvent::Drop, current),
        RowChange::OfAttempt { change } => attempt_after(change, current),
        _ => current,
    }
}

fn current_after(change: RowChange, current: Option<Current>) -> Option<Current>
    ensures { result ≡ current_after change current }
{
    match (change, current) {
        (RowChange::Schedule { number }, _) => Some(scheduled(number)),
        (_, None) => None,
        (change, Some(current)) => Some(current_with(change, current)),
    }
}

impl AppRow {
    /// Something happens to the application. It takes no memory.
    pub fn change(&mut self, change: RowChange)
        ensures { self.new ≡ changed change self.old }
    {
        self.state = state_after(change, self.state);
        self.current = current_after(change, self.current);
        match change {
            RowChange::Wish => self.wish = true,
            RowChange::Keep => self.pending = None,
            RowChange::Schedule { .. } => self.dialogue = None,
            _ => {}
        }
    }
}

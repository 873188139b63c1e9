ghost use Rattle.std.specs.Prelude.{◌≡◌};
ghost use Rattle.std.proofs.Common.{rules};
ghost use Rattle.rm_tables.specs.declared.events.Refused.TheVariants.{Memory};

use rm_types::{AppId, AttemptId, ContainerId, Duplicate, Items, NoMemory, Text};
use thiserror::Error;

/// What the main queue holds. The queue is first in, first out, as that of YARN's dispatcher.
#[derive(Clone, Copy, PartialEq, Eq)]
pub enum MainEvent {
    /// A life began: its Epoch is to be issued.
    EpochStart,
    /// A submission was taken: its App is to be issued.
    AppStart(AppId),
    /// An App was kept, or was recovered without attempts: the scheduler is to know the application.
    AppSaved(AppId),
    /// The scheduler knows the application: it is to be accepted.
    AppAccepted(AppId),
    /// A client wished to kill it, for the first time in this life.
    AppKill(AppId),
    /// A pass granted a master's container: its attempt is to be issued.
    MasterGranted(ContainerId),
    /// An Attempt was kept: its master is to be launched.
    AttemptSaved(AttemptId),
    /// A master's container left the book.
    MasterLost(ContainerId),
    /// A master's lease ran out.
    AttemptExpired(AttemptId),
    /// A master finished.
    AttemptFinish(AttemptId),
    /// An AttemptEnd was kept, or was recovered as the last: its application is to be decided.
    AttemptDone(AttemptId),
    /// An application's end was kept, or a life opened: what is completed beyond the limit is to be removed.
    Retire,
}

/// What the scheduler's queue holds. The queue is first in, first out.
#[derive(Clone, Drop)]
pub enum SchedEvent {
    /// An application was saved.
    AppAdded(AppId),
    /// An attempt that lives was recovered, or one that ended, of an application that keeps what it left.
    AttemptRecovered(AttemptId),
    /// An attempt was scheduled: it is to ask for its master's container.
    AttemptAdded(AttemptId),
    /// An attempt or its application has ended: what is stale of the application is to end.
    AttemptRemoved(AttemptId),
    /// A master released containers.
    Release {
        attempt: AttemptId,
        list: Items<ContainerId>,
    },
    /// A node registered, with a turn.
    NodeAdded {
        node: Text,
        turn: u32,
    },
    /// A node beat, and reported containers as done.
    NodeDone {
        node: Text,
        list: Items<ContainerId>,
    },
    /// A node beat: a pass is to answer it.
    NodeUpdate(Text),
    /// A node's lease ran out.
    NodeLost(Text),
}

impl Duplicate for SchedEvent {
    ghost same = { Prim.search (rules) };
}

/// Why a move was not made. Nothing has changed then.
#[derive(Clone, Copy, Debug, PartialEq, Eq, Error)]
pub enum Refused {
    /// The move's lane has nothing to do.
    #[error("the lane has nothing to do")]
    NotReady,
    /// No memory was found.
    #[error("out of memory")]
    Memory,
}

impl From<NoMemory> for Refused {
    ghost from_gives = { λ _ e. e ≡ Memory };

    fn from(_error: NoMemory) -> Refused {
        Refused::Memory
    }
}

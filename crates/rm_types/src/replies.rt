ghost use Rattle.std.specs.Prelude.{◌≡◌, IfOk};
ghost use Rattle.std.proofs.Common.{rules};

use crate::containers::{Closing, Grant};
use crate::duplicate::Duplicate;
use crate::ids::{AppId, ContainerId};
use crate::items::Items;
use crate::texts::Text;

/// What a right is asked for.
#[derive(Clone, Copy, Debug, PartialEq, Eq)]
pub enum AclOp {
    Submit,
    Kill,
}

/// A right that wasn't there: for what, the queue that was consulted first, and all the lists that were
/// consulted.
#[derive(Clone, Debug, Drop)]
pub struct Denial {
    pub op: AclOp,
    pub queue: Text,
    pub lists: Items<Text>,
}

/// The state of an application, as a client is told.
#[derive(Clone, Copy, Debug, PartialEq, Eq)]
pub enum StateWord {
    New,
    NewSaving,
    Submitted,
    Accepted,
    Running,
    Finished,
    Failed,
    Killed,
}

/// What a client is told of an application: `attempts` is how many of its attempts are kept, `live` how
/// many of its containers are in the book, and the text that of its kept end, else empty.
#[derive(Clone, Debug, Drop)]
pub struct Report {
    pub state: StateWord,
    pub user: Text,
    pub queue: Text,
    pub name: Text,
    pub attempts: u32,
    pub live: u32,
    pub text: Text,
}

/// The answer to a message.
#[derive(Clone, Debug, Drop)]
pub enum Reply {
    NotOpen,
    New(AppId),
    Submitted,
    BadId,
    Retired,
    NoQueue,
    Denied(Denial),
    TooLarge,
    Full,
    Unknown,
    Report(Report),
    Killing,
    AppEnded,
    MasterRegistered,
    /// A master registered, of an application that keeps: these containers of earlier attempts are its own
    /// now.
    Took {
        kept: Items<Grant>,
    },
    Already,
    Gone,
    Resync,
    WrongId,
    NotRegistered,
    Finishing,
    Finished,
    Allocated {
        id: u32,
        grants: Items<Grant>,
        ended: Items<Closing>,
    },
    NodeRegistered {
        turn: u32,
        epoch: u32,
    },
    Beat {
        id: u32,
        launch: Items<ContainerId>,
        clean: Items<ContainerId>,
    },
    Ok,
}

impl Duplicate for Denial {
    ghost same = { Prim.search (rules) };
}

impl Duplicate for Report {
    ghost same = { Prim.search (rules) };
}

impl Duplicate for Reply {
    ghost same = { Prim.search (rules) };
}

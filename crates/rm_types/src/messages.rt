ghost use Rattle.std.specs.Prelude.{◌≡◌, IfOk, IfSome};
ghost use Rattle.std.proofs.Common.{rules};
ghost use Rattle.rm_types.specs.Lanes.{feed_lane, sender_of, sender_of_lane};

use crate::containers::{Ask, Held};
use crate::duplicate::Duplicate;
use crate::ids::{AppId, AttemptId, ContainerId};
use crate::items::Items;
use crate::operations::Submission;
use crate::resources::Resource;
use crate::texts::Text;

/// What a client asks.
#[derive(Clone, Debug, Drop)]
pub enum ClientAsk {
    New,
    Submit(AppId, Submission),
    Report(AppId),
    Kill(AppId),
}

/// What an application's master asks.
#[derive(Clone, Debug, Drop)]
pub enum MasterAsk {
    Register,
    Finish {
        text: Text,
    },
    Allocate {
        id: u32,
        asks: Items<Ask>,
        release: Items<ContainerId>,
    },
}

/// What a node says.
#[derive(Clone, Debug, Drop)]
pub enum NodeAsk {
    Register {
        turn: u32,
        capability: Resource,
        running: Items<Held>,
    },
    Beat {
        id: u32,
        running: Items<Held>,
        done: Items<ContainerId>,
    },
}

/// What the clock says: so many milliseconds went by, or a lease ran out.
#[derive(Clone, Debug, Drop)]
pub enum ClockAsk {
    Tick(u64),
    ExpireNode(Text),
    ExpireMaster(AttemptId),
}

/// A message to the manager, with who sent it.
#[derive(Clone, Debug, Drop)]
pub enum Message {
    Client(Text, ClientAsk),
    Master(AttemptId, MasterAsk),
    Node(Text, NodeAsk),
    Clock(ClockAsk),
}

/// A message with its serial: the first that its sender formed has 1, and one that is sent again has the serial that it had.
#[derive(Debug, Drop)]
pub struct Sent<T> {
    pub serial: u64,
    pub ask: T,
}

/// The four kinds of sender; each has a feed of its own.
#[derive(Clone, Copy, PartialEq, Eq)]
pub enum Sender {
    Client,
    Master,
    Node,
    Clock,
}

/// The ten kinds of move.
#[derive(Clone, Copy, Debug, PartialEq, Eq)]
pub enum Lane {
    Client,
    Master,
    Node,
    Clock,
    Main,
    Sched,
    Hand,
    Write,
    End,
    Begin,
}

impl Message {
    /// Who sent it.
    pub fn sender(&self) -> Sender
        ensures { result ≡ sender_of self.now }
    {
        match self {
            Message::Client(..) => Sender::Client,
            Message::Master(..) => Sender::Master,
            Message::Node(..) => Sender::Node,
            Message::Clock(_) => Sender::Clock,
        }
    }
}

impl Sender {
    /// The lane of its feed.
    pub fn lane(self) -> Lane
        ensures { result ≡ feed_lane self }
    {
        match self {
            Sender::Client => Lane::Client,
            Sender::Master => Lane::Master,
            Sender::Node => Lane::Node,
            Sender::Clock => Lane::Clock,
        }
    }
}

impl Lane {
    /// The sender whose messages it serves; a lane that serves none has none.
    pub fn sender(self) -> Option<Sender>
        ensures sender { result ≡ sender_of_lane self }
        ensures feed { IfSome result (λ sender. feed_lane sender ≡ self) }
    {
        match self {
            Lane::Client => Some(Sender::Client),
            Lane::Master => Some(Sender::Master),
            Lane::Node => Some(Sender::Node),
            Lane::Clock => Some(Sender::Clock),
            Lane::Main | Lane::Sched | Lane::Hand | Lane::Write | Lane::End | Lane::Begin => None,
        }
    }
}

impl Duplicate for ClientAsk {
    ghost same = { Prim.search (rules) };
}

impl Duplicate for MasterAsk {
    ghost same = { Prim.search (rules) };
}

impl Duplicate for NodeAsk {
    ghost same = { Prim.search (rules) };
}

impl Duplicate for ClockAsk {
    ghost same = { Prim.search (rules) };
}

impl Duplicate for Message {
    ghost same = { Prim.search (rules) };
}

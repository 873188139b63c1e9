ghost use Rattle.std.specs.Prelude.{◌≡◌, IfOk};
ghost use Rattle.std.proofs.Common.{rules};

use crate::duplicate::Duplicate;
use crate::ids::{AttemptId, ContainerId};
use crate::resources::Resource;
use crate::texts::Text;

/// A container that a node reports as running, with its size there.
#[derive(Clone, Copy, Debug, PartialEq, Eq)]
pub struct Held {
    pub id: ContainerId,
    pub size: Resource,
}

/// A container that a pass grants, and the node that it is granted on.
#[derive(Clone, Debug, Drop)]
pub struct Grant {
    pub id: ContainerId,
    pub node: Text,
    pub size: Resource,
}

/// What a master asks for: so many containers of a size, at a priority; 1 is the first that a message
/// may name, and 0 is the master's own.
#[derive(Clone, Copy, Debug, PartialEq, Eq)]
pub struct Ask {
    pub priority: u32,
    pub count: u32,
    pub size: Resource,
}

/// Why a container ended: its node reported it done, its master released it, its node was lost, no
/// attempt had it any more, or it wasn't taken when its node registered.
#[derive(Clone, Copy, Debug, PartialEq, Eq)]
pub enum Cause {
    Done,
    Released,
    Node,
    Attempt,
    Gone,
}

/// How far a container has come: granted; told to its master, or ordered to its node; reported as
/// running; ended.
#[derive(Clone, Copy, PartialEq, Eq)]
pub enum ContainerState {
    Granted,
    Acquired,
    Running,
    Completed,
}

/// A container's end, as its master is told.
#[derive(Clone, Copy, Debug, PartialEq, Eq)]
pub struct Closing {
    pub id: ContainerId,
    pub cause: Cause,
}

/// A container's end, and the attempt whose master is told of it: the last one of its application, which
/// needn't be the container's own.
#[derive(Clone, Copy, Debug, PartialEq, Eq)]
pub struct ClosingOf {
    pub attempt: AttemptId,
    pub closing: Closing,
}

/// A living container in the book. `told` is its number among all that were ever added, from 1: the
/// order of grants.
#[derive(Drop)]
pub struct BookRow {
    pub id: ContainerId,
    pub node: Text,
    pub size: Resource,
    pub state: ContainerState,
    pub told: u64,
}

/// A line of an attempt's asks; `order` is its place in the order of first asking.
#[derive(Clone, Copy, PartialEq, Eq)]
pub struct AskLine {
    pub ask: Ask,
    pub order: u64,
}

/// An ask of an attempt.
#[derive(Clone, Copy)]
pub struct AskOf {
    pub attempt: AttemptId,
    pub ask: Ask,
}

/// An attempt's turn in a pass, and the sequence that its next container gets.
#[derive(Clone, Copy, PartialEq, Eq)]
pub struct Turn {
    pub attempt: AttemptId,
    pub next_seq: u64,
}

impl Duplicate for Held {
    ghost same = { Prim.search (rules) };
}

impl Duplicate for Grant {
    ghost same = { Prim.search (rules) };
}

impl Duplicate for Ask {
    ghost same = { Prim.search (rules) };
}

impl Duplicate for Closing {
    ghost same = { Prim.search (rules) };
}

impl Duplicate for ClosingOf {
    ghost same = { Prim.search (rules) };
}

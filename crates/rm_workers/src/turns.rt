ghost use Rattle.std.specs.Prelude.{◌≡◌};
ghost use Rattle.rm_workers.specs.Turns.{lane_of_told, lane_of_turn};
ghost use Rattle.rm_workers.specs.Waking.{calls_any, is_called, next_of, rung_by, without_worker};

use crate::called::Called;
use rm_lives::Halt;
use rm_types::{Lane, Op};

/// What a helper's move came to.
#[derive(Clone, Copy, PartialEq, Eq)]
pub(crate) enum Helped {
    /// Its lane moved.
    Moved,
    /// Its lane wasn't ready.
    Still,
    /// The life is over, or halted.
    Over,
}

impl Helped {
    /// What the lane's worker does after the hold, where these are called, and it may or mayn't go on before others.
    pub(crate) fn next(self, lane: Lane, called: Called, may: bool) -> Next
        ensures { result ≡ next_of self (is_called called lane) (calls_any (without_worker lane called)) may }
    {
        match self {
            Helped::Moved if !called.has(lane) => Next::Sleeps,
            Helped::Moved if !may && called.without(lane).is_any() => Next::GivesWay,
            Helped::Moved => Next::GoesOn,
            Helped::Still => Next::Sleeps,
            Helped::Over => Next::Leaves,
        }
    }
}

/// What a helper does after a hold.
#[derive(Clone, Copy, PartialEq, Eq)]
pub(crate) enum Next {
    /// It takes the baton again at once.
    GoesOn,
    /// It lets another worker take the baton first.
    GivesWay,
    /// It sleeps until its bell rings.
    Sleeps,
    /// It makes no more turns.
    Leaves,
}

impl Next {
    /// Whose bells ring behind the hold, where these others are called, and those were before it.
    pub(crate) fn rings(self, before: Called, others: Called) -> Called
        ensures { result ≡ rung_by self before others }
    {
        match self {
            Next::GoesOn => others.but(before),
            Next::GivesWay | Next::Sleeps | Next::Leaves => others,
        }
    }
}

/// How the store's worker ended.
#[derive(Clone, Copy, PartialEq, Eq)]
pub(crate) enum End {
    /// Nothing is left to do, or another worker halted the life.
    Over,
    /// The life went down; its device is to fall to this image.
    Down { image: u32 },
    /// It halted the life.
    Halted(Halt),
}

/// What a turn of the store's worker came to.
#[derive(Drop)]
pub(crate) enum Turn {
    /// Another worker has the baton.
    Out,
    /// Nothing was ready.
    Wait,
    /// This lane moved, and nothing is to be written.
    Moved(Lane),
    /// This operation was handed, and is to be written.
    Write(Op),
    /// There are no more turns.
    Ends(End),
}

impl Turn {
    /// The lane of the entry that it added; where it added none, that in which operations are handed.
    pub(crate) fn lane(&self) -> Lane
        ensures { result ≡ lane_of_turn self.now }
    {
        match self {
            Turn::Moved(lane) => *lane,
            Turn::Ends(End::Down { .. } | End::Halted(_)) => Lane::End,
            Turn::Out | Turn::Wait | Turn::Write(_) | Turn::Ends(End::Over) => Lane::Hand,
        }
    }
}

/// What a hold after a write came to.
#[derive(Clone, Copy, PartialEq, Eq)]
pub(crate) enum Told {
    /// The manager learned what became of the operation.
    Learned,
    /// No memory was found for that.
    Halted(Halt),
    /// No operation was with the store.
    Absent,
}

impl Told {
    /// The lane of the entry that the hold added; where it added none, that in which operations are handed.
    pub(crate) fn lane(self) -> Lane
        ensures { result ≡ lane_of_told self }
    {
        match self {
            Told::Learned => Lane::Write,
            Told::Halted(_) | Told::Absent => Lane::Hand,
        }
    }
}

/// What a write came to.
#[derive(Clone, Copy, PartialEq, Eq)]
pub(crate) enum Written {
    /// The operation is on the device.
    Kept,
    /// The fuse refused it after so many calls.
    Blown(u32),
    /// The device failed, is full, or no memory was found.
    Failed(Halt),
}

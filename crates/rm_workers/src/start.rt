ghost use Rattle.std.specs.Prelude.{◌≡◌, IsSome};
ghost use Rattle.rm_workers.specs.declared.start.Arrivals.{Arrivals};
ghost use Rattle.rm_workers.specs.Start.{all_workers, decision, given_up, with_one_more};

use crate::bells::Bells;
use rm_types::Lane;
use std::sync::{Mutex, Wait};

/// How many workers a life has.
const WORKERS: u32 = 7;

/// After so many turns, five seconds, a worker gives up on those that are missing. Turns are counted and not the time: they
/// last longer where the processors have much else to do, and a process that was stopped goes on where it was.
const MOST_TURNS: u32 = 500;

/// Which of a life's workers have come. Once they are complete or given up, that is final.
#[derive(Clone, Copy, PartialEq, Eq)]
enum Arrivals {
    /// So many are missing.
    Awaited { missing: u32 },
    /// All have come.
    Complete,
    /// One of them ran out of turns while others were missing.
    GivenUp,
}

impl Arrivals {
    /// Nobody has come.
    fn none() -> Arrivals
        ensures { result ≡ Arrivals.Awaited all_workers }
    {
        Arrivals::Awaited { missing: WORKERS }
    }

    /// One more has come.
    fn with_one_more(self) -> Arrivals
        ensures one_more { result ≡ with_one_more self }
        ensures decided { IsSome (decision self) → result ≡ self }
    {
        match self {
            Arrivals::Awaited { missing: 0 | 1 } => Arrivals::Complete,
            Arrivals::Awaited { missing } => Arrivals::Awaited {
                missing: missing - 1,
            },
            Arrivals::Complete | Arrivals::GivenUp => self,
        }
    }

    /// One of them ran out of turns.
    fn given_up(self) -> Arrivals
        ensures given_up { result ≡ given_up self }
        ensures decided { IsSome (decision self) → result ≡ self }
    {
        match self {
            Arrivals::Awaited { .. } => Arrivals::GivenUp,
            Arrivals::Complete | Arrivals::GivenUp => self,
        }
    }

    /// Whether all have come, once that is decided.
    fn decision(self) -> Option<bool>
        ensures { result ≡ decision self }
    {
        match self {
            Arrivals::Awaited { .. } => None,
            Arrivals::Complete => Some(true),
            Arrivals::GivenUp => Some(false),
        }
    }
}

/// Where a life's workers wait for one another before any of them moves.
#[derive(Drop)]
pub(crate) struct StartBarrier {
    arrivals: Mutex<Arrivals>,
}

impl StartBarrier {
    /// A barrier to which nobody has come. It takes no memory.
    pub(crate) fn new() -> StartBarrier {
        StartBarrier {
            arrivals: Mutex::new(Arrivals::none()),
        }
    }

    /// The worker of a lane comes, and waits for the others. Whether all came: whoever runs out of turns before gives up for all,
    /// and all get the same answer. The last one rings for the store's worker alone, which makes the first move or
    /// calls who can; the others sleep on until they are called, or look again after a turn.
    pub(crate) fn all_come<R: Wait>(&self, rt: &R, bells: &Bells, lane: Lane) -> bool {
        if self.arrive(rt).is_some() {
            bells.ring_for_store();
        }
        for _ in 0..MOST_TURNS {
            if let Some(all) = self.decision(rt) {
                return all;
            }
            bells.await_start(rt, lane);
        }
        self.give_up(rt)
    }

    fn decision<R: Wait>(&self, rt: &R) -> Option<bool> {
        self.arrivals.lock(rt).decision()
    }

    fn arrive<R: Wait>(&self, rt: &R) -> Option<bool> {
        let mut arrivals = self.arrivals.lock(rt);
        *arrivals = arrivals.with_one_more();
        arrivals.decision()
    }

    fn give_up<R: Wait>(&self, rt: &R) -> bool {
        let mut arrivals = self.arrivals.lock(rt);
        *arrivals = arrivals.given_up();
        *arrivals == Arrivals::Complete
    }
}

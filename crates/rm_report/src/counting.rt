ghost use Rattle.std.specs.Prelude.{◌≡◌, ℕ, sum_by};
ghost use Rattle.rm_types.specs.declared.entries.Entry.{Entry as AnyEntry};
ghost use Rattle.rm_types.specs.Entries.{granted_count};
ghost use Rattle.rm_report.specs.Counting as counting;

use rm_types::{Cause, Entry, How, Op};

/// What is counted: how much an entry adds to it.
pub(crate) trait Measure {
    ghost weight: { AnyEntry → ℕ };

    /// How much the entry adds.
    fn weight(entry: &Entry) -> usize
        ensures { result ≡ weight entry.now };
}

/// How much all entries add. The number of entries and what each adds are below 2^64 each.
pub(crate) fn total<M: Measure>(entries: &[Entry]) -> u128
    ensures { result ≡ sum_by M.weight entries.now }
{
    let mut total = 0;
    'entries: for entry in entries {
        total += M::weight(entry) as u128;
    }
    total
}

/// Lives that begin.
pub(crate) enum Lives {}

impl Measure for Lives {
    ghost weight = { counting.life_count };

    fn weight(entry: &Entry) -> usize {
        match entry {
            Entry::Opened { .. } => 1,
            _ => 0,
        }
    }
}

/// Messages that are answered.
pub(crate) enum Served {}

impl Measure for Served {
    ghost weight = { counting.served_count };

    fn weight(entry: &Entry) -> usize {
        match entry {
            Entry::Served { .. } => 1,
            _ => 0,
        }
    }
}

/// Beats that are answered with grants.
pub(crate) enum Passes {}

impl Measure for Passes {
    ghost weight = { counting.passes_in };

    fn weight(entry: &Entry) -> usize {
        match entry {
            Entry::Pass { .. } => 1,
            _ => 0,
        }
    }
}

/// Containers that are granted.
pub(crate) enum Granted {}

impl Measure for Granted {
    ghost weight = { granted_count };

    fn weight(entry: &Entry) -> usize {
        match entry {
            Entry::Pass { node: _, grants } => grants.get().len(),
            _ => 0,
        }
    }
}

/// Containers that are taken in again.
pub(crate) enum Taken {}

impl Measure for Taken {
    ghost weight = { counting.taken_count };

    fn weight(entry: &Entry) -> usize {
        match entry {
            Entry::Absorbed { taken, .. } => taken.get().len(),
            _ => 0,
        }
    }
}

/// Operations that are issued.
pub(crate) enum Issued {}

impl Measure for Issued {
    ghost weight = { counting.issued_in };

    fn weight(entry: &Entry) -> usize {
        match entry {
            Entry::Issued { .. } => 1,
            _ => 0,
        }
    }
}

/// Operations that are kept.
pub(crate) enum Kept {}

impl Measure for Kept {
    ghost weight = { counting.kept_in };

    fn weight(entry: &Entry) -> usize {
        match entry {
            Entry::Kept { .. } => 1,
            _ => 0,
        }
    }
}

/// Submissions that are kept.
pub(crate) enum Jobs {}

impl Measure for Jobs {
    ghost weight = { counting.jobs_in };

    fn weight(entry: &Entry) -> usize {
        match entry {
            Entry::Kept { op } => match op.get() {
                Op::App { .. } => 1,
                _ => 0,
            },
            _ => 0,
        }
    }
}

/// Applications that are kept as finished.
pub(crate) enum Finished {}

impl Measure for Finished {
    ghost weight = { counting.finished_count };

    fn weight(entry: &Entry) -> usize {
        match entry {
            Entry::Kept { op } => match op.get() {
                Op::AppEnd {
                    how: How::Finished,
                    ..
                } => 1,
                _ => 0,
            },
            _ => 0,
        }
    }
}

/// Applications that are kept as failed.
pub(crate) enum Failed {}

impl Measure for Failed {
    ghost weight = { counting.failed_in };

    fn weight(entry: &Entry) -> usize {
        match entry {
            Entry::Kept { op } => match op.get() {
                Op::AppEnd {
                    how: How::Failed,
                    ..
                } => 1,
                _ => 0,
            },
            _ => 0,
        }
    }
}

/// Applications that are kept as killed.
pub(crate) enum Killed {}

impl Measure for Killed {
    ghost weight = { counting.killed_in };

    fn weight(entry: &Entry) -> usize {
        match entry {
            Entry::Kept { op } => match op.get() {
                Op::AppEnd {
                    how: How::Killed,
                    ..
                } => 1,
                _ => 0,
            },
            _ => 0,
        }
    }
}

/// Applications that are forgotten.
pub(crate) enum Removed {}

impl Measure for Removed {
    ghost weight = { counting.removed_in };

    fn weight(entry: &Entry) -> usize {
        match entry {
            Entry::Kept { op } => match op.get() {
                Op::Remove { .. } => 1,
                _ => 0,
            },
            _ => 0,
        }
    }
}

/// Containers that their nodes reported done.
pub(crate) enum Done {}

impl Measure for Done {
    ghost weight = { counting.done_in };

    fn weight(entry: &Entry) -> usize {
        match entry {
            Entry::Ended {
                cause: Cause::Done,
                list,
            } => list.len(),
            _ => 0,
        }
    }
}

/// Containers that their masters released.
pub(crate) enum Released {}

impl Measure for Released {
    ghost weight = { counting.released_in };

    fn weight(entry: &Entry) -> usize {
        match entry {
            Entry::Ended {
                cause: Cause::Released,
                list,
            } => list.len(),
            _ => 0,
        }
    }
}

/// Containers whose nodes were lost.
pub(crate) enum Lost {}

impl Measure for Lost {
    ghost weight = { counting.lost_count };

    fn weight(entry: &Entry) -> usize {
        match entry {
            Entry::Ended {
                cause: Cause::Node,
                list,
            } => list.len(),
            _ => 0,
        }
    }
}

/// Containers whose attempts are over.
pub(crate) enum Over {}

impl Measure for Over {
    ghost weight = { counting.over_in };

    fn weight(entry: &Entry) -> usize {
        match entry {
            Entry::Ended {
                cause: Cause::Attempt,
                list,
            } => list.len(),
            _ => 0,
        }
    }
}

/// Containers that their nodes didn't report, or that weren't taken in again.
pub(crate) enum Gone {}

impl Measure for Gone {
    ghost weight = { counting.gone_in };

    fn weight(entry: &Entry) -> usize {
        match entry {
            Entry::Ended {
                cause: Cause::Gone,
                list,
            } => list.len(),
            Entry::Absorbed { ended, .. } => ended.get().len(),
            _ => 0,
        }
    }
}

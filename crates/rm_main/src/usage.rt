ghost use Rattle.std.specs.Prelude.{◌≡◌, ◌-◌, ◌^◌, length, min};
ghost use Rattle.rm_formats.specs.Frames.{frame};

use rm_formats::{GENERATION_RECORD, RECORD_HEAD};
use rm_store::compaction::fold;
use rm_types::{Duplicate, Entry, Items, NoMemory, Op, Text};
use std::alloc::Global;
use std::fmt;
use std::fmt::{Display, Formatter, Write};

/// How much of a store is used: what an area takes that is written anew with what is left of its operations.
#[derive(Clone, Copy, Drop)]
pub struct Usage {
    /// The bytes of a generation's record and of those operations.
    pub used: u64,
    /// How many bytes an area has.
    pub size: u64,
    /// How many operations are left.
    pub operations: usize,
    /// How many jobs they are of.
    pub jobs: usize,
}

impl Usage {
    /// Whether less than a tenth of an area is free.
    pub fn is_nearly_full(&self) -> bool {
        self.used > self.size / 10 * 9
    }
}

impl Display for Usage {
    fn fmt<W: Write>(&self, f: &mut Formatter<W>) -> fmt::Result {
        let Usage {
            used,
            size,
            operations,
            jobs,
        } = self;
        write!(
            f,
            "used {used} of {size} bytes, {operations} operations, {jobs} jobs"
        )
    }
}

/// How much is used of a store whose areas have so many bytes, by the list that it held at first and a run's log over it.
pub fn usage_of(
    alloc: Global,
    size: u64,
    opening: &Items<Op>,
    log: &Items<Entry>,
) -> Result<Usage, NoMemory> {
    let left = fold(alloc, &kept_after(alloc, opening, log)?)?;
    let mut used = GENERATION_RECORD;
    let mut jobs = 0usize;
    'ops: for op in left.as_slice() {
        used = used
            .saturating_add(frame_length(op))
            .saturating_add(RECORD_HEAD);
        if matches!(op, Op::App { .. }) {
            jobs = jobs.saturating_add(1);
        }
    }
    Ok(Usage {
        used,
        size,
        operations: left.len(),
        jobs,
    })
}

/// The operations that are kept after a log: those of the opening list, each that was told as kept, and each of those that awaited
/// where a life tells that it landed.
fn kept_after(
    alloc: Global,
    opening: &Items<Op>,
    log: &Items<Entry>,
) -> Result<Items<Op>, NoMemory> {
    let mut kept = Items::new(alloc);
    'opening: for op in opening.as_slice() {
        kept.push(op.copy()?)?;
    }
    let mut issued = Vec::new(alloc);
    let mut first = 0usize;
    'entries: for entry in log.as_slice() {
        match entry {
            Entry::Issued { op } => issued.push(op.get())?,
            Entry::Kept { op } => {
                kept.push(op.get().copy()?)?;
                first = issued.len().min(first.saturating_add(1));
            }
            Entry::Opened { landed, .. } => {
                if let Some(op) = landed_of(*landed, issued.get(first)) {
                    kept.push(op.copy()?)?;
                }
                first = issued.len();
            }
            _ => {}
        }
    }
    Ok(kept)
}

/// The first operation that awaited, where it landed.
fn landed_of<'a>(landed: u32, first: Option<&&'a Op>) -> Option<&'a Op> {
    if landed == 0 {
        return None;
    }
    first.copied()
}

/// How many bytes the frame of an operation has.
fn frame_length(op: &Op) -> u64
    ensures { result ≡ min (length (frame op.now)) (2 ^ 64 - 1) }
{
    match op {
        Op::Epoch { .. } | Op::Remove { .. } => 13,
        Op::App { submission, .. } => length_of(&submission.user)
            .saturating_add(length_of(&submission.queue))
            .saturating_add(length_of(&submission.name))
            .saturating_add(length_of(&submission.modify))
            .saturating_add(34),
        Op::Attempt { node, .. } => length_of(node).saturating_add(31),
        Op::AttemptEnd { text, .. } => length_of(text).saturating_add(20),
        Op::AppEnd { text, .. } => length_of(text).saturating_add(16),
    }
}

fn length_of(text: &Text) -> u64
    ensures { result ≡ length text.now }
{
    text.bytes().len() as u64
}

ghost use Rattle.std.specs.Prelude.{◌≡◌, ◌≢◌, ℕ, List, All, IfNone, IfOk, IfSome};
ghost use Rattle.rm_types.specs.Ranges.{IsOperation};
ghost use Rattle.rm_store.specs.Content.{half_of, room_for};
ghost use Rattle.rm_types.specs.Records.{records};
ghost use Rattle.rm_tool.specs.salvage.Checks.{HasOldContent, IsFault, IsOldFault, IsOpeningOutcome, IsWhole, front_fault};
ghost use Rattle.rm_tool.specs.salvage.Forms.{IsForm};
ghost use Rattle.rm_tool.specs.salvage.Fronts.{IsFront, IsStop};

use crate::salvage::fixed::FixedDisk;
use crate::salvage::forms::Form;
use crate::salvage::fronts::{Salvaged, Stop, salvage};
use crate::salvage::rooms::room_behind;
use rm_disk::{Disk, Fuse};
use rm_store::{OpenFail, Store, StoreError};
use rm_tree::Tree;
use rm_types::{Items, NoMemory, Op};
use std::alloc::Global;
use thiserror::Error;

/// What is at fault in a store.
#[derive(Clone, Copy, Debug, Error)]
pub enum Fault {
    /// It is damaged at this offset.
    #[error("damaged at byte {offset}")]
    Damaged { offset: u64 },
    /// The operation of this number, counted from 0, doesn't fit those before it; its gate stands at this offset.
    #[error("operation {number} doesn't fit those before it, at byte {offset}")]
    Stray { number: u64, offset: u64 },
}

/// What a check tells of a store.
#[derive(Drop)]
pub struct Checked {
    /// The store's form.
    pub form: Form,
    /// Its operations; where it is at fault, the longest front of them that is whole.
    pub ops: Items<Op>,
    /// What they amount to.
    pub tree: Tree,
    /// How many bytes an area has.
    pub half: u64,
    /// How many of these are left behind a generation's record and the records of what is left of the operations.
    pub room: u64,
    /// What is at fault in it: of two areas what the manager refuses to open it for.
    pub fault: Option<Fault>,
}

/// Whether a store is whole: one of two areas exactly where the manager opens it. `NoMemory` where none was found.
pub fn check(alloc: Global, disk: FixedDisk) -> Result<Checked, NoMemory>
    ensures form { IfOk result (λ checked. IsForm disk checked.form) }
    ensures whole { IfOk result (λ checked. IfNone checked.fault (IsWhole checked.form disk checked.ops)) }
    ensures fault { IfOk result (λ checked. IfSome checked.fault (IsFault checked.form disk)) }
    ensures amounts { IfOk result (λ checked. checked.tree ≡ records checked.ops) }
    ensures half { IfOk result (λ checked. checked.half ≡ half_of disk) }
    ensures room { IfOk result (λ checked. checked.room ≡ room_for checked.half checked.ops) }
{
    let half = disk.size() / 2;
    let Judged {
        form,
        ops,
        tree,
        fault,
    } = judge(alloc, disk)?;
    let room = room_behind(alloc, half, &ops)?;
    Ok(Checked {
        form,
        ops,
        tree,
        half,
        room,
        fault,
    })
}

/// A store as it was read, and what is at fault in it.
#[derive(Drop)]
struct Judged {
    form: Form,
    ops: Items<Op>,
    tree: Tree,
    fault: Option<Fault>,
}

/// Reads a store, and says what is at fault in it.
fn judge(alloc: Global, disk: FixedDisk) -> Result<Judged, NoMemory>
    ensures form { IfOk result (λ judged. IsForm disk judged.form) }
    ensures whole { IfOk result (λ judged. IfNone judged.fault (IsWhole judged.form disk judged.ops)) }
    ensures fault { IfOk result (λ judged. IfSome judged.fault (IsFault judged.form disk)) }
    ensures amounts { IfOk result (λ judged. judged.tree ≡ records judged.ops) }
    ensures framed { IfOk result (λ judged. All IsOperation judged.ops) }
{
    let mut disk = disk;
    let Salvaged {
        form,
        ops,
        tree,
        stop,
    } = salvage(alloc, &mut disk)?;
    match form {
        Form::OneJournal => {
            let fault = journal_fault(stop, &ops);
            Ok(Judged {
                form,
                ops,
                tree,
                fault,
            })
        }
        Form::TwoAreas { .. } => judge_areas(alloc, disk, form, ops, tree),
        Form::NoArea => judge_areas(alloc, disk, form, ops, tree),
    }
}

/// What is at fault in a store of the old form with this front.
pub(crate) fn journal_fault(stop: Stop, ops: &Items<Op>) -> Option<Fault>
    ensures whole { (bytes : List ℕ) → IsFront Form.OneJournal bytes ops.now → IsStop Form.OneJournal bytes ops.now stop → IfNone result (HasOldContent bytes ops.now) }
    ensures fault { (bytes : List ℕ) → IsFront Form.OneJournal bytes ops.now → IsStop Form.OneJournal bytes ops.now stop → IfSome result (IsOldFault bytes) }
{
    fault_at(stop, ops.len())
}

/// Says what is at fault in a store of two areas, of which this front was read.
fn judge_areas(
    alloc: Global,
    disk: FixedDisk,
    form: Form,
    ops: Items<Op>,
    tree: Tree,
) -> Result<Judged, NoMemory>
    requires form { IsForm disk form }
    requires areas { form ≢ Form.OneJournal }
    requires amounts { tree ≡ records ops }
    requires framed { All IsOperation ops }
    ensures form { IfOk result (λ judged. IsForm disk judged.form) }
    ensures whole { IfOk result (λ judged. IfNone judged.fault (IsWhole judged.form disk judged.ops)) }
    ensures fault { IfOk result (λ judged. IfSome judged.fault (IsFault judged.form disk)) }
    ensures amounts { IfOk result (λ judged. judged.tree ≡ records judged.ops) }
    ensures framed { IfOk result (λ judged. All IsOperation judged.ops) }
{
    match open_areas(alloc, disk)? {
        Opened::Whole { ops, tree } => Ok(Judged {
            form,
            ops,
            tree,
            fault: None,
        }),
        Opened::Faulty { fault } => Ok(Judged {
            form,
            ops,
            tree,
            fault: Some(fault),
        }),
    }
}

/// What is at fault where a front of so many operations ends by a stop.
fn fault_at(stop: Stop, count: usize) -> Option<Fault>
    ensures { result ≡ front_fault stop count }
{
    match stop {
        Stop::End { .. } => None,
        Stop::NoRecord { offset } => Some(Fault::Damaged { offset }),
        Stop::NoFrame { offset } => Some(Fault::Damaged { offset }),
        Stop::Stray { offset } => Some(Fault::Stray {
            number: count as u64,
            offset,
        }),
        Stop::NoArea => None,
    }
}

/// What came of opening a store of two areas.
#[derive(Drop)]
pub enum Opened {
    /// It holds these operations.
    Whole { ops: Items<Op>, tree: Tree },
    /// It isn't opened.
    Faulty { fault: Fault },
}

/// Opens a store of two areas as the manager does.
fn open_areas(alloc: Global, disk: FixedDisk) -> Result<Opened, NoMemory>
    ensures { IfOk result (IsOpeningOutcome disk) }
{
    match Store::open(alloc, Fuse::new(alloc, disk)) {
        Ok((_store, tree, ops)) => Ok(Opened::Whole { ops, tree }),
        Err(OpenFail { why, disk: _ }) => match why {
            StoreError::Damaged { offset } => Ok(Opened::Faulty {
                fault: Fault::Damaged { offset },
            }),
            StoreError::Stray { number, offset } => Ok(Opened::Faulty {
                fault: Fault::Stray { number, offset },
            }),
            StoreError::Memory => Err(NoMemory),
            _ => unreachable!(),
        },
    }
}

ghost use Rattle.std.specs.Prelude.{◌≡◌, ◌++◌, ◌∷◌, [], ◌/◌, ℕ, true, false, length, is_ok, OnOk, IfOk, IfErr, IfNone, IfSome, IsErrOf, Err};
ghost use Rattle.rm_types.specs.declared.operations.Op.{Op as AnyOp};
ghost use Rattle.rm_types.specs.Records.{records, fits_records};
ghost use Rattle.rm_disk.specs.Disk.{IfTold, IsQuiet, IsDurable};
ghost use Rattle.rm_journal.specs.Fault.{IsReadError};
ghost use Rattle.rm_journal.specs.two_areas.Areas.{IsDamagedLayout};
ghost use Rattle.rm_journal.specs.two_areas.Reading.{IsReading};
ghost use Rattle.rm_store.specs.Causes.{IsWhy, IsFaultless};
ghost use Rattle.rm_store.specs.Content.{IsFrameOf, HasContent};
ghost use Rattle.rm_store.specs.Errors.{IsOpenError};
ghost use Rattle.rm_store.specs.Kept.{IsKept};
ghost use Rattle.rm_store.specs.Reading.{WalkedOn, IsTakeError};
ghost use Rattle.rm_store.specs.Store.{AreRead};

use crate::fault::StoreError;
use rm_disk::Disk;
use rm_frame::{FrameError, decode};
use rm_journal::JournalError;
use rm_journal::two_areas::{Areas, Reading};
use rm_tree::{Tree, TreeError};
use rm_types::{Items, NoMemory, Op};
use std::alloc::Global;

/// What was read of a disk: the areas there, the operations, and what they amount to.
#[derive(Drop)]
pub struct Read {
    pub areas: Areas,
    pub tree: Tree,
    pub ops: Items<Op>,
}

/// Reads all operations of a disk.
pub fn read_all<D: Disk>(alloc: Global, disk: &mut D) -> Result<Read, StoreError>
    ensures stays { IfOk result (λ read. IsKept (D.view disk.new) read.areas read.ops) }
    ensures durable { OnOk result (IsDurable (D.view disk.new)) }
    ensures read { IfOk result (λ read. AreRead read.tree read.ops) }
    ensures content { IfOk result (λ read. IfTold (D.view disk.new) (λ bytes. HasContent bytes read.ops)) }
    ensures faultless { OnOk result (IfTold (D.view disk.old) IsFaultless) }
    ensures why { IfErr result (λ error. IfTold (D.view disk.old) (λ bytes. IsWhy bytes error)) }
    ensures quiet { IsQuiet (D.view disk.old) (D.view disk.new) }
    ensures kept { D.keeps (is_ok result) disk.old disk.new }
    ensures fault { IsErrOf result StoreError.DiskFault → D.faulted disk.old disk.new }
    ensures errors { IfErr result IsOpenError }
{
    let mut reading = Reading::start(alloc, disk)?;
    let mut tree = Tree::new(alloc);
    let mut ops = Items::new(alloc);
    let mut payload = Vec::new(alloc);
    'payloads: while let Some(gate) = reading.next(disk, &mut payload)? {
        if let Err(why) = take_in(alloc, &payload, gate, &mut tree, &mut ops) {
            walk_on(disk, &mut reading, &mut payload)?;
            return Err(why);
        }
    }
    tree.close_gaps();
    let areas = reading.areas(disk);
    Ok(Read { areas, tree, ops })
}

/// Walks on to the closed gate, over payloads that are not looked at: so damage behind one that is no operation, or a stray
/// one, is told before that.
fn walk_on<D: Disk>(
    disk: &mut D,
    reading: &mut Reading,
    payload: &mut Vec<u8>,
) -> Result<(), JournalError>
    requires { IsReading (D.view disk.old) reading.old }
    ensures reading { IsReading (D.view disk.new) reading.new }
    ensures done { OnOk result (reading.new.walk.is_done ≡ true) }
    ensures others { reading.new ≡ record reading.old { walk = reading.new.walk } }
    ensures walked { OnOk result (IfTold (D.view disk.old) (WalkedOn reading.old.walk reading.new.walk)) }
    ensures damaged { (offset : ℕ) → result ≡ Err (JournalError.Damaged offset) → IfTold (D.view disk.old) (λ bytes. IsDamagedLayout ((D.view disk.old).size / 2) bytes offset) }
    ensures quiet { IsQuiet (D.view disk.old) (D.view disk.new) }
    ensures kept { D.keeps (is_ok result) disk.old disk.new }
    ensures fault { IsErrOf result JournalError.DiskFault → D.faulted disk.old disk.new }
    ensures errors { IfErr result IsReadError }
{
    'payloads: while let Some(_gate) = reading.next(disk, payload)? {}
    Ok(())
}

/// Takes in the operation of a payload, whose gate stands at an offset of the disk.
fn take_in(
    alloc: Global,
    payload: &[u8],
    gate: u64,
    tree: &mut Tree,
    ops: &mut Items<Op>,
) -> Result<(), StoreError>
    requires { tree.old ≡ records ops.old }
    ensures ok { OnOk result ((op : AnyOp) × IsFrameOf payload.now op × (fits_records (records ops.old) op ≡ true) × (ops.new ≡ ops.old ++ op ∷ []) × (tree.new ≡ records (ops.old ++ op ∷ []))) }
    ensures damaged { (offset : ℕ) → result ≡ Err (StoreError.Damaged offset) → (offset ≡ gate) × ((op : AnyOp) → IsFrameOf payload.now op → ⊥) }
    ensures stray { (number offset : ℕ) → result ≡ Err (StoreError.Stray number offset) → (offset ≡ gate) × (number ≡ length ops.old) × ((op : AnyOp) × IsFrameOf payload.now op × (fits_records (records ops.old) op ≡ false)) }
    ensures errors { IfErr result IsTakeError }
{
    let Some(op) = operation_of(alloc, payload)? else {
        return Err(StoreError::Damaged { offset: gate });
    };
    match tree.apply(&op) {
        Ok(()) => {
            ops.push(op)?;
            Ok(())
        }
        Err(TreeError::Stray) => Err(StoreError::Stray {
            number: tree.applied(),
            offset: gate,
        }),
        Err(TreeError::Memory) => Err(StoreError::Memory),
    }
}

/// The operation as which a payload reads. `None` comes exactly where it reads as none; want of memory may be answered of any.
pub fn operation_of(alloc: Global, payload: &[u8]) -> Result<Option<Op>, NoMemory>
    ensures some { IfOk result (λ answer. IfSome answer (IsFrameOf payload.now)) }
    ensures none { IfOk result (λ answer. IfNone answer ((op : AnyOp) → IsFrameOf payload.now op → ⊥)) }
{
    match decode(alloc, payload) {
        Ok((op, count)) => {
            if count < payload.len() {
                return Ok(None);
            }
            Ok(Some(op))
        }
        Err(FrameError::BadFrame { .. }) => Ok(None),
        Err(FrameError::Memory) => Err(NoMemory),
    }
}

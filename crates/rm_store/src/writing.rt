ghost use Rattle.std.specs.Prelude.{◌≡◌, ◌≢◌, ◌⊎◌, ◌+◌, ◌<◌, ◌≤◌, ℕ, List, true, false, is_ok, OnOk, IfErr, IsErrOf, Err};
ghost use Rattle.rm_types.specs.declared.operations.Op.{Op as AnyOp};
ghost use Rattle.rm_types.specs.Ranges.{IsOperation};
ghost use Rattle.rm_types.specs.Records.{records, fits_records};
ghost use Rattle.rm_disk.specs.Disk.{IsLaterView};
ghost use Rattle.rm_journal.specs.declared.journal.TheConstants.{CALLS_OF_APPEND};
ghost use Rattle.rm_journal.specs.two_areas.Areas.{AreasInvariant};
ghost use Rattle.rm_store.specs.Errors.{IsWriteError, store_broken_after};
ghost use Rattle.rm_store.specs.Kept.{IsKept, HasOps, LeavesOps, AddsOp, TellsFrames, KeepsFrames, IsFull, needed_for, room_here, told_room, calls_of_change};
ghost use Rattle.rm_store.specs.Store.{KeepsOwn};

use crate::appending::append;
use crate::fault::StoreError;
use rm_disk::Disk;
use rm_frame::Encoder;
use rm_journal::two_areas::Areas;
use rm_types::{Items, Op};
use std::alloc::Global;

/// Writes an operation behind those that a disk holds.
pub fn write_op<D: Disk>(
    alloc: Global,
    disk: &mut D,
    areas: &mut Areas,
    content: &mut Items<Op>,
    encoder: &mut Encoder,
    op: &Op,
) -> Result<(), StoreError>
    requires kept { IsKept (D.view disk.old) areas.old content.old }
    requires op { IsOperation op.now }

    ensures stands { AreasInvariant (D.view disk.new) areas.new }
    ensures stays { store_broken_after result false ≡ false → IsKept (D.view disk.new) areas.new content.new }
    ensures any_moment { (ops : List AnyOp) → HasOps (D.view disk.old) ops → fits_records (records ops) op.now ≡ true → LeavesOps (D.view disk.old) (D.view disk.new) ops op.now }
    ensures added { OnOk result ((ops : List AnyOp) → HasOps (D.view disk.old) ops → fits_records (records ops) op.now ≡ true → AddsOp (D.view disk.new) ops op.now) }
    ensures frames { KeepsFrames (D.view disk.old) (D.view disk.new) }
    ensures anew { OnOk result (areas.new.generation ≢ areas.old.generation → TellsFrames (D.view disk.new) content.new) }
    ensures kept { D.keeps (is_ok result) disk.old disk.new }
    ensures counted { D.counted disk.new ≤ D.counted disk.old + calls_of_change areas.old content.old + CALLS_OF_APPEND }
    ensures few { 1 ≤ areas.old.generation → needed_for op.now ≤ room_here areas.old → D.counted disk.new ≤ D.counted disk.old + CALLS_OF_APPEND }
    ensures goes_on { IsLaterView (D.view disk.old) (D.view disk.new) }
    ensures own { KeepsOwn (D.view disk.old) (D.view disk.new) }

    ensures errors { IfErr result IsWriteError }
    ensures refused { (needed room : ℕ) → result ≡ Err (StoreError.Full needed room) → (areas.new ≡ areas.old) × (content.new ≡ content.old) × (disk.new ≡ disk.old) }
    ensures only_full { (needed room : ℕ) → result ≡ Err (StoreError.Full needed room) → (needed ≡ needed_for op.now) × (room < needed) × IsFull areas.old content.old op.now × (room ≡ told_room areas.old content.old) }
    ensures full { IsFull areas.old content.old op.now → (result ≡ Err (StoreError.Full (needed_for op.now) (told_room areas.old content.old))) ⊎ (result ≡ Err StoreError.Memory) }
    ensures fault { IsErrOf result StoreError.DiskFault → D.faulted disk.old disk.new }
{
    append(alloc, disk, areas, content, encoder, op)?;
    Ok(())
}

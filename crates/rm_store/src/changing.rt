ghost use Rattle.std.specs.Prelude.{if◌then◌else◌, ◌≡◌, ◌≢◌, ◌+◌, ◌-◌, ◌<◌, ◌≤◌, ◌^◌, ℕ, suc, List, [], ◌∷◌, ◌++◌, false, None, Some, All, map, length, is_ok, OnOk, IfErr, IsErrOf};
ghost use Rattle.rm_types.specs.Ranges.{IsOperation};
ghost use Rattle.rm_formats.specs.declared.TheConstants.{GENERATION_RECORD, RECORD_FRAME};
ghost use Rattle.rm_formats.specs.Frames.{frame};
ghost use Rattle.rm_formats.specs.Device.{journal_records};
ghost use Rattle.rm_disk.specs.Disk.{IfTold, EachImage, IsLaterView};
ghost use Rattle.rm_journal.specs.two_areas.Areas.{AreasInvariant, AreasHold, IsBuilt, LeavesEitherLayout, other_end, head_of};
ghost use Rattle.rm_store.specs.Changing.{KeepsPayloads, TellsPayloads, IsChangeError};
ghost use Rattle.rm_store.specs.Store.{KeepsOwn};

use rm_disk::Disk;
use rm_frame::Encoder;
use rm_journal::JournalError;
use rm_journal::two_areas::Areas;
use rm_types::Op;

/// Adds the frame of an operation to the area that is built, which has room for it.
fn add_one<D: Disk>(
    disk: &mut D,
    areas: &mut Areas,
    encoder: &mut Encoder,
    op: &Op,
) -> Result<(), JournalError>
    requires stands { AreasInvariant (D.view disk.old) areas.old }
    requires unbroken { areas.old.is_broken ≡ false }
    requires begun { areas.old.build ≢ None }
    requires op { IsOperation op.now }
    requires room { (gate : ℕ) → areas.old.build ≡ Some gate → length (frame op.now) + RECORD_FRAME ≤ other_end areas.old - gate }
    ensures all { KeepsPayloads (D.view disk.old) (D.view disk.new) areas.old areas.new }
    ensures told { OnOk result (TellsPayloads (D.view disk.old) (D.view disk.new) areas.old areas.new) }
    ensures builds { OnOk result ((added : List (List ℕ)) → IsBuilt (D.view disk.old) areas.old added → IsBuilt (D.view disk.new) areas.new (added ++ frame op.now ∷ [])) }
    ensures own { 1 ≤ areas.old.generation → KeepsOwn (D.view disk.old) (D.view disk.new) }
    ensures kept { D.keeps (is_ok result) disk.old disk.new }
    ensures counted { D.counted disk.new ≤ D.counted disk.old + 1 }
    ensures errors { IfErr result IsChangeError }
    ensures fault { IsErrOf result JournalError.DiskFault → D.faulted disk.old disk.new }
{
    let Ok(bytes) = encoder.frame(op) else {
        return Err(JournalError::Memory);
    };
    areas.add(disk, bytes)
}

/// Adds the frames of operations to the area that is built, which was just begun and has room for them.
fn add_all<D: Disk>(
    disk: &mut D,
    areas: &mut Areas,
    encoder: &mut Encoder,
    ops: &[Op],
) -> Result<(), JournalError>
    requires stands { AreasInvariant (D.view disk.old) areas.old }
    requires unbroken { areas.old.is_broken ≡ false }
    requires builds { IsBuilt (D.view disk.old) areas.old [] }
    requires framed { All IsOperation ops.now }
    requires room { length (journal_records (head_of (suc areas.old.generation) ++ map frame ops.now)) < areas.old.half }
    ensures all { KeepsPayloads (D.view disk.old) (D.view disk.new) areas.old areas.new }
    ensures told { OnOk result (TellsPayloads (D.view disk.old) (D.view disk.new) areas.old areas.new) }
    ensures builds { OnOk result (IsBuilt (D.view disk.new) areas.new (map frame ops.now)) }
    ensures own { (areas.old.generation ≡ 0 → ops.now ≡ []) → KeepsOwn (D.view disk.old) (D.view disk.new) }
    ensures kept { D.keeps (is_ok result) disk.old disk.new }
    ensures counted { D.counted disk.new ≤ D.counted disk.old + length ops.now }
    ensures errors { IfErr result IsChangeError }
    ensures fault { IsErrOf result JournalError.DiskFault → D.faulted disk.old disk.new }
{
    'ops: for place in 0..ops.len() {
        add_one(disk, areas, encoder, &ops[place])?;
    }
    Ok(())
}

/// Writes the other area anew with these operations, for which it has room, and lets it take the place of the current one.
/// At every moment a crash leaves the payloads from before or the frames of these operations; after Ok it leaves these. It
/// answers `DiskFault` where the disk failed and `Memory` where none was found.
pub fn change_area<D: Disk>(
    disk: &mut D,
    areas: &mut Areas,
    encoder: &mut Encoder,
    ops: &[Op],
) -> Result<(), JournalError>
    requires stands { AreasInvariant (D.view disk.old) areas.old }
    requires unbroken { areas.old.is_broken ≡ false }
    requires half { GENERATION_RECORD < areas.old.half }
    requires generation { areas.old.generation < 2 ^ 64 - 1 }
    requires framed { All IsOperation ops.now }
    requires room { length (journal_records (head_of (suc areas.old.generation) ++ map frame ops.now)) < areas.old.half }
    ensures stands { AreasInvariant (D.view disk.new) areas.new }
    ensures half { areas.new.half ≡ areas.old.half }
    ensures fresh { OnOk result ((areas.new.is_broken ≡ false) × (areas.new.build ≡ None) × (areas.new.generation ≡ areas.old.generation + 1)) }
    ensures room { OnOk result (areas.new.journal.end - areas.new.journal.gate ≡ areas.old.half - length (journal_records (head_of (suc areas.old.generation) ++ map frame ops.now))) }
    ensures any_moment { IfTold (D.view disk.old) (λ bytes. (payloads : List (List ℕ)) → AreasHold areas.old payloads bytes → LeavesEitherLayout (D.view disk.old) (D.view disk.new) areas.old.half payloads (map frame ops.now)) }
    ensures now { OnOk result (IfTold (D.view disk.new) (AreasHold areas.new (map frame ops.now)) × EachImage (D.view disk.new) (AreasHold areas.new (map frame ops.now))) }
    ensures own { (areas.old.generation ≡ 0 → ops.now ≡ []) → KeepsOwn (D.view disk.old) (D.view disk.new) }
    ensures kept { D.keeps (is_ok result) disk.old disk.new }
    ensures counted { D.counted disk.new ≤ D.counted disk.old + length ops.now + (if areas.old.other_live then 6 else 4) }
    ensures goes_on { IsLaterView (D.view disk.old) (D.view disk.new) }
    ensures later { (D.view disk.old).moment ≤ (D.view disk.new).moment }
    ensures errors { IfErr result IsChangeError }
    ensures fault { IsErrOf result JournalError.DiskFault → D.faulted disk.old disk.new }
{
    areas.begin(disk)?;
    add_all(disk, areas, encoder, ops)?;
    areas.finish(disk)
}

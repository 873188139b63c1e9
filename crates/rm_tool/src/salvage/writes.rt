ghost use Rattle.std.specs.Prelude.{◌≡◌, ◌/◌, ◌<◌, ◌≤◌, ℕ, [], None, All, is_ok, OnOk, IfErr, IsErrOf, Err};
ghost use Rattle.rm_types.specs.Ranges.{IsOperation};
ghost use Rattle.rm_types.specs.Records.{stray};
ghost use Rattle.rm_disk.specs.Disk.{IfTold, EachImage, IsQuiet};
ghost use Rattle.rm_journal.specs.two_areas.Areas.{IsDamagedLayout};
ghost use Rattle.rm_store.specs.Content.{HasContent, half_of};
ghost use Rattle.rm_tool.specs.salvage.Writes.{HasLiveArea, HoldsAll, IsDiskRefusal, LeavesNoneOrAll, bytes_before};

use crate::salvage::errors::WriteError;
use rm_disk::Disk;
use rm_frame::Encoder;
use rm_journal::two_areas::Areas;
use rm_store::{change_area, room_of};
use rm_types::{Items, Op};
use std::alloc::Global;

/// Writes operations, of which none is stray, as the store of a new disk: one without a live area, as all bytes 0 are. At every moment a crash leaves a
/// store without operations or one with them all, and after `Ok` it leaves them all, in the frames of now.
///
/// `Used` comes where an area of the disk is live, `Damaged` where its areas are damaged, `Full` exactly where the operations don't fit
/// an area: these three change no byte. `DiskFault` comes where the disk failed, and `Memory` where none was found.
pub fn write_anew<D: Disk>(alloc: Global, disk: &mut D, ops: &Items<Op>) -> Result<(), WriteError>
    requires framed { All IsOperation ops.now }
    requires none_stray { stray ops.now ≡ None }
    ensures written { OnOk result (HoldsAll (D.view disk.new) ops.now) }
    ensures any_moment { IfTold (D.view disk.old) (λ _. EachImage (D.view disk.old) (λ image. HasContent image []) → LeavesNoneOrAll (D.view disk.old) (D.view disk.new) ops.now) }
    ensures used { result ≡ Err WriteError.Used → IfTold (D.view disk.old) HasLiveArea }
    ensures damaged { (offset : ℕ) → result ≡ Err (WriteError.Damaged offset) → IfTold (D.view disk.old) (λ bytes. IsDamagedLayout (half_of bytes) bytes offset) }
    ensures only_full { (size : ℕ) → result ≡ Err (WriteError.Full size) → (size ≡ (D.view disk.old).size / 2) × (size ≤ bytes_before ops.now) }
    ensures fits { OnOk result (bytes_before ops.now < (D.view disk.old).size / 2) }
    ensures quiet { IfErr result (λ error. IsDiskRefusal error → IsQuiet (D.view disk.old) (D.view disk.new)) }
    ensures kept { D.keeps (is_ok result) disk.old disk.new }
    ensures fault { IsErrOf result WriteError.DiskFault → D.faulted disk.old disk.new }
{
    let mut areas = Areas::open(alloc, disk)?;
    if areas.generation() > 0 {
        return Err(WriteError::Used);
    }
    let size = areas.half();
    let mut encoder = Encoder::new(alloc);
    let room = room_of(&mut encoder, size, ops)?;
    if room == 0 {
        return Err(WriteError::Full { size });
    }
    change_area(disk, &mut areas, &mut encoder, ops.as_slice())?;
    Ok(())
}

ghost use Rattle.std.specs.Prelude.{◌≡◌, ◌≢◌, ◌+◌, ◌-◌, ◌⊎◌, ◌<◌, ◌≤◌, ◌^◌, ℕ, List, [], ◌∷◌, ◌++◌, true, false, None, All, map, sum, length, is_ok, OnOk, IfOk, IfErr, IsErrOf, Err};
ghost use Rattle.rm_types.specs.declared.operations.Op.{Op as AnyOp};
ghost use Rattle.rm_types.specs.Folded.{folded};
ghost use Rattle.rm_types.specs.Ranges.{IsOperation};
ghost use Rattle.rm_types.specs.Records.{records, fits_records};
ghost use Rattle.rm_formats.specs.declared.TheConstants.{GENERATION_RECORD, MOST_PAYLOAD, RECORD_HEAD};
ghost use Rattle.rm_formats.specs.Frames.{frame};
ghost use Rattle.rm_disk.specs.Disk.{IfTold, IsLaterView};
ghost use Rattle.rm_journal.specs.declared.journal.TheConstants.{CALLS_OF_APPEND};
ghost use Rattle.rm_journal.specs.two_areas.Areas.{AreasInvariant, AreasHold, HoldsPayloads, LeavesEitherLayout};
ghost use Rattle.rm_store.specs.Changing.{IsChangeError};
ghost use Rattle.rm_store.specs.Content.{room_for};
ghost use Rattle.rm_store.specs.Kept.{IsKept, HasOps, LeavesOps, AddsOp, TellsFrames, KeepsFrames, IsFull, IsPutError, needed_for, room_here, told_room, calls_of_change};
ghost use Rattle.rm_store.specs.Store.{KeepsOwn};

use crate::changing::change_area;
use crate::compaction::fold;
use rm_disk::Disk;
use rm_formats::{GENERATION_RECORD, RECORD_FRAME, RECORD_HEAD};
use rm_frame::Encoder;
use rm_journal::JournalError;
use rm_journal::two_areas::Areas;
use rm_types::{Duplicate, Items, NoMemory, Op};
use std::alloc::Global;

/// Appends an operation's frame to the current area, which has room for it.
fn put<D: Disk>(
    disk: &mut D,
    areas: &mut Areas,
    encoder: &mut Encoder,
    op: &Op,
) -> Result<(), JournalError>
    requires stands { AreasInvariant (D.view disk.old) areas.old }
    requires unbroken { areas.old.is_broken ≡ false }
    requires live { 1 ≤ areas.old.generation }
    requires no_build { areas.old.build ≡ None }
    requires op { IsOperation op.now }
    requires room { needed_for op.now ≤ room_here areas.old }
    ensures stands { AreasInvariant (D.view disk.new) areas.new }
    ensures unbroken { OnOk result (areas.new.is_broken ≡ false) }
    ensures generation { areas.new.generation ≡ areas.old.generation }
    ensures no_build { areas.new.build ≡ None }
    ensures any_moment { IfTold (D.view disk.old) (λ bytes. (payloads : List (List ℕ)) → AreasHold areas.old payloads bytes → LeavesEitherLayout (D.view disk.old) (D.view disk.new) areas.old.half payloads (payloads ++ frame op.now ∷ [])) }
    ensures added { OnOk result (IfTold (D.view disk.old) (λ bytes. (payloads : List (List ℕ)) → AreasHold areas.old payloads bytes → HoldsPayloads (D.view disk.new) areas.old.half (payloads ++ frame op.now ∷ []))) }
    ensures now { OnOk result (IfTold (D.view disk.old) (λ bytes. (payloads : List (List ℕ)) → AreasHold areas.old payloads bytes → IfTold (D.view disk.new) (AreasHold areas.new (payloads ++ frame op.now ∷ [])))) }
    ensures kept { D.keeps (is_ok result) disk.old disk.new }
    ensures counted { D.counted disk.new ≤ D.counted disk.old + CALLS_OF_APPEND }
    ensures own { KeepsOwn (D.view disk.old) (D.view disk.new) }
    ensures goes_on { IsLaterView (D.view disk.old) (D.view disk.new) }
    ensures later { (D.view disk.old).moment ≤ (D.view disk.new).moment }
    ensures errors { IfErr result IsChangeError }
    ensures fault { IsErrOf result JournalError.DiskFault → D.faulted disk.old disk.new }
{
    let Ok(bytes) = encoder.frame(op) else {
        return Err(JournalError::Memory);
    };
    areas.append(disk, bytes)
}

/// Adds a copy of an operation to a list.
fn push_copy(ops: &mut Items<Op>, op: &Op) -> Result<(), NoMemory>
    ensures { OnOk result (ops.new ≡ ops.old ++ op.now ∷ []) }
{
    ops.push(op.copy()?)
}

/// Appends an operation to the current area, which has room for it.
fn append_here<D: Disk>(
    disk: &mut D,
    areas: &mut Areas,
    content: &mut Items<Op>,
    encoder: &mut Encoder,
    op: &Op,
) -> Result<(), JournalError>
    requires kept { IsKept (D.view disk.old) areas.old content.old }
    requires op { IsOperation op.now }
    requires live { 1 ≤ areas.old.generation }
    requires room { needed_for op.now ≤ room_here areas.old }
    ensures stands { AreasInvariant (D.view disk.new) areas.new }
    ensures stays { OnOk result (IsKept (D.view disk.new) areas.new content.new) }
    ensures any_moment { (ops : List AnyOp) → HasOps (D.view disk.old) ops → fits_records (records ops) op.now ≡ true → LeavesOps (D.view disk.old) (D.view disk.new) ops op.now }
    ensures added { OnOk result ((ops : List AnyOp) → HasOps (D.view disk.old) ops → fits_records (records ops) op.now ≡ true → AddsOp (D.view disk.new) ops op.now) }
    ensures generation { areas.new.generation ≡ areas.old.generation }
    ensures frames { KeepsFrames (D.view disk.old) (D.view disk.new) }
    ensures kept { D.keeps (is_ok result) disk.old disk.new }
    ensures counted { D.counted disk.new ≤ D.counted disk.old + CALLS_OF_APPEND }
    ensures own { KeepsOwn (D.view disk.old) (D.view disk.new) }
    ensures goes_on { IsLaterView (D.view disk.old) (D.view disk.new) }
    ensures errors { IfErr result IsChangeError }
    ensures fault { IsErrOf result JournalError.DiskFault → D.faulted disk.old disk.new }
{
    let Ok(()) = push_copy(content, op) else {
        return Err(JournalError::Memory);
    };
    put(disk, areas, encoder, op)
}

/// Writes the other area anew with what is left of the content, lets it take the place of the current one, and appends an
/// operation there.
fn append_anew<D: Disk>(
    disk: &mut D,
    areas: &mut Areas,
    content: &mut Items<Op>,
    left: Items<Op>,
    encoder: &mut Encoder,
    op: &Op,
) -> Result<(), JournalError>
    requires kept { IsKept (D.view disk.old) areas.old content.old }
    requires op { IsOperation op.now }
    requires generation { areas.old.generation < 2 ^ 64 - 1 }
    requires left { left ≡ folded content.old }
    requires room { needed_for op.now ≤ room_for areas.old.half content.old }
    ensures stands { AreasInvariant (D.view disk.new) areas.new }
    ensures stays { OnOk result (IsKept (D.view disk.new) areas.new content.new) }
    ensures any_moment { (ops : List AnyOp) → HasOps (D.view disk.old) ops → fits_records (records ops) op.now ≡ true → LeavesOps (D.view disk.old) (D.view disk.new) ops op.now }
    ensures added { OnOk result ((ops : List AnyOp) → HasOps (D.view disk.old) ops → fits_records (records ops) op.now ≡ true → AddsOp (D.view disk.new) ops op.now) }
    ensures frames { KeepsFrames (D.view disk.old) (D.view disk.new) }
    ensures anew { OnOk result (TellsFrames (D.view disk.new) content.new) }
    ensures kept { D.keeps (is_ok result) disk.old disk.new }
    ensures counted { D.counted disk.new ≤ D.counted disk.old + calls_of_change areas.old content.old + CALLS_OF_APPEND }
    ensures own { KeepsOwn (D.view disk.old) (D.view disk.new) }
    ensures goes_on { IsLaterView (D.view disk.old) (D.view disk.new) }
    ensures errors { IfErr result IsChangeError }
    ensures fault { IsErrOf result JournalError.DiskFault → D.faulted disk.old disk.new }
{
    let mut grown = left;
    let many = grown.len();
    let Ok(()) = push_copy(&mut grown, op) else {
        return Err(JournalError::Memory);
    };
    change_area(disk, areas, encoder, &grown.as_slice()[..many])?;
    put(disk, areas, encoder, op)?;
    *content = grown;
    Ok(())
}

/// How many bytes an operation's frame has.
fn length_of(encoder: &mut Encoder, op: &Op) -> Result<u64, NoMemory>
    requires { IsOperation op.now }
    ensures value { IfOk result (λ many. many ≡ length (frame op.now)) }
    ensures most { IfOk result (λ many. many ≤ MOST_PAYLOAD) }
{
    let bytes = encoder.frame(op)?;
    Ok(bytes.len() as u64)
}

/// How many bytes an area of this size has behind a generation's record and the records of these operations; 0 where they don't
/// fit it.
pub fn room_of(encoder: &mut Encoder, half: u64, ops: &Items<Op>) -> Result<u64, NoMemory>
    requires { All IsOperation ops.now }
    ensures { IfOk result (λ room. room ≡ half - GENERATION_RECORD - sum (map (λ op. length (frame op) + RECORD_HEAD) ops.now)) }
{
    let mut room = half.saturating_sub(GENERATION_RECORD);
    'ops: for place in 0..ops.len() {
        let many = length_of(encoder, ops.at(place))?;
        room = room.saturating_sub(many + RECORD_HEAD);
    }
    Ok(room)
}

/// Whether the current area has room for so many bytes more.
fn has_room(areas: &Areas, needed: u64) -> bool
    ensures has { result ≡ true → (1 ≤ areas.now.generation) × (needed ≤ room_here areas.now) }
    ensures none { result ≡ false → (areas.now.generation ≡ 0) ⊎ (room_here areas.now < needed) }
{
    areas.generation() > 0 && needed <= areas.room()
}

/// Appends an operation, with a change of area where the current one has no room for it. `Full` comes exactly where an area
/// that is written anew has none either, or no generation is left for it, and changes nothing; `DiskFault` where the disk
/// failed, `Memory` where none was found.
pub fn append<D: Disk>(
    alloc: Global,
    disk: &mut D,
    areas: &mut Areas,
    content: &mut Items<Op>,
    encoder: &mut Encoder,
    op: &Op,
) -> Result<(), JournalError>
    requires kept { IsKept (D.view disk.old) areas.old content.old }
    requires op { IsOperation op.now }
    ensures stands { AreasInvariant (D.view disk.new) areas.new }
    ensures stays { OnOk result (IsKept (D.view disk.new) areas.new content.new) }
    ensures any_moment { (ops : List AnyOp) → HasOps (D.view disk.old) ops → fits_records (records ops) op.now ≡ true → LeavesOps (D.view disk.old) (D.view disk.new) ops op.now }
    ensures added { OnOk result ((ops : List AnyOp) → HasOps (D.view disk.old) ops → fits_records (records ops) op.now ≡ true → AddsOp (D.view disk.new) ops op.now) }
    ensures frames { KeepsFrames (D.view disk.old) (D.view disk.new) }
    ensures anew { OnOk result (areas.new.generation ≢ areas.old.generation → TellsFrames (D.view disk.new) content.new) }
    ensures kept { D.keeps (is_ok result) disk.old disk.new }
    ensures counted { D.counted disk.new ≤ D.counted disk.old + calls_of_change areas.old content.old + CALLS_OF_APPEND }
    ensures few { 1 ≤ areas.old.generation → needed_for op.now ≤ room_here areas.old → D.counted disk.new ≤ D.counted disk.old + CALLS_OF_APPEND }
    ensures own { KeepsOwn (D.view disk.old) (D.view disk.new) }
    ensures goes_on { IsLaterView (D.view disk.old) (D.view disk.new) }
    ensures errors { IfErr result IsPutError }
    ensures refused { (needed room : ℕ) → result ≡ Err (JournalError.Full needed room) → (areas.new ≡ areas.old) × (content.new ≡ content.old) × (disk.new ≡ disk.old) }
    ensures only_full { (needed room : ℕ) → result ≡ Err (JournalError.Full needed room) → (needed ≡ needed_for op.now) × (room < needed) × IsFull areas.old content.old op.now × (room ≡ told_room areas.old content.old) }
    ensures full { IsFull areas.old content.old op.now → (result ≡ Err (JournalError.Full (needed_for op.now) (told_room areas.old content.old))) ⊎ (result ≡ Err JournalError.Memory) }
    ensures fault { IsErrOf result JournalError.DiskFault → D.faulted disk.old disk.new }
{
    let Ok(many) = length_of(encoder, op) else {
        return Err(JournalError::Memory);
    };
    let needed = many + RECORD_FRAME;
    if has_room(areas, needed) {
        return append_here(disk, areas, content, encoder, op);
    }
    if areas.generation() == u64::MAX {
        let room = areas.room();
        return Err(JournalError::Full { needed, room });
    }
    let Ok(left) = fold(alloc, content) else {
        return Err(JournalError::Memory);
    };
    let Ok(room) = room_of(encoder, areas.half(), &left) else {
        return Err(JournalError::Memory);
    };
    if needed > room {
        return Err(JournalError::Full { needed, room });
    }
    append_anew(disk, areas, content, left, encoder, op)
}

ghost use Rattle.std.specs.Prelude.{◌≡◌, ◌+◌, ◌-◌, ◌<◌, ◌≤◌, ◌⊎◌, ◌↔◌, ◌^◌, ℕ, List, [], ◌∷◌, ◌++◌, Bool, true, false, None, length, take, drop, vec_len, vec_capacity, is_ok, OnOk, OnErr, IfOk, IfErr, IfSome, IsErrOf, Err};
ghost use Rattle.rm_disk.specs.Disk.{IfTold, MayWrite, IsQuiet, IsDurable};
ghost use Rattle.rm_formats.specs.Device.{sized, HasPayloads, IsDamagedAt};
ghost use Rattle.rm_journal.specs.declared.journal.TheConstants.{BODY_ROOM};
ghost use Rattle.rm_journal.specs.Fault.{IsReadError, IsAppendError, IsRefusal};
ghost use Rattle.rm_journal.specs.Journal.{region_of, JournalPlace, JournalInvariant, HasRead, IsOpened, GivesNext, LeavesEither, AppendsPayload, StaysInRegion, broken_after};

use crate::fault::JournalError;
use crate::region::{Region, record_at, write_through};
use rm_disk::{Disk, DiskError};
use rm_formats::{MOST_PAYLOAD, RECORD_FRAME, RECORD_HEAD};
use std::alloc::Global;
use std::marker::Model;

/// How many writes and syncs of its disk an append makes at most: those of the record, and those of its gate.
pub const CALLS_OF_APPEND: u64 = 4;

/// The room for what an append writes behind a gate: a length, a payload, and the next gate.
pub const BODY_ROOM: usize = MOST_PAYLOAD + RECORD_HEAD as usize;

/// A log of payloads in a region of a disk that may fail and fall at any moment.
///
/// The region is a gate byte; behind an open one, which is 1, stand a payload's length in 4 bytes, the
/// payload of 1 to 1,024 bytes, and the next gate; behind a closed one, any other byte, anything. A record
/// is written behind the closed gate and made to last before that gate is opened, so that no crash leaves
/// a part of it. A region of no bytes holds no payload and has no room.
#[derive(Drop)]
pub struct Journal {
    from: u64,
    end: u64,
    gate: u64,
    cursor: u64,
    is_broken: bool,
    buffer: Vec<u8>,
}

impl Model for Journal {
    ghost Value = { JournalPlace };

    ghost view = { λ j. record { from = j.from; end = j.end; gate = j.gate; cursor = j.cursor; is_broken = j.is_broken } };

    ghost invariant = { λ j. (j.from ≤ j.gate) × (j.gate ≤ j.end) × (j.from ≤ j.cursor) × (j.cursor ≤ j.end) × (BODY_ROOM ≤ vec_capacity j.buffer) };
}

// Puts what an append writes behind the gate into a buffer that has room for it.
fn fill(buffer: &mut Vec<u8>, payload: &[u8])
    requires room { BODY_ROOM ≤ vec_capacity buffer.old }
    requires size { length payload.now ≤ MOST_PAYLOAD }
    ensures items { buffer.new.items ≡ sized payload.now ++ 0 ∷ [] }
    ensures room { BODY_ROOM ≤ vec_capacity buffer.new }
{
    let length = (payload.len() as u32).to_be_bytes();
    buffer.clear();
    buffer.extend_from_slice(&length).unwrap();
    buffer.extend_from_slice(payload).unwrap();
    buffer.push(0).unwrap();
}

/// Reads so many bytes into a buffer that has room for them.
pub fn fetch<D: Disk>(
    disk: &mut D,
    at: u64,
    many: usize,
    buffer: &mut Vec<u8>,
) -> Result<(), DiskError>
    requires inside { at + many ≤ (D.view disk.old).size }
    requires room { many ≤ vec_capacity buffer.old }
    ensures bytes { OnOk result (IfTold (D.view disk.old) (λ bytes. buffer.new.items ≡ take many (drop at bytes))) }
    ensures length { OnOk result (length buffer.new.items ≡ many) }
    ensures room { vec_capacity buffer.old ≤ vec_capacity buffer.new }
    ensures kept { D.keeps (is_ok result) disk.old disk.new }
    ensures quiet { IsQuiet (D.view disk.old) (D.view disk.new) }
    ensures fault { IsErrOf result DiskError.DiskFault → D.faulted disk.old disk.new }
    ensures memory { IsErrOf result DiskError.Memory → ⊥ }
{
    buffer.clear();
    buffer.resize(many, 0).unwrap();
    disk.read(at, buffer.as_mut_slice())
}

impl Journal {
    /// Opens the journal in a region, which lies within the disk: syncs, and walks the gates to the closed
    /// one behind the last record. The memory that `append` needs is taken here.
    ///
    /// `Damaged` comes exactly where, behind records, an open gate stands before bytes that are no record
    /// with a next gate, and names that gate; `DiskFault` only where the disk's count of faults rose. On
    /// every outcome a read of the disk gives what it gave.
    pub fn open<D: Disk>(
        alloc: Global,
        disk: &mut D,
        region: Region,
    ) -> Result<Journal, JournalError>
        requires { region.from + region.size ≤ (D.view disk.old).size }
        ensures ok { IfOk result (IsOpened (D.view disk.new) region.from region.size) }
        ensures durable { OnOk result (IsDurable (D.view disk.new)) }
        ensures holds { OnOk result (IfTold (D.view disk.new) (λ bytes. (all : List (List ℕ)) × HasPayloads (region_of region.from (region.from + region.size) bytes) all)) }
        ensures damaged { (offset : ℕ) → result ≡ Err (JournalError.Damaged offset) → (region.from ≤ offset) × IfTold (D.view disk.old) (λ bytes. IsDamagedAt (region_of region.from (region.from + region.size) bytes) (offset - region.from)) }
        ensures undamaged { OnOk result (IfTold (D.view disk.old) (λ bytes. (offset : ℕ) → IsDamagedAt (region_of region.from (region.from + region.size) bytes) offset → ⊥)) }
        ensures kept { D.keeps (is_ok result) disk.old disk.new }
        ensures quiet { IsQuiet (D.view disk.old) (D.view disk.new) }
        ensures fault { IsErrOf result JournalError.DiskFault → D.faulted disk.old disk.new }
        ensures errors { IfErr result IsReadError }
    {
        let _size = disk.size();
        disk.sync()?;
        let end = region.from + region.size;
        let mut gate = region.from;
        'gates: while gate < end {
            match record_at(disk, gate, end)? {
                None => break,
                Some(length) => gate += length + RECORD_HEAD,
            }
        }
        let Ok(buffer) = Vec::with_capacity(alloc, BODY_ROOM) else {
            return Err(JournalError::Memory);
        };
        Ok(Journal {
            from: region.from,
            end,
            gate,
            cursor: region.from,
            is_broken: false,
            buffer,
        })
    }

    /// Puts the next payload into `out`, in place of what it held, and answers its gate's offset; `None`
    /// exactly where none is left.
    ///
    /// The disk is the one on which the journal was opened, and nothing else changed its region since. An
    /// error leaves the journal and `out` as they were. `DiskFault` comes only where the disk's count of
    /// faults rose, and `Damaged` only on a disk that tells no bytes.
    pub fn next<D: Disk>(
        &mut self,
        disk: &mut D,
        out: &mut Vec<u8>,
    ) -> Result<Option<u64>, JournalError>
        requires { JournalInvariant (D.view disk.old) self.old }
        ensures stands { JournalInvariant (D.view disk.new) self.new }
        ensures next { IfOk result (λ gate. IfTold (D.view disk.old) (λ bytes. (given left : List (List ℕ)) → HasRead self.old bytes given left → GivesNext self.old self.new out.old.items out.new.items bytes given left gate)) }
        ensures others { self.new ≡ record self.old { cursor = self.new.cursor } }
        ensures on { IfOk result (λ gate. IfSome gate (λ _. (self.old.cursor < self.new.cursor) × (self.new.cursor ≤ self.new.end))) }
        ensures err { OnErr result ((self.new ≡ self.old) × (out.new.items ≡ out.old.items)) }
        ensures kept { D.keeps (is_ok result) disk.old disk.new }
        ensures quiet { IsQuiet (D.view disk.old) (D.view disk.new) }
        ensures fault { IsErrOf result JournalError.DiskFault → D.faulted disk.old disk.new }
        ensures errors { IfErr result IsReadError }
        ensures damaged { (offset : ℕ) → result ≡ Err (JournalError.Damaged offset) → (D.view disk.old).told ≡ None }
    {
        if self.cursor >= self.end {
            return Ok(None);
        }
        let Some(length) = record_at(disk, self.cursor, self.end)? else {
            return Ok(None);
        };
        if out.reserve(length as usize).is_err() {
            return Err(JournalError::Memory);
        }
        fetch(
            disk,
            self.cursor + RECORD_HEAD,
            length as usize,
            &mut self.buffer,
        )?;
        out.clear();
        out.extend_from_slice(&self.buffer).unwrap();
        let gate = self.cursor;
        self.cursor += length + RECORD_HEAD;
        Ok(Some(gate))
    }

    /// Adds a payload of 1 to 1,024 bytes behind the last record, by four calls of the disk: it writes the
    /// length, the payload and a closed gate behind the gate that is closed; syncs; opens that gate; syncs.
    /// It takes no memory of its own.
    ///
    /// The disk is the one on which the journal was opened, and nothing else changed its region since. At
    /// every moment a crash leaves the payloads from before, or these and the new one; after `Ok` it leaves
    /// the new one too. `NeedsReopen` comes exactly where an earlier append answered `DiskFault` or
    /// `Memory`; else `Full` exactly where the room to the region's end is less than what is needed; both
    /// leave all as it was. `DiskFault` comes only where the disk's count of faults rose, and `Memory` where
    /// a call of the disk found none.
    pub fn append<D: Disk>(&mut self, disk: &mut D, payload: &[u8]) -> Result<(), JournalError>
        requires stands { JournalInvariant (D.view disk.old) self.old }
        requires low { 1 ≤ length payload.now }
        requires high { length payload.now ≤ MOST_PAYLOAD }

        ensures stands { JournalInvariant (D.view disk.new) self.new }
        ensures region { StaysInRegion self.old self.new }
        ensures broken { self.new.is_broken ≡ broken_after result self.old.is_broken }

        // A crash at any moment leaves the payloads from before, or these and the new one.
        ensures any_moment { self.old.is_broken ≡ false → LeavesEither (D.view disk.old) (D.view disk.new) self.old payload.now }
        ensures added { OnOk result (AppendsPayload (D.view disk.old) (D.view disk.new) self.old payload.now) }
        ensures gate { OnOk result (self.new.gate ≡ self.old.gate + length payload.now + RECORD_HEAD) }
        ensures kept { D.keeps (is_ok result) disk.old disk.new }
        ensures counted { D.counted disk.new ≤ D.counted disk.old + CALLS_OF_APPEND }
        ensures region_alone { MayWrite self.old.from (self.old.end - self.old.from) (D.view disk.old) (D.view disk.new) }

        // Of the region it writes no more than the closed gate, what it puts behind that, and the next gate.
        ensures place_alone { MayWrite self.old.gate (length payload.now + RECORD_FRAME) (D.view disk.old) (D.view disk.new) }

        // When each error comes, and what it leaves.
        ensures refused { IfErr result (λ error. IsRefusal error → (self.new ≡ self.old) × (disk.new ≡ disk.old)) }
        ensures errors { IfErr result IsAppendError }
        ensures reopen { (result ≡ Err JournalError.NeedsReopen) ↔ (self.old.is_broken ≡ true) }
        ensures full { self.old.is_broken ≡ false → (result ≡ Err (JournalError.Full (length payload.now + RECORD_FRAME) (self.old.end - self.old.gate))) ↔ (self.old.end - self.old.gate < length payload.now + RECORD_FRAME) }
        ensures only_full { (needed room : ℕ) → result ≡ Err (JournalError.Full needed room) → (needed ≡ length payload.now + RECORD_FRAME) × (room ≡ self.old.end - self.old.gate) × (room < needed) }
        ensures fault { IsErrOf result JournalError.DiskFault → D.faulted disk.old disk.new }
    {
        if self.is_broken {
            return Err(JournalError::NeedsReopen);
        }
        let needed = payload.len() as u64 + RECORD_FRAME;
        let room = self.end - self.gate;
        if needed > room {
            return Err(JournalError::Full { needed, room });
        }
        self.is_broken = true;
        fill(&mut self.buffer, payload);
        write_through(disk, self.gate + 1, &self.buffer)?;
        write_through(disk, self.gate, &[1])?;
        self.gate += needed - 1;
        self.is_broken = false;
        Ok(())
    }

    /// A journal whose records were walked over, up to its closed gate, with the walk's buffer.
    pub fn standing(from: u64, end: u64, gate: u64, buffer: Vec<u8>) -> Journal
        requires low { from ≤ gate }
        requires high { gate ≤ end }
        requires room { BODY_ROOM ≤ vec_capacity buffer }
        ensures { result ≡ record { from = from; end = end; gate = gate; cursor = from; is_broken = false } }
    {
        Journal {
            from,
            end,
            gate,
            cursor: from,
            is_broken: false,
            buffer,
        }
    }

    /// How many bytes there are from the closed gate to the region's end.
    pub fn room(&self) -> u64
        ensures { result ≡ self.now.end - self.now.gate }
    {
        self.end - self.gate
    }

    /// Stands in another region from now on, with its closed gate and the gate of the payload that comes next. It takes
    /// no memory, and no call of a disk.
    pub fn move_to(&mut self, region: Region, gate: u64, cursor: u64)
        requires end { region.from + region.size < 2 ^ 64 }
        requires gate_low { region.from ≤ gate }
        requires gate_high { gate ≤ region.from + region.size }
        requires cursor_low { region.from ≤ cursor }
        requires cursor_high { cursor ≤ region.from + region.size }
        ensures { self.new ≡ record { from = region.from; end = region.from + region.size; gate = gate; cursor = cursor; is_broken = false } }
    {
        self.from = region.from;
        self.end = region.from + region.size;
        self.gate = gate;
        self.cursor = cursor;
        self.is_broken = false;
    }

    /// Goes on with the payload whose gate stands at this place, from now on.
    pub fn pass(&mut self, cursor: u64)
        requires low { self.old.from ≤ cursor }
        requires high { cursor ≤ self.old.end }
        ensures { self.new ≡ record self.old { cursor = cursor } }
    {
        self.cursor = cursor;
    }
}

ghost use Rattle.std.specs.Prelude.{◌≡◌, ◌≢◌, ◌+◌, ◌-◌, ◌<◌, ◌≤◌, ◌⊎◌, ◌↔◌, ◌^◌, ◌/◌, if◌then◌else◌, ℕ, suc, List, [], ◌∷◌, ◌++◌, Bool, true, false, not, None, Some, length, vec_capacity, is_ok, Ok, OnOk, OnErr, IfOk, IfErr, IfSome, IsErrOf, Err};
ghost use Rattle.std.specs.Int.{w64, to_be_bytes, from_be_bytes};
ghost use Rattle.rm_formats.specs.Device.{sized, journal_record};
ghost use Rattle.rm_disk.specs.Disk.{IfTold, EachImage, IsLaterView, IsQuiet, IsDurable, MayWrite};
ghost use Rattle.rm_formats.specs.declared.TheConstants.{GENERATION_RECORD, MOST_PAYLOAD, RECORD_FRAME};
ghost use Rattle.rm_journal.specs.declared.two_areas.areas.TheConstants.{RECORD_ROOM};
ghost use Rattle.rm_journal.specs.declared.journal.TheConstants.{CALLS_OF_APPEND};
ghost use Rattle.rm_journal.specs.Fault.{IsAppendError, IsLookError, IsRefusal, IsReadError};
ghost use Rattle.rm_journal.specs.Journal.{broken_after, region_of, HasRead, GivesNext};
ghost use Rattle.rm_journal.specs.Walk.{HasWalked, GivesWalked};
ghost use Rattle.rm_journal.specs.two_areas.Reading.{IsReading};
ghost use Rattle.rm_journal.specs.two_areas.Areas.{AreasAt, AreasInvariant, AreasHold, IsBuilt, HasLayout, LeavesPayloads, LeavesEitherLayout, HoldsPayloads, other_from, other_end, head_of, area_from, ClosesGate, IsGeneration, HasBadHead, IsDamagedLayout};

use crate::{Journal, JournalError, Region, Walk, record_at, write_through};
use rm_disk::Disk;
use rm_formats::{GENERATION_RECORD, MOST_PAYLOAD, RECORD_FRAME, RECORD_HEAD};
use std::alloc::Global;
use std::marker::Model;

// The room for what is written at once: a record, and the gate behind it.
const RECORD_ROOM: usize = MOST_PAYLOAD + RECORD_FRAME as usize;

/// Two areas of a disk, opened: the current one with its journal, and what is being built in the other one.
///
/// Contracts see the size of each area, which one is current, its generation (0 where no area is live: the second then stands for it), the
/// journal of the current one, whether the other one is live, the closed gate of what is built there, and whether a fault left it open what
/// the disk holds: then every call answers `NeedsReopen`.
#[derive(Drop)]
pub struct Areas {
    half: u64,
    second: bool,
    generation: u64,
    journal: Journal,
    other_live: bool,
    build: Option<u64>,
    is_broken: bool,
    buffer: Vec<u8>,
}

impl Model for Areas {
    ghost use Rattle.std.specs.Prelude.{◌+◌, ◌^◌, ◌<◌, ◌≤◌, vec_capacity};
    ghost use Rattle.rm_journal.specs.two_areas.Areas.{AreasAt};
    ghost use Rattle.rm_journal.specs.declared.two_areas.areas.TheConstants.{RECORD_ROOM};

    ghost Value = { AreasAt };

    ghost view = { λ a. record { half = a.half; second = a.second; generation = a.generation; journal = a.journal; other_live = a.other_live; build = a.build; is_broken = a.is_broken } };

    ghost invariant = { λ a. (a.half + a.half < 2 ^ 64) × (RECORD_ROOM ≤ vec_capacity a.buffer) };
}

// Puts a payload with its length, and a closed gate, into a buffer that has room for them.
fn fill_body(buffer: &mut Vec<u8>, payload: &[u8])
    requires room { RECORD_ROOM ≤ vec_capacity buffer.old }
    requires size { length payload.now ≤ MOST_PAYLOAD }
    ensures items { buffer.new.items ≡ sized payload.now ++ 0 ∷ [] }
    ensures room { RECORD_ROOM ≤ vec_capacity buffer.new }
{
    let length = (payload.len() as u32).to_be_bytes();
    buffer.clear();
    buffer.extend_from_slice(&length).unwrap();
    buffer.extend_from_slice(payload).unwrap();
    buffer.push(0).unwrap();
}

// Puts an open gate, a payload with its length, and a closed gate there.
fn fill_record(buffer: &mut Vec<u8>, payload: &[u8])
    requires room { RECORD_ROOM ≤ vec_capacity buffer.old }
    requires size { length payload.now ≤ MOST_PAYLOAD }
    ensures items { buffer.new.items ≡ journal_record payload.now ++ 0 ∷ [] }
    ensures room { RECORD_ROOM ≤ vec_capacity buffer.new }
{
    let length = (payload.len() as u32).to_be_bytes();
    buffer.clear();
    buffer.push(1).unwrap();
    buffer.extend_from_slice(&length).unwrap();
    buffer.extend_from_slice(payload).unwrap();
    buffer.push(0).unwrap();
}

// Closes an open gate, and makes it last. One that isn't open is left alone, since a crash may open a gate that is written.
fn shut<D: Disk>(disk: &mut D, gate: u64, live: bool) -> Result<(), JournalError>
    requires { gate + 1 ≤ (D.view disk.old).size }
    ensures shuts { OnOk result (ClosesGate live gate (D.view disk.old) (D.view disk.new)) }
    ensures in_range { MayWrite gate 1 (D.view disk.old) (D.view disk.new) }
    ensures err { OnErr result (live ≡ true) }
    ensures kept { D.keeps (is_ok result) disk.old disk.new }
    ensures counted { D.counted disk.new ≤ D.counted disk.old + (if live then 2 else 0) }
    ensures errors { IfErr result (λ error. (error ≡ JournalError.DiskFault) ⊎ (error ≡ JournalError.Memory)) }
    ensures fault { IsErrOf result JournalError.DiskFault → D.faulted disk.old disk.new }
{
    if live {
        write_through(disk, gate, &[0])?;
    }
    Ok(())
}

impl Areas {
    /// How many bytes each area has: half of the disk's, rounded down.
    pub fn half(&self) -> u64
        ensures { result ≡ self.now.half }
    {
        self.half
    }

    /// The generation of the current area: 0 where none is live, else 1 to 2^64 - 1.
    pub fn generation(&self) -> u64
        ensures { result ≡ self.now.generation }
    {
        self.generation
    }

    /// How many bytes there are from the current area's closed gate to its end; 0 where no area is live. A payload takes 6 more than it has.
    pub fn room(&self) -> u64
        ensures none { self.now.generation ≡ 0 → result ≡ 0 }
        ensures live { self.now.generation ≢ 0 → result ≡ self.now.journal.end - self.now.journal.gate }
    {
        if self.generation == 0 {
            return 0;
        }
        self.journal.room()
    }

    /// Where the other area begins.
    fn other_from(&self) -> u64
        ensures { result ≡ other_from self.now }
    {
        if self.second { 0 } else { self.half }
    }

    /// Adds a payload of 1 to 1,024 bytes to the current area, which must be live, while nothing is built. At every moment a crash leaves the
    /// payloads from before, or these and the new one; after Ok each image has it. `Full` comes exactly where the area's room is below its
    /// bytes and 6, `NeedsReopen` exactly after a fault, `DiskFault` where the disk failed, `Memory` where none was found. A `Full` or
    /// `NeedsReopen` changes nothing.
    pub fn append<D: Disk>(&mut self, disk: &mut D, payload: &[u8]) -> Result<(), JournalError>
        requires stands { AreasInvariant (D.view disk.old) self.old }
        requires low { 1 ≤ length payload.now }
        requires high { length payload.now ≤ MOST_PAYLOAD }
        requires live { 1 ≤ self.old.generation }
        requires no_build { self.old.build ≡ None }
        ensures stands { AreasInvariant (D.view disk.new) self.new }
        ensures broken { self.new.is_broken ≡ broken_after result self.old.is_broken }
        ensures generation { self.new.generation ≡ self.old.generation }
        ensures no_build { self.new.build ≡ None }
        ensures any_moment { self.old.is_broken ≡ false → IfTold (D.view disk.old) (λ bytes. (payloads : List (List ℕ)) → AreasHold self.old payloads bytes → LeavesEitherLayout (D.view disk.old) (D.view disk.new) self.old.half payloads (payloads ++ payload.now ∷ [])) }
        ensures added { OnOk result (IfTold (D.view disk.old) (λ bytes. (payloads : List (List ℕ)) → AreasHold self.old payloads bytes → HoldsPayloads (D.view disk.new) self.old.half (payloads ++ payload.now ∷ []))) }

        // It writes no more than the closed gate, what it puts behind that, and the next gate.
        ensures place_alone { MayWrite self.old.journal.gate (length payload.now + RECORD_FRAME) (D.view disk.old) (D.view disk.new) }

        ensures kept { D.keeps (is_ok result) disk.old disk.new }
        ensures counted { D.counted disk.new ≤ D.counted disk.old + CALLS_OF_APPEND }
        ensures goes_on { IsLaterView (D.view disk.old) (D.view disk.new) }
        ensures later { (D.view disk.old).moment ≤ (D.view disk.new).moment }
        ensures refused { IfErr result (λ error. IsRefusal error → (self.new ≡ self.old) × (disk.new ≡ disk.old)) }
        ensures errors { IfErr result IsAppendError }
        ensures reopen { (result ≡ Err JournalError.NeedsReopen) ↔ (self.old.is_broken ≡ true) }
        ensures only_full { (needed room : ℕ) → result ≡ Err (JournalError.Full needed room) → (needed ≡ length payload.now + RECORD_FRAME) × (room ≡ self.old.journal.end - self.old.journal.gate) × (room < needed) }
        ensures full { self.old.is_broken ≡ false → (result ≡ Err (JournalError.Full (length payload.now + RECORD_FRAME) (self.old.journal.end - self.old.journal.gate))) ↔ (self.old.journal.end - self.old.journal.gate < length payload.now + RECORD_FRAME) }
        ensures fault { IsErrOf result JournalError.DiskFault → D.faulted disk.old disk.new }
    {
        if self.is_broken {
            return Err(JournalError::NeedsReopen);
        }
        let outcome = self.journal.append(disk, payload);
        self.is_broken = breaks(&outcome);
        outcome
    }

    /// Begins to build the next generation in the other area, which has room for more than a generation's record, in the place of what was built there before: its first gate is
    /// closed for good, and the generation written behind it. What the disk holds stays the same at every moment. It is never `Full`;
    /// `NeedsReopen` comes exactly after a fault, and changes nothing.
    pub fn begin<D: Disk>(&mut self, disk: &mut D) -> Result<(), JournalError>
        requires stands { AreasInvariant (D.view disk.old) self.old }
        requires half { GENERATION_RECORD < self.old.half }
        requires generation { self.old.generation < 2 ^ 64 - 1 }
        ensures stands { AreasInvariant (D.view disk.new) self.new }
        ensures broken { self.new.is_broken ≡ broken_after result self.old.is_broken }
        ensures generation { self.new.generation ≡ self.old.generation }
        ensures half { self.new.half ≡ self.old.half }
        ensures builds { OnOk result (IsBuilt (D.view disk.new) self.new []) }
        ensures has { OnOk result ((payloads : List (List ℕ)) (bytes : List ℕ) → AreasHold self.old payloads bytes → AreasHold self.new payloads bytes) }
        ensures any_moment { self.old.is_broken ≡ false → IfTold (D.view disk.old) (λ bytes. (payloads : List (List ℕ)) → AreasHold self.old payloads bytes → LeavesPayloads (D.view disk.old) (D.view disk.new) self.old.half payloads) }
        ensures told { OnOk result (IfTold (D.view disk.old) (λ bytes. (payloads : List (List ℕ)) → AreasHold self.old payloads bytes → IfTold (D.view disk.new) (AreasHold self.new payloads))) }

        // It writes no more than the other area's first gate, a generation behind that, and the next gate.
        ensures place_alone { MayWrite (other_from self.old) (GENERATION_RECORD + 1) (D.view disk.old) (D.view disk.new) }

        ensures kept { D.keeps (is_ok result) disk.old disk.new }
        ensures counted { D.counted disk.new ≤ D.counted disk.old + (if self.old.other_live then 3 else 1) }
        ensures goes_on { IsLaterView (D.view disk.old) (D.view disk.new) }
        ensures later { (D.view disk.old).moment ≤ (D.view disk.new).moment }
        ensures refused { IfErr result (λ error. IsRefusal error → (self.new ≡ self.old) × (disk.new ≡ disk.old)) }
        ensures errors { IfErr result IsAppendError }
        ensures never_full { (needed room : ℕ) → result ≢ Err (JournalError.Full needed room) }
        ensures reopen { (result ≡ Err JournalError.NeedsReopen) ↔ (self.old.is_broken ≡ true) }
        ensures fault { IsErrOf result JournalError.DiskFault → D.faulted disk.old disk.new }
    {
        if self.is_broken {
            return Err(JournalError::NeedsReopen);
        }
        self.is_broken = true;
        self.build = None;
        let from = self.other_from();
        shut(disk, from, self.other_live)?;
        self.other_live = false;
        let generation = (self.generation + 1).to_be_bytes();
        fill_body(&mut self.buffer, &generation);
        disk.write(from + 1, &self.buffer)?;
        self.build = Some(from + GENERATION_RECORD);
        self.is_broken = false;
        Ok(())
    }

    /// Adds a payload of 1 to 1,024 bytes to what is built, by one write and no sync. What the disk holds stays the same at every moment. `Full`
    /// comes exactly where the other area's room behind what is built is below its bytes and 6, and `NeedsReopen` exactly after a fault;
    /// both change nothing.
    pub fn add<D: Disk>(&mut self, disk: &mut D, payload: &[u8]) -> Result<(), JournalError>
        requires stands { AreasInvariant (D.view disk.old) self.old }
        requires begun { self.old.build ≢ None }
        requires low { 1 ≤ length payload.now }
        requires high { length payload.now ≤ MOST_PAYLOAD }
        ensures stands { AreasInvariant (D.view disk.new) self.new }
        ensures broken { self.new.is_broken ≡ broken_after result self.old.is_broken }
        ensures generation { self.new.generation ≡ self.old.generation }
        ensures half { self.new.half ≡ self.old.half }
        ensures builds { OnOk result ((added : List (List ℕ)) → IsBuilt (D.view disk.old) self.old added → IsBuilt (D.view disk.new) self.new (added ++ payload.now ∷ [])) }
        ensures any_moment { self.old.is_broken ≡ false → IfTold (D.view disk.old) (λ bytes. (payloads : List (List ℕ)) → AreasHold self.old payloads bytes → LeavesPayloads (D.view disk.old) (D.view disk.new) self.old.half payloads) }
        ensures told { OnOk result (IfTold (D.view disk.old) (λ bytes. (payloads : List (List ℕ)) → AreasHold self.old payloads bytes → IfTold (D.view disk.new) (AreasHold self.new payloads))) }

        // It writes no more than the closed gate of what is built, what it puts behind that, and the next gate.
        ensures place_alone { (gate : ℕ) → self.old.build ≡ Some gate → MayWrite gate (length payload.now + RECORD_FRAME) (D.view disk.old) (D.view disk.new) }

        ensures kept { D.keeps (is_ok result) disk.old disk.new }
        ensures counted { D.counted disk.new ≤ D.counted disk.old + 1 }
        ensures goes_on { IsLaterView (D.view disk.old) (D.view disk.new) }
        ensures later { (D.view disk.old).moment ≤ (D.view disk.new).moment }
        ensures refused { IfErr result (λ error. IsRefusal error → (self.new ≡ self.old) × (disk.new ≡ disk.old)) }
        ensures errors { IfErr result IsAppendError }
        ensures reopen { (result ≡ Err JournalError.NeedsReopen) ↔ (self.old.is_broken ≡ true) }
        ensures only_full { (needed room : ℕ) → result ≡ Err (JournalError.Full needed room) → (gate : ℕ) → self.old.build ≡ Some gate → (needed ≡ length payload.now + RECORD_FRAME) × (room ≡ other_end self.old - gate) × (room < needed) }
        ensures full { self.old.is_broken ≡ false → (gate : ℕ) → self.old.build ≡ Some gate → (result ≡ Err (JournalError.Full (length payload.now + RECORD_FRAME) (other_end self.old - gate))) ↔ (other_end self.old - gate < length payload.now + RECORD_FRAME) }
        ensures fault { IsErrOf result JournalError.DiskFault → D.faulted disk.old disk.new }
    {
        if self.is_broken {
            return Err(JournalError::NeedsReopen);
        }
        let Some(gate) = self.build else {
            unreachable!()
        };
        let room = self.other_from() + self.half - gate;
        let needed = payload.len() as u64 + RECORD_FRAME;
        if needed > room {
            return Err(JournalError::Full { needed, room });
        }
        self.is_broken = true;
        fill_record(&mut self.buffer, payload);
        disk.write(gate, &self.buffer)?;
        self.build = Some(gate + (needed - 1));
        self.is_broken = false;
        Ok(())
    }

    /// What was built takes the place of what stood: it is synced, and then its first gate is opened and synced. At every moment a crash leaves the
    /// payloads from before or the added ones, and after Ok each image has the added ones. It is never `Full`; `NeedsReopen` comes exactly
    /// after a fault, and changes nothing.
    pub fn finish<D: Disk>(&mut self, disk: &mut D) -> Result<(), JournalError>
        requires stands { AreasInvariant (D.view disk.old) self.old }
        requires begun { self.old.build ≢ None }
        ensures stands { AreasInvariant (D.view disk.new) self.new }
        ensures broken { self.new.is_broken ≡ broken_after result self.old.is_broken }
        ensures half { self.new.half ≡ self.old.half }
        ensures generation { OnOk result (self.new.generation ≡ self.old.generation + 1) }
        ensures moved { OnOk result ((gate : ℕ) → self.old.build ≡ Some gate → (self.new.journal.gate ≡ gate) × (self.new.journal.end ≡ other_end self.old)) }
        ensures no_build { OnOk result (self.new.build ≡ None) }
        ensures any_moment { self.old.is_broken ≡ false → IfTold (D.view disk.old) (λ bytes. (payloads added : List (List ℕ)) → AreasHold self.old payloads bytes → IsBuilt (D.view disk.old) self.old added → LeavesEitherLayout (D.view disk.old) (D.view disk.new) self.old.half payloads added) }
        ensures added { OnOk result ((added : List (List ℕ)) → IsBuilt (D.view disk.old) self.old added → IfTold (D.view disk.new) (AreasHold self.new added) × EachImage (D.view disk.new) (AreasHold self.new added)) }

        // It writes no more than the other area's first gate.
        ensures place_alone { MayWrite (other_from self.old) 1 (D.view disk.old) (D.view disk.new) }

        ensures kept { D.keeps (is_ok result) disk.old disk.new }
        ensures counted { D.counted disk.new ≤ D.counted disk.old + 3 }
        ensures goes_on { IsLaterView (D.view disk.old) (D.view disk.new) }
        ensures later { (D.view disk.old).moment ≤ (D.view disk.new).moment }
        ensures refused { IfErr result (λ error. IsRefusal error → (self.new ≡ self.old) × (disk.new ≡ disk.old)) }
        ensures errors { IfErr result IsAppendError }
        ensures never_full { (needed room : ℕ) → result ≢ Err (JournalError.Full needed room) }
        ensures reopen { (result ≡ Err JournalError.NeedsReopen) ↔ (self.old.is_broken ≡ true) }
        ensures fault { IsErrOf result JournalError.DiskFault → D.faulted disk.old disk.new }
    {
        if self.is_broken {
            return Err(JournalError::NeedsReopen);
        }
        let Some(gate) = self.build else {
            unreachable!()
        };
        self.is_broken = true;
        disk.sync()?;
        let from = self.other_from();
        write_through(disk, from, &[1])?;
        let region = Region {
            from,
            size: self.half,
        };
        self.journal.move_to(region, gate, from + GENERATION_RECORD);
        self.other_live = self.generation > 0;
        self.second = !self.second;
        self.generation += 1;
        self.build = None;
        self.is_broken = false;
        Ok(())
    }
}

// Whether an append with this outcome leaves it open what the disk holds.
fn breaks(outcome: &Result<(), JournalError>) -> bool
    ensures { result ≡ broken_after outcome.now false }
{
    matches!(outcome, Err(JournalError::DiskFault | JournalError::Memory))
}

// The number that stands in 8 bytes.
fn generation_of(bytes: &[u8]) -> u64
    requires { length bytes.now ≡ 8 }
    ensures value { result ≡ from_be_bytes w64 bytes.now }
    ensures code { to_be_bytes w64 result ≡ bytes.now }
{
    let array = [
        bytes[0], bytes[1], bytes[2], bytes[3], bytes[4], bytes[5], bytes[6], bytes[7],
    ];
    u64::from_be_bytes(array)
}

// The generation of an area: 0 where it isn't live.
fn generation_at<D: Disk>(disk: &mut D, from: u64, end: u64) -> Result<u64, JournalError>
    requires before { from ≤ end }
    requires inside { end ≤ (D.view disk.old).size }
    ensures found { IfOk result (λ g. IfTold (D.view disk.old) (λ bytes. IsGeneration (region_of from end bytes) g)) }
    ensures range { IfOk result (λ g. g < 2 ^ 64) }
    ensures live { IfOk result (λ g. g ≢ 0 → from + GENERATION_RECORD < end) }
    ensures damaged { (offset : ℕ) → result ≡ Err (JournalError.Damaged offset) → (offset ≡ from) × IfTold (D.view disk.old) (λ bytes. HasBadHead (region_of from end bytes)) }
    ensures quiet { IsQuiet (D.view disk.old) (D.view disk.new) }
    ensures kept { D.keeps (is_ok result) disk.old disk.new }
    ensures fault { IsErrOf result JournalError.DiskFault → D.faulted disk.old disk.new }
    ensures errors { IfErr result IsLookError }
{
    if from == end {
        return Ok(0);
    }
    let Some(length) = record_at(disk, from, end)? else {
        return Ok(0);
    };
    if length != 8 {
        return Err(JournalError::Damaged { offset: from });
    }
    let mut bytes = [0u8; 8];
    disk.read(from + RECORD_HEAD, &mut bytes)?;
    let generation = generation_of(&bytes);
    if generation == 0 {
        return Err(JournalError::Damaged { offset: from });
    }
    Ok(generation)
}

// Both areas are live, with one generation.
fn is_twice(one: u64, two: u64) -> bool
    ensures twice { result ≡ true → (one ≡ two) × (one ≢ 0) }
    ensures apart { result ≡ false → one ≡ two → one ≡ 0 }
{
    one == two && one != 0
}

// Where an area begins.
fn start_of(half: u64, second: bool) -> u64
    ensures { result ≡ area_from half second }
{
    if second { half } else { 0 }
}

// The one of two numbers.
fn picked(second: bool, two: u64, one: u64) -> u64
    ensures { result ≡ (if second then two else one) }
{
    if second { two } else { one }
}

// How many bytes the generation's record has in an area.
fn head_size(generation: u64) -> u64
    ensures none { generation ≡ 0 → result ≡ 0 }
    ensures some { generation ≢ 0 → result ≡ GENERATION_RECORD }
{
    if generation == 0 {
        0
    } else {
        GENERATION_RECORD
    }
}

impl Areas {
    /// Opens the areas of a disk, and syncs once. `Damaged` tells the first place at which they are, as `IsDamagedLayout` says, `DiskFault` that the
    /// disk failed. No byte is changed. `next` then gives the payloads.
    pub fn open<D: Disk>(alloc: Global, disk: &mut D) -> Result<Areas, JournalError>
        ensures stands { IfOk result (λ a. AreasInvariant (D.view disk.new) a) }
        ensures fresh { IfOk result (λ a. (a.build ≡ None) × (a.is_broken ≡ false)) }
        ensures durable { OnOk result (IsDurable (D.view disk.new)) }
        ensures holds { IfOk result (λ a. IfTold (D.view disk.new) (λ bytes. (payloads : List (List ℕ)) × AreasHold a payloads bytes × HasRead a.journal bytes (head_of a.generation) payloads)) }
        ensures damaged { (offset : ℕ) → result ≡ Err (JournalError.Damaged offset) → IfTold (D.view disk.old) (λ bytes. IsDamagedLayout ((D.view disk.old).size / 2) bytes offset) }
        ensures kept { D.keeps (is_ok result) disk.old disk.new }
        ensures quiet { IsQuiet (D.view disk.old) (D.view disk.new) }
        ensures fault { IsErrOf result JournalError.DiskFault → D.faulted disk.old disk.new }
        ensures errors { IfErr result IsReadError }
    {
        let Ok(buffer) = Vec::with_capacity(alloc, RECORD_ROOM) else {
            return Err(JournalError::Memory);
        };
        let half = disk.size() / 2;
        let one = generation_at(disk, 0, half)?;
        let two = generation_at(disk, half, half + half)?;
        if is_twice(one, two) {
            return Err(JournalError::Damaged { offset: half });
        }
        let second = one <= two;
        let from = start_of(half, second);
        let generation = picked(second, two, one);
        let mut journal = Journal::open(alloc, disk, Region { from, size: half })?;
        journal.pass(from + head_size(generation));
        let other_live = picked(second, one, two) != 0;
        Ok(Areas {
            half,
            second,
            generation,
            journal,
            other_live,
            build: None,
            is_broken: false,
            buffer,
        })
    }

    /// Puts the next payload into `out`, and answers its gate's offset.
    pub fn next<D: Disk>(
        &mut self,
        disk: &mut D,
        out: &mut Vec<u8>,
    ) -> Result<Option<u64>, JournalError>
        requires { AreasInvariant (D.view disk.old) self.old }
        ensures stands { AreasInvariant (D.view disk.new) self.new }
        ensures next { IfOk result (λ gate. IfTold (D.view disk.old) (λ bytes. (given left : List (List ℕ)) → HasRead self.old.journal bytes given left → GivesNext self.old.journal self.new.journal out.old.items out.new.items bytes given left gate)) }
        ensures others { self.new ≡ record self.old { journal = self.new.journal } }
        ensures on { IfOk result (λ gate. IfSome gate (λ _. (self.old.journal.cursor < self.new.journal.cursor) × (self.new.journal.cursor ≤ self.new.journal.end))) }
        ensures err { OnErr result ((self.new ≡ self.old) × (out.new.items ≡ out.old.items)) }
        ensures kept { D.keeps (is_ok result) disk.old disk.new }
        ensures quiet { IsQuiet (D.view disk.old) (D.view disk.new) }
        ensures fault { IsErrOf result JournalError.DiskFault → D.faulted disk.old disk.new }
        ensures errors { IfErr result IsReadError }
        ensures damaged { (offset : ℕ) → result ≡ Err (JournalError.Damaged offset) → (D.view disk.old).told ≡ None }
    {
        self.journal.next(disk, out)
    }
}

/// The areas of a disk, while what they hold is read for the first time.
#[derive(Drop)]
pub struct Reading {
    half: u64,
    second: bool,
    generation: u64,
    other_live: bool,
    walk: Walk,
    buffer: Vec<u8>,
}

impl Model for Reading {
    ghost use Rattle.std.specs.Prelude.{◌+◌, ◌^◌, ◌<◌, ◌≤◌, vec_capacity};
    ghost use Rattle.rm_journal.specs.two_areas.Reading.{ReadingAt};
    ghost use Rattle.rm_journal.specs.declared.two_areas.areas.TheConstants.{RECORD_ROOM};

    ghost Value = { ReadingAt };

    ghost view = { λ r. record { half = r.half; second = r.second; generation = r.generation; other_live = r.other_live; walk = r.walk } };

    ghost invariant = { λ r. (r.half + r.half < 2 ^ 64) × (RECORD_ROOM ≤ vec_capacity r.buffer) };
}

impl Reading {
    /// Finds the current area of a disk, syncs, and starts behind its generation.
    pub fn start<D: Disk>(alloc: Global, disk: &mut D) -> Result<Reading, JournalError>
        ensures reading { IfOk result (IsReading (D.view disk.new)) }
        ensures first { IfOk result (λ r. IfTold (D.view disk.new) (λ bytes. HasWalked r.walk bytes (head_of r.generation))) }
        ensures damaged { (offset : ℕ) → result ≡ Err (JournalError.Damaged offset) → IfTold (D.view disk.old) (λ bytes. IsDamagedLayout ((D.view disk.old).size / 2) bytes offset) }
        ensures kept { D.keeps (is_ok result) disk.old disk.new }
        ensures quiet { IsQuiet (D.view disk.old) (D.view disk.new) }
        ensures fault { IsErrOf result JournalError.DiskFault → D.faulted disk.old disk.new }
        ensures errors { IfErr result IsReadError }
    {
        let Ok(buffer) = Vec::with_capacity(alloc, RECORD_ROOM) else {
            return Err(JournalError::Memory);
        };
        let half = disk.size() / 2;
        let one = generation_at(disk, 0, half)?;
        let two = generation_at(disk, half, half + half)?;
        if is_twice(one, two) {
            return Err(JournalError::Damaged { offset: half });
        }
        let second = one <= two;
        let from = start_of(half, second);
        let generation = picked(second, two, one);
        let region = Region { from, size: half };
        let walk = Walk::start(alloc, disk, region, from + head_size(generation))?;
        let other_live = picked(second, one, two) != 0;
        Ok(Reading {
            half,
            second,
            generation,
            other_live,
            walk,
            buffer,
        })
    }

    /// Puts the next payload into `out`, and answers its gate's offset.
    pub fn next<D: Disk>(
        &mut self,
        disk: &mut D,
        out: &mut Vec<u8>,
    ) -> Result<Option<u64>, JournalError>
        requires { IsReading (D.view disk.old) self.old }
        ensures reading { IsReading (D.view disk.new) self.new }
        ensures next { IfOk result (λ gate. IfTold (D.view disk.old) (λ bytes. (given : List (List ℕ)) → HasWalked self.old.walk bytes given → GivesWalked self.old.walk self.new.walk out.new.items bytes given gate)) }
        ensures others { self.new ≡ record self.old { walk = self.new.walk } }
        ensures done { result ≡ Ok None → self.new.walk.is_done ≡ true }
        ensures on { IfOk result (λ gate. IfSome gate (λ _. (self.old.walk.gate < self.new.walk.gate) × (self.new.walk.gate ≤ self.new.walk.end))) }
        ensures damaged { (offset : ℕ) → result ≡ Err (JournalError.Damaged offset) → IfTold (D.view disk.old) (λ bytes. IsDamagedLayout ((D.view disk.old).size / 2) bytes offset) }
        ensures kept { D.keeps (is_ok result) disk.old disk.new }
        ensures quiet { IsQuiet (D.view disk.old) (D.view disk.new) }
        ensures fault { IsErrOf result JournalError.DiskFault → D.faulted disk.old disk.new }
        ensures errors { IfErr result IsReadError }
    {
        self.walk.next(disk, out)
    }

    /// The areas that were read whole.
    pub fn areas<D: Disk>(self, disk: &D) -> Areas
        requires reading { IsReading (D.view disk.now) self }
        requires done { self.walk.is_done ≡ true }
        ensures stands { AreasInvariant (D.view disk.now) result }
        ensures fresh { (result.build ≡ None) × (result.is_broken ≡ false) }
        ensures holds { IfTold (D.view disk.now) (λ bytes. (payloads : List (List ℕ)) → HasWalked self.walk bytes (head_of self.generation ++ payloads) → AreasHold result payloads bytes) }
    {
        let Reading {
            half,
            second,
            generation,
            other_live,
            walk,
            buffer,
        } = self;
        let cursor = start_of(half, second) + head_size(generation);
        let mut journal = walk.journal(disk);
        journal.pass(cursor);
        Areas {
            half,
            second,
            generation,
            journal,
            other_live,
            build: None,
            is_broken: false,
            buffer,
        }
    }
}

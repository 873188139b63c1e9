ghost use Rattle.std.specs.Prelude.{◌≡◌, ◌<◌, ◌≤◌, ◌+◌, ◌*◌, ◌%◌, ◌^◌, ◌-◌, ◌↔◌, true, ℕ, List, [], ◌∷◌, ◌++◌, Some, length, drop, take, slice_index, vec_capacity, option_map, is_ok, IfOk, OnOk, IsErrOf, IsTrue, MatchBool, Contains, replicate, min, if◌then◌else◌};
ghost use Rattle.std.specs.List.{list_all};
ghost use Rattle.rm_disk.specs.Disk.{DiskView, put, IfTold, IsDurable, IsQuiet, MayWrite, Falls, IsAsBefore};
ghost use Rattle.rm_types.specs.Counts.{Rose};
ghost use Rattle.rm_disk.specs.Memory.{MemState, call_fits, is_within, is_written, renewed, fallen, IsReplayed, view_of_memory};

use crate::calls::Call;
use crate::device::{Disk, DiskError};
use rm_types::{Items, NoMemory};
use std::alloc::Global;

/// A disk in memory whose reads, writes and syncs fail by a list of call numbers.
///
/// It keeps a record of the calls that changed it, from which all that a crash at a past moment may have
/// left can be told. Its memory grows with the bytes that are written, and each call takes time in
/// proportion to the bytes that it reads, writes, or makes last.
#[derive(Drop)]
pub struct MemDisk {
    alloc: Global,
    first: Vec<u8>,
    bytes: Vec<u8>,
    synced: Vec<u8>,
    calls: Vec<Call>,
    settled: usize,
    failing: Items<u64>,
    count: u64,
    faults: u64,
    ghost replays: { IsReplayed first.items bytes.items synced.items calls.items settled },
    ghost room: { settled < length calls.items → length calls.items < vec_capacity calls },
}

impl MemDisk {
    ghost use Rattle.rm_disk.specs.MemDisk.{IsFresh};

    /// A disk of so many bytes, all of them 0 and synced. The calls whose numbers stand in `failing` fail.
    pub fn new(alloc: Global, size: u64, failing: Items<u64>) -> Result<MemDisk, NoMemory>
        ensures { IfOk result (IsFresh (replicate size 0) failing) }
    {
        let bytes = vec![in alloc; 0; size as usize]?;
        MemDisk::of(alloc, Items::from_vec(bytes), failing)
    }

    /// A disk with these bytes, all of them synced. The calls whose numbers stand in `failing` fail.
    pub fn of(alloc: Global, bytes: Items<u8>, failing: Items<u64>) -> Result<MemDisk, NoMemory>
        ensures { IfOk result (IsFresh bytes failing) }
    {
        let bytes = bytes.into_vec();
        let first = Vec::from_slice(alloc, &bytes)?;
        let synced = Vec::from_slice(alloc, &bytes)?;
        Ok(MemDisk {
            alloc,
            first,
            bytes,
            synced,
            calls: Vec::new(alloc),
            settled: 0,
            failing,
            count: 0,
            faults: 0,
        })
    }

    // Takes the next number, and says whether the call with that number fails.
    fn fails(&mut self) -> bool
        ensures same { self.new ≡ record self.old { count = self.new.count; faults = self.new.faults } }
        ensures count { self.new.count ≡ min (self.old.count + 1) (2 ^ 64 - 1) }
        ensures failing { IsTrue result ↔ Contains self.old.failing self.new.count }
        ensures faults { self.new.faults ≡ (if result then min (self.old.faults + 1) (2 ^ 64 - 1) else self.old.faults) }
        ensures later { self.old.faults ≤ self.new.faults }
    {
        self.count = self.count.saturating_add(1);
        let fails = self.failing.as_slice().contains(&self.count);
        if fails {
            self.faults = self.faults.saturating_add(1);
        }
        fails
    }
}

impl Disk for MemDisk {
    ghost use Rattle.rm_disk.specs.MemDisk.{memory_view, TakesNumber, FallsTo};
    ghost use Rattle.rm_disk.specs.Images.{image_size, now_is_image, now_since, since_now};
    ghost use Rattle.rm_disk.specs.Faults.{rose_later};

    ghost view = { λ m. memory_view m };

    ghost keeps = { λ _ _ _. Unit {0} };

    ghost keeps_same = { λ _ _. tt };

    ghost keeps_on = { λ one two first second third _ _. tt };

    ghost counted = { λ m. length m.calls.items };

    ghost faulted = { λ d e. Rose (memory_view d).faults (memory_view e).faults };

    ghost falls_to = { λ image d e. FallsTo image d e };

    ghost faulted_later = { λ succeeds first second third _ le rose. rose_later first.faults second.faults third.faults le rose };

    ghost faulted_counts = { λ first second rose. rose };

    ghost image_size = { λ m image is. image_size m.first.items m.bytes.items m.synced.items m.calls.items m.settled m.replays image is };

    ghost as_it_reads = { λ m bytes told. now_is_image m.first.items m.bytes.items m.synced.items m.calls.items m.settled m.replays bytes told };

    ghost counts_now = { λ m from image le is. now_since m.first.items m.calls.items from image le is };

    ghost only_now = { λ m image left. since_now m.first.items m.calls.items image left };

    fn size(&self) -> u64 {
        self.first.len() as u64
    }

    /// As the trait says, and: it fails exactly where its number stands in the list.
    fn read(&mut self, at: u64, into: &mut [u8]) -> Result<(), DiskError>
        requires { at + length into.old ≤ (memory_view self.old).size }
        ensures bytes { OnOk result (IfTold (memory_view self.old) (λ told. into.new ≡ take (length into.old) (drop at told))) }
        ensures quiet { IsQuiet (memory_view self.old) (memory_view self.new) }
        ensures kept { Unit {0} }
        ensures counted { length self.new.calls.items ≤ length self.old.calls.items }
        ensures fault { IsErrOf result DiskError.DiskFault → Rose (memory_view self.old).faults (memory_view self.new).faults }
        ensures memory { IsErrOf result DiskError.Memory → ⊥ }
        ensures number { TakesNumber self.old self.new result }
    {
        if self.fails() {
            return Err(DiskError::DiskFault);
        }
        let start = at as usize;
        into.copy_from_slice(&self.bytes[start..start + into.len()]);
        Ok(())
    }

    /// As the trait says, and: it fails exactly where its number stands in the list.
    fn write(&mut self, at: u64, bytes: &[u8]) -> Result<(), DiskError>
        requires { at + length bytes.now ≤ (memory_view self.old).size }
        ensures written { OnOk result ((memory_view self.new).told ≡ option_map (put at bytes.now) (memory_view self.old).told) }
        ensures in_range { MayWrite at (length bytes.now) (memory_view self.old) (memory_view self.new) }
        ensures kept { Unit {0} }
        ensures counted { length self.new.calls.items ≤ length self.old.calls.items + 1 }
        ensures fault { IsErrOf result DiskError.DiskFault → Rose (memory_view self.old).faults (memory_view self.new).faults }
        ensures memory { IsErrOf result DiskError.Memory → IsAsBefore (memory_view self.old) (memory_view self.new) }
        ensures number { TakesNumber self.old self.new result }
    {
        if self.fails() {
            return Err(DiskError::DiskFault);
        }
        let Ok(kept) = Vec::from_slice(self.alloc, bytes) else {
            return Err(DiskError::Memory);
        };
        // A place for this call, and one for the sync or fall that settles it.
        if self.calls.reserve(2).is_err() {
            return Err(DiskError::Memory);
        }
        put_bytes(&mut self.bytes, at as usize, bytes);
        let call = Call::Write {
            at,
            bytes: Items::from_vec(kept),
        };
        keep(&mut self.calls, call);
        Ok(())
    }

    /// As the trait says, and: it fails exactly where its number stands in the list, and needs no memory.
    fn sync(&mut self) -> Result<(), DiskError>
        ensures durable { OnOk result (IsDurable (memory_view self.new)) }
        ensures quiet { IsQuiet (memory_view self.old) (memory_view self.new) }
        ensures kept { Unit {0} }
        ensures counted { length self.new.calls.items ≤ length self.old.calls.items + 1 }
        ensures fault { IsErrOf result DiskError.DiskFault → Rose (memory_view self.old).faults (memory_view self.new).faults }
        ensures memory { IsErrOf result DiskError.Memory → ⊥ }
        ensures number { TakesNumber self.old self.new result }
    {
        if self.fails() {
            return Err(DiskError::DiskFault);
        }
        if self.settled == self.calls.len() {
            return Ok(());
        }
        settle(&self.bytes, &mut self.synced, &self.calls, self.settled);
        keep(&mut self.calls, Call::Sync);
        self.settled = self.calls.len();
        Ok(())
    }

    /// Falls to image 0, in which each byte written since the last sync has its value at that sync; image 1,
    /// in which it has the new value; or image n above 1, in which the byte at place p is (167 n + p) mod 256.
    fn fall(&mut self, image: u32)
        ensures falls { Falls (memory_view self.old) (memory_view self.new) }
        ensures image { FallsTo image self.old self.new }
    {
        if self.settled == self.calls.len() {
            return;
        }
        fall_to(
            image,
            &mut self.bytes,
            &self.synced,
            &self.calls,
            self.settled,
        );
        settle(&self.bytes, &mut self.synced, &self.calls, self.settled);
        keep(&mut self.calls, Call::Fall { image });
        self.settled = self.calls.len();
    }
}

// Adds a call to a record that has room for it.
fn keep(calls: &mut Vec<Call>, call: Call)
    requires { length calls.old.items < vec_capacity calls.old }
    ensures items { calls.new.items ≡ calls.old.items ++ call ∷ [] }
    ensures room { vec_capacity calls.old ≤ vec_capacity calls.new }
{
    calls.push(call).unwrap();
}

// Writes bytes over what is there.
fn overwrite(into: &mut [u8], at: usize, bytes: &[u8])
    requires { at + length bytes.now ≤ length into.old }
    ensures { into.new ≡ put at bytes.now into.old }
{
    into[at..at + bytes.len()].copy_from_slice(bytes);
}

fn put_bytes(into: &mut Vec<u8>, at: usize, bytes: &[u8])
    requires { at + length bytes.now ≤ length into.old.items }
    ensures { into.new.items ≡ put at bytes.now into.old.items }
{
    overwrite(into.as_mut_slice(), at, bytes);
}

// Makes the synced bytes those of now wherever the calls from a place of the record on wrote.
fn settle(bytes: &Vec<u8>, synced: &mut Vec<u8>, calls: &Vec<Call>, settled: usize)
    requires size { length bytes.now.items ≡ length synced.old.items }
    requires fit { list_all (call_fits (length synced.old.items)) calls.now.items ≡ true }
    requires within { settled ≤ length calls.now.items }
    ensures { synced.new.items ≡ renewed (is_written (drop settled calls.now.items)) (slice_index bytes.now.items) synced.old.items }
{
    copy_written(bytes, synced, &calls[settled..]);
}

// Leaves an image, where the calls from a place of the record on are not synced.
fn fall_to(image: u32, bytes: &mut Vec<u8>, synced: &Vec<u8>, calls: &Vec<Call>, settled: usize)
    requires size { length bytes.old.items ≡ length synced.now.items }
    requires fit { list_all (call_fits (length synced.now.items)) calls.now.items ≡ true }
    requires within { settled ≤ length calls.now.items }
    ensures { bytes.new.items ≡ fallen image (record { now = bytes.old.items; synced = synced.now.items; unsynced = drop settled calls.now.items }) }
{
    let unsynced = &calls[settled..];
    if image == 0 {
        copy_written(synced, bytes, unsynced);
    } else if image > 1 {
        scribble_written(image, bytes, unsynced);
    }
}

// Copies a range.
fn copy_range(from: &[u8], into: &mut Vec<u8>, first: usize, end: usize)
    requires size { length from.now ≡ length into.old.items }
    requires order { first ≤ end }
    requires inside { end ≤ length into.old.items }
    ensures { into.new.items ≡ renewed (is_within first end) (slice_index from.now) into.old.items }
{
    put_bytes(into, first, &from[first..end]);
}

// Copies what these calls wrote.
fn copy_written(from: &[u8], into: &mut Vec<u8>, calls: &[Call])
    requires size { length from.now ≡ length into.old.items }
    requires fit { list_all (call_fits (length into.old.items)) calls.now ≡ true }
    ensures { into.new.items ≡ renewed (is_written calls.now) (slice_index from.now) into.old.items }
{
    'calls: for call in calls {
        if let Call::Write { at, bytes } = call {
            let first = *at as usize;
            copy_range(from, into, first, first + bytes.len());
        }
    }
}

// Gives each byte of a range the value that an image above 1 has there.
fn scribble_range(image: u32, into: &mut Vec<u8>, first: usize, end: usize)
    requires order { first ≤ end }
    requires inside { end ≤ length into.old.items }
    ensures { into.new.items ≡ renewed (is_within first end) (λ place. (167 * image + place) % 256) into.old.items }
{
    'places: for place in first..end {
        into[place] = ((167 * u128::from(image) + place as u128) % 256) as u8;
    }
}

// Gives what these calls wrote the values of an image above 1.
fn scribble_written(image: u32, into: &mut Vec<u8>, calls: &[Call])
    requires { list_all (call_fits (length into.old.items)) calls.now ≡ true }
    ensures { into.new.items ≡ renewed (is_written calls.now) (λ place. (167 * image + place) % 256) into.old.items }
{
    'calls: for call in calls {
        if let Call::Write { at, bytes } = call {
            let first = *at as usize;
            scribble_range(image, into, first, first + bytes.len());
        }
    }
}

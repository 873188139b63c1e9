//! What no clause says: what bytes an append writes, and what a crash or a fault at each of its calls leaves.
ghost use Rattle.rm_journal.specs.Journal.{JournalInvariant};

use crate::helpers::{disk_of, filled, read, wants};
use rm_disk::{Disk, Fuse, MemDisk};
use rm_journal::{Journal, JournalError, Region};
use std::alloc::Global;
use std::process::Abort;

const PAYLOAD: [u8; 13] = [1, 0, 0, 0, 1, 0, 0, 1, 72, 128, 67, 118, 15];

/// A disk of so many bytes 9, whose calls with these numbers fail.
fn nines<R: Abort>(rt: &R, alloc: Global, size: usize, failing: &[u64]) -> MemDisk {
    filled(rt, alloc, 9, size, failing)
}

/// How many payloads a journal over the whole disk has, up to two; each must be the one payload.
fn count<D: Disk>(alloc: Global, disk: &mut D) -> Result<usize, JournalError> {
    let region = Region {
        from: 0,
        size: disk.size(),
    };
    let mut journal = Journal::open(alloc, disk, region)?;
    let mut payload = Vec::new(alloc);
    if journal.next(disk, &mut payload)? != Some(0) {
        return Ok(0);
    }
    if payload.as_slice() != PAYLOAD.as_slice() {
        return Err(JournalError::Damaged { offset: 0 });
    }
    match journal.next(disk, &mut payload)? {
        None => Ok(1),
        Some(_) => Ok(2),
    }
}

/// Opens a journal over the whole disk and appends the payload.
fn append<D: Disk>(alloc: Global, disk: &mut D) -> Result<(), JournalError> {
    let region = Region {
        from: 0,
        size: disk.size(),
    };
    let mut journal = Journal::open(alloc, disk, region)?;
    journal.append(disk, &PAYLOAD)
}

/// A disk of nines under a fuse that lets so many calls through.
fn fused<R: Abort>(rt: &R, alloc: Global, size: usize, passes: u32) -> Fuse<MemDisk> {
    let mut fuse = Fuse::new(alloc, nines(rt, alloc, size, &[]));
    fuse.arm(passes).expect(rt, "memory");
    fuse
}

/// The record of the payload behind a closed gate.
const CLOSED: [u8; 20] = [
    9, 0, 0, 0, 13, 1, 0, 0, 0, 1, 0, 0, 1, 72, 128, 67, 118, 15, 0, 9,
];

/// The record behind an open gate.
const OPEN: [u8; 20] = [
    1, 0, 0, 0, 13, 1, 0, 0, 0, 1, 0, 0, 1, 72, 128, 67, 118, 15, 0, 9,
];

/// How many calls pass, which are opening's sync and then those of the append, and what the disk reads then.
const WRITTEN: [(u32, [u8; 20]); 5] = [
    (1, [9; 20]),
    (2, CLOSED),
    (3, CLOSED),
    (4, OPEN),
    (5, OPEN),
];

/// The disk reads this after an append of which so many calls pass.
fn see_append<R: Abort>(
    rt: &R,
    alloc: Global,
    fuse: &mut Fuse<MemDisk>,
    passes: u32,
    wanted: &[u8; 20],
) {
    wants(rt, append(alloc, fuse).is_ok() == (passes == 5));
    wants(rt, fuse.passed() == passes);
    wants(rt, fuse.blown() == (passes < 5));
    wants(rt, fuse.size() == 20);
    let mut bytes = [0; 20];
    read(rt, fuse, 0, &mut bytes);
    assert!(rt; bytes == *wanted, "after {passes} calls");
}

#[test]
fn an_append_writes_a_record_and_then_its_gate(rt: HostRuntime) {
    for (passes, wanted) in WRITTEN.as_slice() {
        let mut fuse = fused(&rt, rt.alloc(), 20, *passes);
        see_append(&rt, rt.alloc(), &mut fuse, *passes, wanted);
    }
}

/// How many records there are after a fall to an image once so many calls of an append passed.
fn kept(passes: u32, image: u32) -> usize {
    if passes == 5 || passes == 4 && image == 1 {
        1
    } else {
        0
    }
}

/// The disk falls to an image after an append of which so many calls pass.
fn see_crash<R: Abort>(rt: &R, alloc: Global, fuse: &mut Fuse<MemDisk>, passes: u32, image: u32) {
    wants(rt, append(alloc, fuse).is_ok() == (passes == 5));
    fuse.fall(image);
    wants(rt, fuse.falls().len() == 1);
    assert!(rt;
        count(alloc, fuse) == Ok(kept(passes, image)),
        "{passes} {image}"
    );
}

#[test]
fn a_crash_at_each_call_leaves_all_of_a_record_or_nothing(rt: HostRuntime) {
    for passes in 1..6u32 {
        for image in 0..3u32 {
            let mut fuse = fused(&rt, rt.alloc(), 40, passes);
            see_crash(&rt, rt.alloc(), &mut fuse, passes, image);
        }
    }
}

/// Which call fails, and how many records are found afterwards. Opening syncs and reads the first gate; then
/// come the four calls of the append.
const FAULTS: [(u64, usize); 6] = [(1, 0), (2, 0), (3, 0), (4, 0), (5, 0), (6, 1)];

/// An append to a disk whose call of this number fails, fails; so many records are found afterwards.
fn see_fault<R: Abort>(rt: &R, alloc: Global, failing: u64, wanted: usize) {
    let mut disk = nines(rt, alloc, 40, &[failing]);
    wants(rt, append(alloc, &mut disk) == Err(JournalError::DiskFault));
    assert!(rt; count(alloc, &mut disk) == Ok(wanted), "failing {failing}");
}

#[test]
fn a_fault_at_each_call_leaves_all_of_a_record_or_nothing(rt: HostRuntime) {
    for (failing, wanted) in FAULTS.as_slice() {
        see_fault(&rt, rt.alloc(), *failing, *wanted);
    }
}

/// A journal over a part of a disk.
fn open<R: Abort, D: Disk>(rt: &R, alloc: Global, disk: &mut D, from: u64, size: u64) -> Journal
    ensures { JournalInvariant (D.view disk.new) result }
{
    assert!(rt; from <= disk.size() && size <= disk.size() - from);
    Journal::open(alloc, disk, Region { from, size }).expect(rt, "the journal opens")
}

/// A journal whose first append fails at the fourth call takes no other.
fn see_failure<R: Abort>(rt: &R, alloc: Global, disk: &mut MemDisk) {
    wants(rt, disk.size() == 40);
    let mut journal = open(rt, alloc, disk, 0, 40);
    wants(
        rt,
        journal.append(disk, &PAYLOAD) == Err(JournalError::DiskFault),
    );
    wants(
        rt,
        journal.append(disk, &PAYLOAD) == Err(JournalError::NeedsReopen),
    );
}

#[test]
fn a_journal_that_failed_has_to_be_opened_again(rt: HostRuntime) {
    let mut disk = nines(&rt, rt.alloc(), 40, &[4]);
    see_failure(&rt, rt.alloc(), &mut disk);
    wants(&rt, append(rt.alloc(), &mut disk) == Ok(()));
    wants(&rt, count(rt.alloc(), &mut disk) == Ok(1));
}

/// The next payload of a journal is this, at this gate.
fn next_is<R: Abort, D: Disk>(
    rt: &R,
    journal: &mut Journal,
    disk: &mut D,
    payload: &mut Vec<u8>,
    gate: u64,
    wanted: &[u8],
)
    requires { JournalInvariant (D.view disk.old) journal.old }
    ensures { JournalInvariant (D.view disk.new) journal.new }
{
    assert!(rt; journal.next(disk, payload) == Ok(Some(gate)));
    assert!(rt; payload.as_slice() == wanted);
}

/// Two payloads come in order from a journal over fifty bytes of a disk, from a place on.
fn payloads_come_from<R: Abort>(rt: &R, alloc: Global, first: u8) {
    let from = u64::from(first);
    let mut disk = nines(rt, alloc, 60, &[]);
    let mut journal = open(rt, alloc, &mut disk, from, 50);
    wants(rt, journal.append(&mut disk, &PAYLOAD).is_ok());
    wants(rt, journal.append(&mut disk, &[5]).is_ok());
    let mut payload = Vec::new(alloc);
    next_is(rt, &mut journal, &mut disk, &mut payload, from, &PAYLOAD);
    next_is(rt, &mut journal, &mut disk, &mut payload, from + 18, &[5]);
    wants(rt, journal.next(&mut disk, &mut payload) == Ok(None));
}

#[test]
fn payloads_come_in_order_with_their_gates(rt: HostRuntime) {
    payloads_come_from(&rt, rt.alloc(), 0);
    payloads_come_from(&rt, rt.alloc(), 7);
}

/// This is what an append to a disk of so many bytes answers.
fn append_is<R: Abort>(rt: &R, alloc: Global, size: usize, wanted: Result<(), JournalError>) {
    let mut disk = nines(rt, alloc, size, &[]);
    assert!(rt; append(alloc, &mut disk) == wanted, "{size}");
}

#[test]
fn a_record_needs_room_for_the_next_gate(rt: HostRuntime) {
    let full = JournalError::Full {
        needed: 19,
        room: 18,
    };
    append_is(&rt, rt.alloc(), 18, Err(full));
    append_is(&rt, rt.alloc(), 19, Ok(()));
    let none = JournalError::Full {
        needed: 19,
        room: 0,
    };
    let mut disk = nines(&rt, rt.alloc(), 0, &[]);
    wants(&rt, append(rt.alloc(), &mut disk) == Err(none));
    wants(&rt, count(rt.alloc(), &mut disk) == Ok(0));
}

#[test]
fn an_open_gate_before_no_record_is_damaged(rt: HostRuntime) {
    let bytes = [1, 255, 255, 255, 255]
        .to_vec(rt.alloc())
        .expect(&rt, "memory");
    let mut disk = disk_of(&rt, rt.alloc(), bytes, &[]);
    let damaged = JournalError::Damaged { offset: 0 };
    wants(&rt, count(rt.alloc(), &mut disk) == Err(damaged));
}

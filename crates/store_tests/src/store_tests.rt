//! What no clause says: that calls succeed where there is memory, and what bytes stand for which operations,
//! by hand.
ghost use Rattle.std.specs.Prelude.{IfOk};
ghost use Rattle.rm_types.specs.Ranges.{IsOperation};
ghost use Rattle.rm_store.specs.Store.{StoreInvariant};

use crate::helpers::{disk_of, filled, read, wants};
use rm_disk::{Disk, FileDisk, Fuse, HeldFile, MemDisk, Window};
use rm_frame::decode;
use rm_store::{Store, StoreError};
use rm_types::Op;
use std::alloc::{Alloc, Global};
use std::fs;
use std::fs::Files;
use std::process::Abort;

const EPOCH: [u8; 13] = [1, 0, 0, 0, 1, 0, 0, 1, 72, 128, 67, 118, 15];

const CUT: [u8; 5] = [1, 0, 0, 0, 1];

const LONGER: [u8; 14] = [1, 0, 0, 0, 1, 0, 0, 1, 72, 128, 67, 118, 15, 0];

// What may stand behind a record: a closed gate, an open one before no record, and a record of an Epoch.
const END: [u8; 5] = [0, 0, 0, 0, 0];

const NO_RECORD: [u8; 5] = [1, 255, 255, 255, 255];

const EPOCH_AGAIN: [u8; 19] = [
    1, 0, 0, 0, 13, 1, 0, 0, 0, 1, 0, 0, 1, 72, 128, 67, 118, 15, 0,
];

const APP: [u8; 48] = [
    7, 0, 0, 1, 72, 128, 67, 118, 15, 0, 0, 0, 1, 0, 1, b'u', 0, 12, b'r', b'o', b'o', b't', b'.',
    b'd', b'e', b'f', b'a', b'u', b'l', b't', 0, 1, b'j', 0, 0, 4, 0, 0, 0, 0, 1, 0, 0, 0, 0, 0, 0,
    0,
];

/// The same application as it was kept before there was a choice to keep containers.
const OLDER_APP: [u8; 47] = [
    2, 0, 0, 1, 72, 128, 67, 118, 15, 0, 0, 0, 1, 0, 1, b'u', 0, 12, b'r', b'o', b'o', b't', b'.',
    b'd', b'e', b'f', b'a', b'u', b'l', b't', 0, 1, b'j', 0, 0, 4, 0, 0, 0, 0, 1, 0, 0, 0, 0, 0, 0,
];

/// Another kind byte, and a choice that is none.
const NO_KIND: [u8; 13] = [8, 0, 0, 1, 72, 128, 67, 118, 15, 0, 0, 0, 1];

const NO_CHOICE: [u8; 48] = [
    7, 0, 0, 1, 72, 128, 67, 118, 15, 0, 0, 0, 1, 0, 1, b'u', 0, 12, b'r', b'o', b'o', b't', b'.',
    b'd', b'e', b'f', b'a', b'u', b'l', b't', 0, 1, b'j', 0, 0, 4, 0, 0, 0, 0, 1, 0, 0, 0, 0, 2, 0,
    0,
];

const REMOVE: [u8; 13] = [6, 0, 0, 1, 72, 128, 67, 118, 15, 0, 0, 0, 1];

/// The operation of a frame.
fn op_of(alloc: Global, frame: &[u8]) -> Result<Op, StoreError>
    ensures { IfOk result IsOperation }
{
    match decode(alloc, frame) {
        Ok((op, _count)) => Ok(op),
        Err(_) => Err(StoreError::Memory),
    }
}

/// Appends the operation of a frame.
fn append<D: Disk>(alloc: Global, store: &mut Store<D>, frame: &[u8]) -> Result<(), StoreError>
    requires { StoreInvariant D.view store.old }
    ensures { StoreInvariant D.view store.new }
{
    let op = op_of(alloc, frame)?;
    store.append(&op)
}

/// A disk of so many zeros, under a fuse.
fn zeros<R: Abort>(rt: &R, alloc: Global, size: usize, failing: &[u64]) -> Fuse<MemDisk> {
    Fuse::new(alloc, filled(rt, alloc, 0, size, failing))
}

/// What was found on a disk: how many operations, the epoch, the stamp and how many applications they amount to.
type Found = (usize, u32, u64, usize);

/// What a disk holds, or why it isn't opened.
fn found<D: Disk + Drop>(alloc: Global, disk: Fuse<D>) -> Result<Found, StoreError> {
    match Store::open(alloc, disk) {
        Ok((store, tree, ops)) => {
            let found = (ops.len(), tree.next_epoch(), tree.stamp(), tree.len());
            drop((store, tree, ops));
            Ok(found)
        }
        Err(refused) => Err(refused.why),
    }
}

/// Appends an Epoch and an App to what a disk holds.
fn append_both<D: Disk>(alloc: Global, disk: Fuse<D>) -> (Result<(), StoreError>, Fuse<D>) {
    match Store::open(alloc, disk) {
        Ok((mut store, _tree, _ops)) => {
            let outcome = append_two(alloc, &mut store);
            (outcome, store.close())
        }
        Err(refused) => (Err(refused.why), refused.disk),
    }
}

fn append_two<D: Disk>(alloc: Global, store: &mut Store<D>) -> Result<(), StoreError>
    requires { StoreInvariant D.view store.old }
{
    append(alloc, store, &EPOCH)?;
    append(alloc, store, &APP)
}

/// What appends of an Epoch and an App to a disk answer.
fn outcome<D: Disk + Drop>(alloc: Global, disk: Fuse<D>) -> Result<(), StoreError> {
    let (outcome, _disk) = append_both(alloc, disk);
    outcome
}

/// The first area has the record of generation 1 and that of the Epoch, and an open gate before a record.
const FIRST_BYTES: [u8; 33] = [
    1, 0, 0, 0, 8, 0, 0, 0, 0, 0, 0, 0, 1, 1, 0, 0, 0, 13, 1, 0, 0, 0, 1, 0, 0, 1, 72, 128, 67,
    118, 15, 1, 0,
];

#[test]
fn operations_are_read_back_in_order(rt: HostRuntime) {
    let (outcome, mut disk) = append_both(rt.alloc(), zeros(&rt, rt.alloc(), 200, &[]));
    wants(&rt, outcome.is_ok());
    wants(&rt, disk.size() == 200);
    let mut first = [0; 33];
    read(&rt, &mut disk, 0, &mut first);
    wants(&rt, first == FIRST_BYTES);
    wants(
        &rt,
        found(rt.alloc(), disk) == Ok((2, 1, 1_410_901_177_871, 1)),
    );
}

/// A disk in a file of that name, as a store uses it.
fn in_file<'a, F: Files + Alloc>(
    alloc: Global,
    files: &'a F,
    name: &'a str,
) -> Fuse<Window<FileDisk<'a, F>>>
where
    F::File: HeldFile,
{
    Fuse::new(alloc, Window::new(alloc, FileDisk::new(files, name)))
}

/// What appends of an Epoch and an App to a file answer.
fn outcome_in_file<F: Files + Alloc>(alloc: Global, files: &F, name: &str) -> Result<(), StoreError>
where
    F::File: HeldFile,
{
    outcome(alloc, in_file(alloc, files, name))
}

/// What a file holds, or why it isn't opened.
fn found_in_file<F: Files + Alloc>(
    alloc: Global,
    files: &F,
    name: &str,
) -> Result<Found, StoreError>
where
    F::File: HeldFile,
{
    found(alloc, in_file(alloc, files, name))
}

#[test]
fn a_store_is_kept_in_a_file(rt: HostRuntime) {
    let (alloc, name) = (rt.alloc(), "rm_store_test.store");
    let _ = fs::remove_file(&rt, name);
    wants(&rt, outcome_in_file(alloc, &rt, name).is_ok());
    let found = found_in_file(alloc, &rt, name);
    wants(&rt, found == Ok((2, 1, 1_410_901_177_871, 1)));
    fs::remove_file(&rt, name).expect(&rt, "the file is removed");
}

fn put<R: Abort>(rt: &R, bytes: &mut Vec<u8>, more: &[u8]) {
    bytes.extend_from_slice(more).expect(rt, "memory");
}

/// The record of generation 1 in the first area.
const GENERATION: [u8; 13] = [1, 0, 0, 0, 8, 0, 0, 0, 0, 0, 0, 0, 1];

/// A first area with this generation, the record of a payload, and these bytes behind it, and a second one of as many zeros.
fn with_record<R: Abort>(rt: &R, alloc: Global, payload: &[u8], rest: &[u8]) -> Vec<u8> {
    let length = u32::try_from(payload.len()).expect(rt, "a length");
    let mut bytes = Vec::from_slice(alloc, &GENERATION).expect(rt, "memory");
    put(rt, &mut bytes, &[1]);
    put(rt, &mut bytes, &length.to_be_bytes());
    put(rt, &mut bytes, payload);
    put(rt, &mut bytes, rest);
    let half = bytes.len();
    bytes.resize(half + half, 0).expect(rt, "memory");
    bytes
}

/// A disk whose first area has the record of this payload, and behind it these bytes, isn't opened for this reason.
fn is_refused<R: Abort>(rt: &R, alloc: Global, payload: &[u8], rest: &[u8], wanted: StoreError) {
    let bytes = with_record(rt, alloc, payload, rest);
    let disk = Fuse::new(alloc, disk_of(rt, alloc, bytes, &[]));
    assert!(rt; found(alloc, disk).err() == Some(wanted));
}

/// The payload of a record, what stands behind it, and what is told: damage of the area before a payload that is stray or no frame.
const FAULTS: [(&[u8], &[u8], StoreError); 8] = [
    (
        &REMOVE,
        &END,
        StoreError::Stray {
            number: 0,
            offset: 13,
        },
    ),
    (&REMOVE, &NO_RECORD, StoreError::Damaged { offset: 31 }),
    (&LONGER, &END, StoreError::Damaged { offset: 13 }),
    (&NO_KIND, &END, StoreError::Damaged { offset: 13 }),
    (&NO_CHOICE, &END, StoreError::Damaged { offset: 13 }),
    (&LONGER, &NO_RECORD, StoreError::Damaged { offset: 32 }),
    (&EPOCH, &NO_RECORD, StoreError::Damaged { offset: 31 }),
    (
        &EPOCH,
        &EPOCH_AGAIN,
        StoreError::Stray {
            number: 1,
            offset: 31,
        },
    ),
];

#[test]
fn damage_is_told_before_a_stray_payload(rt: HostRuntime) {
    for (payload, rest, wanted) in FAULTS.as_slice() {
        is_refused(&rt, rt.alloc(), payload, rest, *wanted);
    }
}

/// The first bytes of each area of a disk, and where it is damaged: its areas have one generation, there is no generation 0, and
/// a first payload of 13 bytes, as a store of one journal has, is none.
const DAMAGED: [(&[u8], &[u8], u64); 4] = [
    (&GENERATION, &GENERATION, 50),
    (&[1, 0, 0, 0, 8], &[], 0),
    (&EPOCH_AGAIN, &[], 0),
    (&GENERATION, &EPOCH_AGAIN, 50),
];

#[test]
fn areas_are_damaged_by_their_generations(rt: HostRuntime) {
    for (first, second, offset) in DAMAGED.as_slice() {
        let mut bytes = Vec::from_slice(rt.alloc(), first).expect(&rt, "memory");
        bytes.resize(50, 0).expect(&rt, "memory");
        put(&rt, &mut bytes, second);
        bytes.resize(100, 0).expect(&rt, "memory");
        let disk = Fuse::new(rt.alloc(), disk_of(&rt, rt.alloc(), bytes, &[]));
        let wanted = StoreError::Damaged { offset: *offset };
        wants(&rt, found(rt.alloc(), disk).err() == Some(wanted));
    }
}

/// A store whose first append fails takes no other.
fn see_failure<R: Abort, D: Disk>(rt: &R, alloc: Global, store: &mut Store<D>)
    requires { StoreInvariant D.view store.old }
{
    wants(
        rt,
        append(alloc, store, &EPOCH) == Err(StoreError::DiskFault),
    );
    wants(
        rt,
        append(alloc, store, &EPOCH) == Err(StoreError::NeedsReopen),
    );
    wants(rt, !store.fuse().blown());
}

/// A disk, once the first append to the store that it has failed.
fn after_failure<R: Abort>(rt: &R, alloc: Global, disk: Fuse<MemDisk>) -> Fuse<MemDisk> {
    match Store::open(alloc, disk) {
        Ok((mut store, _tree, _ops)) => {
            see_failure(rt, alloc, &mut store);
            store.close()
        }
        Err(_) => panic!(rt; "the store isn't opened"),
    }
}

#[test]
fn a_store_that_failed_has_to_be_opened_again(rt: HostRuntime) {
    // Opening reads the first gate of each area, syncs, and reads the current one again; then come the four calls that begin a
    // generation, and the four of the append, of which the last fails.
    let disk = zeros(&rt, rt.alloc(), 100, &[12]);
    let disk = after_failure(&rt, rt.alloc(), disk);
    wants(
        &rt,
        found(rt.alloc(), disk) == Ok((1, 1, 1_410_901_177_871, 0)),
    );
}

/// This is what appends to a disk of so many zeros answer.
fn see_outcome<R: Abort>(rt: &R, alloc: Global, size: usize, wanted: Result<(), StoreError>) {
    let disk = zeros(rt, alloc, size, &[]);
    assert!(rt; outcome(alloc, disk) == wanted, "{size}");
}

// Each area of 84 bytes has 53 behind a generation and the Epoch, and the App needs 54.
#[test]
fn an_operation_needs_room_for_the_next_gate(rt: HostRuntime) {
    let full = StoreError::Full {
        needed: 54,
        room: 53,
    };
    see_outcome(&rt, rt.alloc(), 169, Err(full));
    see_outcome(&rt, rt.alloc(), 170, Ok(()));
}

/// The Epochs of three lives.
const EPOCH_1: [u8; 13] = [1, 0, 0, 0, 1, 0, 0, 0, 0, 0, 0, 0, 1];

const EPOCH_2: [u8; 13] = [1, 0, 0, 0, 2, 0, 0, 0, 0, 0, 0, 0, 2];

const EPOCH_3: [u8; 13] = [1, 0, 0, 0, 3, 0, 0, 0, 0, 0, 0, 0, 3];

fn append_epochs<D: Disk>(alloc: Global, store: &mut Store<D>) -> Result<(), StoreError>
    requires { StoreInvariant D.view store.old }
{
    append(alloc, store, &EPOCH_1)?;
    append(alloc, store, &EPOCH_2)?;
    append(alloc, store, &EPOCH_3)
}

/// A disk, once the Epochs were appended to what it holds.
fn with_epochs<R: Abort, D: Disk>(rt: &R, alloc: Global, disk: Fuse<D>) -> Fuse<D> {
    match Store::open(alloc, disk) {
        Ok((mut store, _tree, _ops)) => {
            wants(rt, append_epochs(alloc, &mut store).is_ok());
            store.close()
        }
        Err(_) => panic!(rt; "the store isn't opened"),
    }
}

// An area of 64 bytes takes two Epochs behind a generation: the third one is written behind the second in a new area.
#[test]
fn an_area_is_written_anew_where_the_current_one_is_full(rt: HostRuntime) {
    let mut disk = with_epochs(&rt, rt.alloc(), zeros(&rt, rt.alloc(), 128, &[]));
    let mut second = [0; 13];
    read(&rt, &mut disk, 64, &mut second);
    wants(&rt, second == [1, 0, 0, 0, 8, 0, 0, 0, 0, 0, 0, 0, 2]);
    wants(&rt, found(rt.alloc(), disk) == Ok((2, 3, 3, 0)));
}

/// The parts of the first area of an older store: a generation, and the records of an Epoch and of an App as it was kept before there
/// was a choice to keep containers.
const OLDER: [&[u8]; 4] = [
    &GENERATION,
    &[1, 0, 0, 0, 13, 1, 0, 0, 0, 1, 0, 0, 1, 72, 128, 67, 118, 15],
    &[1, 0, 0, 0, 47],
    &OLDER_APP,
];

/// A disk of this size whose first area begins with these parts, with zeros behind them.
fn holding<R: Abort>(rt: &R, alloc: Global, parts: &[&[u8]], size: usize) -> Fuse<MemDisk> {
    let mut bytes = Vec::new(alloc);
    for part in parts {
        put(rt, &mut bytes, part);
    }
    bytes.resize(size, 0).expect(rt, "memory");
    Fuse::new(alloc, disk_of(rt, alloc, bytes, &[]))
}

#[test]
fn an_older_store_is_opened(rt: HostRuntime) {
    let disk = holding(&rt, rt.alloc(), &OLDER, 4_194_304);
    wants(
        &rt,
        found(rt.alloc(), disk) == Ok((2, 1, 1_410_901_177_871, 1)),
    );
}

/// The first area of an older store with the Epochs of two lives before the App.
const TWO_LIVES: [&[u8]; 7] = [
    &GENERATION,
    &[1, 0, 0, 0, 13],
    &EPOCH_1,
    &[1, 0, 0, 0, 13],
    &EPOCH_2,
    &[1, 0, 0, 0, 47],
    &OLDER_APP,
];

/// A disk, once the third life's Epoch was appended to what it holds.
fn with_third<R: Abort, D: Disk>(rt: &R, alloc: Global, disk: Fuse<D>) -> Fuse<D> {
    match Store::open(alloc, disk) {
        Ok((mut store, _tree, _ops)) => {
            wants(rt, append(alloc, &mut store, &EPOCH_3).is_ok());
            store.close()
        }
        Err(_) => panic!(rt; "the store isn't opened"),
    }
}

// An area of 104 bytes has 3 left behind these 101. The second one takes a generation, the second Epoch, the App, which has one byte
// more now, and the third Epoch: 103.
#[test]
fn an_older_app_is_written_anew_as_it_is_now(rt: HostRuntime) {
    let disk = holding(&rt, rt.alloc(), &TWO_LIVES, 208);
    let mut disk = with_third(&rt, rt.alloc(), disk);
    let mut record = [0; 5];
    read(&rt, &mut disk, 135, &mut record);
    wants(&rt, record == [1, 0, 0, 0, 48]);
    let mut app = [0; 48];
    read(&rt, &mut disk, 140, &mut app);
    wants(&rt, app == APP);
    wants(&rt, found(rt.alloc(), disk) == Ok((3, 3, 3, 1)));
}

//! What no clause says: the pages of the tool, worked out by hand from the example of a store in docs/FORMATS.md.
ghost use Rattle.std.specs.Prelude.{◌≡◌, length};

use rm_disk::{Disk, MemDisk};
use rm_formats::STORE_SIZE;
use rm_outside::{MemShelf, MemSink, NamedFile};
use rm_tool::{ToolOutcome, status_of, top};
use rm_types::{Items, Text};
use std::process::Abort;

/// How many bytes a store has.
const SIZE: usize = STORE_SIZE as usize;

/// The generation's record, and those of the two operations: the first 90 bytes of the example.
const GENERATION: &[u8] = b"\x01\0\0\0\x08\0\0\0\0\0\0\0\x01";

const EPOCH: &[u8] = b"\x01\0\0\0\x0d\x01\0\0\0\x01\0\0\x01\x48\x80\x43\x76\x0f";

const APP: &[u8] =
    b"\x01\0\0\0\x36\x07\0\0\x01\x48\x80\x43\x76\x0f\0\0\0\x01\0\x05alice\0\x0croot.default\0\x03job\0\0\x04\0\0\0\0\x01\0\0\0\0\0\0\0";

/// The App's record as it was before there was a choice to keep containers.
const OLDER_APP: &[u8] =
    b"\x01\0\0\0\x35\x02\0\0\x01\x48\x80\x43\x76\x0f\0\0\0\x01\0\x05alice\0\x0croot.default\0\x03job\0\0\x04\0\0\0\0\x01\0\0\0\0\0\0";

/// What a check tells of it. The sum is that of the two lines of `store`, by `sha256sum`.
const WHOLE: &str = "form two-areas area=first generation=1
walked gates=4 frames=2
jobs all=1 submitted=1 accepted=0 finished=0 failed=0 killed=0
used bytes=90 of=2097152 free=2097062
fits shipped=13887 longest=1431
sha256 d7e4af0460b00f623c38a281d7bde427652a90da339dce180751bdb8f2cc096c
whole
";

/// The parts of a store's bytes, a byte that is changed in them and what it is then, the last line of its check, its status, and what is
/// salvaged of it.
const DAMAGED: &[(&[&[u8]], usize, u8, &str, u8, &str)] = &[
    (
        &[GENERATION, EPOCH, APP],
        4,
        9,
        "damaged at=0\n",
        8,
        "form two-areas area=none generation=0\nsalvaged operations=0 written=0\nstopped no area is live with a generation\n",
    ),
    (
        &[GENERATION, EPOCH, APP],
        34,
        255,
        "damaged at=31\n",
        8,
        "form two-areas area=first generation=1\nsalvaged operations=1 written=1\nstopped the gate at byte 31 is open, and no record stands behind it\n",
    ),
    (
        &[GENERATION, EPOCH, APP],
        36,
        9,
        "damaged at=31\n",
        8,
        "form two-areas area=first generation=1\nsalvaged operations=1 written=1\nstopped the record at byte 31 is that of no operation\n",
    ),
    (
        &[GENERATION, EPOCH, APP, APP],
        90,
        1,
        "stray operation=2 at=90\n",
        8,
        "form two-areas area=first generation=1\nsalvaged operations=2 written=2\nstopped the operation at byte 90 doesn't fit those before it\n",
    ),
    (
        &[EPOCH, APP],
        0,
        1,
        "whole\n",
        0,
        "form one-journal\nsalvaged operations=2 written=2\nstopped the gate at byte 77 is closed\n",
    ),
];

/// The bytes of a store with these parts, of so many bytes.
fn bytes_of<R: Abort + AllocGlobal>(rt: &R, parts: &[&[u8]], size: usize) -> Vec<u8>
    ensures { length result.items ≡ size }
{
    let mut bytes = Vec::new(rt.alloc());
    for part in parts {
        bytes.extend_from_slice(part).expect(rt, "memory");
    }
    bytes.resize(size, 0).expect(rt, "memory");
    bytes
}

/// The bytes of a store with these parts, of which one byte is changed.
fn changed<R: Abort + AllocGlobal>(rt: &R, parts: &[&[u8]], place: usize, byte: u8) -> Vec<u8> {
    let mut bytes = bytes_of(rt, parts, SIZE);
    if let Some(at) = bytes.as_mut_slice().get_mut(place) {
        *at = byte;
    }
    bytes
}

/// The words of a call.
fn words_of<R: Abort + AllocGlobal>(rt: &R, words: &[&str]) -> Vec<String> {
    let mut list = Vec::new(rt.alloc());
    for word in words {
        let word = String::from_str(rt.alloc(), word).expect(rt, "memory");
        list.push(word).expect(rt, "memory");
    }
    list
}

/// A shelf that holds `old.store` with these bytes.
fn shelf_of<R: Abort + AllocGlobal>(rt: &R, bytes: Vec<u8>) -> MemShelf {
    let name = Text::from_bytes(rt.alloc(), b"old.store").expect(rt, "memory");
    let bytes = Items::from_vec(bytes);
    let mut files = Items::new(rt.alloc());
    files.push(NamedFile { name, bytes }).expect(rt, "memory");
    MemShelf::new(rt.alloc(), files, Items::new(rt.alloc()))
}

/// A new disk of the size of a store.
fn new_disk<R: Abort + AllocGlobal>(rt: &R) -> MemDisk {
    MemDisk::new(rt.alloc(), STORE_SIZE, Items::new(rt.alloc())).expect(rt, "memory")
}

/// Sees that a call over these bytes ends with this status, and writes this page, or one with this end.
fn tells<R: Abort + AllocGlobal>(
    rt: &R,
    words: &[&str],
    bytes: Vec<u8>,
    disk: &mut MemDisk,
    status: u8,
    end: &str,
) {
    let words = words_of(rt, words);
    let mut shelf = shelf_of(rt, bytes);
    let mut sink = MemSink::new(rt.alloc(), Items::new(rt.alloc()), 4096);
    let outcome = top(rt.alloc(), words.as_slice(), &mut shelf, &mut sink, disk);
    assert_eq!(rt; status_of(outcome), status, "{end}");
    assert!(rt; sink.taken().as_slice().ends_with(end.as_bytes()), "{end}");
}

/// Sees that the new disk has a whole store now, whose check ends so.
fn holds<R: Abort + AllocGlobal>(rt: &R, disk: &mut MemDisk, end: &str) {
    let size = disk.size() as usize;
    let mut bytes = bytes_of(rt, &[], size);
    disk.read(0, bytes.as_mut_slice()).expect(rt, "a read");
    let mut unused = new_disk(rt);
    tells(rt, &["check", "old.store"], bytes, &mut unused, 0, end);
}

#[test]
fn a_whole_store_is_checked(rt: HostRuntime) {
    let bytes = bytes_of(&rt, &[GENERATION, EPOCH, APP], SIZE);
    let mut unused = new_disk(&rt);
    tells(&rt, &["check", "old.store"], bytes, &mut unused, 0, WHOLE);
}

#[test]
fn damage_is_told_and_its_front_salvaged(rt: HostRuntime) {
    for (parts, place, byte, checked, status, salvaged) in DAMAGED {
        let bytes = changed(&rt, parts, *place, *byte);
        let again = changed(&rt, parts, *place, *byte);
        let mut disk = new_disk(&rt);
        tells(
            &rt,
            &["check", "old.store"],
            bytes,
            &mut disk,
            *status,
            checked,
        );
        let words = ["salvage", "old.store", "new.store"];
        tells(&rt, &words, again, &mut disk, 0, salvaged);
        holds(&rt, &mut disk, "whole\n");
    }
}

/// Sees that the new disk begins with the bytes of the example.
fn begins<R: Abort + AllocGlobal>(rt: &R, disk: &mut MemDisk) {
    let mut bytes = bytes_of(rt, &[], 91);
    assert!(rt; bytes.as_slice().len() as u64 <= disk.size());
    disk.read(0, bytes.as_mut_slice()).expect(rt, "a read");
    let wanted = bytes_of(rt, &[GENERATION, EPOCH, APP], 91);
    assert!(rt; bytes.as_slice() == wanted.as_slice());
}

#[test]
fn an_old_store_is_converted(rt: HostRuntime) {
    for app in [APP, OLDER_APP] {
        let bytes = bytes_of(&rt, &[EPOCH, app], SIZE);
        let mut disk = new_disk(&rt);
        let words = ["convert", "old.store", "new.store"];
        tells(&rt, &words, bytes, &mut disk, 0, "converted operations=2\n");
        begins(&rt, &mut disk);
        holds(&rt, &mut disk, WHOLE);
    }
}

// The older App keeps the same, so that all that is told of it is the same.
#[test]
fn an_older_store_is_read_and_written_as_one_of_now(rt: HostRuntime) {
    let parts = [GENERATION, EPOCH, OLDER_APP];
    let bytes = bytes_of(&rt, &parts, SIZE);
    let again = bytes_of(&rt, &parts, SIZE);
    let mut disk = new_disk(&rt);
    tells(&rt, &["check", "old.store"], bytes, &mut disk, 0, WHOLE);
    let words = ["salvage", "old.store", "new.store"];
    let want = "salvaged operations=2 written=2\nstopped the gate at byte 89 is closed\n";
    tells(&rt, &words, again, &mut disk, 0, want);
    begins(&rt, &mut disk);
    holds(&rt, &mut disk, WHOLE);
}

#[test]
fn other_files_are_refused(rt: HostRuntime) {
    let mut disk = new_disk(&rt);
    let convert = ["convert", "old.store", "new.store"];
    let two = bytes_of(&rt, &[GENERATION, EPOCH, APP], SIZE);
    tells(&rt, &convert, two, &mut disk, 8, "");
    let zeros = bytes_of(&rt, &[], SIZE);
    tells(&rt, &convert, zeros, &mut disk, 8, "");
    let cut = bytes_of(&rt, &[EPOCH, APP], 60);
    tells(&rt, &["check", "old.store"], cut, &mut disk, 8, "");
    let none = bytes_of(&rt, &[], 0);
    tells(&rt, &["check", "no.store"], none, &mut disk, 2, "");
    let long = bytes_of(&rt, &[GENERATION, EPOCH, APP], SIZE * 4);
    tells(&rt, &["check", "old.store"], long, &mut disk, 8, "");
}

#[test]
fn a_page_of_more_bytes_than_are_read_is_too_long(rt: HostRuntime) {
    let words = words_of(&rt, &["summary", "old.store"]);
    let mut shelf = shelf_of(&rt, bytes_of(&rt, &[], SIZE * 4 + 1));
    let mut sink = MemSink::new(rt.alloc(), Items::new(rt.alloc()), 4096);
    let mut disk = new_disk(&rt);
    let outcome = top(
        rt.alloc(),
        words.as_slice(),
        &mut shelf,
        &mut sink,
        &mut disk,
    );
    assert!(rt; matches!(outcome, ToolOutcome::TooLong));
}

#[test]
fn a_cut_store_is_salvaged(rt: HostRuntime) {
    let bytes = bytes_of(&rt, &[GENERATION, EPOCH, APP], 60);
    let mut disk = new_disk(&rt);
    let words = ["salvage", "old.store", "new.store"];
    let want =
        "salvaged operations=1 written=1\nstopped the record at byte 31 is that of no operation\n";
    tells(&rt, &words, bytes, &mut disk, 0, want);
}

#[test]
fn a_disk_that_holds_a_store_is_no_new_one(rt: HostRuntime) {
    let bytes = bytes_of(&rt, &[GENERATION, EPOCH, APP], SIZE);
    let again = bytes_of(&rt, &[GENERATION, EPOCH, APP], SIZE);
    let mut disk = new_disk(&rt);
    let words = ["salvage", "old.store", "new.store"];
    tells(&rt, &words, bytes, &mut disk, 0, "is closed\n");
    tells(&rt, &words, again, &mut disk, 7, "");
}

/// Words that ask for nothing.
const OTHER_WORDS: &[&[&str]] = &[
    &[],
    &["check"],
    &["check", "a", "b"],
    &["convert", "a"],
    &["salvage", "a", "b", "c"],
    &["repair", "a"],
    &["check", "-"],
    &["--help"],
];

#[test]
fn other_words_ask_for_nothing(rt: HostRuntime) {
    let mut disk = new_disk(&rt);
    for words in OTHER_WORDS {
        let none = bytes_of(&rt, &[], 0);
        tells(&rt, words, none, &mut disk, 1, "");
    }
}

//! What no clause says: which files a disk takes for its own, how it makes one, and what it says of one that goes while it is
//! used.
use crate::helpers::{
    FILE_SIZE, file_bytes, holds, last_words, refuses, remove_file, told, wants, wants_words,
    write, write_file,
};
use crate::recorded::{Calls, Recorded};
use rm_disk::{Disk, FileDisk, HeldFile};
use std::alloc::Alloc;
use std::fs;
use std::fs::{Files, OpenFile, OpenOptions};
use std::os::unix::fs::{FileExt, MetadataExt, symlink};
use std::process::Abort;

/// What a disk says of a file with the bytes of something else.
const NO_STORE: &str = "the file is no store, and is left as it is";

/// The first bytes of a file, a place behind them and the byte there, and why a disk refuses it.
type Foreign = (&'static [u8], usize, u8, &'static str);

/// All other bytes are 0.
const FILES: [Foreign; 10] = [
    // Nothing was written yet.
    (&[], 14, 0, ""),
    // A first change was cut off: the generation that it wrote first, any of it, and a gate of which it isn't known what was
    // written.
    (&[0, 0, 0, 0, 8, 0, 0, 0, 0, 0, 0, 0, 1], 13, 0, ""),
    (&[0, 255, 3, 7, 9], 13, 255, ""),
    (&[7, 0, 0, 0, 8, 0, 0, 0, 0, 0, 0, 0, 1], 13, 0, ""),
    (&[7, 255, 3, 7, 9], 13, 255, ""),
    // Behind the open first gate of a half anything may stand.
    (&[1, 255], 4_194_303, 5, ""),
    (
        &[0, 255, 3, 7, 9, 1, 1, 1, 1, 1, 1, 1, 1, 1, 1],
        2_097_152,
        1,
        "",
    ),
    // A generation and the gate behind it end at place 13.
    (&[0, 0, 0, 0, 8], 14, 1, NO_STORE),
    (&[0, 255], 2_097_153, 1, NO_STORE),
    // An executable.
    (&[127, b'E', b'L', b'F', 2, 1, 1], 20, 1, NO_STORE),
];

/// Makes a file of a disk's length with these first bytes and a byte at a place.
fn make_file<R: Abort + Files>(rt: &R, name: &str, front: &[u8], at: usize, byte: u8)
where
    R::File: FileExt,
{
    write_file(rt, name, front);
    let file = OpenOptions::new()
        .write(true)
        .open(rt, name)
        .expect(rt, "the file is opened");
    file.set_len(FILE_SIZE)
        .expect(rt, "the file is made longer");
    file.write_all_at(&[byte], at as u64)
        .expect(rt, "the byte is written");
}

/// When a file was last changed.
fn changed<R: Abort + Files>(rt: &R, name: &str) -> (i64, i64) {
    let found = fs::metadata(rt, name).expect(rt, "the file is there");
    (found.ctime(), found.ctime_nsec())
}

/// A disk says this of a file, and leaves it as it is.
fn see_file<R: Abort + Files>(rt: &R, files: HostRuntime, name: &str, foreign: &Foreign)
where
    R::File: FileExt,
{
    let (front, at, byte, wanted) = foreign;
    make_file(rt, name, front, *at, *byte);
    let before = changed(rt, name);
    refuses(rt, files, name, wanted);
    wants(rt, changed(rt, name) == before);
    wants(rt, file_bytes(rt, files, name).starts_with(front));
}

#[test]
fn a_file_of_something_else_is_refused(rt: HostRuntime) {
    let name = "rm_disk_foreign.store";
    for foreign in FILES.as_slice() {
        see_file(&rt, rt, name, foreign);
    }
    remove_file(&rt, name);
}

/// What happens to a file while it is open.
#[derive(Clone, Copy)]
enum Loss {
    Remove,
    Replace,
    Cut,
}

/// What a disk says of it.
const LOSSES: [(Loss, &str); 3] = [
    (Loss::Remove, "the file was removed while it was in use"),
    (
        Loss::Replace,
        "another file took its place while it was in use",
    ),
    (
        Loss::Cut,
        "the file was brought to 4096 bytes while it was in use",
    ),
];

fn cut<R: Abort + Files>(rt: &R, name: &str) {
    let file = OpenOptions::new()
        .write(true)
        .open(rt, name)
        .expect(rt, "the file is opened");
    file.set_len(4096).expect(rt, "the file is cut");
}

fn bring<R: Abort + Files>(rt: &R, name: &str, loss: Loss) {
    match loss {
        Loss::Remove => remove_file(rt, name),
        Loss::Replace => {
            fs::copy(rt, name, "rm_disk_other.store").expect(rt, "the file is copied");
            fs::rename(rt, "rm_disk_other.store", name).expect(rt, "the file is renamed");
        }
        Loss::Cut => cut(rt, name),
    }
}

/// A disk makes its file, and syncs.
fn see_use<R: Abort>(rt: &R, disk: &mut FileDisk<'_, HostRuntime>) {
    wants_words(rt, told(write(rt, disk, 0, &[1])), "ok");
    wants_words(rt, told(disk.sync()), "ok");
    wants(rt, disk.made_new());
}

/// A disk doesn't sync any more, and says this.
fn see_fault<R: Abort>(
    rt: &R,
    files: HostRuntime,
    disk: &mut FileDisk<'_, HostRuntime>,
    wanted: &str,
) {
    wants_words(rt, told(disk.sync()), "disk fault");
    wants_words(rt, last_words(rt, files, disk).as_str(), wanted);
}

/// A disk syncs until this happens to its file, and says then what is wrong.
fn see_loss<R: Abort + Files>(rt: &R, files: HostRuntime, name: &str, loss: Loss, wanted: &str) {
    let mut disk = FileDisk::new(&files, name);
    see_use(rt, &mut disk);
    bring(rt, name, loss);
    see_fault(rt, files, &mut disk, wanted);
    let _ = fs::remove_file(rt, name);
}

#[test]
fn a_file_that_goes_amid_its_use_is_missed(rt: HostRuntime) {
    let name = "rm_disk_gone.store";
    let _ = fs::remove_file(&rt, name);
    for (loss, wanted) in LOSSES.as_slice() {
        see_loss(&rt, rt, name, *loss, wanted);
    }
}

/// A link of that name that leads to another.
fn link<R: Abort + Files>(rt: &R, to: &str, name: &str) {
    let _ = fs::remove_file(rt, name);
    symlink(rt, to, name).expect(rt, "the link is made");
}

fn is_there<R: Abort + Files>(rt: &R, name: &str) -> bool {
    fs::exists(rt, name).expect(rt, "the folder")
}

#[test]
fn a_draft_that_is_a_link_is_left(rt: HostRuntime) {
    let (name, draft, other) = ("rm_disk_a.store", "rm_disk_a.store.new", "rm_disk_a.text");
    let _ = fs::remove_file(&rt, name);
    write_file(&rt, other, b"text");
    link(&rt, other, draft);
    let why = "the draft rm_disk_a.store.new: it is no plain file, and is left as it is";
    refuses(&rt, rt, name, why);
    wants(&rt, !is_there(&rt, name));
    holds(&rt, rt, draft, b"text");
    remove_file(&rt, draft);
    remove_file(&rt, other);
}

#[test]
fn a_link_leads_to_a_store_or_is_refused(rt: HostRuntime) {
    let (name, other) = ("rm_disk_b.store", "rm_disk_b.other");
    let _ = fs::remove_file(&rt, other);
    link(&rt, other, name);
    refuses(&rt, rt, name, "the name is a link that leads to no file");
    wants(&rt, !is_there(&rt, name));
    refuses(&rt, rt, other, "");
    refuses(&rt, rt, name, "");
    remove_file(&rt, name);
    remove_file(&rt, other);
}

/// The mode of a file, without what kind of file it is.
fn mode_of<R: Abort + Files>(rt: &R, name: &str) -> u32 {
    let found = fs::symlink_metadata(rt, name).expect(rt, "the file is there");
    found.mode() & 0o777
}

/// A file is made in place of its draft, of which others had more rights.
fn see_owner<R: Abort + Files>(rt: &R, files: HostRuntime, name: &str, draft: &str) {
    wants(rt, mode_of(rt, draft) != 0o600);
    refuses(rt, files, name, "");
    wants(rt, mode_of(rt, name) == 0o600);
    wants(rt, file_bytes(rt, files, name).len() == 4_194_304);
    wants(rt, !is_there(rt, draft));
}

/// A disk in a file that is there doesn't make it.
fn see_second_use<R: Abort>(rt: &R, files: HostRuntime, name: &str) {
    let mut again = FileDisk::new(&files, name);
    wants_words(rt, told(again.sync()), "ok");
    wants(rt, !again.made_new());
}

#[test]
fn a_file_that_is_made_is_its_owners(rt: HostRuntime) {
    let (name, draft) = ("rm_disk_c.store", "rm_disk_c.store.new");
    let _ = fs::remove_file(&rt, name);
    // What a maker that was killed leaves is replaced.
    write_file(&rt, draft, b"draft");
    see_owner(&rt, rt, name, draft);
    see_second_use(&rt, rt, name);
    remove_file(&rt, name);
}

/// A disk for which there is too little room fails, and makes its file once there is enough.
fn see_room<R: Abort + Files, F: Files + Alloc>(rt: &R, files: &F, name: &str, calls: &Calls)
where
    F::File: HeldFile,
{
    let mut disk = FileDisk::new(files, name);
    calls.room.set(FILE_SIZE - 1);
    wants_words(rt, told(disk.sync()), "disk fault");
    wants(rt, !is_there(rt, name));
    wants(rt, !is_there(rt, "rm_disk_d.store.new"));
    wants(rt, !disk.made_new());
    calls.room.set(FILE_SIZE);
    wants_words(rt, told(disk.sync()), "ok");
    wants(rt, disk.made_new());
}

#[test]
fn a_draft_that_found_no_room_goes(rt: HostRuntime) {
    let name = "rm_disk_d.store";
    let _ = fs::remove_file(&rt, name);
    let calls = Calls::new();
    let files = Recorded {
        files: &rt,
        calls: &calls,
    };
    see_room(&rt, &files, name, &calls);
    remove_file(&rt, name);
}

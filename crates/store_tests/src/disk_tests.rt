//! What no clause says: what disks answer to calls one after another, and what a file holds afterwards.
use crate::helpers::{
    FILE_SIZE, disk_of, file_bytes, holds, read, refusal, refuses, remove_file, told, wants,
    wants_words, write, write_file,
};
use crate::recorded::{Calls, Recorded};
use rm_disk::{Disk, Fallen, FileDisk, Fuse, HeldFile, MemDisk, Window};
use rm_types::Items;
use std::alloc::{Alloc, Global};
use std::fs;
use std::fs::Files;
use std::process::Abort;

/// A disk of four bytes reads these.
fn reads<R: Abort, D: Disk>(rt: &R, disk: &mut D, wanted: &[u8; 4]) {
    assert!(rt; disk.size() == 4);
    let mut bytes = [0; 4];
    read(rt, disk, 0, &mut bytes);
    assert!(rt; bytes == *wanted);
}

/// A new disk of four bytes, whose calls with these numbers fail.
fn new_disk<R: Abort>(rt: &R, alloc: Global, failing: &[u64]) -> MemDisk {
    let failing = Items::from_vec(failing.to_vec(alloc).expect(rt, "memory"));
    MemDisk::new(alloc, 4, failing).expect(rt, "memory")
}

fn sends<T: Send>() {}

#[test]
fn a_disk_under_a_fuse_may_change_threads() {
    sends::<Fuse<MemDisk>>();
    sends::<Fuse<Window<FileDisk<'static, HostRuntime>>>>();
}

#[test]
fn a_new_disk_reads_zeros_and_fails_by_number(rt: HostRuntime) {
    let mut disk = new_disk(&rt, rt.alloc(), &[2, 4]);
    reads(&rt, &mut disk, &[0, 0, 0, 0]);
    wants_words(&rt, told(write(&rt, &mut disk, 1, &[7])), "disk fault");
    wants_words(&rt, told(disk.sync()), "ok");
    wants_words(&rt, told(disk.sync()), "disk fault");
    reads(&rt, &mut disk, &[0, 0, 0, 0]);
}

/// The image that a disk falls to, and what it reads then.
const IMAGES: [(u32, [u8; 4]); 3] = [(0, [1, 2, 3, 4]), (1, [1, 9, 8, 4]), (2, [1, 79, 80, 4])];

/// A disk of four bytes, of which the last was written and synced, and those between written since.
fn written_disk<R: Abort>(rt: &R, alloc: Global) -> MemDisk {
    let bytes = [1, 2, 3, 0].to_vec(alloc).expect(rt, "memory");
    let mut disk = disk_of(rt, alloc, bytes, &[]);
    wants(rt, disk.size() == 4);
    wants_words(rt, told(write(rt, &mut disk, 3, &[4])), "ok");
    wants_words(rt, told(disk.sync()), "ok");
    wants(rt, disk.size() == 4);
    wants_words(rt, told(write(rt, &mut disk, 1, &[9, 8])), "ok");
    disk
}

#[test]
fn a_fall_takes_the_image_that_is_named(rt: HostRuntime) {
    for (image, wanted) in IMAGES.as_slice() {
        let mut disk = written_disk(&rt, rt.alloc());
        disk.fall(*image);
        reads(&rt, &mut disk, wanted);
    }
}

/// The falls of a disk under a fuse.
const FALLS: [Fallen; 2] = [
    Fallen {
        calls: 2,
        image: 3,
        blown: true,
    },
    Fallen {
        calls: 9,
        image: 1,
        blown: false,
    },
];

/// Arms a fuse with so many calls.
fn arm<R: Abort>(rt: &R, fuse: &mut Fuse<MemDisk>, passes: u32) {
    fuse.arm(passes).expect(rt, "memory");
}

/// A fuse that is armed with two calls lets a write and a sync through, and no other write.
fn blows<R: Abort>(rt: &R, fuse: &mut Fuse<MemDisk>) {
    arm(rt, fuse, 2);
    wants(rt, fuse.size() == 4);
    wants_words(rt, told(write(rt, fuse, 0, &[5])), "ok");
    wants_words(rt, told(fuse.sync()), "ok");
    wants(rt, !fuse.blown());
    wants(rt, fuse.size() == 4);
    wants_words(rt, told(write(rt, fuse, 0, &[6])), "disk fault");
    wants(rt, fuse.blown());
    wants(rt, fuse.passed() == 2);
    reads(rt, fuse, &[5, 0, 0, 0]);
}

/// A fuse keeps the falls of its disk that come while it is armed, and counts the others.
fn falls<R: Abort>(rt: &R, fuse: &mut Fuse<MemDisk>) {
    fuse.fall(3);
    wants(rt, !fuse.blown());
    arm(rt, fuse, 9);
    fuse.fall(1);
    fuse.fall(1);
    wants(rt, fuse.falls().as_slice() == FALLS.as_slice());
    wants(rt, fuse.unarmed_falls() == 1);
}

#[test]
fn a_fuse_lets_as_many_through_as_it_is_armed_with(rt: HostRuntime) {
    let mut fuse = Fuse::new(rt.alloc(), new_disk(&rt, rt.alloc(), &[]));
    blows(&rt, &mut fuse);
    falls(&rt, &mut fuse);
    arm(&rt, &mut fuse, 0);
    wants_words(&rt, told(fuse.sync()), "disk fault");
    fuse.disarm();
    wants_words(&rt, told(fuse.sync()), "ok");
    reads(&rt, &mut fuse.inner(), &[5, 0, 0, 0]);
}

/// Writes bytes at the end of a disk in a file, where nothing was written before, and lets them last.
fn writes_its_end<R: Abort, D: Disk>(rt: &R, disk: &mut D) {
    wants(rt, disk.size() == FILE_SIZE);
    let mut bytes = [1; 3];
    read(rt, disk, 4_194_301, &mut bytes);
    wants(rt, bytes == [0, 0, 0]);
    wants_words(rt, told(write(rt, disk, 4_194_301, &[7, 8, 9])), "ok");
    wants_words(rt, told(disk.sync()), "ok");
    disk.fall(0);
}

/// Writes to a disk in a file and closes it; the answer is why it couldn't be opened a second time meanwhile.
fn write_and_close<R: Abort>(rt: &R, files: HostRuntime, name: &str) -> String {
    let mut disk = FileDisk::new(&files, name);
    writes_its_end(rt, &mut disk);
    refusal(rt, files, name)
}

/// A file is written while no other disk opens it, and is whole then.
fn see_writing<R: Abort>(rt: &R, files: HostRuntime, name: &str) {
    let why = write_and_close(rt, files, name);
    wants_words(rt, why.as_str(), "the file is in use");
    wants_whole(rt, file_bytes(rt, files, name).as_slice());
}

/// These are the bytes of a whole file, zeros but for the last.
fn wants_whole<R: Abort>(rt: &R, whole: &[u8]) {
    wants(rt, whole.len() == 4_194_304);
    wants(
        rt,
        whole.iter().position(|byte| *byte != 0) == Some(4_194_301),
    );
    wants(rt, whole.ends_with(&[7, 8, 9]));
}

#[test]
fn a_file_keeps_what_was_written(rt: HostRuntime) {
    let name = "rm_disk_kept.store";
    let _ = fs::remove_file(&rt, name);
    // What a maker that was killed leaves.
    write_file(&rt, "rm_disk_kept.store.new", b"draft");
    see_writing(&rt, rt, name);
    wants(
        &rt,
        !fs::exists(&rt, "rm_disk_kept.store.new").expect(&rt, "the folder"),
    );
    write_file(&rt, name, b"short");
    let why = "the file has 5 bytes, and a disk has 4194304";
    refuses(&rt, rt, name, why);
    holds(&rt, rt, name, b"short");
    remove_file(&rt, name);
}

/// A disk in a file that isn't there is made whole, and is synced until that isn't interrupted.
fn see_making<R: Abort, D: Disk>(rt: &R, disk: &mut D, calls: &Calls) {
    wants_words(rt, told(write(rt, disk, 1, &[7])), "ok");
    // All of its bytes were written and synced when it got its name, and its folder was synced after that.
    wants(rt, calls.named_after.get() == (FILE_SIZE, 1));
    wants(rt, calls.whole_syncs.get() == 2);
    wants(rt, calls.syncs.get() == 0);
    calls.interruptions.set(2);
    wants_words(rt, told(disk.sync()), "ok");
    wants(rt, calls.syncs.get() == 1);
}

/// A disk in a file that isn't there makes it in these files.
fn see_file_making<R: Abort, F: Files + Alloc>(rt: &R, files: &F, name: &str, calls: &Calls)
where
    F::File: HeldFile,
{
    see_making(rt, &mut FileDisk::new(files, name), calls);
}

#[test]
fn a_file_is_made_whole_before_it_has_its_name(rt: HostRuntime) {
    let name = "rm_disk_made.store";
    let _ = fs::remove_file(&rt, name);
    let calls = Calls::new();
    let files = Recorded {
        files: &rt,
        calls: &calls,
    };
    see_file_making(&rt, &files, name, &calls);
    remove_file(&rt, name);
}

/// A disk of a file's size reads this byte behind a place, and zeros around it.
fn reads_after<R: Abort, D: Disk>(rt: &R, disk: &mut D, at: u64, wanted: u8) {
    wants(rt, disk.size() == FILE_SIZE);
    let mut bytes = [1; 4];
    read(rt, disk, at, &mut bytes);
    wants(rt, bytes == [0, wanted, 0, 0]);
}

/// Where four bytes are read, and how many calls of the system there were then.
const READS: [(u64, u32); 4] = [(0, 1), (65_532, 1), (65_533, 2), (65_540, 2)];

/// A disk reads ahead, until a byte is written.
fn see_reads<R: Abort, D: Disk>(rt: &R, disk: &mut D, calls: &Calls) {
    for (at, many) in READS.as_slice() {
        reads_after(rt, disk, *at, 0);
        assert!(rt; calls.reads.get() == *many, "{at}");
    }
    wants(rt, disk.size() == FILE_SIZE);
    wants_words(rt, told(write(rt, disk, 65_541, &[7])), "ok");
    reads_after(rt, disk, 65_540, 7);
    wants(rt, calls.reads.get() == 3);
}

/// A disk in a file of that name reads ahead under a window.
fn see_window<R: Abort, F: Files + Alloc>(
    rt: &R,
    alloc: Global,
    files: &F,
    name: &str,
    calls: &Calls,
)
where
    F::File: HeldFile,
{
    let mut disk = Window::new(alloc, FileDisk::new(files, name));
    see_reads(rt, &mut disk, calls);
}

#[test]
fn a_window_reads_ahead_and_forgets_at_a_write(rt: HostRuntime) {
    let name = "rm_disk_window.store";
    let _ = fs::remove_file(&rt, name);
    let calls = Calls::new();
    let files = Recorded {
        files: &rt,
        calls: &calls,
    };
    see_window(&rt, rt.alloc(), &files, name, &calls);
    remove_file(&rt, name);
}

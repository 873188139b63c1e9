//! What the tests share: disks of memory, files, what calls of a disk answer, and how values are compared.
use rm_disk::{Disk, DiskError, FileDisk, MemDisk};
use rm_types::Items;
use std::alloc::Global;
use std::fs;
use std::fs::Files;
use std::process::Abort;

/// How many bytes a disk in a file has.
pub const FILE_SIZE: u64 = 4_194_304;

pub fn wants<R: Abort>(rt: &R, is_so: bool) {
    assert!(rt; is_so);
}

/// The words that were found are those that were wanted.
pub fn wants_words<R: Abort>(rt: &R, found: &str, wanted: &str) {
    assert!(rt; found == wanted, "`{found}` in place of `{wanted}`");
}

/// A disk of these bytes, whose calls with these numbers fail.
pub fn disk_of<R: Abort>(rt: &R, alloc: Global, bytes: Vec<u8>, failing: &[u64]) -> MemDisk {
    let failing = Items::from_vec(failing.to_vec(alloc).expect(rt, "memory"));
    MemDisk::of(alloc, Items::from_vec(bytes), failing).expect(rt, "memory")
}

/// A disk of so many of a byte, whose calls with these numbers fail.
pub fn filled<R: Abort>(rt: &R, alloc: Global, byte: u8, size: usize, failing: &[u64]) -> MemDisk {
    let bytes = vec![in alloc; byte; size].expect(rt, "memory");
    disk_of(rt, alloc, bytes, failing)
}

/// What a call of a disk answers.
pub fn told(answer: Result<(), DiskError>) -> &'static str {
    match answer {
        Ok(()) => "ok",
        Err(DiskError::DiskFault) => "disk fault",
        Err(DiskError::Memory) => "no memory",
    }
}

/// Writes bytes to a disk that has room for them behind a place.
pub fn write<R: Abort, D: Disk>(
    rt: &R,
    disk: &mut D,
    at: u64,
    bytes: &[u8],
) -> Result<(), DiskError> {
    let size = disk.size();
    assert!(rt; at <= size && bytes.len() as u64 <= size - at);
    disk.write(at, bytes)
}

/// Reads bytes of a disk that has as many behind a place.
pub fn read<R: Abort, D: Disk>(rt: &R, disk: &mut D, at: u64, into: &mut [u8]) {
    let size = disk.size();
    assert!(rt; at <= size && into.len() as u64 <= size - at);
    assert!(rt; disk.read(at, into).is_ok());
}

/// Why a disk in a file can't be used, or nothing where it can.
pub fn refusal<R: Abort>(rt: &R, files: HostRuntime, name: &str) -> String {
    let mut disk = FileDisk::new(&files, name);
    let _ = disk.sync();
    last_words(rt, files, &disk)
}

/// A disk in a file can't be used for this reason, or can where there is none.
pub fn refuses<R: Abort>(rt: &R, files: HostRuntime, name: &str, wanted: &str) {
    wants_words(rt, refusal(rt, files, name).as_str(), wanted);
}

/// A file has these bytes.
pub fn holds<R: Abort>(rt: &R, files: HostRuntime, name: &str, wanted: &[u8]) {
    wants(rt, file_bytes(rt, files, name).as_slice() == wanted);
}

/// Why a disk in a file last failed, or nothing.
pub fn last_words<R: Abort>(
    rt: &R,
    files: HostRuntime,
    disk: &FileDisk<'_, HostRuntime>,
) -> String {
    match disk.last_fault() {
        Some(cause) => format!(in files.alloc(); "{cause}").expect(rt, "memory"),
        None => String::new(files.alloc()),
    }
}

/// The bytes of a file.
pub fn file_bytes<R: Abort>(rt: &R, files: HostRuntime, name: &str) -> Vec<u8> {
    fs::read(&files, name).expect(rt, "the file is read")
}

pub fn write_file<R: Abort + Files>(rt: &R, name: &str, bytes: &[u8]) {
    fs::write(rt, name, bytes).expect(rt, "the file is written");
}

pub fn remove_file<R: Abort + Files>(rt: &R, name: &str) {
    fs::remove_file(rt, name).expect(rt, "the file is removed");
}

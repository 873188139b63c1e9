use crate::causes::{Failure, FileFault};
use crate::draft::make;
use crate::scan::Scan;
use rm_formats::STORE_SIZE;
use std::alloc::Alloc;
use std::fs::{File, Files, Metadata, OpenFile, OpenOptions, TryLockError};
use std::io::ErrorKind;
use std::os::unix::fs::{FileExt, MetadataExt};
use std::{fs, io};

/// How many bytes are read or written at once where a whole file is.
pub const BLOCK: usize = 16_384;

// How often an interrupted call is tried again before it counts as failed.
const MOST_TRIES: u32 = 1_000_000;

/// An open file as a disk uses it.
pub trait HeldFile: FileExt {
    /// Holds the file against every other opening of it, by any process, until it is closed.
    fn hold(&self) -> Result<(), FileFault>;
}

impl HeldFile for File {
    fn hold(&self) -> Result<(), FileFault> {
        match self.try_lock() {
            Ok(()) => Ok(()),
            Err(TryLockError::WouldBlock) => Err(FileFault::InUse),
            Err(TryLockError::Error(error)) => Err(FileFault::System(error)),
        }
    }
}

/// A file that is held, and whether it was made for that.
#[derive(Drop)]
pub struct Opened<F: Drop> {
    pub file: F,
    pub is_new: bool,
}

/// Opens the file of that name, or of the name that a link leads to, and holds it; or makes it where there is none. Either
/// way its name lasts afterwards: who made it may have died before that.
pub fn open_or_make<R: Files + Alloc>(runtime: &R, name: &str) -> Result<Opened<R::File>, Failure>
where
    R::File: HeldFile,
{
    let found = OpenOptions::new()
        .read(true)
        .write(true)
        .open(runtime, name);
    let opened = match found {
        Ok(file) => Opened {
            file: whole(file)?,
            is_new: false,
        },
        Err(error) if error.kind() == ErrorKind::NotFound => Opened {
            file: make(runtime, name)?,
            is_new: true,
        },
        Err(error) => return Err(Failure::from(error)),
    };
    sync_folder(runtime, name).map_err(Failure::of_folder)?;
    Ok(opened)
}

// Holds the file, which must have the length of a disk, and bytes that a store may have left.
fn whole<F: HeldFile + OpenFile + Drop>(file: F) -> Result<F, FileFault> {
    file.hold()?;
    let length = file.metadata()?.len();
    if length != STORE_SIZE {
        return Err(FileFault::OtherLength { length });
    }
    refuse_foreign(&file)?;
    Ok(file)
}

// What stands behind the open first gate of a half is for the reader of the records to judge.
fn refuse_foreign<F: FileExt>(file: &F) -> Result<(), FileFault> {
    let mut scan = Scan::new(STORE_SIZE as usize);
    let mut block = [0; BLOCK];
    'blocks: for part in 0..STORE_SIZE / BLOCK as u64 {
        file.read_exact_at(&mut block, part * BLOCK as u64)?;
        scan.see(&block);
        if scan.is_open() {
            break;
        }
    }
    if scan.may_be_store() {
        Ok(())
    } else {
        Err(FileFault::NoStore)
    }
}

/// What has that name, a link in place of what it leads to.
pub fn look<R: Files>(runtime: &R, name: &str) -> io::Result<Option<Metadata>> {
    match fs::symlink_metadata(runtime, name) {
        Ok(found) => Ok(Some(found)),
        Err(error) if error.kind() == ErrorKind::NotFound => Ok(None),
        Err(error) => Err(error),
    }
}

/// Whether two names or openings are of one file.
pub fn is_same(one: &Metadata, other: &Metadata) -> bool {
    one.dev() == other.dev() && one.ino() == other.ino()
}

/// Lets what was written to the file of that name last, and refuses a file that lost its name or its length.
///
/// The look comes behind the sync: where both succeed, what was written lasted and could then be found under the name. A look
/// before it would miss a file that went while it was synced.
pub fn sync_named<R: Files>(runtime: &R, file: &R::File, name: &str) -> Result<(), FileFault> {
    sync_bytes(file)?;
    let named = match fs::metadata(runtime, name) {
        Ok(named) => named,
        Err(error) if error.kind() == ErrorKind::NotFound => return Err(FileFault::Removed),
        Err(error) => return Err(FileFault::System(error)),
    };
    let own = file.metadata()?;
    if !is_same(&own, &named) {
        return Err(FileFault::Replaced);
    }
    let length = own.len();
    if length != STORE_SIZE {
        return Err(FileFault::Resized { length });
    }
    Ok(())
}

// Lets the names in the folder of a file last.
fn sync_folder<R: Files>(runtime: &R, name: &str) -> io::Result<()> {
    let folder = OpenOptions::new()
        .read(true)
        .open(runtime, folder_of(name))?;
    sync_whole(&folder)
}

/// The folder in which the file of that name stands.
pub fn folder_of(name: &str) -> &str {
    match name.rsplit_once('/') {
        Some(("", _)) => "/",
        Some((folder, _)) => folder,
        None => ".",
    }
}

// Whether a call was interrupted, so that it has to be made again.
fn was_interrupted(outcome: &io::Result<()>) -> bool {
    match outcome {
        Ok(()) => false,
        Err(error) => error.kind() == ErrorKind::Interrupted,
    }
}

// Lets what was written last.
fn sync_bytes<F: OpenFile>(file: &F) -> io::Result<()> {
    let mut outcome = file.sync_data();
    'again: for _ in 0..MOST_TRIES {
        if !was_interrupted(&outcome) {
            break;
        }
        outcome = file.sync_data();
    }
    outcome
}

/// Lets a file or a folder last.
pub fn sync_whole<F: OpenFile>(file: &F) -> io::Result<()> {
    let mut outcome = file.sync_all();
    'again: for _ in 0..MOST_TRIES {
        if !was_interrupted(&outcome) {
            break;
        }
        outcome = file.sync_all();
    }
    outcome
}

/// Gives a file the length of a disk.
pub fn set_size<F: OpenFile>(file: &F) -> io::Result<()> {
    let mut outcome = file.set_len(STORE_SIZE);
    'again: for _ in 0..MOST_TRIES {
        if !was_interrupted(&outcome) {
            break;
        }
        outcome = file.set_len(STORE_SIZE);
    }
    outcome
}

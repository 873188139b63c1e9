use crate::causes::{DRAFT_ENDING, Failure, FileFault};
use crate::held::{BLOCK, HeldFile, is_same, look, set_size, sync_whole};
use rm_formats::STORE_SIZE;
use std::alloc::Alloc;
use std::fs::{Files, OpenFile, OpenOptions};
use std::io::ErrorKind;
use std::os::unix::fs::{FileExt, OpenOptionsExt};
use std::{fs, io};

// The mode of a file that its owner alone reads and writes.
const OWNER_ALONE: u32 = 0o600;

/// Makes the file of that name under another one, the draft, whole and lasting, before it gets its own. So at each moment there
/// is no file of that name or a whole one, and from then on a sync of the bytes alone serves.
pub fn make<R: Files + Alloc>(runtime: &R, name: &str) -> Result<R::File, Failure>
where
    R::File: HeldFile,
{
    if matches!(look(runtime, name)?, Some(found) if found.is_symlink()) {
        return Err(Failure::from(FileFault::LeadsNowhere));
    }
    let Ok(draft) = format!(in runtime.alloc(); "{name}{DRAFT_ENDING}") else {
        return Err(Failure::of_draft(FileFault::Memory));
    };
    make_of(runtime, draft.as_str(), name).map_err(Failure::of_draft)
}

// Makes the file of a draft, which goes where that fails.
fn make_of<R: Files>(runtime: &R, draft: &str, name: &str) -> Result<R::File, FileFault>
where
    R::File: HeldFile,
{
    let file = new_draft(runtime, draft)?;
    file.hold()?;
    // Before it was held, another maker may have taken it for one that was left.
    if !has_name(runtime, &file, draft)? {
        return Err(FileFault::InUse);
    }
    let outcome = complete(runtime, &file, draft, name);
    if outcome.is_err() {
        let _ = fs::remove_file(runtime, draft);
    }
    outcome?;
    Ok(file)
}

// Fills a draft that is held, and gives it the name of the file, unless another maker made that file meanwhile.
fn complete<R: Files>(runtime: &R, file: &R::File, draft: &str, name: &str) -> Result<(), FileFault>
where
    R::File: HeldFile,
{
    if look(runtime, name)?.is_some() {
        return Err(FileFault::InUse);
    }
    fill(file)?;
    sync_whole(file)?;
    fs::rename(runtime, draft, name)?;
    Ok(())
}

// Makes the draft anew.
fn new_draft<R: Files>(runtime: &R, draft: &str) -> Result<R::File, FileFault>
where
    R::File: HeldFile,
{
    match create(runtime, draft) {
        Err(error) if error.kind() == ErrorKind::AlreadyExists => {
            remove_left(runtime, draft)?;
            Ok(create(runtime, draft)?)
        }
        created => Ok(created?),
    }
}

// Makes a file where nothing has its name, not even a link.
fn create<R: Files>(runtime: &R, draft: &str) -> io::Result<R::File> {
    OpenOptions::new()
        .read(true)
        .write(true)
        .create_new(true)
        .mode(OWNER_ALONE)
        .open(runtime, draft)
}

// Removes the draft that a maker left which was killed: a plain file that nobody holds. While it is held here, no maker
// takes its name away.
fn remove_left<R: Files>(runtime: &R, draft: &str) -> Result<(), FileFault>
where
    R::File: HeldFile,
{
    if !fs::symlink_metadata(runtime, draft)?.is_file() {
        return Err(FileFault::NotPlain);
    }
    let file = OpenOptions::new().read(true).open(runtime, draft)?;
    file.hold()?;
    if !has_name(runtime, &file, draft)? {
        return Err(FileFault::InUse);
    }
    fs::remove_file(runtime, draft)?;
    Ok(())
}

// Whether a file has that name itself, and not by a link.
fn has_name<R: Files>(runtime: &R, file: &R::File, name: &str) -> io::Result<bool> {
    let own = file.metadata()?;
    match look(runtime, name)? {
        Some(named) => Ok(is_same(&own, &named)),
        None => Ok(false),
    }
}

// Gives the file its size, with all bytes 0. They are written, so that no later write has to find room for them.
fn fill<F: OpenFile + FileExt>(file: &F) -> io::Result<()> {
    let zeros = [0; BLOCK];
    'parts: for part in 0..STORE_SIZE / BLOCK as u64 {
        file.write_all_at(&zeros, part * BLOCK as u64)?;
    }
    set_size(file)
}

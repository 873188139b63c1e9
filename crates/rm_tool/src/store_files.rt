ghost use Rattle.std.specs.Prelude.{◌≡◌, ◌≤◌, ◌-◌, ◌++◌, None, OnOk, IfOk, length, take, replicate};
ghost use Rattle.rm_tool.specs.Runs.{brought_to_size};

use rm_disk::{FileFault, HeldFile};
use rm_formats::STORE_SIZE;
use rm_outside::{MOST_READ, Shelf, ShelfError};
use rm_types::NoMemory;
use std::fs;
use std::io::{ErrorKind, Read};
use std::marker::Model;
use std::rt::Files;

/// The system's files as a shelf for stores, whose names are their paths: each is held while it is read, so that none is read that the
/// manager has open. It tells no bytes: contracts see the count of its faults alone.
#[derive(Drop)]
pub struct StoreShelf<R> {
    rt: R,
    faults: u64,
    last_fault: Option<FileFault>,
}

impl<R> Model for StoreShelf<R> {
    ghost use Rattle.std.specs.Prelude.{ℕ};

    ghost Value = { ℕ };

    ghost view = { λ s. s.faults };
}

impl<R> StoreShelf<R> {
    /// A shelf with no fault so far. It opens nothing.
    pub fn new(rt: R) -> StoreShelf<R>
        ensures { result ≡ 0 }
    {
        StoreShelf {
            rt,
            faults: 0,
            last_fault: None,
        }
    }

    /// Why the last read that failed did so. Contracts don't see it.
    pub fn last_fault(&self) -> Option<&FileFault> {
        self.last_fault.as_ref()
    }
}

impl<R: Files + AllocGlobal> Shelf for StoreShelf<R>
where
    R::File: HeldFile,
{
    ghost use Rattle.rm_outside.specs.Shelves.{shelf_faults};

    ghost bytes_of = { λ _ _. None };

    ghost faults = { λ faults. faults };

    ghost reads = { λ _ _ _. Unit {0} };

    /// `Failed` comes where the file can't be opened, is in use or can't be read, and `Memory` where no memory was found for that or for its
    /// bytes.
    fn read(&mut self, name: &str) -> Result<Vec<u8>, ShelfError>
        ensures most { IfOk result (λ bytes. length bytes.items ≤ MOST_READ) }
        ensures after { self.new ≡ shelf_faults self.old result }
        ensures one { Unit {0} }
        ensures never_falls { self.old ≤ self.new }
    {
        match read_held(&self.rt, name) {
            Ok(bytes) => Ok(bytes),
            Err(FileFault::System(error)) if error.kind() == ErrorKind::OutOfMemory => {
                Err(ShelfError::Memory)
            }
            Err(fault) => {
                self.last_fault = Some(fault);
                self.faults = self.faults.saturating_add(1);
                Err(ShelfError::Failed)
            }
        }
    }
}

/// Opens and holds a file, and reads as much of it as a read gives.
fn read_held<R: Files + AllocGlobal>(rt: &R, name: &str) -> Result<Vec<u8>, FileFault>
where
    R::File: HeldFile,
    ensures { IfOk result (λ bytes. length bytes.items ≤ MOST_READ) }
{
    let file = fs::open(rt, name)?;
    file.hold()?;
    let mut bytes = Vec::new(rt.alloc());
    file.take(MOST_READ as u64).read_to_end(&mut bytes)?;
    bytes.truncate(MOST_READ);
    Ok(bytes)
}

/// Brings bytes to the size of a store: what is behind is left out, and zeros stand for what is missing.
pub(crate) fn bring_to_size(bytes: &mut Vec<u8>) -> Result<(), NoMemory>
    ensures { OnOk result (bytes.new.items ≡ brought_to_size bytes.old.items) }
{
    bytes.resize(STORE_SIZE as usize, 0)?;
    Ok(())
}

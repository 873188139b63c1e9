ghost use Rattle.std.specs.Prelude.{◌≡◌, ◌≤◌, None, length, IfOk};

use crate::shelves::{MOST_READ, Shelf, ShelfError};
use std::io::{ErrorKind, Read};
use std::marker::Model;
use std::rt::Files;
use std::{fs, io};

/// The system's files as a shelf, whose names are their paths. It tells no bytes: contracts see the
/// count of its faults alone. It keeps a copy of what it read last, for who wants to tell what is wrong with it.
#[derive(Drop)]
pub struct FileShelf<R> {
    rt: R,
    faults: u64,
    answered: u64,
    last_read: Option<Vec<u8>>,
    last_fault: Option<io::Error>,
}

impl<R> Model for FileShelf<R> {
    ghost use Rattle.std.specs.Prelude.{ℕ};

    ghost Value = { ℕ };

    ghost view = { λ s. s.faults };
}

impl<R> FileShelf<R> {
    /// A shelf with no fault so far. It opens nothing.
    pub fn new(rt: R) -> FileShelf<R>
        ensures { result ≡ 0 }
    {
        FileShelf {
            rt,
            faults: 0,
            answered: 0,
            last_read: None,
            last_fault: None,
        }
    }
}

impl<R> FileShelf<R> {
    /// How many calls failed.
    pub fn faults(&self) -> u64
        ensures { result ≡ self.now }
    {
        self.faults
    }

    /// How many reads were answered with bytes, for who wants to tell which one wasn't. Contracts don't see it.
    pub fn answered(&self) -> u64 {
        self.answered
    }

    /// What the last read that was answered gave; no bytes where there was none, or no memory for a copy. Contracts don't
    /// see it.
    pub fn last_read(&self) -> &[u8] {
        match &self.last_read {
            Some(bytes) => bytes.as_slice(),
            None => &[],
        }
    }

    /// Why the last read that failed did so. Contracts don't see it.
    pub fn last_fault(&self) -> Option<&io::Error> {
        self.last_fault.as_ref()
    }
}

impl<R: Files + AllocGlobal> Shelf for FileShelf<R> {
    ghost use Rattle.rm_outside.specs.Shelves.{shelf_faults};

    ghost bytes_of = { λ _ _. None };

    ghost faults = { λ faults. faults };

    ghost reads = { λ _ _ _. Unit {0} };

    /// `Failed` comes where the file can't be opened or read, and `Memory` where no memory was found for
    /// that or for its bytes.
    fn read(&mut self, name: &str) -> Result<Vec<u8>, ShelfError>
        ensures most { IfOk result (λ bytes. length bytes.items ≤ MOST_READ) }
        ensures after { self.new ≡ shelf_faults self.old result }
        ensures one { Unit {0} }
        ensures never_falls { self.old ≤ self.new }
    {
        match read_part(&self.rt, name) {
            Ok(bytes) => {
                self.answered = self.answered.saturating_add(1);
                self.last_read = Vec::from_slice(self.rt.alloc(), bytes.as_slice()).ok();
                Ok(bytes)
            }
            Err(error) if error.kind() == ErrorKind::OutOfMemory => Err(ShelfError::Memory),
            Err(error) => {
                self.last_fault = Some(error);
                self.faults = self.faults.saturating_add(1);
                Err(ShelfError::Failed)
            }
        }
    }
}

/// Opens a file and reads as much of it as a read gives, so that a longer one takes no more memory.
fn read_part<R: Files + AllocGlobal>(rt: &R, name: &str) -> io::Result<Vec<u8>>
    ensures { IfOk result (λ bytes. length bytes.items ≤ MOST_READ) }
{
    let mut file = fs::open(rt, name)?.take(MOST_READ as u64);
    let mut bytes = Vec::new(rt.alloc());
    file.read_to_end(&mut bytes)?;
    // `take` keeps to this already, but no clause of a reader of unknown bytes says so.
    bytes.truncate(MOST_READ);
    Ok(bytes)
}

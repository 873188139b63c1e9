ghost use Rattle.std.specs.Prelude.{◌≡◌, ◌≤◌, ◌⊎◌, ◌↔◌, ℕ, List, Option, Contains, length, take, IsNone, IfOk, IfSome, OnOk};
ghost use Rattle.std.specs.Option.{option_map};
ghost use Rattle.rm_types.specs.Counts.{risen, Rose};
ghost use Rattle.rm_outside.specs.Shelves.{bytes_of_name, bytes_read};

use crate::calls::Calls;
use rm_formats::MOST_FILE_BYTES;
use rm_types::{Items, Text};
use std::alloc::Global;
use std::marker::Model;
use thiserror::Error;

/// The most bytes that a read gives of a file: one more than the bytes up to which it gives the whole file.
pub const MOST_READ: usize = MOST_FILE_BYTES + 1;

/// Why a file wasn't read.
#[derive(Clone, Copy, Debug, PartialEq, Eq, Error)]
pub enum ShelfError {
    /// The file isn't there, or the device refused. The count of faults rose.
    #[error("the file could not be read")]
    Failed,
    /// No memory was found for the bytes.
    #[error("out of memory")]
    Memory,
}

/// Where files are read from.
///
/// A shelf may tell the bytes of a name, and it counts its faults. A count that rises stands still at
/// 2^64 - 1.
pub trait Shelf {
    /// The bytes of a name, where the shelf tells them.
    ghost bytes_of: { Self → List ℕ → Option (List ℕ) };

    /// How many calls failed.
    ghost faults: { Self → ℕ };

    /// What one read of the file of a name does to the shelf, whether it succeeds or not. Generic code passes
    /// it on, so that its callers learn which names were read.
    ghost reads: { List ℕ → Self → Self → Type 0 };

    /// Reads a file by its name: all its bytes up to 16,777,216, and the first 16,777,217 of a longer
    /// one, so that a caller can tell that it is too long.
    ///
    /// `Failed` comes only where the count of faults rose, and `Memory` only for want of memory. A read
    /// changes nothing but that count, and the count changes by `Failed` alone.
    fn read(&mut self, name: &str) -> Result<Vec<u8>, ShelfError>
        ensures bytes { IfOk result (λ bytes. IfSome (bytes_of self.old name.now) (λ all. bytes.items ≡ bytes_read all)) }
        ensures most { IfOk result (λ bytes. length bytes.items ≤ MOST_READ) }
        ensures told { bytes_of self.new ≡ bytes_of self.old }
        ensures one { reads name.now self.old self.new }
        ensures never_falls { faults self.old ≤ faults self.new }
        ensures failed { result ≡ Err ShelfError.Failed → Rose (faults self.old) (faults self.new) }
        ensures ok { OnOk result (faults self.new ≡ faults self.old) }
        ensures memory { result ≡ Err ShelfError.Memory → faults self.new ≡ faults self.old };
}

/// A file in memory.
#[derive(Drop)]
pub struct NamedFile {
    /// The name that a read gives.
    pub name: Text,
    /// Its bytes.
    pub bytes: Items<u8>,
}

/// A shelf in memory, which fails where it is told to. It tells the bytes of each name that it holds.
#[derive(Drop)]
pub struct MemShelf {
    alloc: Global,
    files: Items<NamedFile>,
    calls: Calls,
    faults: u64,
}

impl Model for MemShelf {
    ghost use Rattle.rm_outside.specs.Shelves.{MemShelfState};

    ghost Value = { MemShelfState };

    ghost view = { λ s. record { files = s.files; failing = s.calls.failing; calls = s.calls.made; faults = s.faults } };
}

impl MemShelf {
    /// A shelf of these files, of which the first of a name counts. The calls of these numbers fail,
    /// counted from 1. It has no call and no fault so far.
    pub fn new(alloc: Global, files: Items<NamedFile>, failing: Items<u64>) -> MemShelf
        ensures { result ≡ record { files = files; failing = failing; calls = 0; faults = 0 } }
    {
        MemShelf {
            alloc,
            files,
            calls: Calls { failing, made: 0 },
            faults: 0,
        }
    }

    /// Counts a fault, and gives the error that says so.
    fn fault(&mut self) -> ShelfError
        ensures error { result ≡ ShelfError.Failed }
        ensures counted { self.new ≡ record self.old { faults = risen self.old.faults } }
        ensures never_falls { self.old.faults ≤ self.new.faults }
    {
        self.faults = self.faults.saturating_add(1);
        ShelfError::Failed
    }
}

impl Shelf for MemShelf {
    ghost use Rattle.rm_outside.specs.Shelves.{shelf_after, IsRead};

    ghost bytes_of = { λ s name. bytes_of_name s.files name };

    ghost faults = { λ s. s.faults };

    ghost reads = { λ name old new. IsRead name old new };

    /// `Failed` comes exactly where the call's number is among those that fail, or the shelf holds no
    /// file of the name. Each answer counts as a call.
    fn read(&mut self, name: &str) -> Result<Vec<u8>, ShelfError>
        ensures bytes { IfOk result (λ bytes. option_map bytes_read (bytes_of_name self.old.files name.now) ≡ Some bytes.items) }
        ensures failed { (result ≡ Err ShelfError.Failed) ↔ (Contains self.old.failing (risen self.old.calls) ⊎ IsNone (bytes_of_name self.old.files name.now)) }
        ensures after { self.new ≡ shelf_after self.old result }
        ensures one { IsRead name.now self.old self.new }
        ensures most { IfOk result (λ bytes. length bytes.items ≤ MOST_READ) }
        ensures never_falls { self.old.faults ≤ self.new.faults }
    {
        if self.calls.next_fails() {
            return Err(self.fault());
        }
        match copy_of(self.alloc, self.files.as_slice(), name.as_bytes()) {
            Ok(bytes) => Ok(bytes),
            Err(ShelfError::Failed) => Err(self.fault()),
            Err(ShelfError::Memory) => Err(ShelfError::Memory),
        }
    }
}

/// The bytes of the first file of a name.
fn bytes_of_name<'a>(files: &'a [NamedFile], name: &[u8]) -> Option<&'a [u8]>
    ensures { option_map (λ bytes. bytes.now) result ≡ bytes_of_name files.now name.now }
{
    let file = files.iter().find(|file| file.name.bytes() == name)?;
    Some(file.bytes.as_slice())
}

/// A copy of what a read gives of the first file of a name. `Failed` comes exactly where there is none.
fn copy_of(alloc: Global, files: &[NamedFile], name: &[u8]) -> Result<Vec<u8>, ShelfError>
    ensures bytes { IfOk result (λ bytes. option_map bytes_read (bytes_of_name files.now name.now) ≡ Some bytes.items) }
    ensures most { IfOk result (λ bytes. length bytes.items ≤ MOST_READ) }
    ensures failed { (result ≡ Err ShelfError.Failed) ↔ IsNone (bytes_of_name files.now name.now) }
{
    let Some(bytes) = bytes_of_name(files, name) else {
        return Err(ShelfError::Failed);
    };
    match Vec::from_slice(alloc, first_bytes(bytes, MOST_READ)) {
        Ok(copy) => Ok(copy),
        Err(_) => Err(ShelfError::Memory),
    }
}

/// The first bytes of these, at most so many.
fn first_bytes(bytes: &[u8], most: usize) -> &[u8]
    ensures first { result.now ≡ take most bytes.now }
    ensures most { length result.now ≤ most }
{
    if bytes.len() <= most {
        bytes
    } else {
        &bytes[..most]
    }
}

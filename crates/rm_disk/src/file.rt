ghost use Rattle.std.specs.Prelude.{◌≡◌, ◌+◌, ◌≤◌, ℕ, None, length, IsSome, IsOk, OnOk, IsErrOf, is_ok, IfErr, option_map};
ghost use Rattle.rm_disk.specs.Disk.{put, IsAsBefore, IsDurable, IsQuiet, MayWrite};
ghost use Rattle.rm_types.specs.Counts.{Rose};

use crate::causes::{Failure, FileCause, FileFault};
use crate::device::{Disk, DiskError};
use crate::held::{HeldFile, Opened, open_or_make, sync_named};
use rm_formats::STORE_SIZE;
use std::alloc::Alloc;
use std::fs::Files;
use std::marker::Model;
use std::os::unix::fs::FileExt;

/// A disk of 4,194,304 bytes in a file.
///
/// It tells no bytes: no proof says what a file holds. Each read and each write is one call of the system at an
/// offset, and a sync is the system's `fdatasync`; none of them takes memory. A call that the system says was
/// interrupted is tried again. While the file is open no other disk opens it. A sync fails too where the file lost its name
/// or its length since it was opened. Contracts see of a disk in a file how often it failed.
pub struct FileDisk<'a, R: Files> {
    runtime: &'a R,
    name: &'a str,
    file: Option<R::File>,
    made: bool,
    lost: bool,
    faults: u64,
    last_failure: Option<Failure>,
}

impl<R: Files> Drop for FileDisk<'_, R> {
    fn drop(self) {
        let FileDisk {
            runtime: _,
            name: _,
            file: _,
            made: _,
            lost: _,
            faults: _,
            last_failure: _,
        } = self;
    }
}

impl<'a, R: Files + Alloc> FileDisk<'a, R>
where
    R::File: HeldFile,
{
    /// The disk in the file of that name. The file is opened, or made with all bytes 0, at the first read,
    /// write or sync; a failure there, a file of another length, or one with bytes that no store can have left, is a fault
    /// of that call, and leaves the file as it is.
    pub fn new(runtime: &'a R, name: &'a str) -> FileDisk<'a, R>
        ensures { (⟦<FileDisk<'a, R> as Disk>⟧.view result).faults ≡ 0 }
    {
        FileDisk {
            runtime,
            name,
            file: None,
            made: false,
            lost: false,
            faults: 0,
            last_failure: None,
        }
    }

    /// Why the last call that failed did so.
    pub fn last_fault(&self) -> Option<FileCause<'_>> {
        let Some(Failure { subject, fault }) = &self.last_failure else {
            return None;
        };
        Some(FileCause {
            name: self.name,
            subject: *subject,
            fault,
        })
    }

    /// Whether the file was made by this disk.
    pub fn made_new(&self) -> bool {
        self.made
    }

    // Opens or makes the file, if that was not done yet.
    fn open(&mut self) -> Result<(), Failure>
        ensures same { self.new.faults ≡ self.old.faults }
        ensures opened { OnOk result (IsSome self.new.file) }
    {
        if self.file.is_none() {
            let Opened { file, is_new } = open_or_make(self.runtime, self.name)?;
            self.file = Some(file);
            self.made = is_new;
        }
        Ok(())
    }

    fn try_read(&mut self, at: u64, into: &mut [u8]) -> Result<(), Failure>
        ensures { self.new.faults ≡ self.old.faults }
    {
        self.open()?;
        self.file.as_ref().unwrap().read_exact_at(into, at)?;
        Ok(())
    }

    fn try_write(&mut self, at: u64, bytes: &[u8]) -> Result<(), Failure>
        ensures { self.new.faults ≡ self.old.faults }
    {
        self.open()?;
        self.file.as_ref().unwrap().write_all_at(bytes, at)?;
        Ok(())
    }

    // After a sync that failed the system may have forgotten what it could not write, and the next one would
    // not tell: so each later one fails too.
    fn try_sync(&mut self) -> Result<(), Failure>
        ensures { self.new.faults ≡ self.old.faults }
    {
        self.open()?;
        if self.lost {
            return Err(Failure::from(FileFault::Lost));
        }
        let outcome = sync_named(self.runtime, self.file.as_ref().unwrap(), self.name);
        self.lost = outcome.is_err();
        outcome?;
        Ok(())
    }

    // Counts a failure as a fault, and keeps its cause.
    fn counted(&mut self, outcome: Result<(), Failure>) -> Result<(), DiskError>
        ensures later { self.old.faults ≤ self.new.faults }
        ensures fault { IsErrOf result DiskError.DiskFault → Rose self.old.faults self.new.faults }
        ensures memory { IsErrOf result DiskError.Memory → ⊥ }
    {
        match outcome {
            Ok(()) => Ok(()),
            Err(why) => {
                self.last_failure = Some(why);
                self.faults = self.faults.saturating_add(1);
                Err(DiskError::DiskFault)
            }
        }
    }
}

impl<R: Files + Alloc> Disk for FileDisk<'_, R>
where
    R::File: HeldFile,
{
    ghost use Rattle.rm_disk.specs.FileDisk.{file_view};
    ghost use Rattle.rm_disk.specs.Faults.{rose_later};

    ghost view = { λ d. file_view d.faults };

    ghost keeps = { λ _ _ _. Unit {0} };

    ghost keeps_same = { λ _ _. tt };

    ghost keeps_on = { λ one two first second third _ _. tt };

    ghost counted = { λ _. 0 };

    ghost faulted = { λ d e. Rose (file_view d.faults).faults (file_view e.faults).faults };

    ghost falls_to = { λ image d e. e ≡ d };

    ghost faulted_later = { λ succeeds first second third _ le rose. rose_later first.faults second.faults third.faults le rose };

    ghost faulted_counts = { λ first second rose. rose };

    ghost image_size = { λ d image never. absurd never };

    ghost as_it_reads = { λ d bytes never. Prim.cc };

    ghost counts_now = { λ d from image le never. absurd never };

    ghost only_now = { λ d image never. absurd never };

    fn size(&self) -> u64 {
        STORE_SIZE
    }

    fn read(&mut self, at: u64, into: &mut [u8]) -> Result<(), DiskError> {
        let outcome = self.try_read(at, into);
        self.counted(outcome)
    }

    /// As the trait says, and never for want of memory.
    fn write(&mut self, at: u64, bytes: &[u8]) -> Result<(), DiskError>
        requires { at + length bytes.now ≤ (file_view self.old.faults).size }
        ensures written { OnOk result ((file_view self.new.faults).told ≡ option_map (put at bytes.now) (file_view self.old.faults).told) }
        ensures in_range { MayWrite at (length bytes.now) (file_view self.old.faults) (file_view self.new.faults) }
        ensures kept { Unit {0} }
        ensures counted { 0 ≤ 0 + 1 }
        ensures fault { IsErrOf result DiskError.DiskFault → Rose (file_view self.old.faults).faults (file_view self.new.faults).faults }
        ensures memory { IsErrOf result DiskError.Memory → IsAsBefore (file_view self.old.faults) (file_view self.new.faults) }
        ensures enough { IsErrOf result DiskError.Memory → ⊥ }
    {
        let outcome = self.try_write(at, bytes);
        self.counted(outcome)
    }

    /// As the trait says, and never for want of memory.
    fn sync(&mut self) -> Result<(), DiskError>
        ensures durable { OnOk result (IsDurable (file_view self.new.faults)) }
        ensures quiet { IsQuiet (file_view self.old.faults) (file_view self.new.faults) }
        ensures kept { Unit {0} }
        ensures counted { 0 ≤ 0 + 1 }
        ensures fault { IsErrOf result DiskError.DiskFault → Rose (file_view self.old.faults).faults (file_view self.new.faults).faults }
        ensures memory { IsErrOf result DiskError.Memory → IsAsBefore (file_view self.old.faults) (file_view self.new.faults) }
        ensures enough { IsErrOf result DiskError.Memory → ⊥ }
    {
        let outcome = self.try_sync();
        self.counted(outcome)
    }

    /// Does nothing: the file stays as it is.
    fn fall(&mut self, _image: u32) {}
}

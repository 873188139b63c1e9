use rm_disk::{FileCause, FileDisk, HeldFile, MemDisk};
use std::alloc::Alloc;
use std::fs::Files;

/// What a device tells people of itself. Contracts don't see it.
pub trait Described {
    /// Why the last call that failed did so, where it knows.
    fn last_fault(&self) -> Option<FileCause<'_>>;

    /// Whether its store is a file that was made for it.
    fn made_new(&self) -> bool;
}

impl<R: Files + Alloc> Described for FileDisk<'_, R>
where
    R::File: HeldFile,
{
    fn last_fault(&self) -> Option<FileCause<'_>> {
        FileDisk::last_fault(self)
    }

    fn made_new(&self) -> bool {
        FileDisk::made_new(self)
    }
}

impl Described for MemDisk {
    fn last_fault(&self) -> Option<FileCause<'_>> {
        None
    }

    fn made_new(&self) -> bool {
        false
    }
}

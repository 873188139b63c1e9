ghost use Rattle.std.specs.Prelude.{◌≡◌};

use rm_disk::{Disk, DiskError};
use std::marker::Model;

// How many more operations are kept from one line to the next.
const OPERATIONS_PER_LINE: u64 = 1000;

/// A disk that passes each call on to an inner one, and tells on standard error how many operations are kept so far,
/// in one line for each 1,000 of them.
///
/// It sees calls alone: a sync that succeeds behind the write of an open gate counts as one operation, but not behind the first
/// gate of an area, which is opened where that is written anew. A line that can't be written is lost, and changes no answer.
///
/// Contracts see of it the inner disk.
#[derive(Drop)]
pub struct Watched<'a, D, R> {
    device: D,
    rt: R,
    program: &'a str,
    operations: u64,
    is_opened: bool,
    tells: bool,
}

impl<'a, D, R> Model for Watched<'a, D, R> {
    ghost Value = { D };

    ghost view = { λ w. w.device };
}

impl<'a, D, R: Drop> Watched<'a, D, R> {
    /// A disk over this one, with nothing counted yet. Its lines begin with the path of the program; where it isn't
    /// to tell anything there are none.
    pub fn new(device: D, rt: R, program: &'a str, tells: bool) -> Watched<'a, D, R>
        ensures { result ≡ device }
    {
        Watched {
            device,
            rt,
            program,
            operations: 0,
            is_opened: false,
            tells,
        }
    }

    /// The inner disk, as the last call left it.
    pub fn inner(self) -> D
        ensures { result ≡ self.entry }
    {
        let Watched {
            device,
            rt: _,
            program: _,
            operations: _,
            is_opened: _,
            tells: _,
        } = self;
        device
    }
}

impl<D, R: Eprint> Watched<'_, D, R> {
    // Counts an operation whose open gate was made to last by a sync, and tells where it ends as many as a line stands for.
    fn count(&mut self)
        ensures { self.new ≡ self.old }
    {
        if !self.is_opened {
            return;
        }
        self.is_opened = false;
        self.operations = self.operations.saturating_add(1);
        if self.tells && self.operations % OPERATIONS_PER_LINE == 0 {
            let program = self.program.escape_default();
            let operations = self.operations;
            let _ = eprintln!(self.rt; "{program}: {operations} operations kept");
        }
    }
}

impl<D: Disk, R> Watched<'_, D, R> {
    // Notes whether a write opens the gate of an operation: it is one byte, 1, and not at the beginning of an area.
    fn note(&mut self, at: u64, bytes: &[u8])
        ensures { self.new ≡ self.old }
    {
        let is_first = at == 0 || at == self.device.size() / 2;
        self.is_opened = !is_first && bytes.len() == 1 && bytes[0] == 1;
    }
}

impl<D: Disk, R: Eprint> Disk for Watched<'_, D, R> {
    ghost view = { λ w. D.view w };

    ghost keeps = { λ succeeds w v. D.keeps succeeds w v };

    ghost keeps_same = { λ succeeds w. D.keeps_same succeeds w };

    ghost keeps_on = { λ one two x y z xy yz. D.keeps_on one two x y z xy yz };

    ghost counted = { λ w. D.counted w };

    ghost faulted = { λ w v. D.faulted w v };

    ghost falls_to = { λ image w v. D.falls_to image w v };

    ghost faulted_later = { λ succeeds x y z xy le yz. D.faulted_later succeeds x y z xy le yz };

    ghost faulted_counts = { λ x y fault. D.faulted_counts x y fault };

    ghost image_size = { λ w image is. D.image_size w image is };

    ghost as_it_reads = { λ w bytes told. D.as_it_reads w bytes told };

    ghost counts_now = { λ w from image le is. D.counts_now w from image le is };

    ghost only_now = { λ w image left. D.only_now w image left };

    fn size(&self) -> u64 {
        self.device.size()
    }

    fn read(&mut self, at: u64, into: &mut [u8]) -> Result<(), DiskError> {
        self.device.read(at, into)
    }

    fn write(&mut self, at: u64, bytes: &[u8]) -> Result<(), DiskError> {
        self.note(at, bytes);
        self.device.write(at, bytes)
    }

    fn sync(&mut self) -> Result<(), DiskError> {
        let outcome = self.device.sync();
        if outcome.is_ok() {
            self.count();
        }
        outcome
    }

    fn fall(&mut self, image: u32) {
        self.device.fall(image)
    }
}

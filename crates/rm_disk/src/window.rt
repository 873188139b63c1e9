ghost use Rattle.std.specs.Prelude.{◌≡◌, ◌+◌, ◌≤◌, length, take, drop, option_map, is_ok, OnOk, IsErrOf, IsTrue, ◌↔◌};
ghost use Rattle.rm_disk.specs.Window.{ShowsBytes};
ghost use Rattle.rm_disk.specs.Disk.{put, IfTold, IsDurable, IsQuiet, MayWrite, Falls, IsAsBefore};

use crate::device::{Disk, DiskError};
use std::alloc::Global;
use std::marker::Model;

// How many bytes are read ahead.
const WINDOW_SIZE: u64 = 65_536;

/// A disk that reads ahead of an inner one: where a read asks for bytes that it doesn't have, it reads 65,536 bytes of
/// the inner disk at once, or those to its end, and later reads among these make no call. A write or a fall lets them
/// go. Its memory is taken at the first read; where there is none, each read reaches the inner disk.
///
/// Contracts see of it the inner disk.
#[derive(Drop)]
pub struct Window<D: Disk> {
    inner: D,
    first: u64,
    bytes: Vec<u8>,
}

impl<D: Disk> Model for Window<D> {
    ghost use Rattle.rm_disk.specs.Window.{ShowsBytes};

    ghost Value = { D };

    ghost view = { λ w. w.inner };

    ghost invariant = { λ w. ShowsBytes (D.view w.inner) w.first w.bytes.items };
}

impl<D: Disk> Window<D> {
    /// A window over a disk, with nothing read yet.
    pub fn new(alloc: Global, inner: D) -> Window<D>
        ensures { result ≡ inner }
    {
        Window {
            inner,
            first: 0,
            bytes: Vec::new(alloc),
        }
    }

    /// The inner disk, as it is.
    pub fn inner(self) -> D
        ensures { result ≡ self }
    {
        let Window {
            inner,
            first: _,
            bytes: _,
        } = self;
        inner
    }
}

impl<D: Disk> Disk for Window<D> {
    ghost view = { λ w. D.view w };

    ghost keeps = { λ succeeds w v. D.keeps succeeds w v };

    ghost keeps_same = { λ succeeds w. D.keeps_same succeeds w };

    ghost keeps_on = { λ one two x y z xy yz. D.keeps_on one two x y z xy yz };

    ghost counted = { λ w. D.counted w };

    ghost faulted = { λ w v. D.faulted w v };

    ghost falls_to = { λ image w v. D.falls_to image w v };

    ghost faulted_later = { λ succeeds x y z xy le yz. D.faulted_later succeeds x y z xy le yz };

    ghost faulted_counts = { λ x y fault. D.faulted_counts x y fault };

    ghost image_size = { λ w image is. D.image_size w image is };

    ghost as_it_reads = { λ w bytes told. D.as_it_reads w bytes told };

    ghost counts_now = { λ w from image le is. D.counts_now w from image le is };

    ghost only_now = { λ w image left. D.only_now w image left };

    fn size(&self) -> u64 {
        self.inner.size()
    }

    fn read(&mut self, at: u64, into: &mut [u8]) -> Result<(), DiskError> {
        if shows(self.first, &self.bytes, at, into.len()) {
            copy_out(&self.bytes, (at - self.first) as usize, into);
            return Ok(());
        }
        self.first = at;
        read_ahead(&mut self.inner, at, &mut self.bytes)?;
        if into.len() <= self.bytes.len() {
            copy_out(&self.bytes, 0, into);
            return Ok(());
        }
        self.inner.read(at, into)
    }

    fn write(&mut self, at: u64, bytes: &[u8]) -> Result<(), DiskError> {
        self.bytes.clear();
        self.inner.write(at, bytes)
    }

    fn sync(&mut self) -> Result<(), DiskError> {
        self.inner.sync()
    }

    fn fall(&mut self, image: u32) {
        self.bytes.clear();
        self.inner.fall(image)
    }
}

// Whether so many bytes from a place on are among these, which stand from the first place on.
fn shows(first: u64, bytes: &[u8], at: u64, many: usize) -> bool
    ensures { IsTrue result ↔ (first ≤ at) × (at + many ≤ first + length bytes.now) }
{
    first <= at
        && at - first <= bytes.len() as u64
        && many as u64 <= bytes.len() as u64 - (at - first)
}

// Reads the bytes from a place on, as many as are read ahead; none where there is no memory for them.
fn read_ahead<D: Disk>(disk: &mut D, at: u64, bytes: &mut Vec<u8>) -> Result<(), DiskError>
    requires { at ≤ (D.view disk.old).size }
    ensures shows { ShowsBytes (D.view disk.new) at bytes.new.items }
    ensures kept { D.keeps (is_ok result) disk.old disk.new }
    ensures counted { D.counted disk.new ≤ D.counted disk.old }
    ensures quiet { IsQuiet (D.view disk.old) (D.view disk.new) }
    ensures fault { IsErrOf result DiskError.DiskFault → D.faulted disk.old disk.new }
    ensures memory { IsErrOf result DiskError.Memory → ⊥ }
{
    bytes.clear();
    let ahead = (disk.size() - at).min(WINDOW_SIZE);
    if bytes.resize(ahead as usize, 0).is_err() {
        return Ok(());
    }
    let outcome = disk.read(at, bytes.as_mut_slice());
    if outcome.is_err() {
        bytes.clear();
    }
    outcome
}

// Copies bytes out from a place on.
fn copy_out(bytes: &[u8], start: usize, into: &mut [u8])
    requires { start + length into.old ≤ length bytes.now }
    ensures { into.new ≡ take (length into.old) (drop start bytes.now) }
{
    into.copy_from_slice(&bytes[start..start + into.len()]);
}

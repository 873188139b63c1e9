ghost use Rattle.std.specs.Prelude.{◌≡◌, ◌≢◌, ◌+◌, ◌≤◌, false, length, take, drop, option_map, is_ok, OnOk, IsErrOf};
ghost use Rattle.rm_disk.specs.Disk.{put, IfTold, IsDurable, IsQuiet, MayWrite, Falls, IsAsBefore};

use crate::device::{Disk, DiskError};
use std::marker::Model;

/// A disk over an inner one, of which one write is torn: it writes the first half of its bytes, rounded down, and fails. All
/// other calls are those of the inner disk.
///
/// Its count of faults is the inner disk's and one for the torn write. A write that found no memory is none, torn or not: the next one
/// stands in its place.
#[derive(Drop)]
pub struct Torn<D: Disk> {
    inner: D,
    left: u64,
    torn: u64,
}

impl<D: Disk> Model for Torn<D> {
    ghost use Rattle.rm_disk.specs.Torn.{Tearing};

    ghost Value = { Tearing D };

    ghost view = { λ t. record { inner = t.inner; left = t.left; torn = t.torn } };
}

impl<D: Disk> Torn<D> {
    ghost use Rattle.rm_disk.specs.Torn.{FaultedTorn, KeepsTorn, Tearing, WritesHalf, tore, torn_view};

    /// A disk whose write of this number, counted from 1 and from now on, is torn; with 0 none is.
    pub fn new(inner: D, at: u64) -> Torn<D>
        ensures { result ≡ record { inner = inner; left = at; torn = 0 } }
    {
        Torn {
            inner,
            left: at,
            torn: 0,
        }
    }

    /// The inner disk, as it is.
    pub fn inner(self) -> D
        ensures { result ≡ self.inner }
    {
        let Torn {
            inner,
            left: _,
            torn: _,
        } = self;
        inner
    }

    // Counts the torn write, behind which none is left.
    fn count(&mut self)
        ensures counted { self.new ≡ tore self.old self.old.inner }
        ensures later { self.old.torn ≤ self.new.torn }
    {
        self.left = 0;
        self.torn = self.torn.saturating_add(1);
    }

    // Makes the torn write.
    fn tear(&mut self, at: u64, bytes: &[u8]) -> Result<(), DiskError>
        requires last { self.old.left ≡ 1 }
        requires inside { at + length bytes.now ≤ (D.view self.old.inner).size }
        ensures fails { is_ok result ≡ false }
        ensures in_range { MayWrite at (length bytes.now) (torn_view (D.view self.old.inner) self.old.torn) (torn_view (D.view self.new.inner) self.new.torn) }
        ensures kept { KeepsTorn D.view D.keeps false self.old self.new }
        ensures counted { D.counted self.new.inner ≤ D.counted self.old.inner + 1 }
        ensures fault { IsErrOf result DiskError.DiskFault → FaultedTorn D.view D.faulted self.old self.new }
        ensures torn { IsErrOf result DiskError.DiskFault → self.new ≡ tore self.old self.new.inner }
        ensures half { IsErrOf result DiskError.DiskFault → WritesHalf D.view D.faulted at bytes.now self.old.inner self.new.inner }
        ensures memory { IsErrOf result DiskError.Memory → IsAsBefore (torn_view (D.view self.old.inner) self.old.torn) (torn_view (D.view self.new.inner) self.new.torn) }
        ensures no_memory { IsErrOf result DiskError.Memory → self.new ≡ record self.old { inner = self.new.inner } }
    {
        let half = &bytes[..bytes.len() / 2];
        if let Err(DiskError::Memory) = self.inner.write(at, half) {
            return Err(DiskError::Memory);
        }
        self.count();
        Err(DiskError::DiskFault)
    }
}

impl<D: Disk> Disk for Torn<D> {
    ghost use Rattle.rm_disk.specs.Torn.{FallsUnder, FaultedTorn, KeepsTorn, Tearing, WritesHalf, tore, torn_view, wrote};
    ghost use Rattle.rm_disk.specs.TornLaws.{faulted_torn_later, keeps_torn_on, keeps_torn_same};

    ghost view = { λ t. torn_view (D.view t.inner) t.torn };

    ghost keeps = { λ succeeds t u. KeepsTorn D.view D.keeps succeeds t u };

    ghost keeps_same = { λ succeeds t. keeps_torn_same D.view D.keeps succeeds t (D.keeps_same succeeds t.inner) };

    ghost keeps_on = { λ one two x y z xy yz. keeps_torn_on D.view D.keeps D.keeps_on one two x y z xy yz };

    ghost counted = { λ t. D.counted t.inner };

    ghost faulted = { λ t u. FaultedTorn D.view D.faulted t u };

    ghost falls_to = { λ image t u. FallsUnder D.falls_to image t u };

    ghost faulted_later = { λ succeeds x y z xy le yz. faulted_torn_later D.view D.keeps D.faulted D.faulted_later succeeds x y z xy le yz };

    ghost faulted_counts = { λ x y fault. fault.counted };

    ghost image_size = { λ t image is. D.image_size t.inner image is };

    ghost as_it_reads = { λ t bytes told. D.as_it_reads t.inner bytes told };

    ghost counts_now = { λ t from image le is. D.counts_now t.inner from image le is };

    ghost only_now = { λ t image left. D.only_now t.inner image left };

    fn size(&self) -> u64 {
        self.inner.size()
    }

    /// Reads the inner disk, and changes nothing else.
    fn read(&mut self, at: u64, into: &mut [u8]) -> Result<(), DiskError>
        requires { at + length into.old ≤ (D.view self.old.inner).size }
        ensures bytes { OnOk result (IfTold (torn_view (D.view self.old.inner) self.old.torn) (λ told. into.new ≡ take (length into.old) (drop at told))) }
        ensures quiet { IsQuiet (torn_view (D.view self.old.inner) self.old.torn) (torn_view (D.view self.new.inner) self.new.torn) }
        ensures kept { KeepsTorn D.view D.keeps (is_ok result) self.old self.new }
        ensures counted { D.counted self.new.inner ≤ D.counted self.old.inner }
        ensures fault { IsErrOf result DiskError.DiskFault → FaultedTorn D.view D.faulted self.old self.new }
        ensures memory { IsErrOf result DiskError.Memory → ⊥ }

        // What is this disk's own.
        ensures same { self.new ≡ record self.old { inner = self.new.inner } }
        ensures inner_quiet { IsQuiet (D.view self.old.inner) (D.view self.new.inner) }
        ensures inner_fault { IsErrOf result DiskError.DiskFault → D.faulted self.old.inner self.new.inner }
    {
        self.inner.read(at, into)
    }

    /// Writes to the inner disk. The torn write hands the first half of its bytes on, raises the count and answers `DiskFault`;
    /// where the inner disk finds no memory for that half, it answers `Memory`, and is the torn one still.
    fn write(&mut self, at: u64, bytes: &[u8]) -> Result<(), DiskError>
        requires { at + length bytes.now ≤ (D.view self.old.inner).size }
        ensures written { OnOk result ((torn_view (D.view self.new.inner) self.new.torn).told ≡ option_map (put at bytes.now) (torn_view (D.view self.old.inner) self.old.torn).told) }
        ensures in_range { MayWrite at (length bytes.now) (torn_view (D.view self.old.inner) self.old.torn) (torn_view (D.view self.new.inner) self.new.torn) }
        ensures kept { KeepsTorn D.view D.keeps (is_ok result) self.old self.new }
        ensures counted { D.counted self.new.inner ≤ D.counted self.old.inner + 1 }
        ensures fault { IsErrOf result DiskError.DiskFault → FaultedTorn D.view D.faulted self.old self.new }
        ensures memory { IsErrOf result DiskError.Memory → IsAsBefore (torn_view (D.view self.old.inner) self.old.torn) (torn_view (D.view self.new.inner) self.new.torn) }

        // A write that isn't torn.
        ensures passed { self.old.left ≢ 1 → self.new ≡ wrote self.old self.new.inner result }
        ensures inner_fault { self.old.left ≢ 1 → IsErrOf result DiskError.DiskFault → D.faulted self.old.inner self.new.inner }

        // The torn one.
        ensures fails { self.old.left ≡ 1 → is_ok result ≡ false }
        ensures torn { self.old.left ≡ 1 → IsErrOf result DiskError.DiskFault → self.new ≡ tore self.old self.new.inner }
        ensures half { self.old.left ≡ 1 → IsErrOf result DiskError.DiskFault → WritesHalf D.view D.faulted at bytes.now self.old.inner self.new.inner }
        ensures no_memory { IsErrOf result DiskError.Memory → self.new ≡ record self.old { inner = self.new.inner } }
    {
        if self.left == 1 {
            return self.tear(at, bytes);
        }
        let outcome = self.inner.write(at, bytes);
        if !matches!(outcome, Err(DiskError::Memory)) {
            self.left = self.left.saturating_sub(1);
        }
        outcome
    }

    /// Syncs the inner disk, and changes nothing else.
    fn sync(&mut self) -> Result<(), DiskError>
        ensures durable { OnOk result (IsDurable (torn_view (D.view self.new.inner) self.new.torn)) }
        ensures quiet { IsQuiet (torn_view (D.view self.old.inner) self.old.torn) (torn_view (D.view self.new.inner) self.new.torn) }
        ensures kept { KeepsTorn D.view D.keeps (is_ok result) self.old self.new }
        ensures counted { D.counted self.new.inner ≤ D.counted self.old.inner + 1 }
        ensures fault { IsErrOf result DiskError.DiskFault → FaultedTorn D.view D.faulted self.old self.new }
        ensures memory { IsErrOf result DiskError.Memory → IsAsBefore (torn_view (D.view self.old.inner) self.old.torn) (torn_view (D.view self.new.inner) self.new.torn) }

        // What is this disk's own.
        ensures same { self.new ≡ record self.old { inner = self.new.inner } }
        ensures inner_fault { IsErrOf result DiskError.DiskFault → D.faulted self.old.inner self.new.inner }
    {
        self.inner.sync()
    }

    /// Lets the inner disk fall to the image, and changes nothing else.
    fn fall(&mut self, image: u32)
        ensures falls { Falls (torn_view (D.view self.old.inner) self.old.torn) (torn_view (D.view self.new.inner) self.new.torn) }
        ensures image { FallsUnder D.falls_to image self.old self.new }
    {
        self.inner.fall(image);
    }
}

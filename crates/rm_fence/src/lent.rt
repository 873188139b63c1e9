ghost use Rattle.std.specs.Prelude.{◌≡◌, ◌↔◌, ◌+◌, ◌<◌, ◌≤◌, false, List, ℕ, length, take, drop, option_map, is_ok, OnOk, IsErrOf, Err};
ghost use Rattle.rm_disk.specs.Disk.{put, IfTold, IsDurable, IsQuiet, MayWrite, Falls, IsAsBefore};

use crate::fence::Fence;
use rm_disk::{Disk, DiskError};
use std::marker::Model;

/// The bytes of a device before its fence's own, as a disk that is lent under the number of a claim.
///
/// It reads, syncs and falls as the device does. Where the claim is the newest, it writes as the device does too; else a write is refused
/// and the device isn't touched. Its count of faults is the device's and the number of such refusals.
#[derive(Drop)]
pub struct Lent<D: Disk> {
    fence: Fence<D>,
    number: u64,
    has_refused: bool,
}

impl<D: Disk> Model for Lent<D> {
    ghost use Rattle.std.specs.Prelude.{◌≤◌};
    ghost use Rattle.rm_fence.specs.Lent.{LentState};

    ghost Value = { LentState D };

    ghost view = { λ l. record { fence = l.fence; number = l.number; has_refused = l.has_refused } };

    ghost invariant = { λ l. l.number ≤ l.fence.newest };
}

impl<D: Disk> Lent<D> {
    /// A fence that is lent.
    pub(crate) fn new(fence: Fence<D>, number: u64) -> Lent<D>
        requires { number ≤ fence.newest }
        ensures { result ≡ record { fence = fence; number = number; has_refused = false } }
    {
        Lent {
            fence,
            number,
            has_refused: false,
        }
    }

    /// Hands the fence back, as it is.
    pub fn back(self) -> Fence<D>
        ensures { result ≡ self.fence }
    {
        let Lent {
            fence,
            number: _,
            has_refused: _,
        } = self;
        fence
    }

    /// Whether a write was refused since the fence was lent, since another claim is newer.
    pub fn has_refused(&self) -> bool
        ensures { result ≡ self.now.has_refused }
    {
        self.has_refused
    }
}

impl<D: Disk> Disk for Lent<D> {
    ghost use Rattle.rm_fence.specs.Lent.{as_disk, with_device, refusing, IsNewest, IsOlder, KeepsLent, FaultedLent, FallsLent};
    ghost use Rattle.rm_fence.specs.LentLaws.{keeps_lent_same, keeps_lent_on, faulted_lent_later, lent_size, lent_reads};

    ghost view = { λ l. as_disk D.view l };

    ghost keeps = { λ succeeds l m. KeepsLent D.view (D.keeps succeeds) succeeds l m };

    ghost keeps_same = { λ succeeds l. keeps_lent_same D.view (D.keeps succeeds) succeeds l (D.keeps_same succeeds l.fence.disk) };

    ghost keeps_on = { λ one two x y z xy yz. keeps_lent_on D.view D.keeps D.keeps_on one two x y z xy yz };

    ghost counted = { λ l. D.counted l.fence.disk };

    ghost faulted = { λ l m. FaultedLent D.view D.faulted l m };

    ghost falls_to = { λ image l m. FallsLent D.falls_to image l m };

    ghost faulted_later = { λ succeeds x y z xy le yz. faulted_lent_later D.view D.keeps D.faulted D.faulted_later succeeds x y z xy le yz };

    ghost faulted_counts = { λ x y fault. fault.counted };

    ghost image_size = { λ l part is. lent_size (D.view l.fence.disk) l.fence.refusals (D.image_size l.fence.disk) part is };

    ghost as_it_reads = { λ l part told. lent_reads (D.view l.fence.disk) l.fence.refusals (D.as_it_reads l.fence.disk) part told };

    ghost counts_now = { λ l from part le is. (is.0, D.counts_now l.fence.disk from is.0 le is.1, is.2) };

    ghost only_now = { λ l part left. (left.0, D.only_now l.fence.disk left.0 left.1, left.2) };

    fn size(&self) -> u64 {
        self.fence.lent_size()
    }

    /// Reads the device, and changes nothing else.
    fn read(&mut self, at: u64, into: &mut [u8]) -> Result<(), DiskError>
        requires { at + length into.old ≤ (as_disk D.view self.old).size }
        ensures bytes { OnOk result (IfTold (as_disk D.view self.old) (λ told. into.new ≡ take (length into.old) (drop at told))) }
        ensures quiet { IsQuiet (as_disk D.view self.old) (as_disk D.view self.new) }
        ensures kept { KeepsLent D.view (D.keeps (is_ok result)) (is_ok result) self.old self.new }
        ensures counted { D.counted self.new.fence.disk ≤ D.counted self.old.fence.disk }
        ensures fault { IsErrOf result DiskError.DiskFault → FaultedLent D.view D.faulted self.old self.new }
        ensures memory { IsErrOf result DiskError.Memory → ⊥ }

        // What is this disk's own.
        ensures same { self.new ≡ with_device self.old self.new.fence.disk }
        ensures inner_quiet { IsQuiet (D.view self.old.fence.disk) (D.view self.new.fence.disk) }
        ensures inner_fault { IsErrOf result DiskError.DiskFault → D.faulted self.old.fence.disk self.new.fence.disk }
    {
        self.fence.read_lent(at, into)
    }

    /// Writes to the device where the claim is the newest. Under an older one it answers `DiskFault`, leaves the device alone and raises
    /// the count: what a read gives and every image stay as they were.
    fn write(&mut self, at: u64, bytes: &[u8]) -> Result<(), DiskError>
        requires { at + length bytes.now ≤ (as_disk D.view self.old).size }
        ensures written { OnOk result ((as_disk D.view self.new).told ≡ option_map (put at bytes.now) (as_disk D.view self.old).told) }
        ensures in_range { MayWrite at (length bytes.now) (as_disk D.view self.old) (as_disk D.view self.new) }
        ensures kept { KeepsLent D.view (D.keeps (is_ok result)) (is_ok result) self.old self.new }
        ensures counted { D.counted self.new.fence.disk ≤ D.counted self.old.fence.disk + 1 }
        ensures fault { IsErrOf result DiskError.DiskFault → FaultedLent D.view D.faulted self.old self.new }
        ensures memory { IsErrOf result DiskError.Memory → IsAsBefore (as_disk D.view self.old) (as_disk D.view self.new) }

        // A write under an older claim.
        ensures refused { IsOlder self.old → (result ≡ Err DiskError.DiskFault) × (self.new ≡ refusing self.old) }
        ensures unread { IsOlder self.old → (as_disk D.view self.new).told ≡ (as_disk D.view self.old).told }
        ensures unchanged { IsOlder self.old → (image : List ℕ) → (as_disk D.view self.new).images image ↔ (as_disk D.view self.old).images image }
        ensures newer { IsOlder self.old → self.new.number < self.new.fence.newest }

        // One under the newest.
        ensures passed { IsNewest self.old → self.new ≡ with_device self.old self.new.fence.disk }
        ensures inner_written { IsNewest self.old → OnOk result ((D.view self.new.fence.disk).told ≡ option_map (put at bytes.now) (D.view self.old.fence.disk).told) }
        ensures inner_range { IsNewest self.old → MayWrite at (length bytes.now) (D.view self.old.fence.disk) (D.view self.new.fence.disk) }
        ensures inner_fault { IsNewest self.old → IsErrOf result DiskError.DiskFault → D.faulted self.old.fence.disk self.new.fence.disk }
    {
        if self.number != self.fence.newest() {
            self.fence.refuse();
            self.has_refused = true;
            return Err(DiskError::DiskFault);
        }
        self.fence.write_lent(at, bytes)
    }

    /// Syncs the device, and changes nothing else.
    fn sync(&mut self) -> Result<(), DiskError>
        ensures durable { OnOk result (IsDurable (as_disk D.view self.new)) }
        ensures quiet { IsQuiet (as_disk D.view self.old) (as_disk D.view self.new) }
        ensures kept { KeepsLent D.view (D.keeps (is_ok result)) (is_ok result) self.old self.new }
        ensures counted { D.counted self.new.fence.disk ≤ D.counted self.old.fence.disk + 1 }
        ensures fault { IsErrOf result DiskError.DiskFault → FaultedLent D.view D.faulted self.old self.new }
        ensures memory { IsErrOf result DiskError.Memory → IsAsBefore (as_disk D.view self.old) (as_disk D.view self.new) }

        // What is this disk's own.
        ensures same { self.new ≡ with_device self.old self.new.fence.disk }
        ensures inner_durable { OnOk result (IsDurable (D.view self.new.fence.disk)) }
        ensures inner_quiet { IsQuiet (D.view self.old.fence.disk) (D.view self.new.fence.disk) }
        ensures inner_fault { IsErrOf result DiskError.DiskFault → D.faulted self.old.fence.disk self.new.fence.disk }
    {
        self.fence.sync()
    }

    /// Lets the device fall to the image, and changes nothing else.
    fn fall(&mut self, image: u32)
        ensures falls { Falls (as_disk D.view self.old) (as_disk D.view self.new) }
        ensures image { FallsLent D.falls_to image self.old self.new }
    {
        self.fence.fall(image);
    }
}

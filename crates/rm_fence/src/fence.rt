ghost use Rattle.std.specs.Prelude.{◌≡◌, ◌↔◌, ◌+◌, ◌-◌, ◌<◌, ◌≤◌, ℕ, true, false, length, take, drop, option_map, is_ok, OnOk, IfOk, IfErr, MatchResult, IsErrOf, Err};
ghost use Rattle.rm_types.specs.Counts.{risen};
ghost use Rattle.rm_disk.specs.Disk.{put, IfTold, EachImage, IsQuiet, IsDurable, MayWrite, Falls, IsAsBefore};
ghost use Rattle.rm_journal.specs.declared.journal.TheConstants.{CALLS_OF_APPEND};
ghost use Rattle.rm_fence.specs.declared.TheConstants.{FENCE_SIZE};
ghost use Rattle.rm_fence.specs.Claims.{HasClaims, MayHaveClaims, IsDamagedFence};
ghost use Rattle.rm_fence.specs.Errors.{IsOpenError, IsClaimError, IsClaimRefusal, broken_after_claim};
ghost use Rattle.rm_fence.specs.Fence.{IsRoom, LeavesClaims};
ghost use Rattle.rm_fence.specs.Lent.{lent_view};

use crate::FENCE_SIZE;
use crate::fault::{FenceError, FenceFail};
use crate::lent::Lent;
use crate::reading::{Read, read_claims};
use rm_disk::{Disk, DiskError};
use rm_journal::Journal;
use std::alloc::Global;
use std::marker::Model;

/// The claims on a device, and the device.
///
/// A fence owns its device, so that nothing else changes it: at each moment a read and each image of the device have the claims that the
/// fence knows, and where a claim failed, these or one more.
#[derive(Drop)]
pub struct Fence<D: Disk> {
    disk: D,
    journal: Journal,
    newest: u64,
    refusals: u64,
}

impl<D: Disk> Model for Fence<D> {
    ghost use Rattle.std.specs.Prelude.{◌-◌};
    ghost use Rattle.rm_fence.specs.Fence.{FenceState, IsFence};

    ghost Value = { FenceState D };

    ghost view = { λ f. record { disk = f.disk; newest = f.newest; room = f.journal.end - f.journal.gate; is_broken = f.journal.is_broken; refusals = f.refusals } };

    ghost invariant = { λ f. IsFence (D.view f.disk) f.journal f.newest };
}

impl<D: Disk> Fence<D> {
    /// Reads the claims of a device.
    ///
    /// `TooSmall` comes exactly where the device has fewer than 65,536 bytes, and then nothing was called. `Damaged` comes exactly where
    /// the journal of claims is damaged, with that gate's offset, or else where a payload isn't the next claim, with the gate of the
    /// first; `DiskFault` only where the device's count of faults rose. A refusal hands the device back. On every outcome a read of it
    /// gives what it gave; after `Ok` a crash leaves that too.
    pub fn open(alloc: Global, disk: D) -> Result<Fence<D>, FenceFail<D>>
        ensures opened { IfOk result (λ fence. (fence.is_broken ≡ false) × (fence.refusals ≡ 0)) }
        ensures claims { IfOk result (λ fence. IfTold (D.view disk) (HasClaims fence.newest)) }
        ensures durable { IfOk result (λ fence. IsDurable (D.view fence.disk)) }
        ensures room { IfOk result (λ fence. IsRoom (D.view fence.disk) fence.newest fence.room fence.is_broken) }
        ensures sound { OnOk result (IfTold (D.view disk) (λ bytes. (offset : ℕ) → IsDamagedFence bytes offset → ⊥)) }
        ensures damaged { IfErr result (λ refused. (offset : ℕ) → refused.why ≡ FenceError.Damaged offset → IfTold (D.view disk) (λ bytes. IsDamagedFence bytes offset)) }
        ensures too_small { MatchResult result (λ _. FENCE_SIZE ≤ (D.view disk).size) (λ refused. (D.view disk).size < FENCE_SIZE → (refused.why ≡ FenceError.TooSmall (D.view disk).size) × (refused.disk ≡ disk)) }
        ensures only_small { IfErr result (λ refused. (size : ℕ) → refused.why ≡ FenceError.TooSmall size → (size ≡ (D.view disk).size) × (size < FENCE_SIZE)) }
        ensures quiet { MatchResult result (λ fence. IsQuiet (D.view disk) (D.view fence.disk)) (λ refused. IsQuiet (D.view disk) (D.view refused.disk)) }
        ensures kept { MatchResult result (λ fence. D.keeps true disk fence.disk) (λ refused. D.keeps false disk refused.disk) }
        ensures fault { IfErr result (λ refused. refused.why ≡ FenceError.DiskFault → D.faulted disk refused.disk) }
        ensures errors { IfErr result (λ refused. IsOpenError refused.why) }
    {
        let mut disk = disk;
        match read_claims(alloc, &mut disk) {
            Ok(Read { journal, newest }) => Ok(Fence {
                disk,
                journal,
                newest,
                refusals: 0,
            }),
            Err(why) => Err(FenceFail { why, disk }),
        }
    }

    /// How many claims there are: the number of the newest one.
    ///
    /// Each image of the device has them; where a claim failed it may have one more.
    pub fn newest(&self) -> u64
        ensures value { result ≡ self.now.newest }
        ensures claims { IfTold (D.view self.now.disk) (λ _. EachImage (D.view self.now.disk) (MayHaveClaims result self.now.is_broken)) }
        ensures room { IsRoom (D.view self.now.disk) result self.now.room self.now.is_broken }
    {
        self.newest
    }

    /// How many writes were refused since the fence was opened, since their claim wasn't the newest. The count stands still at 2^64 - 1.
    pub fn refusals(&self) -> u64
        ensures { result ≡ self.now.refusals }
    {
        self.refusals
    }

    /// Keeps the next claim, and answers its number, which is then the newest.
    ///
    /// At every moment a crash leaves the claims from before, or these and the new one; after `Ok` it leaves the new one too. No byte
    /// before the fence's own changes. `NeedsReopen` comes exactly where an earlier claim answered `DiskFault` or `Memory`; else `Full`
    /// exactly where the room is less than the 14 bytes that are needed; both leave all as it was. `DiskFault` comes only where the
    /// device's count of faults rose, and `Memory` where a call of the device found none; after them it isn't known whether the
    /// claim was kept, and the newest is the one before.
    pub fn claim(&mut self) -> Result<u64, FenceError>
        ensures number { IfOk result (λ number. number ≡ self.old.newest + 1) }
        ensures newest { MatchResult result (λ number. self.new.newest ≡ number) (λ _. self.new.newest ≡ self.old.newest) }
        ensures refusals { self.new.refusals ≡ self.old.refusals }
        ensures broken { self.new.is_broken ≡ broken_after_claim result self.old.is_broken }
        ensures taken { OnOk result (self.new.room + 13 ≡ self.old.room) }

        // A crash at any moment leaves the claims from before, or these and the new one.
        ensures any_moment { self.old.is_broken ≡ false → LeavesClaims (D.view self.old.disk) (D.view self.new.disk) self.old.newest }
        ensures added { OnOk result (IfTold (D.view self.old.disk) (λ _. EachImage (D.view self.new.disk) (HasClaims (self.old.newest + 1)))) }
        ensures fence_alone { MayWrite ((D.view self.old.disk).size - FENCE_SIZE) FENCE_SIZE (D.view self.old.disk) (D.view self.new.disk) }
        ensures lent { IsQuiet (lent_view (D.view self.old.disk) self.old.refusals) (lent_view (D.view self.new.disk) self.new.refusals) }
        ensures kept { D.keeps (is_ok result) self.old.disk self.new.disk }
        ensures counted { D.counted self.new.disk ≤ D.counted self.old.disk + CALLS_OF_APPEND }

        // When each error comes, and what it leaves.
        ensures errors { IfErr result IsClaimError }
        ensures refused { IfErr result (λ error. IsClaimRefusal error → self.new ≡ self.old) }
        ensures reopen { (result ≡ Err FenceError.NeedsReopen) ↔ (self.old.is_broken ≡ true) }
        ensures room_was { IsRoom (D.view self.old.disk) self.old.newest self.old.room self.old.is_broken }
        ensures full { self.old.is_broken ≡ false → (result ≡ Err (FenceError.Full 14 self.old.room)) ↔ (self.old.room < 14) }
        ensures only_full { (needed room : ℕ) → result ≡ Err (FenceError.Full needed room) → (needed ≡ 14) × (room ≡ self.old.room) × (room < 14) }
        ensures fault { IsErrOf result FenceError.DiskFault → D.faulted self.old.disk self.new.disk }
    {
        let number = self.newest + 1;
        self.journal.append(&mut self.disk, &number.to_be_bytes())?;
        self.newest = number;
        Ok(number)
    }

    /// Lends the bytes before the fence's own as a disk, under the number of a claim.
    pub fn lend(self, number: u64) -> Lent<D>
        requires { number ≤ self.newest }
        ensures { result ≡ record { fence = self; number = number; has_refused = false } }
    {
        Lent::new(self, number)
    }

    /// How many bytes there are before the fence's own.
    pub(crate) fn lent_size(&self) -> u64
        ensures { result + FENCE_SIZE ≡ (D.view self.now.disk).size }
    {
        self.disk.size() - FENCE_SIZE
    }

    /// Reads bytes before the fence's own.
    pub(crate) fn read_lent(&mut self, at: u64, into: &mut [u8]) -> Result<(), DiskError>
        requires { at + length into.old ≤ (D.view self.old.disk).size - FENCE_SIZE }
        ensures same { self.new ≡ record self.old { disk = self.new.disk } }
        ensures bytes { OnOk result (IfTold (D.view self.old.disk) (λ told. into.new ≡ take (length into.old) (drop at told))) }
        ensures quiet { IsQuiet (D.view self.old.disk) (D.view self.new.disk) }
        ensures kept { D.keeps (is_ok result) self.old.disk self.new.disk }
        ensures counted { D.counted self.new.disk ≤ D.counted self.old.disk }
        ensures fault { IsErrOf result DiskError.DiskFault → D.faulted self.old.disk self.new.disk }
        ensures memory { IsErrOf result DiskError.Memory → ⊥ }
    {
        self.disk.read(at, into)
    }

    /// Writes bytes before the fence's own.
    pub(crate) fn write_lent(&mut self, at: u64, bytes: &[u8]) -> Result<(), DiskError>
        requires { at + length bytes.now ≤ (D.view self.old.disk).size - FENCE_SIZE }
        ensures same { self.new ≡ record self.old { disk = self.new.disk } }
        ensures written { OnOk result ((D.view self.new.disk).told ≡ option_map (put at bytes.now) (D.view self.old.disk).told) }
        ensures in_range { MayWrite at (length bytes.now) (D.view self.old.disk) (D.view self.new.disk) }
        ensures kept { D.keeps (is_ok result) self.old.disk self.new.disk }
        ensures counted { D.counted self.new.disk ≤ D.counted self.old.disk + 1 }
        ensures fault { IsErrOf result DiskError.DiskFault → D.faulted self.old.disk self.new.disk }
        ensures memory { IsErrOf result DiskError.Memory → IsAsBefore (D.view self.old.disk) (D.view self.new.disk) }
    {
        self.disk.write(at, bytes)
    }

    /// Counts a write that is refused.
    pub(crate) fn refuse(&mut self)
        ensures counted { self.new ≡ record self.old { refusals = risen self.old.refusals } }
        ensures later { self.old.refusals ≤ self.new.refusals }
    {
        self.refusals = self.refusals.saturating_add(1);
    }

    /// Syncs the device.
    pub(crate) fn sync(&mut self) -> Result<(), DiskError>
        ensures same { self.new ≡ record self.old { disk = self.new.disk } }
        ensures durable { OnOk result (IsDurable (D.view self.new.disk)) }
        ensures quiet { IsQuiet (D.view self.old.disk) (D.view self.new.disk) }
        ensures kept { D.keeps (is_ok result) self.old.disk self.new.disk }
        ensures counted { D.counted self.new.disk ≤ D.counted self.old.disk + 1 }
        ensures fault { IsErrOf result DiskError.DiskFault → D.faulted self.old.disk self.new.disk }
        ensures memory { IsErrOf result DiskError.Memory → IsAsBefore (D.view self.old.disk) (D.view self.new.disk) }
    {
        self.disk.sync()
    }

    /// Lets the device fall to the image.
    pub(crate) fn fall(&mut self, image: u32)
        ensures same { self.new ≡ record self.old { disk = self.new.disk } }
        ensures falls { Falls (D.view self.old.disk) (D.view self.new.disk) }
        ensures image { D.falls_to image self.old.disk self.new.disk }
    {
        self.disk.fall(image);
    }

    /// Hands the device back, as it is: each image has the claims, and where a claim failed it may have one more.
    pub fn close(self) -> D
        ensures value { result ≡ self.disk }
        ensures claims { IfTold (D.view self.disk) (λ _. EachImage (D.view self.disk) (MayHaveClaims self.newest self.is_broken)) }
    {
        let Fence {
            disk,
            journal: _,
            newest: _,
            refusals: _,
        } = self;
        disk
    }
}

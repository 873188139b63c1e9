ghost use Rattle.std.specs.Prelude.{◌≡◌, ◌≢◌, ◌⊎◌, ◌↔◌, ◌+◌, ◌<◌, ◌≤◌, ℕ, List, Bool, true, false, is_ok, OnOk, IfOk, IfErr, IsErrOf, MatchResult, Err};
ghost use Rattle.rm_types.specs.declared.operations.Op.{Op as AnyOp};
ghost use Rattle.rm_types.specs.Ranges.{IsOperation};
ghost use Rattle.rm_types.specs.Records.{records, fits_records};
ghost use Rattle.rm_disk.specs.Disk.{IfTold, EachImage, IsQuiet, IsLaterView};
ghost use Rattle.rm_disk.specs.Fuse.{FaultedFuse, KeepsFuse};
ghost use Rattle.rm_journal.specs.declared.journal.TheConstants.{CALLS_OF_APPEND};
ghost use Rattle.rm_store.specs.Causes.{IsWhy, IsFaultless};
ghost use Rattle.rm_store.specs.Content.{HasContent};
ghost use Rattle.rm_store.specs.Errors.{IsOpenError, IsStoreAppendError, IsStoreRefusal, store_broken_after};
ghost use Rattle.rm_store.specs.Kept.{HasOps, LeavesOps, AddsOp, TellsFrames, KeepsFrames, IsFull, needed_for, room_here, told_room, calls_of_change};
ghost use Rattle.rm_store.specs.Store.{with_disk, seen, StoreInvariant, IsBelowLast, AreRead, LooksOwn, StaysOwn, room_behind};

use crate::fault::StoreError;
use crate::reading::{Read, read_all};
use crate::writing::write_op;
use rm_disk::{Disk, Fuse};
use rm_frame::Encoder;
use rm_journal::two_areas::Areas;
use rm_tree::Tree;
use rm_types::{Duplicate, Items, Op};
use std::alloc::Global;
use std::marker::Model;

/// The operations on a disk under a fuse, from its first byte to its last.
#[derive(Drop)]
pub struct Store<D: Disk> {
    disk: Fuse<D>,
    areas: Areas,
    content: Items<Op>,
    encoder: Encoder,
    is_broken: bool,
    alloc: Global,
}

impl<D: Disk> Model for Store<D> {
    ghost use Rattle.rm_store.specs.Store.{StoreState};

    ghost Value = { StoreState D };

    ghost view = { λ s. record { disk = s.disk; areas = s.areas; content = s.content; is_broken = s.is_broken } };
}

/// Why a store was not opened, and its disk.
#[derive(Drop)]
pub struct OpenFail<D: Disk> {
    pub why: StoreError,
    pub disk: Fuse<D>,
}

impl<D: Disk> Store<D> {
    ghost use Rattle.std.specs.Borrow.{Lends, sem};
    ghost use Rattle.rm_disk.specs.contracts.fuse.Fuse as fuse;
    ghost use Rattle.rm_store.specs.contracts.store.Store.{the_row};

    /// Reads the operations of a disk, and what they amount to. Of those no part is out of its range, and none
    /// is stray, also on a disk that tells no bytes. The time is linear in what the disk holds.
    ///
    /// `Damaged` and `Stray` come exactly where the disk holds no operations, and name the areas' damage, or
    /// where they have none the first payload that is no operation or a stray one;
    /// `DiskFault` only where the disk's count of faults rose, and that of the disk inside the fuse unless the
    /// fuse is blown. A refusal hands the disk back. On every outcome a read of the disk gives what it gave;
    /// after `Ok` a crash leaves these operations too.
    pub fn open(alloc: Global, disk: Fuse<D>) -> Result<(Store<D>, Tree, Items<Op>), OpenFail<D>>
        ensures sound { IfOk result (λ opened. StoreInvariant D.view opened.0) }
        ensures unbroken { IfOk result (λ opened. opened.0.is_broken ≡ false) }
        ensures read { IfOk result (λ opened. AreRead opened.1 opened.2) }
        ensures content { IfOk result (λ opened. IfTold (seen D.view disk) (λ bytes. HasContent bytes opened.2)) }
        ensures images { IfOk result (λ opened. IfTold (seen D.view disk) (λ _. EachImage (seen D.view opened.0.disk) (λ image. HasContent image opened.2))) }
        ensures keeps { IfOk result (λ opened. opened.0.content ≡ opened.2) }
        ensures faultless { OnOk result (IfTold (seen D.view disk) IsFaultless) }
        ensures why { IfErr result (λ refused. IfTold (seen D.view disk) (λ bytes. IsWhy bytes refused.why)) }
        ensures quiet { MatchResult result (λ opened. IsQuiet (seen D.view disk) (seen D.view opened.0.disk)) (λ refused. IsQuiet (seen D.view disk) (seen D.view refused.disk)) }
        ensures kept { MatchResult result (λ opened. KeepsFuse D.view (D.keeps true) true disk opened.0.disk) (λ refused. KeepsFuse D.view (D.keeps false) false disk refused.disk) }
        ensures fault { IfErr result (λ refused. refused.why ≡ StoreError.DiskFault → FaultedFuse D.view D.faulted disk refused.disk) }
        ensures errors { IfErr result (λ refused. IsOpenError refused.why) }
    {
        let mut disk = disk;
        match read_all(alloc, &mut disk) {
            Ok(Read { areas, tree, ops }) => {
                let Ok(content) = ops.copy() else {
                    return Err(OpenFail {
                        why: StoreError::Memory,
                        disk,
                    });
                };
                let store = Store {
                    disk,
                    areas,
                    content,
                    encoder: Encoder::new(alloc),
                    is_broken: false,
                    alloc,
                };
                Ok((store, tree, ops))
            }
            Err(why) => Err(OpenFail { why, disk }),
        }
    }

    /// Adds an operation, whose parts are in their ranges, behind those that are stored. Nothing but this
    /// store changed the disk's bytes since it was opened. Where the current area has no room for it, the other
    /// one is written anew first, with what is left of the stored operations, and takes its place: so there is no frame of an
    /// older form in an area that this program began.
    ///
    /// At every moment a crash leaves the operations from before, or these and the new one; after `Ok` it
    /// leaves the new one too. `NeedsReopen` comes exactly where an earlier append answered `DiskFault` or
    /// `Memory`; else `Full` exactly where neither the current area nor one that is written anew has room for it
    /// (or no generation is left for that one), unless it is `Memory`; both leave all as it was. `DiskFault`
    /// comes only where the disk's count of faults rose, and that of the disk inside the fuse unless the fuse is
    /// blown.
    pub fn append(&mut self, op: &Op) -> Result<(), StoreError>
        requires sound { StoreInvariant D.view self.old }
        requires op { IsOperation op.now }

        ensures sound { StoreInvariant D.view self.new }
        ensures broken { self.new.is_broken ≡ store_broken_after result self.old.is_broken }

        // A crash at any moment leaves the operations from before, or these and the new one.
        ensures any_moment { self.old.is_broken ≡ false → (ops : List AnyOp) → HasOps (seen D.view self.old.disk) ops → fits_records (records ops) op.now ≡ true → LeavesOps (seen D.view self.old.disk) (seen D.view self.new.disk) ops op.now }
        ensures added { OnOk result ((ops : List AnyOp) → HasOps (seen D.view self.old.disk) ops → fits_records (records ops) op.now ≡ true → AddsOp (seen D.view self.new.disk) ops op.now) }

        // An area that is written anew has the frames of now alone, and one that has them alone gets no other.
        ensures anew { OnOk result (self.new.areas.generation ≢ self.old.areas.generation → TellsFrames (seen D.view self.new.disk) self.new.content) }
        ensures frames { self.old.is_broken ≡ false → KeepsFrames (seen D.view self.old.disk) (seen D.view self.new.disk) }

        ensures kept { KeepsFuse D.view (D.keeps (is_ok result)) (is_ok result) self.old.disk self.new.disk }
        ensures counted { self.new.disk.passed ≤ self.old.disk.passed + calls_of_change self.old.areas self.old.content + CALLS_OF_APPEND }
        ensures few { 1 ≤ self.old.areas.generation → needed_for op.now ≤ room_here self.old.areas → self.new.disk.passed ≤ self.old.disk.passed + CALLS_OF_APPEND }
        ensures goes_on { IsLaterView (seen D.view self.old.disk) (seen D.view self.new.disk) }

        // No crash leaves what is taken for another's file.
        ensures own { (ops : List AnyOp) → HasOps (seen D.view self.old.disk) ops → LooksOwn (seen D.view self.old.disk) → StaysOwn (seen D.view self.old.disk) (seen D.view self.new.disk) }

        // When each error comes, and what it leaves.
        ensures errors { IfErr result IsStoreAppendError }
        ensures refused { IfErr result (λ error. IsStoreRefusal error → self.new ≡ self.old) }
        ensures reopen { (result ≡ Err StoreError.NeedsReopen) ↔ (self.old.is_broken ≡ true) }
        ensures full { self.old.is_broken ≡ false → IsFull self.old.areas self.old.content op.now → (result ≡ Err (StoreError.Full (needed_for op.now) (told_room self.old.areas self.old.content))) ⊎ (result ≡ Err StoreError.Memory) }
        ensures only_full { (needed room : ℕ) → result ≡ Err (StoreError.Full needed room) → (needed ≡ needed_for op.now) × (room < needed) × IsFull self.old.areas self.old.content op.now × (room ≡ told_room self.old.areas self.old.content) }
        ensures room { (needed room : ℕ) → result ≡ Err (StoreError.Full needed room) → (ops : List AnyOp) → HasOps (seen D.view self.old.disk) ops → IsBelowLast (seen D.view self.new.disk) → room ≡ room_behind (seen D.view self.old.disk).size ops }
        ensures never_full { IsBelowLast (seen D.view self.old.disk) → (ops : List AnyOp) → HasOps (seen D.view self.old.disk) ops → needed_for op.now ≤ room_behind (seen D.view self.old.disk).size ops → (needed room : ℕ) → result ≡ Err (StoreError.Full needed room) → ⊥ }
        ensures fault { IsErrOf result StoreError.DiskFault → FaultedFuse D.view D.faulted self.old.disk self.new.disk }
    {
        if self.is_broken {
            return Err(StoreError::NeedsReopen);
        }
        let outcome = write_op(
            self.alloc,
            &mut self.disk,
            &mut self.areas,
            &mut self.content,
            &mut self.encoder,
            op,
        );
        self.is_broken = breaks(&outcome);
        outcome
    }

    /// The disk, to be armed or disarmed, to be looked at, or to fall.
    pub fn fuse(&mut self) -> &mut Fuse<D>
        ensures* lends { sem 𝓛 (Lends (the_row D.row ⟦<D as Disk>⟧) (fuse.the_row D.row ⟦<D as Disk>⟧) self.entry result (λ disk. with_disk self.entry.now disk)) }
        ensures value { result.now ≡ self.old.disk }
    {
        &mut self.disk
    }

    /// Hands the disk back, as it is.
    pub fn close(self) -> Fuse<D>
        ensures { result ≡ self.disk }
    {
        let Store {
            disk,
            areas: _,
            content: _,
            encoder: _,
            is_broken: _,
            alloc: _,
        } = self;
        disk
    }
}

/// Whether an append with this outcome leaves it open what the disk holds.
fn breaks(outcome: &Result<(), StoreError>) -> bool
    ensures { result ≡ store_broken_after outcome.now false }
{
    matches!(outcome, Err(StoreError::DiskFault | StoreError::Memory))
}

ghost use Rattle.std.specs.Prelude.{◌≡◌, ◌+◌, ◌≤◌, ◌↔◌, ℕ, true, false, List, length, take, drop, [], None, Some, Err, OnOk, OnErr, IsErrOf, IsTrue, option_map, is_ok};
ghost use Rattle.std.specs.Bool.{OnTrue, OnFalse};
ghost use Rattle.rm_disk.specs.Disk.{put, IfTold, IsDurable, IsQuiet, MayWrite, Falls, IsAsBefore};
ghost use Rattle.rm_disk.specs.Fuse.{is_spent, refusing, passing};

use crate::device::{Disk, DiskError};
use crate::fallen::{Armed, Fallen};
use rm_types::{Duplicate, Items, NoMemory};
use std::alloc::Global;
use std::marker::Model;

/// A disk over an inner one that, once it is armed, lets so many writes and syncs through and refuses the
/// rest, as if its power went. Reads and falls always reach the inner disk.
///
/// Its count of faults is the inner disk's and the number of its refusals. The falls of an armed fuse are
/// kept in a list; those of one that isn't armed are counted.
#[derive(Drop)]
pub struct Fuse<D: Disk> {
    inner: D,
    falls: Items<Fallen>,
    unarmed_falls: u64,
    armed: Option<Armed>,
    passed: u32,
    blown: bool,
    refused: u64,
}

impl<D: Disk> Model for Fuse<D> {
    ghost use Rattle.rm_disk.specs.Fuse.{Fused, passes_of, IsFuse};

    ghost Value = { Fused D };

    ghost view = { λ f. record { inner = f.inner; falls = f.falls; unarmed_falls = f.unarmed_falls; armed = passes_of f.armed; passed = f.passed; blown = f.blown; refused = f.refused } };

    ghost invariant = { λ f. IsFuse f.falls f.armed f.passed f.blown };
}

impl<D: Disk> Fuse<D> {
    /// A fuse that is not armed, with no falls.
    pub fn new(alloc: Global, inner: D) -> Fuse<D>
        ensures { result ≡ record { inner = inner; falls = []; unarmed_falls = 0; armed = None; passed = 0; blown = false; refused = 0 } }
    {
        Fuse {
            inner,
            falls: Items::new(alloc),
            unarmed_falls: 0,
            armed: None,
            passed: 0,
            blown: false,
            refused: 0,
        }
    }

    /// From now on lets `passes` writes and syncs through, and none after them. It takes the memory that the
    /// next fall will need; `NoMemory` leaves the fuse as it was.
    pub fn arm(&mut self, passes: u32) -> Result<(), NoMemory>
        ensures ok { OnOk result (self.new ≡ record self.old { armed = Some passes; passed = 0; blown = false }) }
        ensures err { OnErr result (self.new ≡ self.old) }
    {
        let mut falls = self.falls.copy()?;
        falls.push(Fallen {
            calls: passes,
            image: 0,
            blown: false,
        })?;
        self.armed = Some(Armed { passes, falls });
        self.passed = 0;
        self.blown = false;
        Ok(())
    }

    /// Lets every call through again.
    pub fn disarm(&mut self)
        ensures { self.new ≡ record self.old { armed = None; blown = false } }
    {
        self.armed = None;
        self.blown = false;
    }

    /// The falls of the fuse while it was armed, the oldest first.
    pub fn falls(&self) -> &Items<Fallen>
        ensures { result.now ≡ self.now.falls }
    {
        &self.falls
    }

    /// How often the fuse fell while it wasn't armed. The count stands still at 2^64 - 1.
    pub fn unarmed_falls(&self) -> u64
        ensures { result ≡ self.now.unarmed_falls }
    {
        self.unarmed_falls
    }

    /// Whether a call was refused since the fuse was last armed or disarmed. If so, it is armed with just as
    /// many as passed.
    pub fn blown(&self) -> bool
        ensures value { result ≡ self.now.blown }
        ensures spent { result ≡ true → self.now.armed ≡ Some self.now.passed }
    {
        self.blown
    }

    /// How many writes and syncs went through since the fuse was last armed and while it was; those that
    /// found no memory are not counted.
    pub fn passed(&self) -> u32
        ensures value { result ≡ self.now.passed }
        ensures within { (passes : ℕ) → self.now.armed ≡ Some passes → result ≤ passes }
    {
        self.passed
    }

    /// The inner disk, as it is.
    pub fn inner(self) -> D
        ensures { result ≡ self.inner }
    {
        let Fuse {
            inner,
            falls: _,
            unarmed_falls: _,
            armed: _,
            passed: _,
            blown: _,
            refused: _,
        } = self;
        inner
    }

    // Whether as many calls passed as the fuse was armed with.
    fn spent(&self) -> bool
        ensures value { result ≡ is_spent self.now.armed self.now.passed }
        ensures at_end { OnTrue result (self.now.armed ≡ Some self.now.passed) }
    {
        match &self.armed {
            Some(armed) => self.passed >= armed.passes,
            None => false,
        }
    }

    // Refuses the next write or sync, if the fuse is spent, and says so.
    fn refuses(&mut self) -> bool
        ensures spent { result ≡ is_spent self.old.armed self.old.passed }
        ensures at_end { OnTrue result (self.old.armed ≡ Some self.old.passed) }
        ensures refused { OnTrue result (self.new ≡ refusing self.old) }
        ensures later { self.old.refused ≤ self.new.refused }
        ensures lets { OnFalse result (self.new ≡ self.old) }
    {
        let spent = self.spent();
        if spent {
            self.blown = true;
            self.refused = self.refused.saturating_add(1);
        }
        spent
    }

    // Counts a call that went through to the inner disk.
    fn count(&mut self, outcome: &Result<(), DiskError>)
        requires { is_spent self.old.armed self.old.passed ≡ false }
        ensures { self.new ≡ passing self.old self.old.inner outcome.now }
    {
        if matches!(outcome, Err(DiskError::Memory)) {
            return;
        }
        if let Some(armed) = &self.armed {
            prove!(self.passed < armed.passes);
            self.passed += 1;
        }
    }
}

impl<D: Disk> Disk for Fuse<D> {
    ghost use Rattle.rm_disk.specs.Fuse.{fused_view, FallsThrough, FaultedFuse, KeepsFuse};
    ghost use Rattle.rm_disk.specs.FuseLaws.{keeps_fuse_same, keeps_fuse_on, faulted_fuse_later};

    ghost view = { λ f. fused_view (D.view f.inner) f.refused };

    ghost keeps = { λ succeeds f g. KeepsFuse D.view (D.keeps succeeds) succeeds f g };

    ghost keeps_same = { λ succeeds f. keeps_fuse_same D.view (D.keeps succeeds) succeeds f (D.keeps_same succeeds f.inner) };

    ghost keeps_on = { λ one two x y z xy yz. keeps_fuse_on D.view D.keeps D.keeps_on one two x y z xy yz };

    ghost counted = { λ f. f.passed };

    ghost faulted = { λ f g. FaultedFuse D.view D.faulted f g };

    ghost falls_to = { λ image f g. FallsThrough D.falls_to image f g };

    ghost faulted_later = { λ succeeds x y z xy le yz. faulted_fuse_later D.view D.keeps D.faulted D.faulted_later succeeds x y z xy le yz };

    ghost faulted_counts = { λ x y fault. fault.counted };

    ghost image_size = { λ f image is. D.image_size f.inner image is };

    ghost as_it_reads = { λ f bytes told. D.as_it_reads f.inner bytes told };

    ghost counts_now = { λ f from image le is. D.counts_now f.inner from image le is };

    ghost only_now = { λ f image left. D.only_now f.inner image left };

    fn size(&self) -> u64 {
        self.inner.size()
    }

    /// Reads the inner disk, armed or not, and blown or not. The fuse stays as it is, and `DiskFault` comes
    /// only where the inner disk failed.
    fn read(&mut self, at: u64, into: &mut [u8]) -> Result<(), DiskError>
        requires { at + length into.old ≤ (D.view self.old.inner).size }
        ensures bytes { OnOk result (IfTold (fused_view (D.view self.old.inner) self.old.refused) (λ told. into.new ≡ take (length into.old) (drop at told))) }
        ensures quiet { IsQuiet (fused_view (D.view self.old.inner) self.old.refused) (fused_view (D.view self.new.inner) self.new.refused) }
        ensures kept { KeepsFuse D.view (D.keeps (is_ok result)) (is_ok result) self.old self.new }
        ensures counted { self.new.passed ≤ self.old.passed }
        ensures fault { IsErrOf result DiskError.DiskFault → FaultedFuse D.view D.faulted self.old self.new }
        ensures memory { IsErrOf result DiskError.Memory → ⊥ }

        // What the fuse itself does.
        ensures fuse { self.new ≡ record self.old { inner = self.new.inner } }
        ensures inner_quiet { IsQuiet (D.view self.old.inner) (D.view self.new.inner) }
        ensures inner_fault { IsErrOf result DiskError.DiskFault → D.faulted self.old.inner self.new.inner }
    {
        self.inner.read(at, into)
    }

    /// Writes to the inner disk, unless the fuse is spent: then it answers `DiskFault`, leaves the inner disk
    /// alone, and is blown.
    fn write(&mut self, at: u64, bytes: &[u8]) -> Result<(), DiskError>
        requires { at + length bytes.now ≤ (D.view self.old.inner).size }
        ensures written { OnOk result ((fused_view (D.view self.new.inner) self.new.refused).told ≡ option_map (put at bytes.now) (fused_view (D.view self.old.inner) self.old.refused).told) }
        ensures in_range { MayWrite at (length bytes.now) (fused_view (D.view self.old.inner) self.old.refused) (fused_view (D.view self.new.inner) self.new.refused) }
        ensures kept { KeepsFuse D.view (D.keeps (is_ok result)) (is_ok result) self.old self.new }
        ensures counted { self.new.passed ≤ self.old.passed + 1 }
        ensures fault { IsErrOf result DiskError.DiskFault → FaultedFuse D.view D.faulted self.old self.new }
        ensures memory { IsErrOf result DiskError.Memory → IsAsBefore (fused_view (D.view self.old.inner) self.old.refused) (fused_view (D.view self.new.inner) self.new.refused) }

        // What the fuse itself does.
        ensures refused { is_spent self.old.armed self.old.passed ≡ true → (result ≡ Err DiskError.DiskFault) × (self.new ≡ refusing self.old) }
        ensures passed { is_spent self.old.armed self.old.passed ≡ false → self.new ≡ passing self.old self.new.inner result }
        ensures inner_fault { is_spent self.old.armed self.old.passed ≡ false → IsErrOf result DiskError.DiskFault → D.faulted self.old.inner self.new.inner }
    {
        if self.refuses() {
            return Err(DiskError::DiskFault);
        }
        let outcome = self.inner.write(at, bytes);
        self.count(&outcome);
        outcome
    }

    /// Syncs the inner disk, unless the fuse is spent: then it answers `DiskFault`, leaves the inner disk
    /// alone, and is blown.
    fn sync(&mut self) -> Result<(), DiskError>
        ensures durable { OnOk result (IsDurable (fused_view (D.view self.new.inner) self.new.refused)) }
        ensures quiet { IsQuiet (fused_view (D.view self.old.inner) self.old.refused) (fused_view (D.view self.new.inner) self.new.refused) }
        ensures kept { KeepsFuse D.view (D.keeps (is_ok result)) (is_ok result) self.old self.new }
        ensures counted { self.new.passed ≤ self.old.passed + 1 }
        ensures fault { IsErrOf result DiskError.DiskFault → FaultedFuse D.view D.faulted self.old self.new }
        ensures memory { IsErrOf result DiskError.Memory → IsAsBefore (fused_view (D.view self.old.inner) self.old.refused) (fused_view (D.view self.new.inner) self.new.refused) }

        // What the fuse itself does.
        ensures refused { is_spent self.old.armed self.old.passed ≡ true → (result ≡ Err DiskError.DiskFault) × (self.new ≡ refusing self.old) }
        ensures passed { is_spent self.old.armed self.old.passed ≡ false → self.new ≡ passing self.old self.new.inner result }
        ensures inner_fault { is_spent self.old.armed self.old.passed ≡ false → IsErrOf result DiskError.DiskFault → D.faulted self.old.inner self.new.inner }
    {
        if self.refuses() {
            return Err(DiskError::DiskFault);
        }
        let outcome = self.inner.sync();
        self.count(&outcome);
        outcome
    }

    /// Lets the inner disk fall to the image. An armed fuse adds the fall to its list, and is disarmed; one that
    /// isn't counts it.
    fn fall(&mut self, image: u32)
        ensures falls { Falls (fused_view (D.view self.old.inner) self.old.refused) (fused_view (D.view self.new.inner) self.new.refused) }
        ensures image { FallsThrough D.falls_to image self.old self.new }
    {
        self.inner.fall(image);
        if let Some(armed) = self.armed.take() {
            let Armed { passes, mut falls } = armed;
            falls.set_last(Fallen {
                calls: passes,
                image,
                blown: self.blown,
            });
            self.falls = falls;
            self.blown = false;
        } else {
            self.unarmed_falls = self.unarmed_falls.saturating_add(1);
        }
    }
}

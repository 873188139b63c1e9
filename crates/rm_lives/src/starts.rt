ghost use Rattle.std.specs.Prelude.{◌≡◌, ◌≢◌, ◌⊎◌, ◌<◌, ◌-◌, ◌^◌, ◌↔◌, List, [], length, IfOk, IfErr, OnOk, OnErr, IsTrue, None, Some, true, false};
ghost use Rattle.rm_disk.specs.Disk.{IfTold};
ghost use Rattle.rm_disk.specs.Fuse.{Fused};
ghost use Rattle.rm_store.specs.Content.{HasContent};
ghost use Rattle.rm_store.specs.Errors.{IsOpenError};
ghost use Rattle.rm_store.specs.Store.{StoreInvariant as IsStoreSound, seen};
ghost use Rattle.rm_core.specs.Moves.{CanBeginOver, IsLeftAfter, IsOwn};
ghost use Rattle.rm_core.specs.Words.{stands};
ghost use Rattle.rm_types.specs.declared.messages.Lane.{Lane};
ghost use Rattle.rm_types.specs.declared.operations.Op.{Op as AnyOp};
ghost use Rattle.rm_core.specs.Seen.{StandsFor};
ghost use Rattle.rm_desk.specs.Effects.{LifeBegins as TakesUp};
ghost use Rattle.rm_types.specs.Records.{stray};
ghost use Rattle.rm_lives.specs.Later.{IsAgain, IsFirst, IsUnfounded, IsUnready};
ghost use Rattle.rm_lives.specs.declared.halts.Halt.{Halt};
ghost use Rattle.rm_lives.specs.Goes.{ExtendsRunOver};
ghost use Rattle.rm_lives.specs.Halted.{stop_at_open};
ghost use Rattle.rm_lives.specs.Keeping.{FuseStays, HaltsOver, IsFoundOn};
ghost use Rattle.rm_lives.specs.Lives.{AddsOneOf};
ghost use Rattle.rm_lives.specs.Order.{May};
ghost use Rattle.rm_lives.specs.Starts.{StartEffect, FallsBy, IsGivenBack, IsOpenedStore, IsRefusedBy, IsUnopenedBy, LeavesAtEnd};

use crate::halts::{Halt, Stop};
use crate::moves::LifeEnd;
use crate::order::Ordered;
use crate::refusals::memory_only;
use crate::storing::arm;
use rm_desk::Desk;
use rm_disk::{Disk, Fuse};
use rm_store::{OpenFail, Store, StoreError};
use rm_tree::Tree;
use rm_types::{EPOCHS, Items, Lane, NoMemory, Op, STAMPS};
use std::alloc::Global;

/// Why no store was opened, and its disk.
#[derive(Drop)]
pub struct Unopened<D: Disk> {
    pub why: Stop,
    pub disk: Fuse<D>,
}

/// How lives went: their disk, and whether they came to their ends.
#[derive(Drop)]
pub struct Lived<D: Disk> {
    pub disk: Fuse<D>,
    pub ended: Result<(), Stop>,
}

/// What stops a run whose store isn't opened. Opening never finds a disk full, nor a store broken.
pub fn stop_at_open(error: StoreError) -> Stop
    requires { IsOpenError error }
    ensures { result ≡ stop_at_open error }
{
    match error {
        StoreError::DiskFault => Stop::DiskFault,
        StoreError::Damaged { offset } | StoreError::Stray { offset, .. } => Stop::Damaged {
            offset,
        },
        StoreError::Memory => Stop::Memory,
        StoreError::Full { .. } | StoreError::NeedsReopen => unreachable!(),
    }
}

/// Opens the store on a disk, for a life. The fuse is disarmed first.
pub(crate) fn open<D: Disk>(
    alloc: Global,
    disk: Fuse<D>,
) -> Result<(Store<D>, Tree, Items<Op>), Unopened<D>>
    requires { disk.armed ≡ None }
    ensures opened { IfOk result (λ opened. IsOpenedStore D.view disk opened.0 opened.1 opened.2) }
    ensures why { IfErr result (λ unopened. IsUnopenedBy D.view disk unopened.disk unopened.why) }
    ensures given_back { IfErr result (λ unopened. IsGivenBack D.view disk unopened.disk) }
{
    let mut disk = disk;
    disk.disarm();
    match Store::open(alloc, disk) {
        Ok(opened) => Ok(opened),
        Err(OpenFail { why, disk }) => Err(Unopened {
            why: stop_at_open(why),
            disk,
        }),
    }
}

/// Whether a life can begin over a tree: an epoch and a stamp must be left.
pub(crate) fn can_begin(tree: &Tree) -> Result<(), Stop>
    ensures epoch { OnOk result (tree.now.next_epoch < EPOCHS) }
    ensures stamp { OnOk result (tree.now.stamp < STAMPS - 1) }
    ensures refused { IfErr result (IsRefusedBy tree.now) }
{
    if tree.next_epoch() >= EPOCHS || tree.stamp() >= STAMPS - 1 {
        return Err(Stop::EpochsSpent);
    }
    Ok(())
}

/// A life begins over what the last one left in the store, and the fuse is armed where its first segment is to crash. Want of
/// memory alone refuses it: either before it began, and then the desk is as it was, or where the fuse was to be armed.
pub fn begin_life<D: Disk, O: Ordered>(
    d: &mut Desk,
    store: &mut Store<D>,
    by: &O,
    tree: Tree,
) -> Result<(), Halt>
    requires may { May (O.order by.now) Lane.Begin d.old }
    requires dead { stands d.old.core ≡ false }
    requires lives { d.old.place.lives ≢ [] }
    requires over { CanBeginOver tree }
    requires own { IsOwn d.old.core tree }
    requires store { IsStoreSound D.view store.old }
    requires unbroken { store.old.is_broken ≡ false }
    requires unarmed { store.old.disk.armed ≡ None }
    requires unblown { store.old.disk.blown ≡ false }
    ensures one { OnOk result (AddsOneOf Lane.Begin d.old d.new) }
    ensures goes { ExtendsRunOver (O.order by.now) (λ opening. IsLeftAfter tree opening d.old.core.log) [] d.old d.new }
    ensures begun { OnOk result (StartEffect D.view (λ opening. IsLeftAfter tree opening d.old.core.log) (λ opening. IsFoundOn opening d.old.core tree (seen D.view store.old.disk)) d.old d.new store.old store.new) }
    ensures fuse { FuseStays D.view store.old.disk store.new.disk }
    ensures fewer { OnOk result (length d.new.place.lives < length d.old.place.lives) }
    ensures inner { store.new.disk.inner ≡ store.old.disk.inner }
    ensures refused { store.new.disk.refused ≡ store.old.disk.refused }
    ensures memory { IfErr result (λ halt. halt ≡ Halt.Memory) }
    ensures halts { IfErr result (HaltsOver (O.order by.now) D.view (λ opening. IsLeftAfter tree opening d.old.core.log) (λ opening. IsFoundOn opening d.old.core tree (seen D.view store.old.disk)) d.old d.new store.old.disk store.new.disk) }
    ensures left { OnErr result ((d.new ≡ d.old) ⊎ TakesUp tree d.old d.new) }
    ensures takes_up { OnOk result (TakesUp tree d.old d.new) }
{
    let _ = by;
    d.law();
    memory_only(d.begin(tree))?;
    arm(d, store)
}

/// Lets the device of a life fall that went down.
fn fall<D: Disk>(disk: Fuse<D>, end: LifeEnd) -> Fuse<D>
    ensures { FallsBy D.view D.falls_to disk result end }
{
    let mut disk = disk;
    if let LifeEnd::Down { image } = end {
        disk.fall(image);
    }
    disk
}

/// What a life left, once its store is closed: where it halted, the fuse is disarmed.
pub fn leave<D: Disk>(store: Store<D>, ended: Result<LifeEnd, Halt>) -> Lived<D>
    ensures { LeavesAtEnd D.view D.falls_to store.disk result.disk ended result.ended }
{
    let mut disk = store.close();
    match ended {
        Ok(end) => Lived {
            disk: fall(disk, end),
            ended: Ok(()),
        },
        Err(halt) => {
            disk.disarm();
            Lived {
                disk,
                ended: Err(Stop::from(halt)),
            }
        }
    }
}

/// Why the first life had no store, and what its disk held, if it held a store.
#[derive(Drop)]
pub struct Unfounded<D: Disk> {
    pub opening: Items<Op>,
    pub why: Stop,
    pub disk: Fuse<D>,
}

/// Opens the store of the first life: whatever its disk holds that a life can begin over.
pub fn open_first<D: Disk>(
    alloc: Global,
    disk: Fuse<D>,
) -> Result<(Store<D>, Tree, Items<Op>), Unfounded<D>>
    requires { disk.armed ≡ None }
    ensures first { IfOk result (λ first. IsFirst D.view disk first.0 first.1 first.2) }
    ensures why { IfErr result (λ none. IsUnfounded D.view none.opening disk none.disk none.why) }
    ensures read_back { IfOk result (λ first. stray first.2 ≡ None) }
    ensures read_back_yet { IfErr result (λ none. stray none.opening ≡ None) }
    ensures found { IfErr result (λ none. (none.opening ≡ []) ⊎ IfTold (seen D.view disk) (λ bytes. HasContent bytes none.opening)) }
    ensures given_back { IfErr result (λ none. IsGivenBack D.view disk none.disk) }
{
    let (store, tree, opening) = match open(alloc, disk) {
        Ok(opened) => opened,
        Err(Unopened { why, disk }) => {
            return Err(Unfounded {
                opening: Items::new(alloc),
                why,
                disk,
            });
        }
    };
    match can_begin(&tree) {
        Ok(()) => Ok((store, tree, opening)),
        Err(why) => Err(Unfounded {
            opening,
            why,
            disk: store.close(),
        }),
    }
}

/// Opens the store of a later life: one that holds what was kept or, where the last life blew, this and the operation
/// that awaited first, and that a life can begin over. A disk that tells its bytes never holds anything else.
pub fn open_again<D: Disk>(
    alloc: Global,
    d: &Desk,
    disk: Fuse<D>,
) -> Result<(Store<D>, Tree), Unopened<D>>
    requires unarmed { disk.armed ≡ None }
    requires dead { stands d.now.core ≡ false }
    requires some { d.now.core.log ≢ [] }
    ensures again { IfOk result (λ again. IsAgain D.view d.now.core disk again.0 again.1) }
    ensures why { IfErr result (λ none. (opening : List AnyOp) → StandsFor opening d.now.core → IsUnready D.view opening d.now.core.log disk none.disk none.why) }
    ensures given_back { IfErr result (λ none. IsGivenBack D.view disk none.disk) }
{
    let (store, tree) = match open(alloc, disk) {
        Ok((store, tree, _)) => (store, tree),
        Err(unopened) => return Err(unopened),
    };
    d.law();
    match d.is_left(&tree) {
        Ok(true) => {}
        Ok(false) => {
            return Err(Unopened {
                why: Stop::Damaged { offset: 0 },
                disk: store.close(),
            });
        }
        Err(NoMemory) => {
            return Err(Unopened {
                why: Stop::Memory,
                disk: store.close(),
            });
        }
    }
    match can_begin(&tree) {
        Ok(()) => Ok((store, tree)),
        Err(why) => Err(Unopened {
            why,
            disk: store.close(),
        }),
    }
}

//! The moves of a life on one thread, in any order.
ghost use Rattle.std.specs.Prelude.{◌≡◌, ◌≢◌, ◌<◌, [], OnOk, IfOk, IfErr, Some, true};
ghost use Rattle.rm_types.specs.declared.messages.Lane.{Lane};
ghost use Rattle.rm_types.specs.declared.scripts.Close.{Close};
ghost use Rattle.rm_model.specs.Place.{close_left};
ghost use Rattle.rm_core.specs.Words.{stands};
ghost use Rattle.rm_desk.specs.Lanes.{IsStep, is_ready_at};
ghost use Rattle.rm_lives.specs.Keeping.{FuseStays, HaltsBy, Serves};
ghost use Rattle.rm_lives.specs.Lives.{AddsOneOf, AdvancesTo, TakesStep};
ghost use Rattle.rm_lives.specs.Order.{May};

use crate::halts::Halt;
use crate::order::Ordered;
use crate::refusals::memory_only;
use crate::storing::{arm, keep};
use rm_desk::Desk;
use rm_disk::Disk;
use rm_store::Store;
use rm_types::{Close, Lane};

/// How a life ended.
#[derive(Clone, Copy, PartialEq, Eq)]
pub enum LifeEnd {
    /// The script is at its end, and nothing awaits or is owed.
    Rest,
    /// The life went down; its device is to fall to this image.
    Down { image: u32 },
}

/// The current segment settles, and the fuse is armed where the next one is to crash.
fn settle_on<D: Disk, O: Ordered>(d: &mut Desk, store: &mut Store<D>, by: &O) -> Result<(), Halt>
    requires ready { is_ready_at d.old Lane.End ≡ true }
    requires chosen { May (O.order by.now) Lane.End d.old }
    requires settles { close_left d.old.place.segments ≡ Some Close.Settle }
    requires serves { Serves D.view d.old store.old }
    ensures on { OnOk result (TakesStep (O.order by.now) D.view d.old d.new store.old store.new) }
    ensures fuse { FuseStays D.view store.old.disk store.new.disk }
    ensures one { OnOk result (AddsOneOf Lane.End d.old d.new) }
    ensures halts { IfErr result (HaltsBy (O.order by.now) D.view d.old d.new store.old.disk store.new.disk) }
{
    let _ = by;
    d.law();
    memory_only(d.step(Lane::End))?;
    d.law();
    arm(d, store)
}

/// A ready lane moves that doesn't touch the store.
fn work_on<D: Disk, O: Ordered>(
    d: &mut Desk,
    store: &Store<D>,
    by: &O,
    lane: Lane,
) -> Result<(), Halt>
    requires ready { is_ready_at d.old lane ≡ true }
    requires chosen { May (O.order by.now) lane d.old }
    requires step { IsStep lane }
    requires goes { lane ≢ Lane.End }
    requires serves { Serves D.view d.old store.now }
    ensures on { OnOk result (TakesStep (O.order by.now) D.view d.old d.new store.now store.now) }
    ensures one { OnOk result (AddsOneOf lane d.old d.new) }
    ensures halts { IfErr result (HaltsBy (O.order by.now) D.view d.old d.new store.now.disk store.now.disk) }
{
    let _ = store;
    let _ = by;
    d.law();
    memory_only(d.step(lane))?;
    d.law();
    Ok(())
}

/// The current segment closes: it settles, or the life goes down, with the image to which its device is to fall.
fn close<D: Disk, O: Ordered>(
    d: &mut Desk,
    store: &mut Store<D>,
    by: &O,
) -> Result<Option<u32>, Halt>
    requires ready { is_ready_at d.old Lane.End ≡ true }
    requires chosen { May (O.order by.now) Lane.End d.old }
    requires serves { Serves D.view d.old store.old }
    ensures moves { IfOk result (AdvancesTo (O.order by.now) D.view d.old d.new store.old store.new) }
    ensures fuse { FuseStays D.view store.old.disk store.new.disk }
    ensures one { OnOk result (AddsOneOf Lane.End d.old d.new) }
    ensures halts { IfErr result (HaltsBy (O.order by.now) D.view d.old d.new store.old.disk store.new.disk) }
{
    match d.close_of() {
        Some(Close::Crash { image, .. }) => {
            d.law();
            memory_only(d.step(Lane::End))?;
            d.law();
            Ok(Some(image))
        }
        Some(Close::Settle) => {
            settle_on(d, store, by)?;
            Ok(None)
        }
        None => unreachable!(),
    }
}

/// A ready lane moves, by an order that lets it. Where the life went down by it, the image to which its device is to fall. `DiskFault`
/// comes only where the disk's count of faults rose, and `Full` only where the operation with the store needs more than the disk
/// has left; `Schedule` never comes.
pub fn advance<D: Disk, O: Ordered>(
    d: &mut Desk,
    store: &mut Store<D>,
    by: &O,
    lane: Lane,
) -> Result<Option<u32>, Halt>
    requires ready { is_ready_at d.old lane ≡ true }
    requires chosen { May (O.order by.now) lane d.old }
    requires stands { stands d.old.core ≡ true }
    requires serves { Serves D.view d.old store.old }
    ensures moves { IfOk result (AdvancesTo (O.order by.now) D.view d.old d.new store.old store.new) }
    ensures fuse { FuseStays D.view store.old.disk store.new.disk }
    ensures one { OnOk result (AddsOneOf lane d.old d.new) }
    ensures halts { IfErr result (HaltsBy (O.order by.now) D.view d.old d.new store.old.disk store.new.disk) }
{
    match lane {
        Lane::End => close(d, store, by),
        Lane::Write => {
            keep(d, store, by)?;
            Ok(None)
        }
        Lane::Begin => unreachable!(),
        _ => {
            work_on(d, store, by, lane)?;
            Ok(None)
        }
    }
}

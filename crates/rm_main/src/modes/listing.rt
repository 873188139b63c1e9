//! The mode `store`: what the device's store keeps is listed, and nothing is run.
ghost use Rattle.std.specs.Prelude.{◌≡◌, [], IsOk, IfErr, None};
ghost use Rattle.rm_disk.specs.Disk.{EachImage, IsQuiet, IfTold};
ghost use Rattle.rm_formats.specs.Page.{store_page};
ghost use Rattle.rm_store.specs.Content.{HasContent};
ghost use Rattle.rm_lives.specs.Starts.{DiskStays, IsAtEase, IsUnopenedBy};
ghost use Rattle.rm_store.specs.Store.{seen};
ghost use Rattle.rm_main.specs.Made.{LeavesDevice, made_by};
ghost use Rattle.rm_main.specs.Runs.{WritesPage};
ghost use Rattle.rm_main.specs.Ways.{IsOfListing};
ghost use Rattle.rm_main.specs.modes.ListingClause.{ListingEnds};

use crate::ended::Ended;
use crate::writing::{outcome_of, write_store};
use rm_disk::{Disk, Fuse};
use rm_lives::{Stop, stop_at_open};
use rm_outside::Sink;
use rm_store::{OpenFail, Store};
use rm_types::{Items, Op};
use std::alloc::Global;

/// What a store keeps, its disk, and why it couldn't be opened, if it couldn't.
#[derive(Drop)]
struct Listing<D: Disk> {
    pub ops: Items<Op>,
    pub disk: Fuse<D>,
    pub ended: Result<(), Stop>,
}

/// Opens the store that a disk holds, and closes it again: the operations that stand there, in the order in which they were kept. Those
/// that say nothing any more may have been left out when the store was written anew.
/// The disk is left as it was, and what is listed is what a crash leaves of it from then on.
fn list_store<D: Disk>(alloc: Global, disk: Fuse<D>) -> Listing<D>
    requires { disk.armed ≡ None }
    ensures holds { IsOk result.ended → IfTold (seen D.view disk) (λ bytes. HasContent bytes result.ops) }
    ensures lasts { IsOk result.ended → IfTold (seen D.view disk) (λ _. EachImage (seen D.view result.disk) (λ image. HasContent image result.ops)) }
    ensures stopped { IfErr result.ended (IsUnopenedBy D.view disk result.disk) }
    ensures empty { IfErr result.ended (λ _. result.ops ≡ []) }
    ensures quiet { IsQuiet (seen D.view disk) (seen D.view result.disk) }
    ensures stays { DiskStays D.view disk result.disk }
    ensures falls { result.disk.falls ≡ disk.falls }
    ensures at_ease { IsAtEase result.disk }
{
    let mut disk = disk;
    disk.disarm();
    match Store::open(alloc, disk) {
        Ok((store, _tree, ops)) => Listing {
            ops,
            disk: store.close(),
            ended: Ok(()),
        },
        Err(OpenFail { why, disk }) => Listing {
            ops: Items::new(alloc),
            disk,
            ended: Err(stop_at_open(why)),
        },
    }
}

/// Lists what a disk's store keeps.
pub(crate) fn list<K: Sink, D: Disk>(alloc: Global, sink: &mut K, disk: Fuse<D>) -> Ended<D>
    requires { disk.armed ≡ None }
    ensures ends { ListingEnds D.view (made_by disk result) result.outcome }
    ensures of_listing { IsOfListing result.outcome }
    ensures writes { WritesPage K.taken K.faults K.idle sink.old sink.new (store_page result.opening) result.outcome }
    ensures device { LeavesDevice D.view (made_by disk result) }
{
    let listed = list_store(alloc, disk);
    let written = write_store(alloc, sink, &listed.ops);
    Ended {
        outcome: outcome_of(listed.ended, written),
        opening: listed.ops,
        log: Items::new(alloc),
        disk: listed.disk,
    }
}

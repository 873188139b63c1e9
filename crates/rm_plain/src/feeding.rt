//! A life that is fed a segment at a time.
ghost use Rattle.std.specs.Prelude.{◌≡◌, ◌≢◌, ◌≤◌, ◌+◌, [], length, IfOk, IfErr, None, Some, true};
ghost use Rattle.rm_types.specs.Limits.{most_served};
ghost use Rattle.rm_model.specs.Place.{close_left};
ghost use Rattle.rm_core.specs.Words.{served_in, stands};
ghost use Rattle.rm_desk.specs.Scripts.{AllServed};
ghost use Rattle.rm_plain.specs.Feeding.{FedLeft, FedUp, IsLastDue, IsSameManager, StandsAtEnd, StartsAgain, StartsFirst, StopsAgain, StopsFirst, WorksOff, by_policy};
ghost use Rattle.rm_lives.specs.Keeping.{FuseStays, HaltsBy, Serves};
ghost use Rattle.rm_plain.specs.Policy.{first_ready};

use crate::policy::first_ready;
use rm_desk::Desk;
use rm_disk::{Disk, Fuse};
use rm_lives::{
    Halt, LifeEnd, Lived, Ordered, Stop, Unfounded, Unopened, advance, arm, begin_life, leave,
    open_again, open_first,
};
use rm_store::Store;
use rm_types::{Items, Lane, Op, Segment};
use std::alloc::Global;

/// Moves by the plain policy, where something is left of the script.
pub(crate) struct ByPolicy;

impl Ordered for ByPolicy {
    ghost use Rattle.rm_plain.specs.Feeding.{by_policy};

    ghost order = { λ by. by_policy };
}

/// The lane that moves next, where a segment is left of the life that stands.
fn next_lane(d: &Desk) -> Lane
    requires { close_left d.now.place.segments ≢ None }
    ensures { first_ready d.now ≡ Some result }
{
    let end = d.is_at_end();
    match first_ready(d) {
        Some(lane) => lane,
        None => {
            prove!(end);
            unreachable!()
        }
    }
}

/// Works off what is left of the life that stands: until its last segment settled, or it went down.
fn work_off<D: Disk>(d: &mut Desk, store: &mut Store<D>, by: &ByPolicy) -> Result<LifeEnd, Halt>
    requires stands { stands d.old.core ≡ true }
    requires some { close_left d.old.place.segments ≢ None }
    requires serves { Serves D.view d.old store.old }
    ensures ends { IfOk result (WorksOff D.view d.old d.new store.old store.new) }
    ensures fuse { FuseStays D.view store.old.disk store.new.disk }
    ensures halts { IfErr result (HaltsBy by_policy D.view d.old d.new store.old.disk store.new.disk) }
{
    'moves: loop {
        if d.close_of().is_none() {
            return Ok(LifeEnd::Rest);
        }
        let lane = next_lane(d);
        if let Some(image) = advance(d, store, by, lane)? {
            return Ok(LifeEnd::Down { image });
        }
    }
}

/// Adds a segment to the script's last life, which stands at the script's end, and works it off. Where it settled the store is given back for the
/// next one; where the life went down its disk has fallen, and where the run stopped it is given back as it was left.
pub(crate) fn feed<D: Disk>(
    d: &mut Desk,
    store: Store<D>,
    segment: Segment,
) -> Result<Store<D>, Lived<D>>
    requires up { StandsAtEnd D.view d.old store }
    requires each { AllServed segment.messages }
    requires few { served_in d.old.core + length segment.messages ≤ most_served }
    ensures up { IfOk result (FedUp D.view segment d.old d.new store) }
    ensures left { IfErr result (λ left. FedLeft D.view segment d.old d.new store left.disk left.ended) }
{
    let mut store = store;
    d.law();
    d.add_segment(segment);
    match arm(d, &mut store) {
        Ok(()) => {}
        Err(halt) => return Err(leave(store, Err(halt))),
    }
    match work_off(d, &mut store, &ByPolicy) {
        Ok(LifeEnd::Rest) => Ok(store),
        Ok(LifeEnd::Down { image }) => Err(leave(store, Ok(LifeEnd::Down { image }))),
        Err(halt) => Err(leave(store, Err(halt))),
    }
}

/// The first life of a run begins, over whatever its disk holds. Nothing of it is worked off before it is fed.
pub(crate) fn start_first<D: Disk>(
    alloc: Global,
    d: &mut Desk,
    disk: Fuse<D>,
) -> Result<(Store<D>, Items<Op>), Unfounded<D>>
    requires due { IsLastDue d.old }
    requires empty { d.old.core.log ≡ [] }
    requires unarmed { disk.armed ≡ None }
    ensures same { IsSameManager d.old d.new }
    ensures up { IfOk result (λ it. StandsAtEnd D.view d.new it.0) }
    ensures runs { IfOk result (λ it. StartsFirst D.view it.1 d.old d.new disk it.0) }
    ensures stopped { IfErr result (λ none. StopsFirst D.view none.opening d.old d.new disk none.disk none.why) }
{
    d.law();
    let (mut store, tree, opening) = match open_first(alloc, disk) {
        Ok(opened) => opened,
        Err(none) => return Err(none),
    };
    match begin_life(d, &mut store, &ByPolicy, tree) {
        Ok(()) => Ok((store, opening)),
        Err(halt) => Err(Unfounded {
            opening,
            why: Stop::from(halt),
            disk: leave(store, Err(halt)).disk,
        }),
    }
}

/// A later life begins, over what the last one left.
pub(crate) fn start_again<D: Disk>(
    alloc: Global,
    d: &mut Desk,
    disk: Fuse<D>,
) -> Result<Store<D>, Unopened<D>>
    requires due { IsLastDue d.old }
    requires some { d.old.core.log ≢ [] }
    requires unarmed { disk.armed ≡ None }
    ensures same { IsSameManager d.old d.new }
    ensures up { IfOk result (StandsAtEnd D.view d.new) }
    ensures runs { IfOk result (StartsAgain D.view d.old d.new disk) }
    ensures stopped { IfErr result (λ none. StopsAgain D.view d.old d.new disk none.disk none.why) }
{
    d.law();
    let (mut store, tree) = match open_again(alloc, d, disk) {
        Ok(opened) => opened,
        Err(none) => return Err(none),
    };
    match begin_life(d, &mut store, &ByPolicy, tree) {
        Ok(()) => Ok(store),
        Err(halt) => Err(Unopened {
            why: Stop::from(halt),
            disk: leave(store, Err(halt)).disk,
        }),
    }
}

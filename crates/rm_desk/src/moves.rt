ghost use Rattle.std.specs.Prelude.{◌≡◌, ◌≢◌, ℕ, OnOk, OnErr, Err, Some, true};
ghost use Rattle.rm_types.specs.declared.messages.Lane.{Lane};
ghost use Rattle.rm_types.specs.declared.scripts.Close.{Close};
ghost use Rattle.rm_types.specs.Lanes.{feed_lane};
ghost use Rattle.rm_model.specs.Place.{close_left};
ghost use Rattle.rm_tables.specs.declared.events.Refused.{Refused};
ghost use Rattle.rm_core.specs.Moves.{CanBeginOver, IsOwn};
ghost use Rattle.rm_desk.specs.Effects.{LifeBegins, StoreBlows, LaneEffect};
ghost use Rattle.rm_desk.specs.Feeds.{IsEntered, at};
ghost use Rattle.rm_desk.specs.Lanes.{IsStep, has_message, is_ready_at};
ghost use Rattle.rm_desk.specs.Runs.{IsPlaceSound};

use crate::feeds::Feeds;
use rm_core::{Core, Move, Refused};
use rm_tree::Tree;
use rm_types::{Close, Duplicate, Lane, Sender};

// The moves of a desk whose lane is ready. Each is refused for want of memory alone, and then nothing has changed.

/// The first message of a sender's feed is answered.
fn serve(core: &mut Core, feeds: &mut Feeds, sender: Sender) -> Result<(), Refused>
    requires sound { IsPlaceSound (at core.old feeds.old) }
    requires entered { IsEntered feeds.old }
    requires ready { has_message sender (at core.old feeds.old) ≡ true }
    ensures ready { result ≢ Err Refused.NotReady }
    ensures does { OnOk result (LaneEffect (feed_lane sender) (at core.old feeds.old) (at core.new feeds.new)) }
    ensures entered { OnOk result (IsEntered feeds.new) }
    ensures core { OnErr result (core.new ≡ core.old) }
    ensures feeds { OnErr result (feeds.new ≡ feeds.old) }
{
    let Some(message) = feeds.feed.first(sender) else {
        unreachable!()
    };
    let message = message.copy()?;
    core.step(Move::Serve(message))?;
    feeds.feed.take(sender);
    Ok(())
}

fn work_main(core: &mut Core, feeds: &Feeds) -> Result<(), Refused>
    requires sound { IsPlaceSound (at core.old feeds.now) }
    requires ready { is_ready_at (at core.old feeds.now) Lane.Main ≡ true }
    ensures ready { result ≢ Err Refused.NotReady }
    ensures does { OnOk result (LaneEffect Lane.Main (at core.old feeds.now) (at core.new feeds.now)) }
    ensures core { OnErr result (core.new ≡ core.old) }
{
    let _ = feeds;
    core.step(Move::Main)
}

fn work_sched(core: &mut Core, feeds: &Feeds) -> Result<(), Refused>
    requires sound { IsPlaceSound (at core.old feeds.now) }
    requires ready { is_ready_at (at core.old feeds.now) Lane.Sched ≡ true }
    ensures ready { result ≢ Err Refused.NotReady }
    ensures does { OnOk result (LaneEffect Lane.Sched (at core.old feeds.now) (at core.new feeds.now)) }
    ensures core { OnErr result (core.new ≡ core.old) }
{
    let _ = feeds;
    core.step(Move::Sched)
}

fn hand(core: &mut Core, feeds: &Feeds) -> Result<(), Refused>
    requires sound { IsPlaceSound (at core.old feeds.now) }
    requires ready { is_ready_at (at core.old feeds.now) Lane.Hand ≡ true }
    ensures ready { result ≢ Err Refused.NotReady }
    ensures does { OnOk result (LaneEffect Lane.Hand (at core.old feeds.now) (at core.new feeds.now)) }
    ensures core { OnErr result (core.new ≡ core.old) }
{
    let _ = feeds;
    core.step(Move::Hand)
}

/// The operation that is with the store is kept.
pub(crate) fn kept(core: &mut Core, feeds: &Feeds) -> Result<(), Refused>
    requires sound { IsPlaceSound (at core.old feeds.now) }
    requires ready { is_ready_at (at core.old feeds.now) Lane.Write ≡ true }
    ensures ready { result ≢ Err Refused.NotReady }
    ensures does { OnOk result (LaneEffect Lane.Write (at core.old feeds.now) (at core.new feeds.now)) }
    ensures core { OnErr result (core.new ≡ core.old) }
{
    let _ = feeds;
    core.step(Move::Kept)
}

/// The store refused the operation that was with it.
pub(crate) fn blown(core: &mut Core, feeds: &Feeds, passed: u32) -> Result<(), Refused>
    requires sound { IsPlaceSound (at core.old feeds.now) }
    requires ready { is_ready_at (at core.old feeds.now) Lane.Write ≡ true }
    requires crashes { (image : ℕ) × (close_left (at core.old feeds.now).place.segments ≡ Some (Close.Crash passed image)) }
    ensures ready { result ≢ Err Refused.NotReady }
    ensures does { OnOk result (StoreBlows passed (at core.old feeds.now) (at core.new feeds.now)) }
    ensures core { OnErr result (core.new ≡ core.old) }
{
    let _ = feeds;
    core.step(Move::Blown { passed })
}

/// The current segment settles, and the next one becomes the current one.
fn settle(core: &mut Core, feeds: &mut Feeds) -> Result<(), Refused>
    requires sound { IsPlaceSound (at core.old feeds.old) }
    requires entered { IsEntered feeds.old }
    requires ready { is_ready_at (at core.old feeds.old) Lane.End ≡ true }
    requires settles { feeds.old.close ≡ Some Close.Settle }
    ensures ready { result ≢ Err Refused.NotReady }
    ensures does { OnOk result (LaneEffect Lane.End (at core.old feeds.old) (at core.new feeds.new)) }
    ensures entered { OnOk result (IsEntered feeds.new) }
    ensures core { OnErr result (core.new ≡ core.old) }
    ensures feeds { OnErr result (feeds.new ≡ feeds.old) }
{
    core.rest();
    core.step(Move::Settle)?;
    feeds.enter();
    Ok(())
}

/// The life goes down with its last segment.
fn go_down(core: &mut Core, feeds: &mut Feeds) -> Result<(), Refused>
    requires sound { IsPlaceSound (at core.old feeds.old) }
    requires entered { IsEntered feeds.old }
    requires ready { is_ready_at (at core.old feeds.old) Lane.End ≡ true }
    requires crashes { feeds.old.close ≢ Some Close.Settle }
    ensures ready { result ≢ Err Refused.NotReady }
    ensures does { OnOk result (LaneEffect Lane.End (at core.old feeds.old) (at core.new feeds.new)) }
    ensures entered { OnOk result (IsEntered feeds.new) }
    ensures core { OnErr result (core.new ≡ core.old) }
    ensures feeds { OnErr result (feeds.new ≡ feeds.old) }
{
    core.step(Move::Down)?;
    feeds.enter();
    Ok(())
}

/// The current segment closes: it settles, or the life goes down.
fn close(core: &mut Core, feeds: &mut Feeds) -> Result<(), Refused>
    requires sound { IsPlaceSound (at core.old feeds.old) }
    requires entered { IsEntered feeds.old }
    requires ready { is_ready_at (at core.old feeds.old) Lane.End ≡ true }
    ensures ready { result ≢ Err Refused.NotReady }
    ensures does { OnOk result (LaneEffect Lane.End (at core.old feeds.old) (at core.new feeds.new)) }
    ensures entered { OnOk result (IsEntered feeds.new) }
    ensures core { OnErr result (core.new ≡ core.old) }
    ensures feeds { OnErr result (feeds.new ≡ feeds.old) }
{
    match feeds.close {
        Some(Close::Settle) => settle(core, feeds),
        _ => go_down(core, feeds),
    }
}

/// A ready lane moves that neither touches the store nor begins a life.
pub(crate) fn advance(core: &mut Core, feeds: &mut Feeds, lane: Lane) -> Result<(), Refused>
    requires sound { IsPlaceSound (at core.old feeds.old) }
    requires entered { IsEntered feeds.old }
    requires ready { is_ready_at (at core.old feeds.old) lane ≡ true }
    requires own { IsStep lane }
    ensures ready { result ≢ Err Refused.NotReady }
    ensures does { OnOk result (LaneEffect lane (at core.old feeds.old) (at core.new feeds.new)) }
    ensures entered { OnOk result (IsEntered feeds.new) }
    ensures core { OnErr result (core.new ≡ core.old) }
    ensures feeds { OnErr result (feeds.new ≡ feeds.old) }
{
    if let Some(sender) = lane.sender() {
        return serve(core, feeds, sender);
    }
    match lane {
        Lane::Main => work_main(core, feeds),
        Lane::Sched => work_sched(core, feeds),
        Lane::Hand => hand(core, feeds),
        Lane::End => close(core, feeds),
        _ => unreachable!(),
    }
}

/// The script's next life begins over what the store holds, with its first segment.
pub(crate) fn begin(core: &mut Core, feeds: &mut Feeds, tree: Tree) -> Result<(), Refused>
    requires sound { IsPlaceSound (at core.old feeds.old) }
    requires entered { IsEntered feeds.old }
    requires ready { is_ready_at (at core.old feeds.old) Lane.Begin ≡ true }
    requires over { CanBeginOver tree }
    requires own { IsOwn core.old tree }
    ensures ready { result ≢ Err Refused.NotReady }
    ensures begins { OnOk result (LifeBegins tree (at core.old feeds.old) (at core.new feeds.new)) }
    ensures entered { OnOk result (IsEntered feeds.new) }
    ensures core { OnErr result (core.new ≡ core.old) }
    ensures feeds { OnErr result (feeds.new ≡ feeds.old) }
{
    let Some(life) = feeds.lives.first() else {
        unreachable!()
    };
    let handed = life.stamp;
    core.step(Move::Begin { tree, handed })?;
    feeds.enter_life();
    Ok(())
}

//! What is said to the manager, in its range.
ghost use Rattle.std.specs.Prelude.{◌≡◌, ◌↔◌, ◌+◌, ◌<◌, ◌^◌, IsTrue};
ghost use Rattle.rm_master.specs.Told.{allocation_id};
ghost use Rattle.rm_tracker.specs.Told.{beat_id, elapsed};

use rm_tables::Tables;
use rm_types::{ClockAsk, MasterAsk, NodeAsk};

/// Whether `rm_master::serve` may be called with this: an allocation's response id has a next one.
pub fn can_serve_master(ask: &MasterAsk) -> bool
    ensures { IsTrue result ↔ (allocation_id ask.now + 1 < 2 ^ 32) }
{
    allocation_id(ask) < u32::MAX
}

/// The response id that a master says it was answered last, where it allocates.
fn allocation_id(ask: &MasterAsk) -> u32
    ensures { result ≡ allocation_id ask.now }
{
    match ask {
        MasterAsk::Register => 0,
        MasterAsk::Finish { text: _ } => 0,
        MasterAsk::Allocate {
            id,
            asks: _,
            release: _,
        } => *id,
    }
}

/// Whether `rm_tracker::serve` may be called with this: a beat's response id has a next one.
pub fn can_serve_node(ask: &NodeAsk) -> bool
    ensures { IsTrue result ↔ (beat_id ask.now + 1 < 2 ^ 32) }
{
    beat_id(ask) < u32::MAX
}

/// The response id that a node says it was answered last, where it beats.
fn beat_id(ask: &NodeAsk) -> u32
    ensures { result ≡ beat_id ask.now }
{
    match ask {
        NodeAsk::Register {
            turn: _,
            capability: _,
            running: _,
        } => 0,
        NodeAsk::Beat {
            id,
            running: _,
            done: _,
        } => *id,
    }
}

/// Whether `rm_tracker::serve_clock` may be called with this: the clock can tell the time that it comes to.
pub fn can_serve_clock(t: &Tables, ask: &ClockAsk) -> bool
    ensures { IsTrue result ↔ (t.now.clock + elapsed ask.now < 2 ^ 64) }
{
    elapsed(ask) <= u64::MAX - t.clock
}

/// The milliseconds that the clock says went by.
fn elapsed(ask: &ClockAsk) -> u64
    ensures { result ≡ elapsed ask.now }
{
    match ask {
        ClockAsk::Tick(time) => *time,
        ClockAsk::ExpireNode(_) => 0,
        ClockAsk::ExpireMaster(_) => 0,
    }
}

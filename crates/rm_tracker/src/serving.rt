ghost use Rattle.std.specs.Prelude.{◌≡◌, ◌+◌, ◌<◌, ◌^◌, IfOk, OnErr};
ghost use Rattle.rm_model.specs.State.{Scene};
ghost use Rattle.rm_model.specs.NodeReplies.{clock_reply, life_after_clock, life_after_node, node_reply};
ghost use Rattle.rm_refinement.specs.Services.{RefinesLife};
ghost use Rattle.rm_tracker.specs.Answers.{after_clock, after_node};
ghost use Rattle.rm_tracker.specs.Offers.{OnlyNodesOffer};
ghost use Rattle.rm_tracker.specs.Told.{beat_id, elapsed};

use crate::beating::beat;
use crate::expiring::{expire_master, expire_node};
use crate::registering::register;
use rm_tables::Tables;
use rm_types::{ClockAsk, NoMemory, NodeAsk, Reply, Text};

/// Answers a node: its name, and what it says. Only want of memory refuses, and leaves all as it was.
pub fn serve(t: &mut Tables, name: &Text, ask: &NodeAsk) -> Result<Reply, NoMemory>
    requires id { beat_id ask.now + 1 < 2 ^ 32 }
    ensures reply { (m : Scene) → RefinesLife m t.old → IfOk result (λ reply. reply ≡ node_reply m name.now ask.now) }
    ensures changed { IfOk result (λ reply. t.new ≡ after_node name.now ask.now reply t.old) }
    ensures shows { (m : Scene) → RefinesLife m t.old → OnlyNodesOffer t.old → IfOk result (λ reply. RefinesLife (record m { life = life_after_node m name.now ask.now reply }) t.new) }
    ensures offers { OnlyNodesOffer t.old → OnlyNodesOffer t.new }
    ensures err { OnErr result (t.new ≡ t.old) }
{
    // With its length a book tells that each of its containers has one row.
    let _living = t.book.len();
    match ask {
        NodeAsk::Register {
            turn,
            capability,
            running,
        } => register(t, name, *turn, *capability, running),
        NodeAsk::Beat { id, running, done } => beat(t, name, *id, running, done),
    }
}

/// Answers the clock. Only want of memory refuses, and leaves all as it was.
pub fn serve_clock(t: &mut Tables, ask: &ClockAsk) -> Result<Reply, NoMemory>
    requires time { t.old.clock + elapsed ask.now < 2 ^ 64 }
    ensures reply { (m : Scene) → RefinesLife m t.old → IfOk result (λ reply. reply ≡ clock_reply m ask.now) }
    ensures changed { IfOk result (λ reply. t.new ≡ after_clock ask.now reply t.old) }
    ensures shows { (m : Scene) → RefinesLife m t.old → IfOk result (λ reply. RefinesLife (record m { life = life_after_clock m ask.now reply }) t.new) }
    ensures offers { OnlyNodesOffer t.old → OnlyNodesOffer t.new }
    ensures err { OnErr result (t.new ≡ t.old) }
{
    match ask {
        ClockAsk::Tick(time) => {
            t.clock += *time;
            Ok(Reply::Ok)
        }
        ClockAsk::ExpireNode(name) => expire_node(t, name),
        ClockAsk::ExpireMaster(attempt) => expire_master(t, *attempt),
    }
}

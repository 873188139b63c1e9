ghost use Rattle.std.specs.Prelude.{◌≡◌, ◌+◌, ◌<◌, ◌^◌, IfOk, OnErr};
ghost use Rattle.rm_model.specs.State.{Scene};
ghost use Rattle.rm_model.specs.MasterReplies.{life_after_master, master_reply};
ghost use Rattle.rm_refinement.specs.Services.{RefinesLife};
ghost use Rattle.rm_master.specs.Answers.{after_master};
ghost use Rattle.rm_master.specs.Told.{allocation_id};

use crate::allocating::allocate;
use crate::finishing::finish;
use crate::registering::register;
use rm_tables::Tables;
use rm_types::{AttemptId, MasterAsk, NoMemory, Reply};

/// Answers the master of an attempt. Only want of memory refuses, and leaves all as it was.
pub fn serve(t: &mut Tables, attempt: AttemptId, ask: &MasterAsk) -> Result<Reply, NoMemory>
    requires id { allocation_id ask.now + 1 < 2 ^ 32 }
    ensures reply { (m : Scene) → RefinesLife m t.old → IfOk result (λ reply. reply ≡ master_reply t.old.settings m attempt ask.now) }
    ensures changed { IfOk result (λ reply. t.new ≡ after_master attempt ask.now reply t.old) }
    ensures shows { (m : Scene) → RefinesLife m t.old → IfOk result (λ reply. RefinesLife (record m { life = life_after_master m attempt ask.now reply }) t.new) }
    ensures err { OnErr result (t.new ≡ t.old) }
{
    match ask {
        MasterAsk::Register => register(t, attempt),
        MasterAsk::Finish { text } => finish(t, attempt, text),
        MasterAsk::Allocate { id, asks, release } => allocate(t, attempt, *id, asks, release),
    }
}

ghost use Rattle.std.specs.Prelude.{◌≡◌, ◌+◌, ◌<◌, ◌^◌, length, IfOk, OnErr};
ghost use Rattle.rm_types.specs.declared.ids.AppId.{AppId as App};
ghost use Rattle.rm_model.specs.State.{Scene};
ghost use Rattle.rm_model.specs.Facts.{attempts_in};
ghost use Rattle.rm_model.specs.ClientReplies.{client_reply, life_after_client, next_app};
ghost use Rattle.rm_tables.specs.Actions.{found_in};
ghost use Rattle.rm_client.specs.Answers.{after_client};
ghost use Rattle.rm_refinement.specs.Clients.{RefinesForClients};
ghost use Rattle.rm_refinement.specs.Services.{RefinesLife};

use crate::kills::kill;
use crate::reports::report;
use crate::submissions::submit;
use rm_queues::QueueTree;
use rm_tables::Tables;
use rm_types::{AppId, ClientAsk, NoMemory, Reply, Text};

/// Answers a client: a user, and what it asks. The queues are those of the tables' settings. Only want of memory refuses, and
/// leaves all as it was.
pub fn serve(
    queues: &QueueTree,
    t: &mut Tables,
    user: &Text,
    ask: &ClientAsk,
) -> Result<Reply, NoMemory>
    requires settings { queues.now ≡ t.old.settings }
    requires ids { t.old.given + 1 < 2 ^ 32 }
    requires apps { t.old.going + 1 < 2 ^ 64 }
    requires attempts { (id : App) → length (attempts_in (found_in t.old id)) < 2 ^ 32 }
    ensures reply { (m : Scene) → RefinesForClients m t.old → IfOk result (λ reply. reply ≡ client_reply t.old.settings m user.now ask.now) }
    ensures changed { IfOk result (λ reply. t.new ≡ after_client ask.now reply t.old) }
    ensures shows { (m : Scene) → RefinesForClients m t.old → IfOk result (λ reply. RefinesForClients (record m { life = life_after_client m ask.now reply }) t.new) }
    ensures shows_life { (m : Scene) → RefinesForClients m t.old → RefinesLife m t.old → IfOk result (λ reply. RefinesLife (record m { life = life_after_client m ask.now reply }) t.new) }
    ensures err { OnErr result (t.new ≡ t.old) }
{
    match ask {
        ClientAsk::New => Ok(give(t)),
        ClientAsk::Submit(id, submission) => submit(queues, t, *id, submission),
        ClientAsk::Report(id) => report(t, *id),
        ClientAsk::Kill(id) => kill(queues, t, user, *id),
    }
}

/// A new id is given: the life's stamp, and one more than the ids that it gave.
fn give(t: &mut Tables) -> Reply
    requires { t.old.given + 1 < 2 ^ 32 }
    ensures reply { (m : Scene) → RefinesForClients m t.old → result ≡ Reply.New (next_app m) }
    ensures changed { t.new ≡ after_client ClientAsk.New result t.old }
{
    t.given += 1;
    Reply::New(AppId {
        stamp: t.stamp,
        number: t.given,
    })
}

ghost use Rattle.std.specs.Prelude.{◌≡◌, is_some, IfOk, OnOk, OnErr, Some};
ghost use Rattle.rm_types.specs.declared.messages.ClientAsk.{ClientAsk};
ghost use Rattle.rm_types.specs.Rights.{denial};
ghost use Rattle.rm_model.specs.State.{Scene};
ghost use Rattle.rm_model.specs.Facts.{kept_end, submission_of};
ghost use Rattle.rm_model.specs.ClientReplies.{kill_reply};
ghost use Rattle.rm_tables.specs.Rows.{row_of};
ghost use Rattle.rm_client.specs.Answers.{after_client, wished_by};
ghost use Rattle.rm_refinement.specs.Clients.{RefinesForClients};

use crate::reports::submission_of;
use rm_queues::QueueTree;
use rm_tables::{MainEvent, RowChange, Tables};
use rm_types::{AclOp, AppId, NoMemory, Reply, Submission, Text};

/// Whether an application's end is kept.
fn has_end(t: &Tables, id: AppId) -> bool
    ensures { (m : Scene) → RefinesForClients m t.now → result ≡ is_some (kept_end m id) }
{
    match t.tree.find(id) {
        Some(app) => app.ending.is_some(),
        None => false,
    }
}

/// The refusal of a kill by who has no right to it.
fn refuse_kill(queues: &QueueTree, submission: &Submission) -> Result<Reply, NoMemory>
    ensures { IfOk result (λ reply. reply ≡ Reply.Denied (denial AclOp.Kill queues.now.queues submission.now.queue)) }
{
    let denial = queues.denial(AclOp::Kill, submission.queue.bytes())?;
    Ok(Reply::Denied(denial))
}

/// What a kill of an application that is known by this submission is answered.
fn kill_known(
    queues: &QueueTree,
    t: &Tables,
    user: &Text,
    id: AppId,
    submission: &Submission,
) -> Result<Reply, NoMemory>
    ensures { (m : Scene) → RefinesForClients m t.now → IfOk result (λ reply. reply ≡ kill_reply queues.now m user.now id (Some submission.now)) }
{
    let allowed = queues.may_kill(user.bytes(), submission)?;
    if !allowed {
        return refuse_kill(queues, submission);
    }
    if has_end(t, id) {
        Ok(Reply::AppEnded)
    } else {
        Ok(Reply::Killing)
    }
}

/// What a kill is answered.
fn kill_reply(queues: &QueueTree, t: &Tables, user: &Text, id: AppId) -> Result<Reply, NoMemory>
    ensures { (m : Scene) → RefinesForClients m t.now → IfOk result (λ reply. reply ≡ kill_reply queues.now m user.now id (submission_of m id)) }
{
    match submission_of(t, id) {
        Some(submission) => kill_known(queues, t, user, id, submission),
        None => Ok(Reply::Unknown),
    }
}

/// An application is wished to be killed: the first wish of a life is to be followed.
fn wish(t: &mut Tables, id: AppId) -> Result<(), NoMemory>
    ensures ok { OnOk result (t.new ≡ wished_by (row_of t.old.rows id) id t.old) }
    ensures err { OnErr result (t.new ≡ t.old) }
{
    let Some(row) = t.rows.find(id) else {
        return Ok(());
    };
    if row.wish {
        return Ok(());
    }
    t.main.push(MainEvent::AppKill(id))?;
    t.rows.change(id, RowChange::Wish);
    Ok(())
}

/// A kill is answered; where it isn't refused it is wished for.
pub fn kill(queues: &QueueTree, t: &mut Tables, user: &Text, id: AppId) -> Result<Reply, NoMemory>
    requires settings { queues.now ≡ t.old.settings }
    ensures reply { (m : Scene) → RefinesForClients m t.old → IfOk result (λ reply. reply ≡ kill_reply t.old.settings m user.now id (submission_of m id)) }
    ensures changed { IfOk result (λ reply. t.new ≡ after_client (ClientAsk.Kill id) reply t.old) }
    ensures err { OnErr result (t.new ≡ t.old) }
{
    let reply = kill_reply(queues, t, user, id)?;
    if let Reply::Killing = reply {
        wish(t, id)?;
    }
    Ok(reply)
}

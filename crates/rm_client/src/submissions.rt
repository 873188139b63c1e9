ghost use Rattle.std.specs.Prelude.{◌≡◌, ◌+◌, ◌<◌, ◌^◌, [], ◌∷◌, ◌++◌, nat_le, IfOk, OnOk, OnErr, None, Some, true, false};
ghost use Rattle.rm_types.specs.declared.messages.ClientAsk.{ClientAsk};
ghost use Rattle.rm_model.specs.State.{Scene};
ghost use Rattle.rm_model.specs.Facts.{has_app, is_known};
ghost use Rattle.rm_model.specs.ClientReplies.{going, is_given, submit_reply};
ghost use Rattle.rm_tables.specs.declared.events.MainEvent.{MainEvent as Event};
ghost use Rattle.rm_tables.specs.Rows.{slot_of};
ghost use Rattle.rm_client.specs.Answers.{after_client, with_submission};
ghost use Rattle.rm_refinement.specs.Clients.{RefinesForClients};

use rm_queues::QueueTree;
use rm_states::app::AppState;
use rm_tables::{AppRow, MainEvent, Rows, Tables};
use rm_types::{AclOp, AppId, Duplicate, Items, NoMemory, Reply, Submission};

/// Whether this life or one before it may have given an id.
fn is_given(t: &Tables, id: AppId) -> bool
    ensures { (m : Scene) → RefinesForClients m t.now → result ≡ is_given m id }
{
    id.stamp < t.stamp || (id.stamp == t.stamp && id.number <= t.given)
}

/// Whether as many applications go on as there may be.
fn is_full(t: &Tables) -> bool
    ensures { (m : Scene) → RefinesForClients m t.now → result ≡ nat_le t.now.settings.max_apps (going m) }
{
    t.settings.max_apps as usize <= t.going
}

/// What the submission of an application is answered that isn't known, and whose id was given and isn't retired.
fn answer_new(queues: &QueueTree, t: &Tables, submission: &Submission) -> Result<Reply, NoMemory>
    requires settings { queues.now ≡ t.now.settings }
    ensures { (m : Scene) (id : AppId) → RefinesForClients m t.now → is_given m id ≡ true → has_app m.life.apps.retired id ≡ false → is_known m id ≡ false → IfOk result (λ reply. reply ≡ submit_reply t.now.settings m id submission.now) }
{
    let queue = submission.queue.bytes();
    if !queues.is_leaf(queue) {
        Ok(Reply::NoQueue)
    } else if !queues.may_submit(submission.user.bytes(), queue) {
        Ok(Reply::Denied(queues.denial(AclOp::Submit, queue)?))
    } else if !submission.master.fits(t.settings.greatest) {
        Ok(Reply::TooLarge)
    } else if is_full(t) {
        Ok(Reply::Full)
    } else {
        Ok(Reply::Submitted)
    }
}

/// An application joins those that are known, and is to be issued.
fn join(t: &mut Tables, id: AppId, submission: &Submission) -> Result<(), NoMemory>
    requires new { slot_of t.old.rows id ≡ None }
    requires few { t.old.going + 1 < 2 ^ 64 }
    ensures ok { OnOk result (t.new ≡ with_submission id submission.now t.old) }
    ensures err { OnErr result (t.new ≡ t.old) }
{
    let pending = submission.copy()?;
    let row = AppRow {
        state: AppState::New,
        wish: false,
        pending: Some(pending),
        current: None,
        first: 0,
        dialogue: None,
        closings: Items::new(t.alloc),
    };
    t.main.push_made(
        &mut t.rows,
        |rows: &mut Rows| -> Result<MainEvent, NoMemory>
            ensures event { IfOk result (λ made. made ≡ Event.AppStart id) }
            ensures ok { slot_of rows.old id ≡ None → OnOk result (rows.new ≡ rows.old ++ (id, Some row) ∷ []) }
            ensures err { OnErr result (rows.new ≡ rows.old) }
        {
            rows.add(id, row)?;
            Ok(MainEvent::AppStart(id))
        },
    )?;
    t.going += 1;
    Ok(())
}

/// A submission is answered; where it is taken and its application isn't known, it joins.
pub fn submit(
    queues: &QueueTree,
    t: &mut Tables,
    id: AppId,
    submission: &Submission,
) -> Result<Reply, NoMemory>
    requires settings { queues.now ≡ t.old.settings }
    requires few { t.old.going + 1 < 2 ^ 64 }
    ensures reply { (m : Scene) → RefinesForClients m t.old → IfOk result (λ reply. reply ≡ submit_reply t.old.settings m id submission.now) }
    ensures changed { IfOk result (λ reply. t.new ≡ after_client (ClientAsk.Submit id submission.now) reply t.old) }
    ensures err { OnErr result (t.new ≡ t.old) }
{
    if !is_given(t, id) {
        return Ok(Reply::BadId);
    }
    if t.rows.is_retired(id) {
        return Ok(Reply::Retired);
    }
    if t.rows.find(id).is_some() {
        return Ok(Reply::Submitted);
    }
    let reply = answer_new(queues, t, submission)?;
    if let Reply::Submitted = reply {
        join(t, id, submission)?;
    }
    Ok(reply)
}

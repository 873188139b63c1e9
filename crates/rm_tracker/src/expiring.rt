//! Leases run out.
ghost use Rattle.std.specs.Prelude.{◌≡◌, IfOk, OnErr, if◌then◌else◌};
ghost use Rattle.rm_types.specs.declared.messages.ClockAsk.{ClockAsk as Ask};
ghost use Rattle.rm_types.specs.declared.replies.Reply.{Reply as Told};
ghost use Rattle.rm_refinement.specs.Services.{lives_by};
ghost use Rattle.rm_tables.specs.Nodes.{node_row};
ghost use Rattle.rm_tables.specs.Rows.{row_of};
ghost use Rattle.rm_tracker.specs.Answers.{after_clock};
ghost use Rattle.rm_tracker.specs.Told.{may_expire_in};

use rm_states::node::is_registered;
use rm_tables::{MainEvent, NodeChange, Nodes, Rows, SchedEvent, Tables};
use rm_types::{AttemptId, Duplicate, NoMemory, Reply, Text};

/// Whether a node may expire.
fn may_expire(nodes: &Nodes, name: &Text) -> bool
    ensures { result ≡ may_expire_in (node_row nodes.now name.now) }
{
    match nodes.find(name) {
        Some(row) => is_registered(row.state),
        None => false,
    }
}

/// A node's lease ran out; where it isn't lost, it is from now on.
pub fn expire_node(t: &mut Tables, name: &Text) -> Result<Reply, NoMemory>
    ensures reply { IfOk result (λ reply. reply ≡ (if may_expire_in (node_row t.old.nodes name.now) then Told.Ok else Told.Unknown)) }
    ensures changed { IfOk result (λ reply. t.new ≡ after_clock (Ask.ExpireNode name.now) reply t.old) }
    ensures err { OnErr result (t.new ≡ t.old) }
{
    if !may_expire(&t.nodes, name) {
        return Ok(Reply::Unknown);
    }
    let node = name.copy()?;
    t.sched.push(SchedEvent::NodeLost(node))?;
    t.nodes.change(name, NodeChange::Lose);
    Ok(Reply::Ok)
}

/// Whether an attempt is the current one of its application, and lives.
fn lives(rows: &Rows, attempt: AttemptId) -> bool
    ensures { result ≡ lives_by attempt (row_of rows.now attempt.app) }
{
    let Some(row) = rows.find(attempt.app) else {
        return false;
    };
    let Some(current) = row.current else {
        return false;
    };
    current.number == attempt.number && current.state.is_alive()
}

/// A master's lease ran out; where its attempt lives, that is to be worked off.
pub fn expire_master(t: &mut Tables, attempt: AttemptId) -> Result<Reply, NoMemory>
    ensures reply { IfOk result (λ reply. reply ≡ (if lives_by attempt (row_of t.old.rows attempt.app) then Told.Ok else Told.Unknown)) }
    ensures changed { IfOk result (λ reply. t.new ≡ after_clock (Ask.ExpireMaster attempt) reply t.old) }
    ensures err { OnErr result (t.new ≡ t.old) }
{
    if !lives(&t.rows, attempt) {
        return Ok(Reply::Unknown);
    }
    t.main.push(MainEvent::AttemptExpired(attempt))?;
    Ok(Reply::Ok)
}

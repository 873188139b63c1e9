ghost use Rattle.std.specs.Prelude.{◌≡◌, ◌&&◌, ◌==◌, option_map, true, Some, None, IfOk, OnErr};
ghost use Rattle.std.specs.Option.{option_copied};
ghost use Rattle.rm_model.specs.Issuing.{expired_text as text_of_expiry, lost_text as text_of_loss};
ghost use Rattle.rm_tables.specs.Actions.{ends_attempt};
ghost use Rattle.rm_tables.specs.MainEvents.{expiry_of_row, finish_of_row, finishing_in, grant_of_row, grant_of_place, is_master_of, launch_of_master, launch_of_row, launch_of_tests, is_living_one, loss_of_current, loss_of_state, loss_of_row, node_at};
ghost use Rattle.rm_tables.specs.Rows.{row_of};

use crate::ends::{end_attempt, killed_text, requeue};
use crate::events::quiet;
use rm_states::attempt::AttemptState;
use rm_tables::{AppRow, AttemptChange, Current, RowChange, Tables};
use rm_types::{AttemptId, Boxed, ContainerId, Duplicate, Entry, How, NoMemory, Op, Text};

/// Whether the current attempt is this one and lives.
fn lives_as(id: AttemptId, current: Current) -> bool
    ensures { result ≡ is_living_one id current }
{
    current.number == id.number && current.state.is_alive()
}

/// Whether the container is the master's that the current attempt has.
fn is_mine(container: ContainerId, master: Option<ContainerId>) -> bool
    ensures { result ≡ is_master_of container master }
{
    match master {
        Some(one) => one == container,
        None => false,
    }
}

/// The node on which a container lives.
fn node_at(t: &Tables, container: ContainerId) -> Result<Option<Text>, NoMemory>
    ensures { IfOk result (λ node. node ≡ node_at t.now.book container) }
{
    match t.book.get(container) {
        Some(row) => Ok(Some(row.node.copy()?)),
        None => Ok(None),
    }
}

/// An attempt is issued with its master's container, or waits for another where that lives no more.
fn issue(t: &mut Tables, container: ContainerId, node: Option<Text>) -> Result<Entry, NoMemory>
    ensures ok { IfOk result (λ e. (e, t.new) ≡ grant_of_place node container t.old) }
    ensures err { OnErr result (t.new ≡ t.old) }
{
    let id = container.attempt;
    let Some(node) = node else {
        requeue(t, id)?;
        return Ok(quiet());
    };
    let logged = node.copy()?;
    let op = Boxed::new(
        t.alloc,
        Op::Attempt {
            id,
            master: container,
            node: logged,
        },
    )?;
    t.awaiting.push(Op::Attempt {
        id,
        master: container,
        node,
    })?;
    let change = AttemptChange::Issue;
    t.rows.change(id.app, RowChange::OfAttempt { change });
    Ok(Entry::Issued { op })
}

/// MasterGranted: an attempt that was granted its master's container is issued with it.
pub fn granted(t: &mut Tables, container: ContainerId) -> Result<Entry, NoMemory>
    ensures ok { IfOk result (λ e. (e, t.new) ≡ grant_of_row (row_of t.old.rows container.attempt.app) container t.old) }
    ensures err { OnErr result (t.new ≡ t.old) }
{
    let Some(row) = t.rows.find(container.attempt.app) else {
        return Ok(quiet());
    };
    let Some(current) = row.current else {
        return Ok(quiet());
    };
    if current.state != AttemptState::Granted {
        return Ok(quiet());
    }
    if current.number != container.attempt.number || !is_mine(container, current.master) {
        return Ok(quiet());
    }
    let node = node_at(t, container)?;
    issue(t, container, node)
}

/// A master is ordered on its node, where it lives.
fn order(t: &mut Tables, master: Option<ContainerId>) -> Result<Entry, NoMemory>
    ensures ok { IfOk result (λ e. (e, t.new) ≡ launch_of_master master t.old) }
    ensures err { OnErr result (t.new ≡ t.old) }
{
    let Some(container) = master else {
        return Ok(quiet());
    };
    let Some(node) = node_at(t, container)? else {
        return Ok(quiet());
    };
    let logged = node.copy()?;
    let node_box = Boxed::new(t.alloc, logged)?;
    let container_box = Boxed::new(t.alloc, container)?;
    t.nodes.order(&node, container)?;
    Ok(Entry::Ordered {
        container: container_box,
        node: node_box,
    })
}

/// An attempt fails, since its master's container left the book.
fn fail_lost(t: &mut Tables, id: AttemptId) -> Result<Entry, NoMemory>
    ensures ok { IfOk result (λ e. (e, t.new) ≡ ends_attempt id How.Failed text_of_loss t.old) }
    ensures err { OnErr result (t.new ≡ t.old) }
{
    let text = Text::from_bytes(t.alloc, b"master lost")?;
    end_attempt(t, id, How::Failed, text)
}

/// AttemptSaved of an attempt that lives.
fn launch(
    t: &mut Tables,
    id: AttemptId,
    wish: bool,
    lost: bool,
    master: Option<ContainerId>,
) -> Result<Entry, NoMemory>
    ensures ok { IfOk result (λ e. (e, t.new) ≡ launch_of_tests wish lost master id t.old) }
    ensures err { OnErr result (t.new ≡ t.old) }
{
    if wish {
        let text = killed_text(t)?;
        return end_attempt(t, id, How::Killed, text);
    }
    if lost {
        return fail_lost(t, id);
    }
    order(t, master)
}

/// AttemptSaved: the master of an attempt that was kept is ordered on its node.
pub fn saved(t: &mut Tables, id: AttemptId) -> Result<Entry, NoMemory>
    ensures ok { IfOk result (λ e. (e, t.new) ≡ launch_of_row (row_of t.old.rows id.app) id t.old) }
    ensures err { OnErr result (t.new ≡ t.old) }
{
    let Some(row) = t.rows.find(id.app) else {
        return Ok(quiet());
    };
    let wish = row.wish;
    let Some(current) = row.current else {
        return Ok(quiet());
    };
    if !lives_as(id, current) {
        return Ok(quiet());
    }
    launch(t, id, wish, current.lost, current.master)
}

/// MasterLost, by the state of the current attempt, and whether the container is its master's.
fn lose(
    t: &mut Tables,
    container: ContainerId,
    state: AttemptState,
    mine: bool,
) -> Result<Entry, NoMemory>
    ensures ok { IfOk result (λ e. (e, t.new) ≡ loss_of_state state mine container t.old) }
    ensures err { OnErr result (t.new ≡ t.old) }
{
    if !mine {
        return Ok(quiet());
    }
    match state {
        AttemptState::Saving => {
            let change = AttemptChange::Lose;
            t.rows
                .change(container.attempt.app, RowChange::OfAttempt { change });
            Ok(quiet())
        }
        AttemptState::Live => fail_lost(t, container.attempt),
        AttemptState::Registered => fail_lost(t, container.attempt),
        AttemptState::Finishing => fail_lost(t, container.attempt),
        _ => Ok(quiet()),
    }
}

/// MasterLost, by the current attempt of the application.
fn lose_current(
    t: &mut Tables,
    container: ContainerId,
    current: Option<Current>,
) -> Result<Entry, NoMemory>
    ensures ok { IfOk result (λ e. (e, t.new) ≡ loss_of_current current container t.old) }
    ensures err { OnErr result (t.new ≡ t.old) }
{
    let Some(current) = current else {
        return Ok(quiet());
    };
    let mine = current.number == container.attempt.number && is_mine(container, current.master);
    lose(t, container, current.state, mine)
}

/// MasterLost: an attempt whose master's container left the book fails, or is marked while it is being saved.
pub fn lost(t: &mut Tables, container: ContainerId) -> Result<Entry, NoMemory>
    ensures ok { IfOk result (λ e. (e, t.new) ≡ loss_of_row (row_of t.old.rows container.attempt.app) container t.old) }
    ensures err { OnErr result (t.new ≡ t.old) }
{
    let Some(row) = t.rows.find(container.attempt.app) else {
        return Ok(quiet());
    };
    let current = row.current;
    lose_current(t, container, current)
}

/// AttemptExpired: an attempt fails whose master's lease ran out.
pub fn expired(t: &mut Tables, id: AttemptId) -> Result<Entry, NoMemory>
    ensures ok { IfOk result (λ e. (e, t.new) ≡ expiry_of_row (row_of t.old.rows id.app) id t.old) }
    ensures err { OnErr result (t.new ≡ t.old) }
{
    let Some(row) = t.rows.find(id.app) else {
        return Ok(quiet());
    };
    let Some(current) = row.current else {
        return Ok(quiet());
    };
    if !lives_as(id, current) {
        return Ok(quiet());
    }
    let text = Text::from_bytes(t.alloc, b"master expired")?;
    end_attempt(t, id, How::Failed, text)
}

/// What a master said when it finished, if it did.
fn finishing_text(row: &AppRow) -> Result<Option<Text>, NoMemory>
    ensures { IfOk result (λ text. text ≡ finishing_in row.now.dialogue) }
{
    let Some(dialogue) = &row.dialogue else {
        return Ok(None);
    };
    match &dialogue.finishing {
        Some(text) => Ok(Some(text.copy()?)),
        None => Ok(None),
    }
}

/// AttemptFinish: an attempt ends with what its master said.
pub fn finished(t: &mut Tables, id: AttemptId) -> Result<Entry, NoMemory>
    ensures ok { IfOk result (λ e. (e, t.new) ≡ finish_of_row (row_of t.old.rows id.app) id t.old) }
    ensures err { OnErr result (t.new ≡ t.old) }
{
    let Some(row) = t.rows.find(id.app) else {
        return Ok(quiet());
    };
    let Some(current) = row.current else {
        return Ok(quiet());
    };
    if !lives_as(id, current) {
        return Ok(quiet());
    }
    match finishing_text(row)? {
        Some(text) => end_attempt(t, id, How::Finished, text),
        None => Ok(quiet()),
    }
}

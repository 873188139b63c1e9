//! The events that end containers.
ghost use Rattle.std.specs.Prelude.{◌≡◌, List, filter, IfOk, OnErr};
ghost use Rattle.rm_types.specs.declared.containers.Cause.{Cause as Why};
ghost use Rattle.rm_types.specs.declared.ids.ContainerId.{ContainerId as Id};
ghost use Rattle.rm_types.specs.Order.{Ascend};
ghost use Rattle.rm_model.specs.Containers.{once};
ghost use Rattle.rm_model.specs.Facts.{has_container};
ghost use Rattle.rm_book.specs.Books.{node_containers, book_row as book_row_of};
ghost use Rattle.rm_tables.specs.Leaving.{ended_by, is_stale_in};
ghost use Rattle.rm_tables.specs.SchedEvents.{done_by, ends_as_done, is_on, is_released, release_step, stale_in};

use crate::asking::quiet;
use crate::leaving::leave;
use rm_book::{Book, ascending};
use rm_tables::{Tables, is_astray, is_at_disposal, is_masters, is_stale};
use rm_types::{AppId, AttemptId, Cause, ContainerId, Entry, Items, NoMemory, Text};

/// These containers end for a cause, if there are any.
fn end_list(t: &mut Tables, cause: Cause, list: Items<ContainerId>) -> Result<Entry, NoMemory>
    ensures ok { IfOk result (λ e. (e, t.new) ≡ ended_by cause list t.old) }
    ensures err { OnErr result (t.new ≡ t.old) }
{
    if list.is_empty() {
        return Ok(quiet());
    }
    leave(t, cause, list.as_slice())?;
    Ok(Entry::Ended { cause, list })
}

/// What is stale of an application, in the order of entering.
fn stale_of(t: &Tables, app: AppId) -> Result<Items<ContainerId>, NoMemory>
    ensures { IfOk result (λ ids. ids ≡ stale_in t.now.book t.now.tree.apps app) }
{
    let mut ids = t.book.of_app(app)?;
    ids.retain(
        |id: &ContainerId| -> bool
            ensures { result ≡ is_stale_in t.entry.now.tree.apps id.now }
        { is_stale(&t.tree, *id) },
    );
    Ok(ids)
}

/// AttemptRemoved: what is stale of an application ends.
pub fn removed(t: &mut Tables, id: AttemptId) -> Result<Entry, NoMemory>
    ensures ok { IfOk result (λ e. (list : List Id) × Ascend (stale_in t.old.book t.old.tree.apps id.app) list × ((e, t.new) ≡ ended_by Why.Attempt list t.old)) }
    ensures err { OnErr result (t.new ≡ t.old) }
{
    let ids = stale_of(t, id.app)?;
    let list = ascending(ids)?;
    end_list(t, Cause::Attempt, list)
}

/// NodeLost: all that stands on a node ends.
pub fn lost(t: &mut Tables, node: &Text) -> Result<Entry, NoMemory>
    ensures ok { IfOk result (λ e. (list : List Id) × Ascend (node_containers t.old.book node.now) list × ((e, t.new) ≡ ended_by Why.Node list t.old)) }
    ensures err { OnErr result (t.new ≡ t.old) }
{
    let list = t.book.of_node(node)?;
    end_list(t, Cause::Node, list)
}

/// Whether a container is one of these.
pub fn is_among(ids: &[ContainerId], id: ContainerId) -> bool
    ensures { result ≡ has_container ids.now id }
{
    ids.iter().any(|one| *one == id)
}

/// Whether a container lives on a node.
fn is_on(book: &Book, name: &Text, id: ContainerId) -> bool
    ensures { result ≡ is_on name.now (book_row_of book.now id) }
{
    match book.get(id) {
        Some(row) => row.node.is_same(name),
        None => false,
    }
}

/// Whether a container that a node reported as done ends.
fn is_done(t: &Tables, name: &Text, id: ContainerId) -> bool
    ensures { result ≡ ends_as_done name.now t.now id }
{
    is_astray(t, id) || is_on(&t.book, name, id)
}

/// Those of a list that a node reported as done and that end, each once.
fn done_on(t: &Tables, name: &Text, list: &[ContainerId]) -> Result<Items<ContainerId>, NoMemory>
    ensures { IfOk result (λ ids. ids ≡ once (filter (ends_as_done name.now t.now) list.now)) }
{
    let mut ids = Items::new(t.alloc);
    'list: for id in list {
        if is_done(t, name, *id) && !is_among(ids.as_slice(), *id) {
            ids.push(*id)?;
        }
    }
    Ok(ids)
}

/// NodeDone: what a node reported as done ends, where it lives on the node or is astray.
pub fn done(t: &mut Tables, name: &Text, list: &[ContainerId]) -> Result<Entry, NoMemory>
    ensures ok { IfOk result (λ e. (e, t.new) ≡ done_by name.now list.now t.old) }
    ensures err { OnErr result (t.new ≡ t.old) }
{
    let ids = done_on(t, name, list)?;
    end_list(t, Cause::Done, ids)
}

/// Whether a container that an attempt released ends.
fn is_released(t: &Tables, attempt: AttemptId, id: ContainerId) -> bool
    ensures { result ≡ is_released attempt t.now id }
{
    t.book.has(id) && is_at_disposal(&t.tree, attempt, id) && !is_masters(&t.tree, id)
}

/// Those of a list that an attempt released and that end, each once.
fn released_of(
    t: &Tables,
    attempt: AttemptId,
    list: &[ContainerId],
) -> Result<Items<ContainerId>, NoMemory>
    ensures { IfOk result (λ ids. ids ≡ once (filter (is_released attempt t.now) list.now)) }
{
    let mut ids = Items::new(t.alloc);
    'list: for id in list {
        if is_released(t, attempt, *id) && !is_among(ids.as_slice(), *id) {
            ids.push(*id)?;
        }
    }
    Ok(ids)
}

/// Release: what a master released ends, where it is at its attempt's disposal and no master's.
pub fn released(t: &mut Tables, attempt: AttemptId, list: &[ContainerId]) -> Result<Entry, NoMemory>
    ensures ok { IfOk result (λ e. (e, t.new) ≡ release_step attempt list.now t.old) }
    ensures err { OnErr result (t.new ≡ t.old) }
{
    let ids = released_of(t, attempt, list)?;
    end_list(t, Cause::Released, ids)
}

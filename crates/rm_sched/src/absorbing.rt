//! The report of a node that registered is absorbed.
ghost use Rattle.std.specs.Prelude.{◌≡◌, List, IfOk, OnOk, OnErr};
ghost use Rattle.rm_types.specs.declared.ids.ContainerId.{ContainerId as Id};
ghost use Rattle.rm_types.specs.Order.{Ascend};
ghost use Rattle.rm_types.specs.Resources.{Fits, difference_of};
ghost use Rattle.rm_book.specs.Books.{AreOnce, book_row as book_row_of, total_on, book_with_taken};
ghost use Rattle.rm_types.specs.Containers.{is_held};
ghost use Rattle.rm_tables.specs.Absorbing.{absorbed_by, absorbed_with, absorption_step, booked_at, counted_in, is_elsewhere, capability_left, tables_may_take, book_not_taken, reported_in, taken_in, unlaunched_here, unlaunched_on, tables_with_counted};
ghost use Rattle.rm_tables.specs.Nodes.{node_row};
ghost use Rattle.rm_tables.specs.SchedEvents.{EndsAbsorbed};

use crate::asking::quiet;
use crate::closing_lists::{closing_lists, set_lists};
use crate::leaving::{closings_of, losts_of, note_departing};
use rm_book::Book;
use rm_states::node::NodeState;
use rm_tables::{NodeChange, NodeRow, Nodes, Tables, is_pending, is_wanted, was_first};
use rm_types::{
    Boxed, Cause, ContainerId, Duplicate, Entry, Held, Items, NoMemory, Resource, Text,
};

/// A container as it is reported at its node's first absorption in a life.
fn reported(t: &Tables, held: Held) -> Option<Held>
    ensures { result ≡ reported_in t.now held }
{
    if held.id.epoch < t.epoch && was_first(&t.rows, held.id.attempt) {
        Some(held)
    } else {
        None
    }
}

/// A container as it stands in the book on a node.
fn booked(book: &Book, name: &Text, id: ContainerId) -> Option<Held>
    ensures { result ≡ booked_at name.now (book_row_of book.now id) }
{
    let row = book.get(id)?;
    if row.node.is_same(name) {
        Some(Held {
            id: row.id,
            size: row.size,
        })
    } else {
        None
    }
}

/// A reported container as it counts.
fn counted(t: &Tables, name: &Text, held: Held) -> Option<Held>
    ensures { result ≡ counted_in t.now name.now held }
{
    if t.book.free_of(name).is_some() {
        booked(&t.book, name, held.id)
    } else {
        reported(t, held)
    }
}

/// Whether a container lives on another node.
fn is_elsewhere(book: &Book, name: &Text, id: ContainerId) -> bool
    ensures { result ≡ is_elsewhere name.now (book_row_of book.now id) }
{
    match book.get(id) {
        Some(row) => !row.node.is_same(name),
        None => false,
    }
}

/// Whether a container was taken.
fn is_held(taken: &[Held], id: ContainerId) -> bool
    ensures { result ≡ is_held taken.now id }
{
    taken.iter().any(|held| held.id == id)
}

/// What is left of what a node offers beside what was taken so far.
fn left_beside(capability: Resource, taken: &[Held]) -> Resource
    ensures { result ≡ capability_left capability taken.now }
{
    let mut left = capability;
    'taken: for held in taken {
        left = less(left, held.size);
    }
    left
}

/// What is left of a size without another, and nothing of a part that is less.
fn less(left: Resource, size: Resource) -> Resource
    ensures { result ≡ difference_of left size }
{
    Resource {
        memory_mb: left.memory_mb.saturating_sub(size.memory_mb),
        vcores: left.vcores.saturating_sub(size.vcores),
    }
}

/// Whether a container that counts may be taken.
fn may_take(t: &Tables, name: &Text, capability: Resource, taken: &[Held], held: Held) -> bool
    ensures { result ≡ tables_may_take t.now name.now capability taken.now held }
{
    !is_pending(t, held.id)
        && !is_held(taken, held.id)
        && is_wanted(&t.tree, held.id)
        && !is_elsewhere(&t.book, name, held.id)
        && held.size.fits(left_beside(capability, taken))
}

/// One more reported container is taken, where it counts and may be.
fn take_one(
    taken: &mut Items<Held>,
    t: &Tables,
    name: &Text,
    capability: Resource,
    held: Held,
) -> Result<(), NoMemory>
    ensures ok { OnOk result (taken.new ≡ tables_with_counted t.now name.now capability taken.old (counted_in t.now name.now held)) }
{
    let Some(held) = counted(t, name, held) else {
        return Ok(());
    };
    if !may_take(t, name, capability, taken.as_slice(), held) {
        return Ok(());
    }
    taken.push(held)
}

/// The containers that are taken of a node's report.
fn taken_in(t: &Tables, name: &Text, row: &NodeRow) -> Result<Items<Held>, NoMemory>
    ensures { IfOk result (λ taken. taken ≡ taken_in t.now name.now row.now) }
{
    let mut taken = Items::new(t.alloc);
    'running: for held in row.running.as_slice() {
        take_one(&mut taken, t, name, row.capability, *held)?;
    }
    Ok(taken)
}

/// A node isn't to launch these containers any more.
fn unlaunch_on(nodes: &mut Nodes, name: &Text, ids: &[ContainerId])
    ensures { nodes.new ≡ unlaunched_on name.now nodes.old ids.now }
{
    'ids: for id in ids {
        unlaunch_here(nodes, name, *id);
    }
}

fn unlaunch_here(nodes: &mut Nodes, name: &Text, id: ContainerId)
    ensures { nodes.new ≡ unlaunched_here name.now nodes.old id }
{
    nodes.change(name, NodeChange::Unlaunch(id));
}

/// What was taken stands on the node, and these end. `NoMemory` changes nothing.
fn take_in(
    t: &mut Tables,
    name: &Text,
    capability: Resource,
    taken: &[Held],
    ended: &[ContainerId],
) -> Result<(), NoMemory>
    requires once { AreOnce taken.now }
    requires fit { Fits (total_on name.now (book_with_taken t.old.book name.now capability taken.now ended.now).rows) capability }
    ensures ok { OnOk result (t.new ≡ absorbed_with name.now capability taken.now ended.now t.old) }
    ensures err { OnErr result (t.new ≡ t.old) }
{
    let losts = losts_of(t.alloc, &t.tree, ended)?;
    let closings = closings_of(t.alloc, &t.tree, Cause::Gone, ended)?;
    let lists = closing_lists(t.alloc, &t.rows, closings.as_slice())?;
    let noted = note_departing(t, ended)?;
    let posts = losts.as_slice();
    let done = t
        .book
        .absorb(name, capability, taken, ended, &mut t.main, posts);
    if done.is_err() {
        t.departed.truncate(noted);
        return Err(NoMemory);
    }
    set_lists(&mut t.rows, lists);
    unlaunch_on(&mut t.nodes, name, ended);
    t.nodes.change(name, NodeChange::Absorb);
    Ok(())
}

/// The report of a node is absorbed, of which these containers are taken.
fn absorb(
    t: &mut Tables,
    name: &Text,
    capability: Resource,
    taken: Items<Held>,
) -> Result<Entry, NoMemory>
    requires once { AreOnce taken }
    requires fit { (ended : List Id) → Ascend (book_not_taken t.old.book name.now taken) ended → Fits (total_on name.now (book_with_taken t.old.book name.now capability taken ended).rows) capability }
    ensures ok { IfOk result (λ e. (ended : List Id) × Ascend (book_not_taken t.old.book name.now taken) ended × ((e, t.new) ≡ absorption_step name.now capability taken ended t.old)) }
    ensures err { OnErr result (t.new ≡ t.old) }
{
    let not_taken = t.book.not_taken(name, taken.as_slice())?;
    let logged = name.copy()?;
    let node = Boxed::new(t.alloc, logged)?;
    let taken = Boxed::new(t.alloc, taken)?;
    let ended = Boxed::new(t.alloc, not_taken)?;
    take_in(
        t,
        name,
        capability,
        taken.get().as_slice(),
        ended.get().as_slice(),
    )?;
    Ok(Entry::Absorbed { node, taken, ended })
}

/// NodeAdded: the report of a node that waits is absorbed, where this is its last registration.
pub fn added(t: &mut Tables, name: &Text, turn: u32) -> Result<Entry, NoMemory>
    ensures ok { IfOk result (λ e. (list : List Id) × EndsAbsorbed (node_row t.old.nodes name.now) name.now turn t.old list × ((e, t.new) ≡ absorbed_by (node_row t.old.nodes name.now) name.now turn list t.old)) }
    ensures err { OnErr result (t.new ≡ t.old) }
{
    let Some(row) = t.nodes.find(name) else {
        return Ok(quiet());
    };
    if row.state != NodeState::Waiting || row.turn != turn {
        return Ok(quiet());
    }
    let capability = row.capability;
    let taken = taken_in(t, name, row)?;
    // With its length a book tells that what stands on a node fits what it offers, so that what is taken differs and fits.
    let _living = t.book.len();
    absorb(t, name, capability, taken)
}

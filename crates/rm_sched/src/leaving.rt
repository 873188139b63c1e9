//! Containers leave the book.
ghost use Rattle.std.specs.Prelude.{◌≡◌, IfOk, OnOk, OnErr, length};
ghost use Rattle.rm_tables.specs.ContainerSets.{with_containers};
ghost use Rattle.rm_tables.specs.Leaving.{closings_of, departing, left_all, losts_of, told_all, unlaunched, unlaunched_one};

use crate::closing_lists::{closing_lists, set_lists};
use crate::records::is_told;
use rm_book::Book;
use rm_tables::{MainEvent, NodeChange, Nodes, Tables, departing, heir, is_masters};
use rm_tree::Tree;
use rm_types::{Cause, Closing, ClosingOf, ContainerId, Items, NoMemory};
use std::alloc::Global;

/// What the manager is told of containers that leave: each that is a master's is lost.
pub fn losts_of(
    alloc: Global,
    tree: &Tree,
    ids: &[ContainerId],
) -> Result<Items<MainEvent>, NoMemory>
    ensures { IfOk result (λ losts. losts ≡ losts_of tree.now.apps ids.now) }
{
    let mut losts = Items::new(alloc);
    'ids: for id in ids {
        if is_masters(tree, *id) {
            losts.push(MainEvent::MasterLost(*id))?;
        }
    }
    Ok(losts)
}

/// What masters are to be told of containers that leave for a cause.
pub fn closings_of(
    alloc: Global,
    tree: &Tree,
    cause: Cause,
    ids: &[ContainerId],
) -> Result<Items<ClosingOf>, NoMemory>
    ensures { IfOk result (λ closings. closings ≡ closings_of tree.now.apps cause ids.now) }
{
    let mut closings = Items::new(alloc);
    'ids: for id in ids {
        if is_told(tree, *id)
            && let Some(attempt) = heir(tree, id.attempt.app)
        {
            closings.push(ClosingOf {
                attempt,
                closing: Closing { id: *id, cause },
            })?;
        }
    }
    Ok(closings)
}

/// Those of containers that leave are noted that are of former epochs, where the cluster recovers ended containers; says how many were
/// noted before. `NoMemory` changes nothing.
pub fn note_departing(t: &mut Tables, ids: &[ContainerId]) -> Result<usize, NoMemory>
    ensures before { IfOk result (λ before. before ≡ length t.old.departed) }
    ensures ok { OnOk result (t.new ≡ record t.old { departed = with_containers t.old.departed (departing t.old ids.now) }) }
    ensures err { OnErr result (t.new ≡ t.old) }
{
    let before = t.departed.len();
    let departing = departing(t, ids)?;
    t.departed.join(departing.as_slice())?;
    Ok(before)
}

/// The ends of containers are told: of masters' to the manager, and of others to their masters. `NoMemory` changes nothing.
pub fn tell_all(t: &mut Tables, cause: Cause, ids: &[ContainerId]) -> Result<(), NoMemory>
    ensures ok { OnOk result (t.new ≡ told_all cause ids.now t.old) }
    ensures err { OnErr result (t.new ≡ t.old) }
{
    let losts = losts_of(t.alloc, &t.tree, ids)?;
    let closings = closings_of(t.alloc, &t.tree, cause, ids)?;
    let lists = closing_lists(t.alloc, &t.rows, closings.as_slice())?;
    let noted = note_departing(t, ids)?;
    if t.main.push_all(losts.as_slice()).is_err() {
        t.departed.truncate(noted);
        return Err(NoMemory);
    }
    set_lists(&mut t.rows, lists);
    Ok(())
}

/// The nodes aren't to launch these containers any more.
fn unlaunch_all(book: &Book, nodes: &mut Nodes, ids: &[ContainerId])
    ensures { nodes.new ≡ unlaunched book.now nodes.old ids.now }
{
    'ids: for id in ids {
        unlaunch(book, nodes, *id);
    }
}

fn unlaunch(book: &Book, nodes: &mut Nodes, id: ContainerId)
    ensures { nodes.new ≡ unlaunched_one book.now nodes.old id }
{
    if let Some(row) = book.get(id) {
        nodes.change(&row.node, NodeChange::Unlaunch(id));
    }
}

/// These containers leave the book for a cause. `NoMemory` changes nothing.
pub fn leave(t: &mut Tables, cause: Cause, ids: &[ContainerId]) -> Result<(), NoMemory>
    ensures ok { OnOk result (t.new ≡ left_all cause ids.now t.old) }
    ensures err { OnErr result (t.new ≡ t.old) }
{
    tell_all(t, cause, ids)?;
    unlaunch_all(&t.book, &mut t.nodes, ids);
    t.book.end_all(ids);
    Ok(())
}

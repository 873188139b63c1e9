//! Containers that enter a book together, or not at all.
ghost use Rattle.std.specs.Prelude.{◌≡◌, ◌+◌, ◌<◌, ◌≤◌, ◌^◌, ◌∷◌, ◌++◌, IfOk, OnOk, OnErr, filter, length, map, not, take};
ghost use Rattle.std.specs.List.{list_any};
ghost use Rattle.rm_types.specs.Passes.{total_of};
ghost use Rattle.rm_types.specs.Resources.{Fits};
ghost use Rattle.rm_book.specs.Books.{is_of};
ghost use Rattle.rm_book.specs.Kept.{AreFresh, entered_rows, held_of};

use crate::row_table::RowTable;
use rm_types::{ContainerState, Grant, Held, NoMemory, Queue, Resource, Text};
use std::alloc::Global;

/// The containers of grants, with their sizes.
pub fn held_of(alloc: Global, grants: &[Grant]) -> Result<Vec<Held>, NoMemory>
    ensures { IfOk result (λ list. list.items ≡ map held_of grants.now) }
{
    Ok(
        grants
            .iter()
            .map(|grant| Held {
                id: grant.id,
                size: grant.size,
            })
            .collect(alloc)?,
    )
}

/// Those of these containers that have no row.
pub fn entering(alloc: Global, rows: &RowTable, taken: &[Held]) -> Result<Vec<Held>, NoMemory>
    ensures { IfOk result (λ list. list.items ≡ filter (λ held. not (list_any (is_of held.id) rows.now)) taken.now) }
{
    let mut list = Vec::new(alloc);
    'taken: for held in taken {
        if !rows.has(held.id) {
            list.push(*held)?;
        }
    }
    Ok(list)
}

/// The sum of the sizes of containers, which fit this together.
pub fn total_of(list: &[Held], within: Resource) -> Resource
    requires { Fits (total_of (map (λ held. held.size) list.now)) within }
    ensures { result ≡ total_of (map (λ held. held.size) list.now) }
{
    let mut memory_mb = within.memory_mb;
    let mut vcores = within.vcores;
    'list: for held in list {
        memory_mb -= held.size.memory_mb;
        vcores -= held.size.vcores;
    }
    Resource {
        memory_mb: within.memory_mb - memory_mb,
        vcores: within.vcores - vcores,
    }
}

/// Adds the rows of containers on a node, numbered from behind so many that were added before, up to the first for which there is no
/// memory; and says how many it added.
fn enter_each(
    rows: &mut RowTable,
    node: &Text,
    state: ContainerState,
    list: &[Held],
    added: u64,
) -> usize
    requires numbers { added + length list.now < 2 ^ 64 }
    requires new { AreFresh rows.old list.now }
    ensures count { result ≤ length list.now }
    ensures rows { rows.new ≡ rows.old ++ entered_rows state added node.now (take result list.now) }
{
    let mut told = added;
    'list: for (place, held) in list.iter().enumerate() {
        told += 1;
        if rows.add(held.id, node, held.size, state, told).is_err() {
            return place;
        }
    }
    list.len()
}

/// Adds the rows of containers on a node, numbered from behind so many that were added before, and adds these posts to a queue. The
/// containers must be new and differ. `NoMemory` adds nothing to either.
pub fn enter_all<T: Copy + Drop>(
    rows: &mut RowTable,
    node: &Text,
    state: ContainerState,
    list: &[Held],
    added: u64,
    queue: &mut Queue<T>,
    posts: &[T],
) -> Result<(), NoMemory>
    requires numbers { added + length list.now < 2 ^ 64 }
    requires new { AreFresh rows.old list.now }
    ensures ok { OnOk result (rows.new ≡ rows.old ++ entered_rows state added node.now list.now) }
    ensures posted { OnOk result (queue.new ≡ queue.old ++ posts.now) }
    ensures err { OnErr result ((rows.new ≡ rows.old) × (queue.new ≡ queue.old)) }
{
    let mut entered = enter_each(rows, node, state, list, added);
    if entered == list.len() && queue.push_all(posts).is_ok() {
        return Ok(());
    }
    'undo: while entered > 0 {
        entered -= 1;
        rows.remove(list[entered].id);
    }
    Err(NoMemory)
}

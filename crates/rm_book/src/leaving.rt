//! Containers that leave a book, and those that run there.
ghost use Rattle.std.specs.Prelude.{◌≡◌, IfOk, filter, find, map, not};
ghost use Rattle.std.specs.List.{list_any};
ghost use Rattle.rm_types.specs.Ids.{is_container};
ghost use Rattle.rm_book.specs.Books.{AreLiving, is_of, book_row_taken};
ghost use Rattle.rm_book.specs.Kept.{AreUsed, nodes_shown};

use crate::node_table::NodeTable;
use crate::row_table::RowTable;
use rm_states::container::ContainerEvent;
use rm_types::{BookRow, ContainerId, Held, NoMemory};
use std::alloc::Global;

/// Takes a container's row out, and hands it back; so much less stands on its node.
pub fn end_row(rows: &mut RowTable, nodes: &mut NodeTable, id: ContainerId) -> Option<BookRow>
    requires { AreUsed nodes.old.map.entries rows.old }
    ensures row { result ≡ find (is_of id) rows.old }
    ensures rest { rows.new ≡ filter (λ row. not (is_of id row)) rows.old }
    ensures shown { nodes_shown nodes.new.map.entries ≡ nodes_shown nodes.old.map.entries }
    ensures used { AreUsed nodes.new.map.entries rows.new }
{
    let row = rows.remove(id)?;
    nodes.lower(&row.node, row.size);
    Some(row)
}

/// Takes the rows of these containers out, where they have some.
pub fn end_each(rows: &mut RowTable, nodes: &mut NodeTable, ids: &[ContainerId])
    requires { AreUsed nodes.old.map.entries rows.old }
    ensures rest { rows.new ≡ filter (λ row. not (list_any (λ id. is_container id row.id) ids.now)) rows.old }
    ensures shown { nodes_shown nodes.new.map.entries ≡ nodes_shown nodes.old.map.entries }
    ensures used { AreUsed nodes.new.map.entries rows.new }
{
    'ids: for id in ids {
        end_row(rows, nodes, *id);
    }
}

/// Those of these containers that have rows.
pub fn those_there(
    alloc: Global,
    rows: &RowTable,
    ids: &[ContainerId],
) -> Result<Vec<ContainerId>, NoMemory>
    ensures { IfOk result (λ list. list.items ≡ filter (λ id. list_any (is_of id) rows.now) ids.now) }
{
    let mut list = Vec::new(alloc);
    'ids: for id in ids {
        if rows.has(*id) {
            list.push(*id)?;
        }
    }
    Ok(list)
}

/// What was taken runs.
pub fn run_each(rows: &mut RowTable, taken: &[Held])
    requires { AreLiving rows.old }
    ensures { rows.new ≡ map (book_row_taken taken.now) rows.old }
{
    'taken: for held in taken {
        rows.step(held.id, ContainerEvent::Run);
    }
}

//! The recorded applications that have ended, in the order in which their ends were kept.
ghost use Rattle.std.specs.Prelude.{◌≡◌, IfOk, OnOk, map, nat_le};
ghost use Rattle.std.specs.List.Sorted.{IsNonDecreasingBy};
ghost use Rattle.rm_tables.specs.Completed.{completions_in, ended_in, put_completion, with_completed};

use rm_tree::Tree;
use rm_types::{AppId, AppRecord, Items, NoMemory, Queue};
use std::alloc::Global;

/// An application that has ended, and its end's place among the kept operations.
#[derive(Clone, Copy, PartialEq, Eq)]
pub struct Completion {
    pub id: AppId,
    pub order: u64,
}

/// Puts a completion behind those that were not later.
fn put(completions: &mut Vec<Completion>, one: Completion) -> Result<(), NoMemory>
    requires sorted { IsNonDecreasingBy (λ other. other.order) completions.old.items }
    ensures put { OnOk result (completions.new.items ≡ put_completion one completions.old.items) }
    ensures sorted { OnOk result (IsNonDecreasingBy (λ other. other.order) completions.new.items) }
{
    let order = one.order;
    let place = completions.partition_point(
        |other: &Completion| -> bool
            ensures { result ≡ nat_le other.now.order order }
        { other.order <= order },
    );
    completions.insert(place, one)?;
    Ok(())
}

/// Puts an application there, if it has ended.
fn put_app(completions: &mut Vec<Completion>, app: &AppRecord) -> Result<(), NoMemory>
    requires sorted { IsNonDecreasingBy (λ other. other.order) completions.old.items }
    ensures put { OnOk result (completions.new.items ≡ with_completed completions.old.items app.now) }
    ensures sorted { OnOk result (IsNonDecreasingBy (λ other. other.order) completions.new.items) }
{
    if app.ending.is_none() {
        return Ok(());
    }
    put(
        completions,
        Completion {
            id: app.id,
            order: app.end_order,
        },
    )
}

/// Those of a tree.
fn completions_in(alloc: Global, tree: &Tree) -> Result<Vec<Completion>, NoMemory>
    ensures { IfOk result (λ completions. completions.items ≡ completions_in tree.now.apps) }
{
    let mut completions = Vec::new(alloc);
    let count = tree.len();
    'records: for place in 0..count {
        put_app(&mut completions, tree.at(place))?;
    }
    Ok(completions)
}

/// The ids of completions.
fn ids_of(alloc: Global, completions: &[Completion]) -> Result<Vec<AppId>, NoMemory>
    ensures { IfOk result (λ ids. ids.items ≡ map (λ one. one.id) completions.now) }
{
    Ok(completions.iter().map(|one| one.id).collect(alloc)?)
}

/// The applications of a tree that have ended, the one whose end was kept first at the front.
pub fn ended_in(alloc: Global, tree: &Tree) -> Result<Queue<AppId>, NoMemory>
    ensures { IfOk result (λ ended. ended ≡ ended_in tree.now.apps) }
{
    let completions = completions_in(alloc, tree)?;
    let ids = ids_of(alloc, &completions)?;
    Ok(Queue::from_items(Items::from_vec(ids)))
}

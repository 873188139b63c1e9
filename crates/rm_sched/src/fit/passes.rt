ghost use Rattle.std.specs.Prelude.{◌≡◌, ◌≤◌, ◌<◌, ◌+◌, ◌^◌, ◌++◌, Bool, true, Some, OnOk, IfOk, IsSomeAnd, IsTrue, length};
ghost use Rattle.std.specs.List.{list_all};
ghost use Rattle.rm_types.specs.declared.resources.Resource.{Resource};
ghost use Rattle.rm_types.specs.Passes.{by_priority, pass_list, total_of};
ghost use Rattle.rm_types.specs.Resources.{Fits};
ghost use Rattle.rm_book.specs.AskTables.{attempt_asks};
ghost use Rattle.rm_book.specs.Books.{AreNew, are_grants_on, capability_of, free_on, sizes_of, sizes_on};
ghost use Rattle.rm_sched.specs.fit.Turns.{turn_grants, turn_left};
ghost use Rattle.rm_sched.specs.fit.Conditions.{TurnsAreApart, are_early, are_past, is_some_size, are_some_sizes, have_sizes};

use crate::fit::turns::grant_turn;
use rm_book::{Asks, Book};
use rm_types::{AskLine, AttemptId, Grant, Items, NoMemory, Resource, Text, Turn};
use std::alloc::Global;

/// The grants of one pass on a node, of which there are at most 256; their sizes together fit what is left of
/// the node, and their containers differ and are new where none of the book is one that the order may yet
/// grant. The node must have a capability, of
/// which at most 256 cores are left; the attempts in the order must differ, each next sequence must be at
/// most 2^39, and each size that they ask for must have a megabyte and a core at least, as `have_sizes` tests.
pub fn first_fit(
    alloc: Global,
    book: &Book,
    asks: &Asks,
    order: &Items<Turn>,
    node: &Text,
    epoch: u32,
) -> Result<Items<Grant>, NoMemory>
    requires room { IsSomeAnd (free_on book.now node.now) (λ free. free.vcores ≤ 256) }
    requires attempts { TurnsAreApart order.now }
    requires sequences { IsTrue (are_early order.now) }
    requires sizes { IsTrue (have_sizes (attempt_asks asks.now) order.now) }
    ensures pass { IfOk result (λ grants. (capability : Resource) → capability_of book.now node.now ≡ Some capability → grants ≡ pass_list (record { node = node.now; capability = capability; sizes = sizes_on node.now book.now.rows; epoch = epoch }) (attempt_asks asks.now) order.now) }
    ensures few { IfOk result (λ grants. length grants ≤ 256) }
    ensures on { IfOk result (λ grants. IsTrue (are_grants_on node.now grants)) }
    ensures new { IfOk result (λ grants. IsTrue (are_past epoch order.now book.now.rows) → AreNew book.now.rows grants) }
    ensures fit { IfOk result (λ grants. IsSomeAnd (free_on book.now node.now) (λ free. Fits (total_of (sizes_of grants)) free)) }
{
    let mut left = book.free_of(node).unwrap();
    let mut grants = Items::new(alloc);
    'turns: for turn in order.as_slice() {
        left = grant_attempt(&mut grants, left, node, epoch, *turn, asks)?;
    }
    Ok(grants)
}

/// Grants an attempt, in its turn, of each of its asks as many as fit what is left, and says what is then
/// left.
fn grant_attempt(
    grants: &mut Items<Grant>,
    left: Resource,
    node: &Text,
    epoch: u32,
    turn: Turn,
    asks: &Asks,
) -> Result<Resource, NoMemory>
    requires sequence { turn.next_seq + left.vcores < 2 ^ 63 }
    requires sizes { IsTrue (are_some_sizes (attempt_asks asks.now turn.attempt)) }
    ensures grants { OnOk result (grants.new ≡ grants.old ++ turn_grants (record { node = node.now; epoch = epoch; attempt = turn.attempt }) left turn.next_seq (by_priority (attempt_asks asks.now turn.attempt))) }
    ensures left { IfOk result (λ rest. rest ≡ turn_left left (by_priority (attempt_asks asks.now turn.attempt))) }
    ensures few { IfOk result (λ rest. length grants.new + rest.vcores ≤ length grants.old + left.vcores) }
{
    match asks.of(turn.attempt) {
        Some(lines) => grant_turn(grants, left, node, epoch, turn, lines.as_slice()),
        None => Ok(left),
    }
}

/// Whether each size that the attempts in the order ask for has a megabyte and a core at least.
pub fn have_sizes(asks: &Asks, order: &Items<Turn>) -> bool
    ensures { result ≡ have_sizes (attempt_asks asks.now) order.now }
{
    order
        .as_slice()
        .iter()
        .all(|turn| has_sizes(asks, turn.attempt))
}

/// Whether each size that an attempt asks for has a megabyte and a core at least.
pub fn has_sizes(asks: &Asks, attempt: AttemptId) -> bool
    ensures { result ≡ are_some_sizes (attempt_asks asks.now attempt) }
{
    match asks.of(attempt) {
        Some(lines) => are_some_sizes(lines.as_slice()),
        None => true,
    }
}

/// Whether each size of these lines has.
fn are_some_sizes(lines: &[AskLine]) -> bool
    ensures { result ≡ list_all (λ line. is_some_size line.ask.size) lines.now }
{
    lines.iter().all(|line| line.ask.size.memory_mb >= 1 && line.ask.size.vcores >= 1)
}

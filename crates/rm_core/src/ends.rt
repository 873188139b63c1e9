ghost use Rattle.std.specs.Prelude.{◌≡◌, ◌↔◌, IfOk, IsTrue, length, map, nat_lt};
ghost use Rattle.std.specs.List.Sorted.{IsNonDecreasingBy, IsPermutation};
ghost use Rattle.rm_types.specs.Alike.{without_end_order};
ghost use Rattle.rm_core.specs.Ends.{AreInStep, EndTogether, IsUp, paired_ends};

use rm_tree::Tree;
use rm_types::NoMemory;
use std::alloc::Global;

/// The numbers of an application's end in two trees.
#[derive(Clone, Copy, Drop)]
pub struct EndNumbers {
    pub one: u64,
    pub other: u64,
}

/// Whether the applications of two trees ended in the same order, where these are the same but for the numbers of their ends.
/// `NoMemory` where no memory was found for the numbers.
pub fn end_together(alloc: Global, tree: &Tree, other: &Tree) -> Result<bool, NoMemory>
    requires { map without_end_order tree.now.apps ≡ map without_end_order other.now.apps }
    ensures { IfOk result (λ together. IsTrue together ↔ EndTogether tree.now.apps other.now.apps) }
{
    // With its length a tree tells that each application is there once.
    let _apart = tree.len();
    let ends = in_order(ends_of(alloc, tree, other)?);
    Ok(are_in_step(ends.as_slice()))
}

/// The numbers of each end, in kept order.
fn ends_of(alloc: Global, tree: &Tree, other: &Tree) -> Result<Vec<EndNumbers>, NoMemory>
    requires { length tree.now.apps ≡ length other.now.apps }
    ensures { IfOk result (λ ends. ends.items ≡ paired_ends tree.now.apps other.now.apps) }
{
    let mut ends = Vec::new(alloc);
    'records: for place in 0..tree.len() {
        let app = tree.at(place);
        let also = other.at(place);
        if app.ending.is_some() {
            ends.push(EndNumbers {
                one: app.end_order,
                other: also.end_order,
            })?;
        }
    }
    Ok(ends)
}

/// The same numbers, with those of the first tree ascending.
fn in_order(mut ends: Vec<EndNumbers>) -> Vec<EndNumbers>
    ensures moved { IsPermutation ends.items result.items }
    ensures sorted { IsNonDecreasingBy (λ end. end.one) result.items }
{
    ends.sort_unstable_by_key(|end| end.one);
    ends
}

/// Whether the numbers of both trees stand in the same order, where those of the first ascend.
fn are_in_step(ends: &[EndNumbers]) -> bool
    requires { IsNonDecreasingBy (λ end. end.one) ends.now }
    ensures { IsTrue result ↔ AreInStep ends.now }
{
    'ends: for place in 1..ends.len() {
        if !is_up(ends[place - 1], ends[place]) {
            return false;
        }
    }
    true
}

/// Whether the second end has a higher number than the first in both trees, or the same in both.
fn is_up(before: EndNumbers, next: EndNumbers) -> bool
    ensures { IsTrue result ↔ IsUp before next }
{
    (before.one < next.one && before.other < next.other)
        || (before.one == next.one && before.other == next.other)
}

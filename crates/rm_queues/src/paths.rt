ghost use Rattle.std.specs.Prelude.{◌≡◌, ◌<◌, ℕ, [], length, slice_index, MatchOption, IfOk, ◌++◌};
ghost use Rattle.rm_types.specs.Rights.{parents_of, path_of};
ghost use Rattle.rm_queues.specs.Paths.{IsParent};

use rm_types::{Items, NoMemory, Text};
use std::alloc::Global;

/// Where the last dot of a name stands.
fn last_dot(name: &[u8]) -> Option<usize>
    ensures { MatchOption result
        ((k : ℕ) → k < length name.now → slice_index name.now k ≡ 46 → ⊥)
        (λ dot. (dot < length name.now) × (slice_index name.now dot ≡ 46)
        × ((k : ℕ) → dot < k → k < length name.now → slice_index name.now k ≡ 46 → ⊥)) }
{
    name.iter().rposition(|byte| *byte == b'.')
}

/// The name of a queue's parent: what stands before the last dot, if there is one.
pub(crate) fn parent_of(name: &[u8]) -> Option<&[u8]>
    ensures { MatchOption result (parents_of name.now ≡ []) (λ parent. IsParent name.now parent.now) }
{
    match last_dot(name) {
        Some(dot) => Some(&name[..dot]),
        None => None,
    }
}

/// A queue's name and those of its parents, the nearest first.
pub(crate) fn path_of(alloc: Global, name: &[u8]) -> Result<Items<Text>, NoMemory>
    ensures { IfOk result (λ names. names ≡ path_of name.now) }
{
    let mut names = Items::new(alloc);
    let mut next = Some(name);
    while let Some(name) = next {
        names.push(Text::from_bytes(alloc, name)?)?;
        next = parent_of(name);
    }
    Ok(names)
}

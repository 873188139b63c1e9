//! A list of values under keys, in the order of entering, each found by its key without a walk.
//!
//! It promises that a list is what its calls make of it: a value enters as the last, stays in its place while it changes, and leaves
//! the others as they stand. What it costs to take one away doesn't grow with the number of the others, and leaves no walk behind.
//!
//! It stands on `rm_types`, and on `indexmap`, in which a key is found. Contracts see a list of keys with their values; how it is
//! kept is in `Slots`.
#![tactic(auto)]

mod keyed;

pub use keyed::Keyed;

//! A list of store operations, folded: what says nothing any more is left out, so that a store may keep what is left in place of all
//! that was ever written to it.
//!
//! It promises that `fold` gives exactly what is left, in one walk over the list. Its laws say what folding keeps: what is left amounts to
//! the same, and lists of which the same is left have records that are alike. It stands on `rm_types`, which says what is left of a list,
//! and which records are alike.

mod folding;
mod laws;

pub use folding::fold;
pub use laws::{law_alike, law_folded};

//! The records that a store's operations amount to: the next epoch, the last stamp, and each
//! application that is kept, in kept order.
//!
//! It promises that a tree to which operations were applied is the records of their list, and that an
//! operation is refused as stray exactly where it doesn't fit the records; a refusal changes nothing.
//!
//! It stands on `rm_types`, whose `Records` defines the records of a list of operations, and on
//! `rm_keyed`, in which an application is found by its id without a walk.
#![tactic(auto)]

mod apps;
mod attempts;
mod recording;
mod tree;

pub use tree::{Tree, TreeError};

//! The grants of one allocation pass on a node, by first fit.
//!
//! It promises that `first_fit` answers the grants of a pass as they are defined: attempts in turn, of each
//! its asks by priority and then in the order of asking, of each as many as are outstanding and fit what is
//! left of the node. An ask that doesn't fit stops no later one. All that is granted fits what was left of
//! the node.
//!
//! It stands on `rm_types`, whose `Passes` defines a pass, and on `rm_book` for the book and the asks.
//! `Conditions` says what a pass needs, and `Turns` what one turn of it gets.

mod passes;
mod turns;

pub use passes::{first_fit, has_sizes, have_sizes};

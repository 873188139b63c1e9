//! The state machines of the manager: of an application, of an attempt to run its master, of a container and of a node. Each has a module, with a
//! table of transitions.
//!
//! It promises of each that `step` answers exactly as its table says: where the table has a row, that row's next state and action, and nothing
//! elsewhere; and, above the tables, what no way through them can do.
//!
//! It stands on the values of `rm_types`.
#![tactic(auto)]

pub mod app;
pub mod attempt;
pub mod container;
pub mod node;

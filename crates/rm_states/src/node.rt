//! The state machine of a node: what follows when something happens to it, and what is then to be done.
//!
//! It promises that `step` answers exactly as the table of transitions says: where the table has a row, that
//! row's next state and action, and nothing elsewhere. Above the table it promises that a node is ready only
//! by way of waiting, that each registration has it wait, and that only a registered node is lost.
//!
//! It stands on the standard library alone. The table stands in `Table`, and what is promised of it in
//! `Laws`.

mod laws;
mod states;
mod transitions;

pub use laws::{
    a_node_that_registers_waits, no_node_is_absent_again, one_row_answers_each_pair,
    only_a_registered_node_is_lost, only_a_waiting_node_becomes_ready,
};
pub use states::{NodeAction, NodeEvent, NodeState};
pub use transitions::{is_registered, step};

//! The manager itself: its tables, with their two queues of events, and its log.
//!
//! Each move adds one entry to the log, or is refused and changes nothing. The log is at every moment one that a manager that never
//! dies could have made: the judge of `rm_model` allows each entry in the state that those before it leave.
//!
//! It stands on `rm_tables` and on the crates that work off its queues (`rm_dispatch`, `rm_sched`) and answer clients, masters, nodes and
//! the clock (`rm_client`, `rm_master`, `rm_tracker`), and on `rm_invariant` for why each of their steps is lawful. Which message is served
//! and when a segment closes is for the layer above to say.
#![tactic(auto)]

mod ends;
mod laws;
mod likeness;
mod manager;
mod moves;

pub use laws::{law_ends_are_kept, law_final_states, law_spelled};
pub use manager::{Core, Move};
pub use rm_tables::Refused;

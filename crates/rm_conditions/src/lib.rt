//! Tests of what the calls on the manager's tables require, for a caller that has no invariant of a life to show it by.
//!
//! It promises that each test is true exactly where what it is named for holds, in the very words that are required there:
//! `can_decide` for `rm_dispatch::front`, `can_schedule` for `rm_sched::front`, `can_serve_client` for `rm_client::serve`,
//! `can_serve_master` for `rm_master::serve`, `can_serve_node` and `can_serve_clock` for `rm_tracker::serve` and `serve_clock`. `can_pass`
//! is the part of `can_schedule` that doesn't look at the queue, and `are_few` the part of that which is about records. That no two turns
//! are of one attempt holds in any tables (`law_apart`). Nothing is changed, and no memory is taken.
//!
//! It stands on `rm_tables`, whose tables it looks through, and on the words of the crates whose calls it is for.
#![tactic(auto)]

mod counts;
mod messages;
mod passes;
mod queued;
mod turns;

pub use counts::{are_few, can_decide, can_serve_client};
pub use messages::{can_serve_clock, can_serve_master, can_serve_node};
pub use passes::can_pass;
pub use queued::can_schedule;
pub use turns::law_apart;

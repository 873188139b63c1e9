//! The scheduler's dispatcher: it works off the first event of the scheduler's queue.
//!
//! `front` does with the first event what `SchedEvents` in `rm_tables` says of it: the entry that it logs, and the tables after it.
//! Attempts ask for their masters' containers, reports of nodes are absorbed, passes grant what fits first, and containers end. It takes its memory
//! first, and leaves all as it was where there is none.
//!
//! It stands on `rm_tables`, whose book, asks, nodes and queues it changes. What a pass grants is found in `fit`.
#![tactic(auto)]

mod absorbing;
mod asking;
mod closing_lists;
mod ending;
pub mod fit;
mod fronts;
mod leaving;
mod passing;
mod records;

pub use fronts::front;
pub use passing::{asks_some, attempt_at, granted_to};

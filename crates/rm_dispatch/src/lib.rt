//! The dispatcher of the main queue: it works off the first event, as YARN's ResourceManager does with the events of
//! applications and attempts.
//!
//! `front` does with the first event what `MainEvents` in `rm_tables` says of it: the entry that it logs, and the tables
//! after it. It takes its memory first, and leaves all as it was where there is none.
//!
//! It stands on `rm_tables`, whose rows, queues and operations it changes.
#![tactic(auto)]

mod deciding;
mod ends;
mod events;
mod fronts;
mod masters;

pub use fronts::front;

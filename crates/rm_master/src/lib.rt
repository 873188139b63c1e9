//! The service of masters: it answers what the master of an attempt says, from the tables of the manager.
//!
//! `serve` answers a registration, an allocation and a master that finishes. A reply is the judge's for every scene that the tables show
//! (`Shown` in `rm_refinement`), and the tables change by one equation (`Answers`). A call takes its memory first, and leaves all as it
//! was where there is none.
//!
//! `proofs/` shows that the tables and the judge have the same masters, asks, containers and endings again after each message.
//!
//! It stands on `rm_tables`, on the judge's replies in `rm_model`, and on what the two have alike in `rm_refinement`.
#![tactic(auto)]

mod allocating;
mod finishing;
mod living;
mod recorded;
mod registering;
mod serving;

pub use serving::serve;

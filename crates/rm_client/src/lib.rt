//! The service of clients: it answers what a client asks, from the tables of the manager.
//!
//! `serve` answers a new id, a submission, a report and a kill. Its reply is the judge's for every scene that the tables show
//! (`RefinesForClients` in `rm_refinement`), and the tables change by one equation (`Answers`). It finds an application by its id
//! without a walk, takes its memory first, and leaves all as it was where there is none. A report alone walks, over the living
//! containers, to count those of its application.
//!
//! `proofs/` shows that the tables and the judge have the same applications and given ids again after each message.
//!
//! It stands on `rm_tables`, on the rights of `rm_queues`, on the judge's replies in `rm_model`, and on what the two have alike in
//! `rm_refinement`.
#![tactic(auto)]

mod kills;
mod reports;
mod serving;
mod submissions;
mod words;

pub use serving::serve;

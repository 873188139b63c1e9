//! The service of nodes and of the clock: it answers what a node says and what the clock says, from the tables of the manager.
//!
//! `serve` answers a node's registration and its beat, `serve_clock` a tick and the leases that ran out. A reply is the judge's for
//! every scene that the tables show (`Shown` in `rm_refinement`), and the tables change by one equation (`Answers`). Each call takes its
//! memory first, and leaves all as it was where there is none. A beat looks up the containers that it reports and is told to launch, and
//! goes over no other node.
//!
//! `proofs/` shows that the tables and the judge have the same nodes and containers again after each message.
//!
//! It stands on `rm_tables`, on the judge's replies in `rm_model`, and on what the two have alike in `rm_refinement`.
#![tactic(auto)]

mod beating;
mod expiring;
mod registering;
mod serving;

pub use serving::{serve, serve_clock};

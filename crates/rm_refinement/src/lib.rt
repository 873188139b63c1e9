//! How the manager's tables stand for the judge's state: the refinement relation.
//!
//! It has definitions and proofs alone, and no function: `specs/History` has what the judge remembers and the tables don't, and the state that
//! both make together; `specs/Agreement` how the two agree part by part; `specs/Shown` and `specs/Clients` what the services take of it.
//!
//! It stands on the tables and on the judge's words.
#![tactic(auto)]

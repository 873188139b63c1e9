//! The invariant of an open life: all that holds of the manager's tables between two moves, and why each of its moves keeps it, is one that the
//! judge allows and, where it is the manager's own, leaves less to do.
//!
//! It has definitions and proofs alone, and no function. `specs/Invariant` is the invariant whole, `specs/Phases` how far a life has come, and
//! `specs/Step`, `specs/Preserves` and `specs/Phases` say what a move leads to. Below them `specs` and `proofs` have a folder for each subject:
//!
//! - `apps`, `nodes`, `masters`: what holds of rows, of nodes and the book, and of masters' containers;
//! - `events`, `messages`, `opening`: the steps, by kind: events of both queues and kept operations, messages, and the opening of a life;
//! - `auxiliary`, `bounds`, `measure`, `resting`: what else holds, what is in its range, how much is left to do, and what holds when nothing is.
//!
//! It stands on how the tables stand for the judge's state (`rm_refinement`), on the tables, the scheduler and the services.
#![tactic(auto)]

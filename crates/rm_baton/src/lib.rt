//! The baton: a place for one value with a log, which workers in threads of their own take out, one at a time, and put
//! back. What a worker may do is its pass.
//!
//! It promises, of every schedule of the threads, that each value taken is of the pass's run, and that each log which the
//! pass has seen is a beginning of its log. Only the store's pass adds entries that open, settle or end a life or say
//! what the store did; so what its worker knows of the handed operation lasts from one hold to the next. The only pass
//! that is left finds the value.
//!
//! It stands on `rm_types` for the entries of a log, and on `crossbeam_queue`: the place is a queue of capacity 1 under
//! the rule in `Rule`. `Views` says what a pass knows before and after each call, and `Entries` which entries only the
//! store's pass adds.
#![tactic(auto)]

mod baton;
mod carries;
mod crossing;
mod rule;

pub use baton::{Baton, Pass};
pub use carries::{Carries, Known};

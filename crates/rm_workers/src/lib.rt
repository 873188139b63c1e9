//! A run whose lives are each lived by seven workers in threads of their own, which hand the desk on by the baton: one for each
//! of the four services, two dispatchers, and the store's worker, which alone owns the device.
//!
//! It promises, of every schedule of the threads, what the plain run promises, but for the order of the moves: that the log
//! goes along the script, each entry of a lane that was ready, that at a life's end it went down or is at rest, that the device
//! fell as the crashes say, and that at every moment a crash leaves what is kept, or this and the operation that awaits. It
//! doesn't promise that it returns.
//!
//! It stands on `rm_baton`, on `rm_desk` and `rm_store`, and on `rm_lives`, which runs the lives one after another. `Came` says how
//! far a life has come by its log, `Work` what a worker knows between two holds, and `Turns` what its turns come to.
#![tactic(auto)]

mod bells;
mod called;
mod gates;
mod held;
mod holds;
mod keeper;
mod lives;
mod moves;
mod runs;
mod signals;
mod since;
mod start;
mod storing;
mod turns;
mod workers;

pub use gates::{Gate, NoGate};
pub use lives::run_life;
pub use runs::{Workers, run_script};

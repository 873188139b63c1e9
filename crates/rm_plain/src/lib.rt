//! A run of a script on one thread, by a schedule, whose letters say which lane moves next. After its end the plain policy moves
//! the first lane that is ready, each time.
//!
//! It promises, beside what each run does (`HasRun` of `rm_lives`), that each move is of the lane that the schedule or the policy
//! says, that a letter which can't be followed stops the run at its place, and that a run ends.
//!
//! It stands on `rm_lives`, for how lives begin, move, halt and end.
#![tactic(auto)]

mod feeding;
mod growing_run;
mod lives;
mod policy;
mod runs;
mod schedule;

pub use growing_run::{BeginFail, GrowingRun};
pub use lives::run_life;
pub use runs::run_script;
pub use schedule::{Letter, MOST_SCHEDULED, Schedule, Step, letter_of};

//! All that the program does: it reads a cluster file and a script, runs the script over a device in memory or in a file, and
//! writes the page of the run to standard output; or it writes what the device's store keeps.
//!
//! `top` is the call that does this, over any shelf, sink and device, and `top_plain` does all but the runs of workers in
//! threads. Each reads the words once and hands the command line on; what it asks for is a mode, a module of `modes` with one
//! call, whose clause is the mode's own. `run_by` hands the command line the system's files, the standard output and the device
//! of its mode: an empty one in memory, or that in the mode's file where the words ask for it; `run_program` hands the words on,
//! and gives the status of the outcome.
//! `top` promises that the log of a run is lawful for the settings and the script of these files and
//! for what the device held, that its moves are those of the schedule and then the plain policy's, or by workers of lanes
//! that were ready, that what was written is the log's page or a beginning of it, that a run that is Done has come to its
//! script's end with nothing owed, that at each moment of a run, also of one that was stopped, a crash leaves what is
//! kept, or this and the operation that awaits, and that a run that nothing stands in the way of is Done or finds no
//! memory. Of a run by workers it doesn't promise that it returns.
//!
//! It stands on `rm_words` for what the words ask for, `rm_outside` for files and output, `rm_disk` and `rm_store` for the
//! device, `rm_cluster`, `rm_script`, `rm_plain`, `rm_workers` and `rm_page`, and on the definitions of `rm_model`.
#![tactic(auto)]

mod described;
mod ended;
mod hints;
mod inputs;
mod messages;
mod modes;
mod plain;
mod program;
mod progress;
mod statuses;
mod terminal;
mod threads;
mod usage;
mod writing;

pub use described::Described;
pub use ended::Ended;
pub use hints::{ScheduleFault, schedule_hint};
pub use messages::{Cause, Message, Names};
pub use plain::top_plain;
pub use program::{Call, run_by, run_program};
pub use progress::Watched;
pub use statuses::status_of;
pub use threads::top;
pub use usage::{Usage, usage_of};

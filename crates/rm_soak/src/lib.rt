//! The soak: settings, a script and a summary line, all made from a number of applications alone. The script
//! runs so many applications from their submission to their end on one node, fifty in a life, and each life
//! but the last crashes.
//!
//! It promises that the settings are those of a cluster file without keys, but for how many completed
//! applications are remembered; that the script is exactly the one that `Scripts` defines, and as one that
//! the reader of scripts gives; and that the line's counts are those of the log.
//!
//! It stands on the values of `rm_types`, on `itoa` for digits, and for its contracts on what `rm_cluster`
//! reads, what `rm_queues` asks of settings, and what `rm_script` says of each script that it reads; a proof
//! computes what `serde_json` reads `{}` as.
#![tactic(auto)]

mod limits;
mod lines;
mod messages;
mod scripts;
mod settings;

pub use limits::MOST_SOAKED;
pub use lines::soak_page;
pub use scripts::soak_script;
pub use settings::soak_settings;

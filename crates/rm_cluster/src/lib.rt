//! The cluster file: the settings of a manager, as a JSON object.
//!
//! It promises that `read_cluster` gives the settings of the bytes exactly where they break no rule of the
//! file, and that a refusal names the first rule that is broken. `specs/Rules.antt` has the rules, one for
//! each place, and `specs/Ranges.antt` the ranges in which the settings then stand. Want of memory may come on
//! any bytes. Of a refused file `why` says the cause, for a person.
//!
//! It stands on `serde_json`, whose contracts say which value bytes are read as, and on `rm_types`.
#![tactic(auto)]

mod clusters;
mod faults;
mod groups;
mod laws;
mod limits;
mod queues;
mod readings;
mod reasons;
mod rules;

pub use clusters::{ClusterError, read_cluster};
pub use faults::{ClusterFault, Excerpt, GroupsFault, Key, QueueList, QueuesFault};
pub use laws::one_answer;
pub use limits::{
    DEFAULT_APPS, DEFAULT_ATTEMPTS, DEFAULT_COMPLETED, DEFAULT_MEMORY_MB, DEFAULT_VCORES,
    DEFAULT_WAIT_MS,
};
pub use reasons::why;

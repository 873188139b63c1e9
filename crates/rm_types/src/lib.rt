//! The values that all parts of the manager speak of: ids, resources, store operations, messages,
//! replies, log entries, settings and scripts.
//!
//! It promises that a copy equals its source, that a text is read exactly by its kind, and that sums
//! and differences of resources go by part. Its `specs/` hold the definitions that more than one crate
//! cites: the ranges and the order of ids, the fit of resources, ACL texts and rights, what a list of
//! store operations amounts to, and the grants of one allocation pass.
//!
//! It stands on the standard library and `thiserror`.
#![tactic(auto)]

mod boxed;
mod containers;
mod duplicate;
mod entries;
mod ids;
mod items;
mod limits;
mod messages;
mod operations;
mod outcomes;
mod queues;
mod records;
mod replies;
mod resources;
mod scripts;
mod settings;
mod texts;

pub use boxed::Boxed;
pub use containers::{
    Ask, AskLine, AskOf, BookRow, Cause, Closing, ClosingOf, ContainerState, Grant, Held, Turn,
};
pub use duplicate::{Duplicate, NoMemory};
pub use entries::Entry;
pub use ids::{AppId, AttemptId, ContainerId};
pub use items::{Items, push_both};
pub use limits::{
    EPOCHS, GREATEST_ATTEMPTS, GREATEST_COUNT, GREATEST_MEMORY_MB, GREATEST_PRIORITY,
    GREATEST_STAMP, GREATEST_VCORES, MOST_LINES, MOST_LISTED, MOST_SERVED, NUMBERS, SEQUENCES,
    STAMPS,
};
pub use messages::{ClientAsk, ClockAsk, Lane, MasterAsk, Message, NodeAsk, Sender, Sent};
pub use operations::{How, Op, Submission, Submitted};
pub use outcomes::Outcome;
pub use queues::Queue;
pub use records::{AppRecord, AttemptRecord};
pub use replies::{AclOp, Denial, Reply, Report, StateWord};
pub use resources::Resource;
pub use scripts::{Close, Life, Script, Segment};
pub use settings::{QueueSpec, Settings, UserGroups};
pub use texts::{Text, TextError, TextKind};

//! Who may submit to a queue, administer it and kill its applications: access control lists, and the
//! queue tree that keeps each queue's lists as they count.
//!
//! It promises that a list admits exactly whom its text admits, that every answer about rights is that
//! of the settings that the tree was made of, and that a denial names exactly what was consulted.
//!
//! It stands on `rm_types`, whose `AclTexts` and `Rights` define all of this on texts and names alone.
//! Of its `specs/`, `Rules` has what the settings must keep, and `Acls` what a list says once it is
//! read; `Paths`, `Places` and `Trees` say what the private functions answer.
#![tactic(auto)]

mod acls;
mod nodes;
mod paths;
mod places;
mod trees;

pub use acls::Acl;
pub use trees::{QueueTree, starts_at_root};

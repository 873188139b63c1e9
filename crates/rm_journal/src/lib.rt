//! A crash-safe log of payloads, in a region of a disk.
//!
//! `Journal::open` finds the records, `next` gives their payloads in order, and `append` adds one so that a
//! crash at any moment leaves all payloads from before, and the new one whole or not at all. This is proved
//! over every disk that keeps the trait `Disk`, anywhere on it. What bytes a journal is, and what it holds,
//! is defined in `specs/Device.antt` of `rm_formats`.
//!
//! `two_areas` has two such regions, so that what one holds can be written anew into the other.
//!
//! It stands on `rm_disk`, and on the definitions of `rm_formats`.
#![tactic(auto)]

mod fault;
mod journal;
mod region;
pub mod two_areas;
mod walk;

pub use fault::JournalError;
pub use journal::{CALLS_OF_APPEND, Journal};
pub use region::{Region, record_at, write_through};
pub use walk::Walk;

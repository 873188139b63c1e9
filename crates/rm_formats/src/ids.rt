//! The texts of ids, read and written exactly.
//!
//! It promises that a reader answers an id exactly where the bytes are that id's text and the id is in its
//! ranges, that it otherwise says how far the bytes are the beginning of some such text, and that a writer
//! appends an id's text. No two ids in their ranges have one text.
//!
//! It stands on `rm_types`, whose `Ranges` defines the ranges, on `IdTexts`, which defines the texts,
//! and on `itoa` for digits. `Fronts` defines how far bytes go along some id's text.

mod laws;
mod numbers;
mod parts;
mod reading;
mod steps;
mod writing;

pub use laws::texts_are_apart;
pub use reading::{NotAnId, read_app, read_attempt, read_container};
pub use writing::{write_app, write_attempt, write_container};

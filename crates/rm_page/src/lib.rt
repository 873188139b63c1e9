//! The page of a log: its bytes, exactly as the definitions of the page and of its wording say. A page
//! is written once, from its first byte to its last, into one buffer.
//!
//! It also promises what a page tells: no two operations and no two messages have one text, and a line
//! determines all of its entry but what `Shown` names.
//!
//! It stands on `rm_types` for the values, on `rm_formats` for the definitions and the texts of ids, and on `itoa` for digits.
#![tactic(auto)]

mod entries;
mod laws;
mod lists;
mod messages;
mod operations;
mod pages;
mod replies;
mod writing;

pub use laws::{lines_tell_entries, texts_are_apart};
pub use pages::{entry_line, page, store_page};

//! Reading a page: the entries that its lines tell, with the moves or without, and the line of a soak.
//!
//! It promises that an answer is what the bytes tell: written again by `rm_page`, its log is these bytes, byte for byte; and
//! that any other log of which they are the page, with the moves or without as here, shows the same (`law_one_reading`). Bytes that
//! are refused are the page of no log that a manager can have. Of its `specs/`, `Told` says what a page tells and what is none, `Soaks`
//! has the line of a soak, `Pieces` and `Items` the texts of which lines are made, and `Results` and `Answers` what a reader of a
//! part answers.
//!
//! It stands on `rm_types` for the values, on `rm_page`, which writes what was read again, on `rm_script`, whose lines
//! messages are, on `rm_lines` for the words of a line, on `rm_formats` for the texts of ids, and on `itoa` for digits.
#![tactic(auto)]

mod entries;
mod errors;
mod laws;
mod lists;
mod messages;
mod moves;
mod operations;
mod pages;
mod parts;
mod replies;
mod soaks;

pub use errors::PageError;
pub use laws::law_one_reading;
pub use pages::{Page, read_page};
pub use soaks::SoakLine;

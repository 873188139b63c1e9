//! What an operator asks of a page: a summary, and the lines that name an application, an attempt, a container or a node.
//!
//! It promises that `follow` tells exactly the lines of the page that name the id, each with its number, and that `summary` tells exactly the
//! page's summary, each number in its place. Of its `specs/`, `Naming` says which ids a line tells, `Meanings` what it means, and `Following`
//! what is told of it; `Counting` says what is counted, and `Summaries` what is told of that.
//!
//! `chart` draws the run of a page, as an SVG.
//!
//! It stands on `rm_types` for the values, on `rm_page_reader`, which reads pages, on `rm_page`, which writes a line again, on
//! `rm_formats` for the texts of ids, on `rm_frame` for the length of an operation, and on `itoa` for digits.
#![tactic(auto)]

pub mod chart;
mod counting;
mod errors;
mod following;
mod lives;
mod longest;
mod meanings;
mod naming;
mod sheet;
mod subjects;
mod summaries;
mod tallies;

pub use errors::ReportError;
pub use following::follow;
pub use subjects::Subject;
pub use summaries::summary;

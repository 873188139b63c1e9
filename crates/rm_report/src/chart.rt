//! A picture of a run, from its page: an SVG with the lives of the manager as columns, the jobs' states, the operations of the
//! store, and a row for each node with the containers on it.
//!
//! It promises that what is drawn is of the page that was handed, and that each node of which the page tells has a row. How things look is
//! tried by tests alone.
//!
//! It stands on `rm_types` for the values, on `rm_page_reader`, which reads pages, on `rm_formats` for the texts of
//! ids, on `indexmap` for what is found by its id, and on `itoa` for digits.

mod bars;
mod drawing;
mod jobs;
mod legend;
mod nodes;
mod scenes;
mod svg;

pub use drawing::draw;

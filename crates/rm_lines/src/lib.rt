//! Reading lines of text: what stands in one line after another, and the words of a line, one after another.
//!
//! It promises that a reader of a text answers a value exactly where the text is that value's and the value is in its range, and
//! that words are taken off a line as one space between each two cuts it, each once and none of them left out. A cursor takes no
//! memory, and knows its column. What is refused is told with what was found in its place. Of its `specs/`, `Results` says what a
//! reader answers, `Cuts` how texts are cut, `Numbers` and `Submissions` what is read, and `Lines` the lines of bytes.
//!
//! It stands on the values of `rm_types`, on `rm_formats`, which reads ids, and on what `rm_page` proves of texts that are cut.
#![tactic(auto)]

mod cuts;
mod errors;
mod faults;
mod lines;
mod lists;
mod numbers;
mod submissions;
mod texts;
mod words;

pub use cuts::{halves, text_before, text_behind};
pub use errors::LineError;
pub use faults::{Excerpt, LineFault, Part};
pub use lines::{cut_line, is_skipped};
pub use lists::{Reading, items_of, pieces};
pub use numbers::{long_number, number, number_in};
pub use submissions::submission;
pub use texts::{app_id, attempt_id, container_id, text};
pub use words::Words;

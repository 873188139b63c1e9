//! Reading a script: the lives of the manager, and the messages that it's given in each.
//!
//! It promises that a script is answered exactly where the bytes are one, and else the first line that is
//! refused; that the same bytes are one script at most; that a message has one line; and that a message is read of one line
//! exactly where the line is its own. Of its `specs/`,
//! `Limits` has the limits, and `Lines` the lines of bytes; `Messages` the messages in their ranges;
//! `Written` and `Spelling` a script as it is written, and its lines; `Scripts` says which bytes are which
//! script, `Refusals` which line is refused first, and `Values` what holds of each script that is read; the
//! others say what the private functions answer. Of a refused script `why` says the cause, for a person; a limit that is
//! broken is told exactly where it is, as `Faults` says.
//!
//! It stands on the values of `rm_types`, on `rm_lines` for lines and their words, on `rm_formats`, which has the wording of messages, and on
//! the law of `rm_page` that no two messages have one text.
#![tactic(auto)]

mod clients;
mod clocks;
mod drafts;
mod errors;
mod faults;
mod forms;
mod laws;
mod limits;
mod lines;
mod lists;
mod masters;
mod nodes;
mod reading;
mod reasons;

pub use errors::ScriptError;
pub use faults::{Form, Limit, ScriptFault};
pub use laws::{law_lines, law_one_line, law_one_script, law_values};
pub use lines::read_message;
pub use reading::read_script;
pub use reasons::why;
pub use rm_lines::{Excerpt, LineFault, Part};

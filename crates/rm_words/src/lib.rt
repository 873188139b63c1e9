//! The words of the program: what they ask for, and whether they have the flags `--file` and `--moves`. A mode is a row of the
//! table of modes in `modes.rt`: its word, what stands behind it, whether it has moves, and what it does; and it has a device.
//!
//! It promises that `command_line` answers exactly what `mode_of` of `specs/Words.antt` says of the words, for a soak with
//! a number within its range, and each flag as it stands among them. Want of memory may come on any words but those with a
//! flag that is unknown or repeated. `word_fault` says which word is wrong where they ask for nothing. `read_names` reads words
//! without a flag as names, for programs that have none.
//!
//! It stands on `clap`, whose contracts give a command's matches as a function of the words. `clap` reads them as one
//! command that has no flag for help or a version; words with a flag that is unknown or repeated never come to it. The
//! number of a soak is read by `rm_lines`, up to the greatest that `rm_soak` names; want of memory is that of `rm_types`, and
//! the size of the store's device that of `rm_formats`.
#![tactic(auto)]

mod command;
mod faults;
mod flags;
mod modes;
mod reading;

pub use command::{CommandLine, command_line};
pub use faults::{WordFault, fault_among, word_fault};
pub use flags::{are_names, name_at};
pub use modes::{MODES, Mode, ModeName, ModeRow, Operand, STORE_FILE, StoreDevice};
pub use reading::read_names;

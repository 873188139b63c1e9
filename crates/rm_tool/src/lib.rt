//! All that the tool beside the manager does: it says whether the store in a file is whole, writes a store of the old form as one of two
//! areas, and writes what can be read of a damaged one as a new store; and it sums a page up, tells what it tells of an id, and draws it.
//!
//! `top` is the call that does this, over any shelf, sink and new disk: its contract says what each outcome means of the bytes that were read,
//! what the new disk holds then, and that a crash at any moment leaves a store there. `run_tool` hands it the system's files, the standard output and a draft of the new file, which it gives its
//! name once all that was to be written lasts; what no contract says of the system's files is tested.
//!
//! `salvage` finds what stands in the bytes of a store. The crate stands on `rm_store` for what that means, on `rm_report` for what pages tell, on `rm_outside` and `rm_disk` for the edge, on `rm_words`, and with it `clap`, for the words, on `rm_page` and
//! `sha2` for the sum of a store's page.
#![tactic(auto)]

mod messages;
mod outcomes;
mod pages;
mod program;
mod reports;
pub mod salvage;
mod store_files;
mod tool;
mod words;

pub use outcomes::{ToolOutcome, status_of};
pub use program::run_tool;
pub use reports::{JobState, jobs_in};
pub use store_files::StoreShelf;
pub use tool::top;
pub use words::{Mode, mode_of};

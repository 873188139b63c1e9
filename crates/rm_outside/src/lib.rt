//! The two edges of the program: a shelf, from which files are read, and a sink, to which text is
//! written.
//!
//! It promises that a read changes nothing but a count, that a write takes a first part of its piece,
//! and that each failure and each idle write is counted, so that a caller can tell a fault of the
//! outside from one of the program. The fakes in memory say exactly when a call fails. The adapters of
//! files and of standard output keep the counts, and promise nothing of the bytes. `StandardDescriptors` keeps every file
//! that is opened later off the numbers of the standard streams.
//!
//! It stands on the values of `rm_types` and on the standard library's files and printing.
#![tactic(auto)]

mod calls;
mod descriptors;
mod files;
mod outputs;
mod shelves;
mod sinks;
mod writes;

pub use descriptors::StandardDescriptors;
pub use files::FileShelf;
pub use outputs::OutSink;
pub use shelves::{MOST_READ, MemShelf, NamedFile, Shelf, ShelfError};
pub use sinks::{MemSink, Sink, SinkError};
pub use writes::{Written, write_all};

//! The limits that are a script's alone: of its bytes and of the numbers in it. This project's own.

use rm_formats::MOST_FILE_BYTES;

/// How many bytes a script may have, line feeds counted.
pub(crate) const MOST_BYTES: usize = MOST_FILE_BYTES;

/// How many bytes a line may have, without its line feed.
pub(crate) const MOST_LINE_BYTES: usize = 65536;

/// How many device calls a crash lets pass at most.
pub(crate) const GREATEST_CALLS: u32 = 1_000_000;

/// The greatest number of an image that the device falls to.
pub(crate) const GREATEST_IMAGE: u32 = u32::MAX;

/// The greatest response id that a master or a node names.
pub(crate) const GREATEST_RESPONSE: u32 = u32::MAX - 1;

/// The greatest turn of a node's registration; 1 is the least.
pub(crate) const GREATEST_TURN: u32 = u32::MAX;

/// How many milliseconds one tick of the clock is at most; 1 is the least.
pub(crate) const GREATEST_TICK: u64 = 1_000_000_000;

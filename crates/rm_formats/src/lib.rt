//! How the manager's values stand in bytes: the texts of ids, the wording of messages, operations and replies, the page of a
//! log, the frames of store operations, and what a device holds. They are plain definitions in `specs/`: `IdTexts`, `Wording`,
//! `Page`, `Frames` and `Device`, told in words in `docs/FORMATS.md`.
//!
//! `ids` reads and writes the texts of ids.
//!
//! It stands on `rm_types`, whose values it speaks of, and knows nothing of what the manager does.
#![tactic(auto)]

mod codes;
pub mod ids;

pub use codes::{
    APP_CODE, APP_END_CODE, ATTEMPT_CODE, ATTEMPT_END_CODE, EPOCH_CODE, FAILED_CODE, FINISHED_CODE,
    FrameKind, KILLED_CODE, OLDER_APP_CODE, REMOVE_CODE,
};

/// The most bytes of a script or a schedule.
pub const MOST_FILE_BYTES: usize = 16_777_216;

/// How many bytes the device of a store has: its file, or the one in memory.
pub const STORE_SIZE: u64 = 4_194_304;

/// The longest payload of a record.
pub const MOST_PAYLOAD: usize = 1024;

/// How many bytes stand before a record's payload: the gate, and the payload's length in 4 bytes.
pub const RECORD_HEAD: u64 = 5;

/// How many bytes a record needs beside its payload: those before it, and the next gate.
pub const RECORD_FRAME: u64 = RECORD_HEAD + 1;

/// How many bytes the record of an area's generation has, from its gate on: the generation is a number in 8 bytes.
pub const GENERATION_RECORD: u64 = RECORD_HEAD + 8;

/// The place behind the record of an area's generation and the gate behind that. Until the area's first gate is open nothing is
/// written from there on.
pub const FIRST_END: u64 = GENERATION_RECORD + 1;

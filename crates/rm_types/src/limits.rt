//! The greatest values of sizes, counts and stamps, wherever they stand. This project's own.

/// The most memory, in megabytes, of a container or a node: 16 TiB.
pub const GREATEST_MEMORY_MB: u32 = 16_777_216;

/// The most virtual cores of a container or a node.
pub const GREATEST_VCORES: u32 = 256;

/// The most attempts that an application may have.
pub const GREATEST_ATTEMPTS: u32 = 100;

/// The greatest stamp with which a life starts.
pub const GREATEST_STAMP: u64 = 1_000_000_000_000_000;

/// How many lines a script may have.
pub const MOST_LINES: u32 = 100_000;

/// How many messages are served in one life at most, 2^31 - 1: so the ids that a life gives, the sequences of its containers
/// and its clock stay in their ranges, whatever the messages are.
pub const MOST_SERVED: u32 = 2_147_483_647;

/// How many items a list of a message has at most.
pub const MOST_LISTED: usize = 1000;

/// The greatest priority of an ask; 1 is the least.
pub const GREATEST_PRIORITY: u32 = 1000;

/// How many containers one ask is for at most.
pub const GREATEST_COUNT: u32 = 1000;

/// The epochs of lives are below it: a container's number has 24 bits for them, as YARN's has.
pub const EPOCHS: u32 = 1 << 24;

/// The sequences of an attempt's containers in one life are below it: a container's number has 40 bits for them.
pub const SEQUENCES: u64 = 1 << 40;

/// The numbers of a life's applications, and of an application's attempts, are below it: YARN has them in a signed integer
/// of 32 bits.
pub const NUMBERS: u32 = 1 << 31;

/// The stamps of lives are below it: YARN has them in a signed integer of 64 bits.
pub const STAMPS: u64 = 1 << 63;

//! The greatest values that a cluster file alone may set, and what stands where a key is absent. This project's own, but that an
//! application has two attempts and that a manager waits ten seconds after a restart, which is after YARN's documentation.

/// The greatest length of a cluster file, in bytes.
pub(crate) const GREATEST_LENGTH: usize = 1_048_576;

/// How many completed applications are remembered at most.
pub(crate) const MOST_COMPLETED: u32 = 10_000;

/// How many applications may run at most.
pub(crate) const MOST_APPS: u32 = 100_000;

/// How long a recovered manager waits at most, in milliseconds.
pub(crate) const LONGEST_WAIT_MS: u32 = 1_000_000_000;

/// How many queues a tree may have.
pub(crate) const MOST_QUEUES: usize = 256;

/// How many dots the name of a queue may have: its parts are one more.
pub(crate) const MOST_DOTS: usize = 7;

/// The global bound on attempts, where none is set.
pub const DEFAULT_ATTEMPTS: u32 = 2;

/// How many completed applications are remembered, where that isn't set.
pub const DEFAULT_COMPLETED: u32 = 1000;

/// How many applications may run, where that isn't set.
pub const DEFAULT_APPS: u32 = 10_000;

/// How long a recovered manager waits, in milliseconds, where that isn't set.
pub const DEFAULT_WAIT_MS: u32 = 10_000;

/// The memory of the greatest container, in MB, where it isn't set.
pub const DEFAULT_MEMORY_MB: u32 = 8192;

/// The cores of the greatest container, where they aren't set.
pub const DEFAULT_VCORES: u32 = 8;

//! The sizes of a soak. This project's own.

/// How many applications a soak has at most.
pub const MOST_SOAKED: u32 = 1000;

/// How many applications a life has; the last one may have fewer.
pub(crate) const MOST_IN_LIFE: u32 = 50;

/// The stamp with which each life starts; as the stamps in a store rise, it is that of the first life.
pub(crate) const FIRST_STAMP: u64 = 1_000_000;

/// How many completed applications are remembered in a soak.
pub(crate) const SOAK_COMPLETED: u32 = 40;

//! Tests of the store and of what stands under it: the disks of memory, in a file, under a fuse and
//! behind a window, the journal on a disk, two areas of one, and the tree and the folded list of what is kept. They look at what no clause
//! says: that calls succeed, what bytes stand for what, and what a crash or a fault leaves.
//!
//! It has no item for others, and promises nothing.
#![tactic(auto)]

#[cfg(test)]
mod areas_tests;
#[cfg(test)]
mod disk_tests;
#[cfg(test)]
mod file_tests;
#[cfg(test)]
mod helpers;
#[cfg(test)]
mod journal_tests;
#[cfg(test)]
mod recorded;
#[cfg(test)]
mod store_tests;
#[cfg(test)]
mod tree_tests;

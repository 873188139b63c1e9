//! Tests of the values that all parts speak of, of the texts of ids, of the frames of the store, and of
//! the pages. They hold what no clause says: that calls succeed, and that texts and bytes are those that
//! were worked out by hand. This crate offers nothing, and promises nothing.
#![tactic(auto)]

#[cfg(test)]
mod frame_tests;
#[cfg(test)]
mod helpers;
#[cfg(test)]
mod ids_tests;
#[cfg(test)]
mod page_tests;
#[cfg(test)]
mod types_tests;

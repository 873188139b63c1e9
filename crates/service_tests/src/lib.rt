//! Tests of what answers clients, masters, nodes and the clock, of what that requires, and of the feed of their messages. They
//! look at what no clause says: that each ask can be answered, by the words that the rules give.
//!
//! It has no item for others, and promises nothing.
#![tactic(auto)]

#[cfg(test)]
mod client_tests;
#[cfg(test)]
mod condition_tests;
#[cfg(test)]
mod desk_tests;
#[cfg(test)]
mod helpers;
#[cfg(test)]
mod master_tests;
#[cfg(test)]
mod tracker_tests;

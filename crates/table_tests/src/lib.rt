//! Tests of the tables and of what stands under them: the states of applications, attempts, nodes
//! and containers, the book of containers and what is asked for, one pass of first fit, and the
//! queues' rights. They look at what no clause says: that calls succeed, and small cases by hand.
//!
//! It has no item for others, and promises nothing.
#![tactic(auto)]

#[cfg(test)]
mod app_tests;
#[cfg(test)]
mod attempt_tests;
#[cfg(test)]
mod book_tests;
#[cfg(test)]
mod container_tests;
#[cfg(test)]
mod fit_tests;
#[cfg(test)]
mod helpers;
#[cfg(test)]
mod node_tests;
#[cfg(test)]
mod queues_tests;
#[cfg(test)]
mod tables_tests;

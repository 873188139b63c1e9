//! Tests of the programs' edges: the words, the cluster file, the scripts, the soaks, and the shelf and the sink; and of the tool's side:
//! the reader of pages, the reports and the picture, and the tool over whole, damaged, cut and foreign stores. They hold what no clause
//! says: that calls succeed, which pages are refused and where, and that files, lines, answers, reports and pictures are those that were
//! worked out by hand and the bytes that docs/FORMATS.md shows. This crate offers nothing, and promises nothing.
#![tactic(auto)]

#[cfg(test)]
mod chart_tests;
#[cfg(test)]
mod cluster_hint_tests;
#[cfg(test)]
mod cluster_tests;
#[cfg(test)]
mod helpers;
#[cfg(test)]
mod outside_tests;
#[cfg(test)]
mod pages;
#[cfg(test)]
mod reader_tests;
#[cfg(test)]
mod report_tests;
#[cfg(test)]
mod script_hint_tests;
#[cfg(test)]
mod script_tests;
#[cfg(test)]
mod soak_tests;
#[cfg(test)]
mod tool_tests;
#[cfg(test)]
mod words_tests;

//! Tests of the program as a whole: runs over files, an output and a device in memory, whose pages are compared with texts; runs by
//! workers in threads; calls over a store in a file; and the device that tells how far a run has come.
//!
//! They see public items of the crates below alone, and promise nothing.
#![tactic(auto)]

#[cfg(test)]
mod attempt_tests;
#[cfg(test)]
mod bound_tests;
#[cfg(test)]
mod cases;
#[cfg(test)]
mod crash_tests;
#[cfg(test)]
mod device_tests;
#[cfg(test)]
mod example_tests;
#[cfg(test)]
mod fault_tests;
#[cfg(test)]
mod feeding_tests;
#[cfg(test)]
mod file_tests;
#[cfg(test)]
mod hint_tests;
#[cfg(test)]
mod job_tests;
#[cfg(test)]
mod kill_tests;
#[cfg(test)]
mod liar_tests;
#[cfg(test)]
mod message_tests;
#[cfg(test)]
mod progress_tests;
#[cfg(test)]
mod refusal_tests;
#[cfg(test)]
mod restart_tests;
#[cfg(test)]
mod schedule_tests;
#[cfg(test)]
mod submission_tests;
#[cfg(test)]
mod thread_tests;
#[cfg(test)]
mod worked_tests;

//! The program: its words name a mode, a cluster file and a script of messages, and it writes the page of the run to standard
//! output. Its exit status is that of the run's outcome.
//!
//! All that it does is `rm_main`'s; what it promises is the contract of `run_program` there, since `main` can have none.
#![tactic(auto)]

use rm_main::run_program;
use std::process::ExitCode;

fn main(rt: HostRuntime) -> ExitCode {
    run_program(&rt, rt)
}

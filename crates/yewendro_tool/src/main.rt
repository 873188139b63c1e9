//! The tool beside the manager: its words name a mode and files, and it writes what it did, or what it found, to standard output. Its exit
//! status is that of what the call came to.
//!
//! All that it does is `rm_tool`'s; what it promises is the contract of `top` there.
#![tactic(auto)]

use rm_tool::run_tool;
use std::process::ExitCode;

fn main(rt: HostRuntime) -> ExitCode {
    run_tool(rt)
}

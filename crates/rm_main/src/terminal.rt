use std::io::IsTerminal;

/// Whether standard error is a terminal, as the system's `isatty` answers.
pub fn is_terminal(rt: &HostRuntime) -> bool {
    rt.stderr().is_terminal()
}

ghost use Rattle.std.specs.Prelude.{◌≡◌};
ghost use Rattle.rm_script.specs.Results.{at_line};

use rm_lines::LineError;
use thiserror::Error;

/// Why a script wasn't read.
#[derive(Clone, Copy, Debug, PartialEq, Eq, Error)]
pub enum ScriptError {
    /// The bytes are no script. The line is the first that is refused; lines are counted from 1, and the
    /// line after the last is at fault where the last segment isn't closed.
    #[error("the script is refused at line {line}")]
    Refused { line: u32 },
    /// No memory was found for the script.
    #[error("out of memory")]
    Memory,
}

impl ScriptError {
    /// The error of the script whose line was read with this one.
    pub(crate) fn at(error: LineError, line: u32) -> ScriptError
        ensures { result ≡ at_line error line }
    {
        match error {
            LineError::Refused(_) => ScriptError::Refused { line },
            LineError::Memory => ScriptError::Memory,
        }
    }
}

ghost use Rattle.std.specs.Prelude.{◌≡◌};
ghost use Rattle.rm_lines.specs.declared.errors.LineError.TheVariants.{Memory};

use crate::faults::LineFault;
use rm_types::NoMemory;
use std::alloc::{AllocError, AllocFailed};
use thiserror::Error;

/// Why a line wasn't read, or a part of one.
#[derive(Clone, Copy, Debug, Error)]
pub enum LineError {
    /// It is no such line, or may not stand there.
    #[error("the line is refused: {0}")]
    Refused(LineFault),
    /// No memory was found.
    #[error("out of memory")]
    Memory,
}

impl From<NoMemory> for LineError {
    ghost from_gives = { λ _ error. error ≡ Memory };

    fn from(_error: NoMemory) -> LineError {
        LineError::Memory
    }
}

impl From<AllocError> for LineError {
    ghost from_gives = { λ _ error. error ≡ Memory };

    fn from(_error: AllocError) -> LineError {
        LineError::Memory
    }
}

impl<T: Drop> From<AllocFailed<T>> for LineError {
    ghost from_gives = { λ _ error. error ≡ Memory };

    fn from(_failed: AllocFailed<T>) -> LineError {
        LineError::Memory
    }
}

ghost use Rattle.std.specs.Prelude.{◌≡◌};
ghost use Rattle.rm_page_reader.specs.declared.errors.PageError.TheVariants as pages;
ghost use Rattle.rm_page_reader.specs.Results.{at_page_line};

use rm_lines::LineError;
use rm_types::NoMemory;
use std::alloc::AllocError;
use thiserror::Error;

/// Why a page wasn't read.
#[derive(Clone, Copy, Debug, PartialEq, Eq, Error)]
pub enum PageError {
    /// The bytes are no page. The line is the first that is none of a page; lines are counted from 1.
    #[error("no page: line {line} is none of a page")]
    NotAPage { line: u32 },
    /// No memory was found for what the page tells.
    #[error("out of memory")]
    Memory,
}

impl From<NoMemory> for PageError {
    ghost from_gives = { λ _ error. error ≡ pages.Memory };

    fn from(_error: NoMemory) -> PageError {
        PageError::Memory
    }
}

impl From<AllocError> for PageError {
    ghost from_gives = { λ _ error. error ≡ pages.Memory };

    fn from(_error: AllocError) -> PageError {
        PageError::Memory
    }
}

impl PageError {
    /// The error of the page whose line was read with this one.
    pub(crate) fn at(error: LineError, line: u32) -> PageError
        ensures { result ≡ at_page_line error line }
    {
        match error {
            LineError::Refused(_) => PageError::NotAPage { line },
            LineError::Memory => PageError::Memory,
        }
    }
}

ghost use Rattle.std.specs.Prelude.{◌≡◌};
ghost use Rattle.rm_report.specs.declared.errors.ReportError.TheVariants.{Memory as OutOfMemory};
ghost use Rattle.rm_report.specs.Errors.{of_page};

use rm_page_reader::PageError;
use rm_types::NoMemory;
use thiserror::Error;

/// Why a page wasn't told.
#[derive(Clone, Copy, Debug, PartialEq, Eq, Error)]
pub enum ReportError {
    /// The bytes are no page. The line is the first that is none of a page; lines are counted from 1.
    #[error("no page: line {line} is none of a page")]
    NotAPage { line: u32 },
    /// The text is no id of an application, an attempt or a container, and no node.
    #[error("no id of an application, an attempt, a container or a node")]
    NotAnId,
    /// No memory was found for the report.
    #[error("out of memory")]
    Memory,
}

impl From<NoMemory> for ReportError {
    ghost from_gives = { λ _ error. error ≡ OutOfMemory };

    fn from(_error: NoMemory) -> ReportError {
        ReportError::Memory
    }
}

impl From<PageError> for ReportError {
    ghost from_gives = { λ refused error. error ≡ of_page refused };

    fn from(error: PageError) -> ReportError {
        match error {
            PageError::NotAPage { line } => ReportError::NotAPage { line },
            PageError::Memory => ReportError::Memory,
        }
    }
}

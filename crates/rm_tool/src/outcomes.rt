ghost use Rattle.std.specs.Prelude.{◌≡◌};
ghost use Rattle.rm_tool.specs.Outcomes.{after_page, of_fault, outcome_of_page, of_report, of_write, tool_status};

use crate::salvage::{Fault, WriteError};
use rm_formats::{MOST_FILE_BYTES, STORE_SIZE};
use rm_outside::Written;
use rm_page_reader::PageError;
use rm_report::ReportError;
use thiserror::Error;

/// What a call of the tool came to.
#[derive(Clone, Copy, Debug, Error)]
pub enum ToolOutcome {
    /// It did what it was asked for, and its page was written.
    #[error("done")]
    Done,
    /// The words are of another form.
    #[error("the words ask for nothing")]
    Usage,
    /// A file could not be read.
    #[error("the file could not be read")]
    ReadFault,
    /// The page could not be written, or the output takes nothing of it.
    #[error("the page could not be written")]
    WriteFault { took_nothing: bool },
    /// The file has so many bytes, and not those of a store.
    #[error("the file has {length} bytes, and a store has {}", STORE_SIZE)]
    OtherLength { length: u64 },
    /// The page's file has more than [MOST_FILE_BYTES] bytes, and isn't read whole.
    #[error("the file has more than {} bytes", MOST_FILE_BYTES)]
    TooLong,
    /// The file holds no store of the old form, or an empty one.
    #[error("the file is no store of the old form, or an empty one")]
    OtherForm,
    /// This is at fault in the store.
    #[error("the store is at fault: {fault}")]
    Faulty { fault: Fault },
    /// The device of the new store failed.
    #[error("the new file failed")]
    DiskFault,
    /// The device of the new store holds something already.
    #[error("the new file holds something already")]
    NotNew,
    /// The operations don't fit an area of a store, which has so many bytes.
    #[error("the operations don't fit an area of {size} bytes")]
    Full { size: u64 },
    /// The file is no page: this is its first line that is none of a page.
    #[error("the file is no page: line {line} is none of a page")]
    NotAPage { line: u32 },
    /// The word is no id, and can't be a node's name.
    #[error("no id of an application, an attempt, a container or a node")]
    NotAnId,
    /// Out of memory.
    #[error("out of memory")]
    Memory,
}

/// The exit status of an outcome.
pub fn status_of(outcome: ToolOutcome) -> u8
    ensures { result ≡ tool_status outcome }
{
    match outcome {
        ToolOutcome::Done => 0,
        ToolOutcome::Usage => 1,
        ToolOutcome::NotAnId => 1,
        ToolOutcome::ReadFault => 2,
        ToolOutcome::WriteFault { .. } => 3,
        ToolOutcome::NotAPage { .. } => 5,
        ToolOutcome::TooLong => 5,
        ToolOutcome::DiskFault => 7,
        ToolOutcome::NotNew => 7,
        ToolOutcome::OtherLength { .. } => 8,
        ToolOutcome::OtherForm => 8,
        ToolOutcome::Faulty { .. } => 8,
        ToolOutcome::Full { .. } => 9,
        ToolOutcome::Memory => 11,
    }
}

/// What a call came to whose store was not written.
pub(crate) fn of_write(error: WriteError) -> ToolOutcome
    ensures { result ≡ of_write error }
{
    match error {
        WriteError::DiskFault => ToolOutcome::DiskFault,
        WriteError::Damaged { .. } => ToolOutcome::NotNew,
        WriteError::Used => ToolOutcome::NotNew,
        WriteError::Full { size } => ToolOutcome::Full { size },
        WriteError::Memory => ToolOutcome::Memory,
    }
}

/// What a call comes to whose page was not read.
pub(crate) fn of_page(error: PageError) -> ToolOutcome
    ensures { result ≡ outcome_of_page error }
{
    match error {
        PageError::NotAPage { line } => ToolOutcome::NotAPage { line },
        PageError::Memory => ToolOutcome::Memory,
    }
}

/// What a call comes to whose report was not made.
pub(crate) fn of_report(error: ReportError) -> ToolOutcome
    ensures { result ≡ of_report error }
{
    match error {
        ReportError::NotAPage { line } => ToolOutcome::NotAPage { line },
        ReportError::NotAnId => ToolOutcome::NotAnId,
        ReportError::Memory => ToolOutcome::Memory,
    }
}

/// What a call comes to behind its page, which was written so.
pub(crate) fn after_page(outcome: ToolOutcome, written: Written) -> ToolOutcome
    ensures { result ≡ after_page outcome written }
{
    match written {
        Written::All => outcome,
        Written::Fault => ToolOutcome::WriteFault {
            took_nothing: false,
        },
        Written::Nothing => ToolOutcome::WriteFault { took_nothing: true },
        Written::Memory => ToolOutcome::Memory,
    }
}

/// What a check comes to that found this fault, or none.
pub(crate) fn of_fault(fault: Option<Fault>) -> ToolOutcome
    ensures { result ≡ of_fault fault }
{
    match fault {
        None => ToolOutcome::Done,
        Some(fault) => ToolOutcome::Faulty { fault },
    }
}

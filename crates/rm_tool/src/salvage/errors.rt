ghost use Rattle.std.specs.Prelude.{◌≡◌};

use rm_journal::JournalError;
use rm_types::NoMemory;
use thiserror::Error;

/// Why a store was not written anew.
#[derive(Clone, Copy, Debug, Error)]
pub enum WriteError {
    /// The disk failed, and counted the fault.
    #[error("the disk failed")]
    DiskFault,
    /// The disk's areas are damaged at this offset, so that it isn't new.
    #[error("the disk isn't new: it is damaged at byte {offset}")]
    Damaged { offset: u64 },
    /// An area of the disk is live, so that it isn't new.
    #[error("the disk isn't new: it holds a store")]
    Used,
    /// The operations don't fit an area, which has so many bytes.
    #[error("the operations don't fit an area of {size} bytes")]
    Full { size: u64 },
    /// No memory was found.
    #[error("out of memory")]
    Memory,
}

impl From<JournalError> for WriteError {
    ghost use Rattle.rm_tool.specs.salvage.Errors.{write_error};

    ghost from_gives = { λ error told. told ≡ write_error error };

    fn from(error: JournalError) -> Self {
        match error {
            JournalError::DiskFault => WriteError::DiskFault,
            JournalError::Damaged { offset } => WriteError::Damaged { offset },
            JournalError::Full { room, .. } => WriteError::Full { size: room },
            JournalError::NeedsReopen => WriteError::DiskFault,
            JournalError::Memory => WriteError::Memory,
        }
    }
}

impl From<NoMemory> for WriteError {
    ghost use Rattle.rm_tool.specs.declared.salvage.errors.WriteError.TheVariants.{Memory};

    ghost from_gives = { λ _ told. told ≡ Memory };

    fn from(_refused: NoMemory) -> Self {
        WriteError::Memory
    }
}

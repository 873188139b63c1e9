ghost use Rattle.std.specs.Prelude.{◌≡◌};

use rm_journal::JournalError;
use rm_types::NoMemory;
use thiserror::Error;

/// Why a call of a store did not succeed.
#[derive(Clone, Copy, Debug, PartialEq, Eq, Error)]
pub enum StoreError {
    /// The disk failed, and counted the fault.
    #[error("the disk failed")]
    DiskFault,
    /// The disk's areas are damaged at this offset: an area is live there without a generation, or with that of
    /// the other one, or an open gate stands before no record; or a payload, whose gate stands there, reads
    /// as no operation.
    #[error("the store is damaged at byte {offset}")]
    Damaged { offset: u64 },
    /// The operation of this number, counted from 0, doesn't fit those before it; its gate stands at this
    /// offset of the disk.
    #[error("the store's operation {number} doesn't fit those before it, at byte {offset}")]
    Stray { number: u64, offset: u64 },
    /// The operation needs so many bytes, and only this room is left for it, also where an area is written anew
    /// with what is left of those that are stored.
    #[error("the store is full: {needed} bytes are needed, {room} are left")]
    Full { needed: u64, room: u64 },
    /// An earlier append failed, so that what the disk holds is known again only once the store is opened
    /// anew.
    #[error("an earlier append failed, so that the store must be opened anew")]
    NeedsReopen,
    /// No memory was found.
    #[error("out of memory")]
    Memory,
}

impl From<JournalError> for StoreError {
    ghost use Rattle.rm_store.specs.Errors.{of_journal};

    ghost from_gives = { λ error told. told ≡ of_journal error };

    fn from(error: JournalError) -> Self {
        match error {
            JournalError::DiskFault => StoreError::DiskFault,
            JournalError::Damaged { offset } => StoreError::Damaged { offset },
            JournalError::Full { needed, room } => StoreError::Full { needed, room },
            JournalError::NeedsReopen => StoreError::NeedsReopen,
            JournalError::Memory => StoreError::Memory,
        }
    }
}

impl From<NoMemory> for StoreError {
    ghost use Rattle.rm_store.specs.declared.fault.StoreError.TheVariants.{Memory};

    ghost from_gives = { λ _ told. told ≡ Memory };

    fn from(_refused: NoMemory) -> Self {
        StoreError::Memory
    }
}

ghost use Rattle.std.specs.Prelude.{◌≡◌};

use rm_journal::JournalError;
use rm_types::NoMemory;
use thiserror::Error;

/// Why a call of tokens did not succeed.
#[derive(Clone, Copy, Debug, PartialEq, Eq, Error)]
pub enum TokenError {
    /// The token wasn't issued, or it is cancelled.
    #[error("no such token")]
    Unknown,
    /// Who asks to renew the token isn't its renewer.
    #[error("only the renewer may renew")]
    NotRenewer,
    /// Who asks to cancel the token is neither its owner nor its renewer.
    #[error("only the owner or the renewer may cancel")]
    NotHolder,
    /// The token's date is over.
    #[error("the token ended at {until}")]
    Ended { until: u64 },
    /// The disk failed, and counted the fault.
    #[error("the disk failed")]
    DiskFault,
    /// The disk is damaged at this offset: an open gate stands there before no record, or before one that is no token record or that doesn't
    /// fit those before it.
    #[error("the tokens are damaged at byte {offset}")]
    Damaged { offset: u64 },
    /// The record needs so many bytes, and only this room is left for it.
    #[error("the disk is full: {needed} bytes are needed, {room} are left")]
    Full { needed: u64, room: u64 },
    /// An earlier call answered `DiskFault` or `Memory`, so that what the disk holds is known again only once the tokens are opened anew.
    #[error("an earlier call failed, so that the tokens must be opened anew")]
    NeedsReopen,
    /// No memory was found.
    #[error("out of memory")]
    Memory,
}

impl From<JournalError> for TokenError {
    ghost use Rattle.rm_tokens.specs.Errors.{as_token_error};

    ghost from_gives = { λ error told. told ≡ as_token_error error };

    fn from(error: JournalError) -> Self {
        match error {
            JournalError::DiskFault => TokenError::DiskFault,
            JournalError::Damaged { offset } => TokenError::Damaged { offset },
            JournalError::Full { needed, room } => TokenError::Full { needed, room },
            JournalError::NeedsReopen => TokenError::NeedsReopen,
            JournalError::Memory => TokenError::Memory,
        }
    }
}

impl From<NoMemory> for TokenError {
    ghost use Rattle.rm_tokens.specs.declared.fault.TokenError.TheVariants.{Memory};

    ghost from_gives = { λ _ told. told ≡ Memory };

    fn from(_refused: NoMemory) -> Self {
        TokenError::Memory
    }
}

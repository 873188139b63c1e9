ghost use Rattle.std.specs.Prelude.{◌≡◌};

use rm_types::NoMemory;
use thiserror::Error;

/// Why a life stopped before its end.
#[derive(Clone, Copy, Debug, PartialEq, Eq, Error)]
pub enum Halt {
    /// The disk failed, and counted the fault.
    #[error("the store's device failed")]
    DiskFault,
    /// The next operation needs so many bytes, and the disk has only this room for it, also where an area is written anew with what is left
    /// of those that are stored.
    #[error("the store is full: {needed} bytes are needed, {room} are left")]
    Full { needed: u64, room: u64 },
    /// The schedule has a letter at this byte that is unknown, or whose lane isn't ready.
    #[error("the schedule can't be followed at byte {place}")]
    Schedule { place: u64 },
    /// No memory was found.
    #[error("out of memory")]
    Memory,
}

impl From<NoMemory> for Halt {
    ghost use Rattle.rm_lives.specs.declared.halts.Halt.TheVariants.{Memory};

    ghost from_gives = { λ _ halt. halt ≡ Memory };

    fn from(_refused: NoMemory) -> Halt {
        Halt::Memory
    }
}

/// Why a run stopped before its script's end.
#[derive(Clone, Copy, Debug, PartialEq, Eq, Error)]
pub enum Stop {
    /// The disk failed, and counted the fault.
    #[error("the store's device failed")]
    DiskFault,
    /// The disk holds no store: its fault is at this offset; 0 where it holds another store than was kept on
    /// it.
    #[error("the store is damaged at offset {offset}")]
    Damaged { offset: u64 },
    /// The next operation needs so many bytes, and the disk has only this room for it, also where an area is written anew with what is left
    /// of those that are stored.
    #[error("the store is full: {needed} bytes are needed, {room} are left")]
    Full { needed: u64, room: u64 },
    /// The schedule has a letter at this byte that is unknown, or whose lane isn't ready.
    #[error("the schedule can't be followed at byte {place}")]
    Schedule { place: u64 },
    /// No epoch or no stamp is left for one more life.
    #[error("no epoch, or no stamp, is left for one more life")]
    EpochsSpent,
    /// No memory was found.
    #[error("out of memory")]
    Memory,
}

impl From<Halt> for Stop {
    ghost use Rattle.rm_lives.specs.Halted.{stop_of};

    ghost from_gives = { λ halt stop. stop ≡ stop_of halt };

    fn from(halt: Halt) -> Stop {
        match halt {
            Halt::DiskFault => Stop::DiskFault,
            Halt::Full { needed, room } => Stop::Full { needed, room },
            Halt::Schedule { place } => Stop::Schedule { place },
            Halt::Memory => Stop::Memory,
        }
    }
}

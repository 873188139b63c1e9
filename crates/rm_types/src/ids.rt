ghost use Rattle.std.specs.Prelude.{◌≡◌, ◌+◌, ◌*◌, ◌<◌, ◌^◌};
ghost use Rattle.std.proofs.Common.{rules};

use crate::duplicate::Duplicate;
use crate::limits::{EPOCHS, SEQUENCES};

/// An application: the stamp of the life that gave the id (1 to `STAMPS` - 1), and its number there
/// (1 to `NUMBERS` - 1). Ids compare by their fields in the order written.
#[derive(Clone, Copy, Debug, PartialEq, Eq, PartialOrd, Ord, Hash)]
pub struct AppId {
    pub stamp: u64,
    pub number: u32,
}

/// An attempt to run an application's master: attempt 1 is the first (1 to `NUMBERS` - 1).
#[derive(Clone, Copy, Debug, PartialEq, Eq, PartialOrd, Ord, Hash)]
pub struct AttemptId {
    pub app: AppId,
    pub number: u32,
}

/// A container: the attempt that it was granted to, the epoch of the life that granted it
/// (0 to `EPOCHS` - 1), and which of the attempt's grants in that life it was (1 to `SEQUENCES` - 1).
#[derive(Clone, Copy, Debug, PartialEq, Eq, PartialOrd, Ord, Hash)]
pub struct ContainerId {
    pub attempt: AttemptId,
    pub epoch: u32,
    pub seq: u64,
}

impl ContainerId {
    /// The container's number: the sequence in the low 40 bits, and the epoch above them, as YARN's
    /// `ContainerId.getContainerId` has it. Epoch and sequence must be in their ranges.
    pub fn number(self) -> u64
        requires epoch { self.epoch < EPOCHS }
        requires seq { self.seq < SEQUENCES }
        ensures { result ≡ self.epoch * SEQUENCES + self.seq }
    {
        u64::from(self.epoch) * SEQUENCES + self.seq
    }
}

impl Duplicate for AppId {
    ghost same = { Prim.search (rules) };
}

impl Duplicate for AttemptId {
    ghost same = { Prim.search (rules) };
}

impl Duplicate for ContainerId {
    ghost same = { Prim.search (rules) };
}

ghost use Rattle.std.specs.Prelude.{◌≡◌};
ghost use Rattle.rm_main.specs.Statuses.{status_of};

use rm_types::Outcome;

/// The exit status of an outcome.
pub fn status_of(outcome: Outcome) -> u8
    ensures { result ≡ status_of outcome }
{
    match outcome {
        Outcome::Done => 0,
        Outcome::Usage => 1,
        Outcome::ReadFault => 2,
        Outcome::WriteFault { .. } => 3,
        Outcome::ClusterRefused { .. } => 4,
        Outcome::ScriptRefused { .. } => 5,
        Outcome::ScheduleRefused { .. } => 6,
        Outcome::DiskFault => 7,
        Outcome::StoreDamaged { .. } => 8,
        Outcome::StoreFull { .. } => 9,
        Outcome::EpochsSpent => 10,
        Outcome::Memory => 11,
        Outcome::DeviceSmall { .. } => 12,
    }
}

/// What each status says, from 0 on, of those that a mode comes to.
pub(crate) const STATUS_MEANINGS: [&str; 12] = [
    "done",
    "words",
    "a file not read",
    "the page not written",
    "cluster file refused",
    "script refused",
    "schedule refused",
    "the store's device failed",
    "store damaged",
    "store full",
    "epochs or stamps spent",
    "out of memory",
];

/// How a call of the program ended.
#[derive(Clone, Copy, Debug, PartialEq, Eq)]
pub enum Outcome {
    /// The script was run to its end and the page written.
    Done,
    /// The words aren't of the program's form.
    Usage,
    /// A file couldn't be read.
    ReadFault,
    /// The page couldn't be written; `took_nothing` where the sink took nothing of a piece.
    WriteFault { took_nothing: bool },
    /// The cluster file breaks a rule: the first one's number.
    ClusterRefused { place: u32 },
    /// The script breaks its grammar: the first such line.
    ScriptRefused { line: u32 },
    /// A letter of the schedule is unknown or its lane isn't ready: its byte.
    ScheduleRefused { place: u64 },
    /// The device failed.
    DiskFault,
    /// The store isn't one: the offset of the gate at fault.
    StoreDamaged { offset: u64 },
    /// The store has no room for the next operation.
    StoreFull { needed: u64, room: u64 },
    /// The device is too small for what the mode keeps on it: how many bytes it has.
    DeviceSmall { size: u64 },
    /// The store's epochs or stamps are used up.
    EpochsSpent,
    /// No memory was found.
    Memory,
}

use rm_cluster::ClusterFault;
use rm_plain::{Letter, MOST_SCHEDULED, letter_of};
use rm_script::ScriptFault;
use rm_types::Lane;
use std::alloc::Global;
use thiserror::Error;

/// Why the bytes of a cluster file are refused at a place, as what should stand there. Of no bytes it is the place's rule.
pub fn cluster_hint(alloc: Global, bytes: &[u8], place: u32) -> ClusterFault {
    if bytes.is_empty() {
        ClusterFault::Untold { place }
    } else {
        rm_cluster::why(alloc, bytes, place)
    }
}

/// Why the bytes of a script are refused at a line. Of no bytes it is how lines begin.
pub fn script_hint(alloc: Global, bytes: &[u8], line: u32) -> ScriptFault {
    rm_script::why(alloc, bytes, line)
}

/// Why a run can't follow a schedule at a letter.
#[derive(Clone, Copy, Debug, PartialEq, Eq, Error)]
pub enum ScheduleFault {
    /// The byte is no letter.
    #[error("expected one of the letters c m n k d s h w e o p, found `{}`", .byte.escape_ascii())]
    Unknown { byte: u8 },
    /// It stands past the bytes that may have letters.
    #[error("expected at most {MOST_SCHEDULED} bytes, and the run is not at its end behind them")]
    TooLong,
    /// The letter's lane isn't ready.
    #[error("the lane isn't ready: it is {}", lane_text(*.lane))]
    NotReady { lane: Lane },
    /// No life stands that has a segment left, for the plain policy to move it.
    #[error("the plain policy isn't ready: it is `p`, where a life stands and has a segment left")]
    NoSegment,
    /// The bytes don't tell it.
    #[error("expected the letter of a lane that is ready")]
    Untold,
}

/// What a lane is, by its letter, and when it is ready.
fn lane_text(lane: Lane) -> &'static str {
    match lane {
        Lane::Client =>
            "`c`, where a message of a client is left in the segment, once the life's epoch is kept",
        Lane::Master =>
            "`m`, where a message of a master is left in the segment, once the life's epoch is kept",
        Lane::Node =>
            "`n`, where a message of a node is left in the segment, once the life's epoch is kept",
        Lane::Clock =>
            "`k`, where a message of the clock is left in the segment, once the life's epoch is kept",
        Lane::Main => "`d`, where the main queue isn't empty",
        Lane::Sched => "`s`, where the scheduler's queue isn't empty",
        Lane::Hand => "`h`, where an operation awaits and none is with the store",
        Lane::Write => "`w`, where an operation is with the store",
        Lane::End => "`e`, where the segment can close",
        Lane::Begin => "`o`, where no life stands and the script has one left",
    }
}

/// Why a run was stopped at this byte of a schedule, counted from 0.
pub fn schedule_hint(bytes: &[u8], place: u64) -> ScheduleFault {
    let letter = match usize::try_from(place) {
        Ok(place) => bytes.get(place),
        Err(_) => None,
    };
    match letter {
        None => ScheduleFault::Untold,
        Some(_) if place >= MOST_SCHEDULED => ScheduleFault::TooLong,
        Some(byte) => match letter_of(*byte) {
            Letter::Plain => ScheduleFault::NoSegment,
            Letter::Moves(lane) => ScheduleFault::NotReady { lane },
            Letter::Unknown => ScheduleFault::Unknown { byte: *byte },
        },
    }
}

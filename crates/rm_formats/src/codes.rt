//! The bytes that stand for kinds of frames, and for how something ended. This project's own.

/// What kind of operation a frame is of.
#[derive(Clone, Copy, PartialEq, Eq)]
pub enum FrameKind {
    Epoch,
    /// An application, as it was kept before there was a choice to keep containers.
    OlderApp,
    App,
    Attempt,
    AttemptEnd,
    AppEnd,
    Remove,
}

/// The byte for an epoch's frame: the least for a kind.
pub const EPOCH_CODE: u8 = 1;

/// The byte for an application's frame, as it was before there was a choice to keep containers.
pub const OLDER_APP_CODE: u8 = 2;

/// The byte for an attempt's frame.
pub const ATTEMPT_CODE: u8 = 3;

/// The byte for the frame of an attempt's end.
pub const ATTEMPT_END_CODE: u8 = 4;

/// The byte for the frame of an application's end.
pub const APP_END_CODE: u8 = 5;

/// The byte for the frame of a removal.
pub const REMOVE_CODE: u8 = 6;

/// The byte for an application's frame: the greatest for a kind.
pub const APP_CODE: u8 = 7;

/// The byte for what ended as finished: the least for how something ended.
pub const FINISHED_CODE: u8 = 1;

/// The byte for what ended as failed.
pub const FAILED_CODE: u8 = 2;

/// The byte for what ended as killed: the greatest for how something ended.
pub const KILLED_CODE: u8 = 3;

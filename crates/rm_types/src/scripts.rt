use crate::items::Items;
use crate::messages::Message;

/// How a segment closes: all is worked off, or the life crashes after so many device calls and leaves
/// the device as one of its images.
#[derive(Clone, Copy, PartialEq, Eq)]
pub enum Close {
    Settle,
    Crash { calls: u32, image: u32 },
}

/// The messages that are delivered in a segment, in the script's order, and how it closes. Lost messages
/// are not among them.
#[derive(Drop)]
pub struct Segment {
    pub messages: Items<Message>,
    pub close: Close,
}

/// A life of the manager: the stamp on its `start` line, and its segments.
#[derive(Drop)]
pub struct Life {
    pub stamp: u64,
    pub segments: Items<Segment>,
}

/// A script: its lives in order.
#[derive(Drop)]
pub struct Script {
    pub lives: Items<Life>,
}

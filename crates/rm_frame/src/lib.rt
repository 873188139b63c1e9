//! Store operations as frames: the bytes that a store keeps of each operation.
//!
//! It promises that an `Encoder` makes the frame of an operation, that `decode` gives an operation back
//! exactly where the bytes begin with its frame, and that it otherwise says where the first field
//! begins that is short or out of range. No frame is a proper prefix of another.
//!
//! It stands on `rm_types`, and on `specs/Frames.antt` of `rm_formats`, which defines the frame of an operation.
//! `Fields` defines a frame's layout, and so the place of a fault.
#![tactic(auto)]

mod decoding;
mod encoding;
mod fields;
mod laws;

pub use decoding::{FrameError, decode};
pub use encoding::Encoder;
pub use laws::frames_are_apart;

//! The desk of a run: the manager's core together with what is left of the script, the lives that have not
//! begun and the feeds of the current segment.
//!
//! A lane of it is ready exactly where the manager has something to do there and the script is at it. Each
//! call that moves adds one entry, of its lane and the script's next thing, or is refused and changes
//! nothing. So the log goes along the script, and where no lane is ready the script is at its end.
//!
//! It stands on `rm_core` and on the definitions of `rm_model`. Which lane moves next, and what the store
//! does, is for the layer above to say.
#![tactic(auto)]

mod cursors;
mod desk;
mod feed;
mod feeds;
mod moves;

pub use desk::Desk;
pub use feed::Feed;

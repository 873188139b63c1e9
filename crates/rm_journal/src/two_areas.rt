//! Two areas of a disk, each with a journal, so that what one holds can be written anew into the other and takes its place at once.
//!
//! Of the areas that are live, the one of the greater generation is the current one. `append` adds a payload to it. `begin`, `add` and
//! `finish` build the next generation in the other area, which takes over with one write of its first gate: a crash at any moment leaves
//! the payloads from before, or the added ones. `Reading` walks once over what a disk holds, and `Areas::open` and `next` read it
//! payload by payload. What bytes two areas are, and where they are damaged, is defined in `specs/Areas.antt`.
//!
//! It stands on the journal of one region, which it uses as it is for the current area, and on `rm_disk`.

mod areas;
mod laws;

pub use areas::{Areas, Reading};
pub use laws::{law_one_layout, law_undamaged};

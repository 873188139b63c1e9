ghost use Rattle.std.proofs.Common.{rules};

use rm_types::{Duplicate, Items};

/// A fall of an armed fuse.
#[derive(Clone, Copy, PartialEq, Eq)]
pub struct Fallen {
    /// The number of calls that the fuse was armed with.
    pub calls: u32,
    /// The image that the disk fell to.
    pub image: u32,
    /// Whether the fuse had refused a call since it was armed.
    pub blown: bool,
}

impl Duplicate for Fallen {
    ghost same = { Prim.search (rules) };
}

/// What an armed fuse holds: how many calls may pass, and the list that its fall will show, whose last place
/// is filled in then, so that the fall takes no memory.
#[derive(Drop)]
pub struct Armed {
    pub passes: u32,
    pub falls: Items<Fallen>,
}

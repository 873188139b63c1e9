ghost use Rattle.std.specs.Prelude.{◌≡◌, [], None};
ghost use Rattle.rm_main.specs.Made.{LeavesDevice, made_by};

use rm_disk::{Disk, Fuse};
use rm_types::{Entry, Items, Op, Outcome};
use std::alloc::Global;

/// How a call of the program ended, and what it left.
#[derive(Drop)]
pub struct Ended<D: Disk> {
    pub outcome: Outcome,
    /// What the disk held when it was first opened; empty where it wasn't.
    pub opening: Items<Op>,
    /// The log of the run; empty where nothing was run.
    pub log: Items<Entry>,
    /// The disk, as the call left it.
    pub disk: Fuse<D>,
}

/// Nothing was done.
pub(crate) fn nothing<D: Disk>(alloc: Global, outcome: Outcome, disk: Fuse<D>) -> Ended<D>
    requires { disk.armed ≡ None }
    ensures outcome { result.outcome ≡ outcome }
    ensures opening { result.opening ≡ [] }
    ensures log { result.log ≡ [] }
    ensures disk { result.disk ≡ disk }
    ensures device { LeavesDevice D.view (made_by disk result) }
{
    Ended {
        outcome,
        opening: Items::new(alloc),
        log: Items::new(alloc),
        disk,
    }
}

use crate::halts::Stop;
use rm_disk::{Disk, Fuse};
use rm_types::{Entry, Items, Op};

/// A run of a script: what the disk held when it was first opened, the log, the disk as it was left, and
/// whether the run came to its end.
#[derive(Drop)]
pub struct Run<D: Disk> {
    pub opening: Items<Op>,
    pub log: Items<Entry>,
    pub disk: Fuse<D>,
    pub ended: Result<(), Stop>,
}

//! Disks that may fail at any call and fall at any moment.
//!
//! The trait `Disk` says what a read gives, what a crash now may leave, and what a crash at some moment since
//! a time may have left: between two syncs anything where bytes were written, after a sync what a read gives.
//! Five disks are proved to keep it: `MemDisk`, whose calls fail by number and whose images are picked by
//! number; `Fuse`, which cuts off the disk under it after so many writes and syncs; `Torn`, which writes half of one write;
//! `Window`, which reads ahead of the disk under it; and `FileDisk`, which tells no bytes, since no proof says what a file holds.
//!
//! It stands on `rm_types`, on the sizes of `rm_formats`, and `FileDisk` on the system's files.
#![tactic(auto)]

mod calls;
mod causes;
mod device;
mod draft;
mod fallen;
mod file;
mod fuse;
mod held;
mod memory;
mod scan;
mod torn;
mod window;

pub use calls::Call;
pub use causes::{FileCause, FileFault, Subject};
pub use device::{Disk, DiskError};
pub use fallen::Fallen;
pub use file::FileDisk;
pub use fuse::Fuse;
pub use held::HeldFile;
pub use memory::MemDisk;
pub use torn::Torn;
pub use window::Window;

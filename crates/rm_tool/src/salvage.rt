//! What can be read of a store that may be damaged, and a way out of it.
//!
//! `salvage` reads the bytes of a store of either form: two areas, or the one journal that this program wrote before. It gives the
//! longest front of operations that are whole and not stray, and says where and why it ends. `check` says whether the manager opens such
//! bytes, and else the fault for which it doesn't. `old_operations` gives what is left of a whole store of the old form. `write_anew` writes
//! operations as the store of a new disk: at every moment a crash leaves a store without operations or one with them all.
//!
//! It stands on `rm_journal` and `rm_store`, by whose definitions it says what stands in bytes and where they are damaged and what is left of
//! an old store, on `rm_frame` and on `rm_tree`.

mod checks;
mod errors;
mod fixed;
mod forms;
mod fronts;
mod lists;
mod looks;
mod rooms;
mod writes;

pub use checks::{Checked, Fault, check};
pub use errors::WriteError;
pub use fixed::FixedDisk;
pub use forms::Form;
pub use fronts::{Salvaged, Stop, salvage};
pub use lists::{ConvertError, kept_operations, old_operations};
pub use writes::write_anew;

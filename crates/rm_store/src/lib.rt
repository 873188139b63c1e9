//! The store: the manager's operations, kept on a disk that may fail and fall at any moment.
//!
//! `Store::open` gives the operations that a disk holds and what they amount to, or says which one is at
//! fault; `append` adds one, so that a crash at any moment leaves the operations from before, or these and
//! the new one. Where the current area is full, what is left of the operations is written anew into the other
//! one: so a store is full only where what is left of them has no room. Its contracts speak of operations
//! alone: what bytes they are on a disk is `DeviceHolds`, in `specs/Content.antt`.
//!
//! What is left of the operations is found in `compaction`. It stands on `rm_journal`, `rm_frame` and `rm_tree`, and on the definitions of
//! `rm_formats`.
#![tactic(auto)]

mod appending;
mod changing;
pub mod compaction;
mod fault;
mod laws;
mod reading;
mod store;
mod writing;

pub use appending::room_of;
pub use changing::change_area;
pub use fault::StoreError;
pub use laws::{
    law_content_of_an_append, law_fresh_may_be_store, law_held_is_faultless, law_holds_alike,
    law_one_list, law_one_record_each, law_stays_own,
};
pub use reading::operation_of;
pub use store::{OpenFail, Store};

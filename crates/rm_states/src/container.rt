//! The state machine of a container: what follows when something happens to it.
//!
//! It promises that `step` answers exactly as the table of transitions says: where the table has a row, that
//! row's next state and action, and nothing elsewhere. Above the table it promises that a container only
//! goes forward, so that one that has ended never runs again.
//!
//! It stands on `rm_types` for a container's states. The table stands in `Table`, and what is promised of it
//! in `Laws`.

mod laws;
mod states;
mod transitions;

pub use laws::{
    a_container_only_goes_forward, a_container_runs_and_ends_once, one_row_answers_each_pair,
};
pub use states::{ContainerAction, ContainerEvent};
pub use transitions::{is_final, step};

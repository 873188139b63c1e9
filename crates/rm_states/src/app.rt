//! The state machine of an application: what follows when something happens to it, and what is then to be
//! done.
//!
//! It promises that `step` answers exactly as the table of transitions says: where the table has a row, that
//! row's next state and action, and nothing elsewhere. Above the table it promises that an end is final,
//! that it is told only once it is kept, and by which ways an application comes to be accepted and to run.
//!
//! It stands on `rm_types` for how an application may end. The table stands in `Table`, and what is promised
//! of it in `Laws`.

mod laws;
mod states;
mod transitions;

pub use laws::{
    acceptance_follows_the_save, an_end_is_kept_before_it_is_told, one_row_answers_each_pair,
    only_an_accepted_application_runs, only_an_end_follows_a_kill, the_store_is_told_twice,
};
pub use states::{AppAction, AppEvent, AppState};
pub use transitions::{is_final, step};

//! The state machine of an attempt to run an application's master: what follows when something happens to
//! it, and what is then to be done.
//!
//! It promises that `step` answers exactly as the table of transitions says: where the table has a row, that
//! row's next state and action, and nothing elsewhere. Above the table it promises that an attempt that has
//! ended or was dropped stays so, that it is live only once it is kept, that its master registers only then,
//! and that its end is told only once it is kept.
//!
//! It stands on the standard library alone. The table stands in `Table`, and what is promised of it in
//! `Laws`.

mod laws;
mod states;
mod transitions;

pub use laws::{
    an_attempt_is_kept_before_it_is_live, an_end_is_kept_before_it_is_told,
    one_row_answers_each_pair, only_a_live_attempt_is_registered,
    only_an_unsaved_attempt_is_dropped,
};
pub use states::{AttemptAction, AttemptEvent, AttemptState};
pub use transitions::{is_final, step};

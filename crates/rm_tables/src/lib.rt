//! The tables of the manager: what it holds between its moves.
//!
//! `Tables` owns the settings, the tree of what is recorded (moved in when a life begins, and applied to at each kept
//! operation: nothing of it is copied), one row for each known application, found by its id without a walk, the two queues of
//! events, and the operations that await. A removed application leaves an empty slot, which tells that its id is retired.
//!
//! Its `specs/` hold the manager's own way, as plain functions: how a row changes (`Changes`), what each event of the two queues
//! does (`MainEvents`, `SchedEvents`), what follows once an operation is kept (`KeptOps`), and how a life begins, opens and goes
//! down (`Opening`, `Lives`). Each call here has one equation against them; the dispatchers of the two queues stand in crates
//! of their own, and work off their events by the same definitions. A call takes its memory first, and leaves all as it was
//! where there is none.
//!
//! It stands on the tree, on the states of applications and attempts, and on the words of the judge that its own way shares.
#![tactic(auto)]

mod changes;
mod completed;
mod container_set;
mod events;
mod keeping;
mod lives;
mod missing;
mod nodes;
mod opening;
mod recorded;
mod rows;
mod tables;
mod talks;

pub use changes::{AttemptChange, RowChange};
pub use container_set::ContainerSet;
pub use events::{MainEvent, Refused, SchedEvent};
pub use missing::{
    astray_released, departing, is_astray, is_at_disposal, is_earlier, is_pending, was_first,
};
pub use nodes::{NodeChange, NodeRow, Nodes, Registration};
pub use opening::last_attempt;
pub use recorded::{attempt_in, heir, is_masters, is_stale, is_wanted, keeps};
pub use rows::{AppRow, Current, Dialogue, Rows};
pub use tables::Tables;
pub use talks::Talk;

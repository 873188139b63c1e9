//! The lives of a run: a store is opened for each, what is handed to it is kept, its fuse is armed as the script says, and its device
//! falls where a life goes down. In which order the lanes of a life move, and by whom, is for the crates above to say.
//!
//! It promises of each order that the log goes along the script, why a life halts, that at every moment a crash leaves on the device
//! what is kept, or this and the operation that awaits, and that such a device opens again; `specs/Whole.antt` says what a whole run
//! comes to.
//!
//! It stands on `rm_desk`, on `rm_store`, and on the definitions of `rm_model`.
#![tactic(auto)]

mod halts;
mod laws;
mod moves;
mod order;
mod refusals;
mod runs;
mod starts;
mod storing;

pub use halts::{Halt, Stop};
pub use laws::law_opens_again;
pub use moves::{LifeEnd, advance};
pub use order::Ordered;
pub use runs::Run;
pub use starts::{
    Lived, Unfounded, Unopened, begin_life, leave, open_again, open_first, stop_at_open,
};
pub use storing::{arm, halt_of};

//! The first event of the scheduler's queue.
ghost use Rattle.std.specs.Prelude.{◌≡◌, ◌↔◌, ℕ, List, ◌∷◌, IsTrue};
ghost use Rattle.rm_tables.specs.declared.events.SchedEvent.{SchedEvent as Event};
ghost use Rattle.rm_sched.specs.CanWork.{AreFew, CanPass};
ghost use Rattle.rm_conditions.specs.Events.{makes_pass};

use crate::passes::can_pass;
use rm_tables::{SchedEvent, Tables};

/// Whether an event makes a pass.
fn makes_pass(event: &SchedEvent) -> bool
    ensures { result ≡ makes_pass event.now }
{
    matches!(event, SchedEvent::NodeUpdate(_))
}

/// Whether `rm_sched::front` may be called: where the first event makes a pass, one may be made on any node.
pub fn can_schedule(t: &Tables) -> bool
    ensures { IsTrue result ↔ ((name : List ℕ) (rest : List Event) → t.now.sched ≡ Event.NodeUpdate name ∷ rest → AreFew t.now × CanPass t.now) }
{
    match t.sched.first() {
        Some(event) => !makes_pass(event) || can_pass(t),
        None => true,
    }
}

ghost use Rattle.std.specs.Prelude.{◌≡◌, ℕ, List, [], ◌∷◌, IfOk, OnErr, IsErrOf, Err};
ghost use Rattle.rm_types.specs.declared.ids.ContainerId.{ContainerId as Id};
ghost use Rattle.rm_tables.specs.declared.events.SchedEvent.{SchedEvent as Event};
ghost use Rattle.rm_tables.specs.Actions.{sched_worked};
ghost use Rattle.rm_tables.specs.SchedEvents.{EndsByEvent, SchedDoes, sched_step};
ghost use Rattle.rm_sched.specs.CanWork.{AreFew, CanPass};

use crate::absorbing::added;
use crate::asking::{add, queue, quiet};
use crate::ending::{done, lost, released, removed};
use crate::passing::updated;
use rm_tables::{Refused, SchedEvent, Tables};
use rm_types::{Duplicate, Entry, NoMemory};

/// An event of the scheduler's queue is worked off, which still stands there.
fn work_off(t: &mut Tables, event: &SchedEvent) -> Result<Entry, NoMemory>
    requires pass { (name : List ℕ) → event.now ≡ Event.NodeUpdate name → AreFew t.old × CanPass t.old }
    ensures ok { IfOk result (λ e. SchedDoes event.now t.old (e, t.new)) }
    ensures err { OnErr result (t.new ≡ t.old) }
{
    match event {
        SchedEvent::AppAdded(id) => add(t, *id),
        SchedEvent::AttemptRecovered(_) => Ok(quiet()),
        SchedEvent::AttemptAdded(id) => queue(t, *id),
        SchedEvent::AttemptRemoved(id) => removed(t, *id),
        SchedEvent::Release { attempt, list } => released(t, *attempt, list.as_slice()),
        SchedEvent::NodeAdded { node, turn } => added(t, node, *turn),
        SchedEvent::NodeDone { node, list } => done(t, node, list.as_slice()),
        SchedEvent::NodeUpdate(node) => updated(t, node),
        SchedEvent::NodeLost(node) => lost(t, node),
    }
}

/// Works off the first event of the scheduler's queue: its entry is answered, and the event is gone. `NotReady`
/// comes exactly where the queue is empty; a refusal leaves all as it was.
pub fn front(t: &mut Tables) -> Result<Entry, Refused>
    requires pass { (name : List ℕ) (rest : List Event) → t.old.sched ≡ Event.NodeUpdate name ∷ rest → AreFew t.old × CanPass t.old }
    ensures ok { (event : Event) (rest : List Event) → t.old.sched ≡ event ∷ rest → IfOk result (λ e. (list : List Id) × EndsByEvent event t.old list × ((e, t.new) ≡ sched_worked (sched_step event list t.old))) }
    ensures not_ready { IsErrOf result Refused.NotReady → t.old.sched ≡ [] }
    ensures none { t.old.sched ≡ [] → result ≡ Err Refused.NotReady }
    ensures err { OnErr result (t.new ≡ t.old) }
{
    let Some(first) = t.sched.first() else {
        return Err(Refused::NotReady);
    };
    let event = first.copy()?;
    let entry = work_off(t, &event)?;
    let _ = t.sched.take_first();
    Ok(entry)
}

ghost use Rattle.std.specs.Prelude.{◌≡◌, ◌+◌, ◌<◌, ◌^◌, List, [], ◌∷◌, length, IfOk, OnErr, IsErrOf, Err};
ghost use Rattle.rm_types.specs.declared.ids.AppId.{AppId as App};
ghost use Rattle.rm_model.specs.Facts.{attempts_in};
ghost use Rattle.rm_tables.specs.declared.events.MainEvent.{MainEvent as Event};
ghost use Rattle.rm_tables.specs.Actions.{found_in, main_worked};
ghost use Rattle.rm_tables.specs.MainEvents.{main_step};

use crate::deciding::done;
use crate::events::{accepted, kill, retire, saved, start, start_epoch};
use crate::masters;
use rm_tables::{MainEvent, Refused, Tables};
use rm_types::{Entry, NoMemory};

/// An event of the main queue is worked off, which still stands there.
fn work_off(t: &mut Tables, event: MainEvent) -> Result<Entry, NoMemory>
    requires epoch { t.old.epoch + 1 < 2 ^ 32 }
    requires few { (id : App) → length (attempts_in (found_in t.old id)) + 1 < 2 ^ 32 }
    ensures ok { IfOk result (λ e. (e, t.new) ≡ main_step event t.old) }
    ensures err { OnErr result (t.new ≡ t.old) }
{
    match event {
        MainEvent::EpochStart => start_epoch(t),
        MainEvent::AppStart(id) => start(t, id),
        MainEvent::AppSaved(id) => saved(t, id),
        MainEvent::AppAccepted(id) => accepted(t, id),
        MainEvent::AppKill(id) => kill(t, id),
        MainEvent::AttemptDone(id) => done(t, id.app),
        MainEvent::Retire => retire(t),
        MainEvent::MasterGranted(container) => masters::granted(t, container),
        MainEvent::AttemptSaved(id) => masters::saved(t, id),
        MainEvent::MasterLost(container) => masters::lost(t, container),
        MainEvent::AttemptExpired(id) => masters::expired(t, id),
        MainEvent::AttemptFinish(id) => masters::finished(t, id),
    }
}

/// Works off the first event of the main queue: its entry is answered, and the event is gone. `NotReady` comes
/// exactly where the queue is empty; a refusal leaves all as it was.
pub fn front(t: &mut Tables) -> Result<Entry, Refused>
    requires epoch { t.old.epoch + 1 < 2 ^ 32 }
    requires few { (id : App) → length (attempts_in (found_in t.old id)) + 1 < 2 ^ 32 }
    ensures ok { (event : Event) (rest : List Event) → t.old.main ≡ event ∷ rest → IfOk result (λ e. (e, t.new) ≡ main_worked (main_step event t.old)) }
    ensures not_ready { IsErrOf result Refused.NotReady → t.old.main ≡ [] }
    ensures none { t.old.main ≡ [] → result ≡ Err Refused.NotReady }
    ensures err { OnErr result (t.new ≡ t.old) }
{
    let Some(event) = t.main.first().copied() else {
        return Err(Refused::NotReady);
    };
    let entry = work_off(t, event)?;
    let _ = t.main.take_first();
    Ok(entry)
}

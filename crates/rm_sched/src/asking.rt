//! The events of applications and attempts that wait for their masters' containers.
ghost use Rattle.std.specs.Prelude.{◌≡◌, true, IfOk, OnErr};
ghost use Rattle.rm_tables.specs.SchedEvents.{added_by, queued_at, queued_by};
ghost use Rattle.rm_tables.specs.Rows.{row_of};

use rm_states::attempt::AttemptState;
use rm_tables::{MainEvent, Tables};
use rm_types::{AppId, Ask, AttemptId, Entry, Lane, NoMemory};

/// An event had nothing to do.
pub fn quiet() -> Entry
    ensures { result ≡ Entry.Quiet Lane.Sched }
{
    Entry::Quiet { lane: Lane::Sched }
}

/// AppAdded: the application is to be accepted.
pub fn add(t: &mut Tables, id: AppId) -> Result<Entry, NoMemory>
    ensures ok { IfOk result (λ e. (e, t.new) ≡ added_by id t.old) }
    ensures err { OnErr result (t.new ≡ t.old) }
{
    t.main.push(MainEvent::AppAccepted(id))?;
    Ok(quiet())
}

/// An attempt that is scheduled asks for its master's container.
fn ask_for_master(t: &mut Tables, id: AttemptId) -> Result<Entry, NoMemory>
    ensures ok { IfOk result (λ e. (e, t.new) ≡ queued_at AttemptState.Scheduled true id t.old) }
    ensures err { OnErr result (t.new ≡ t.old) }
{
    if let Some(app) = t.tree.find(id.app) {
        let ask = Ask {
            priority: 0,
            count: 1,
            size: app.submission.master,
        };
        t.asks.set(id, ask)?;
    }
    Ok(Entry::Queued { attempt: id })
}

/// AttemptAdded: an attempt that is still scheduled asks for its master's container.
pub fn queue(t: &mut Tables, id: AttemptId) -> Result<Entry, NoMemory>
    ensures ok { IfOk result (λ e. (e, t.new) ≡ queued_by (row_of t.old.rows id.app) id t.old) }
    ensures err { OnErr result (t.new ≡ t.old) }
{
    let Some(row) = t.rows.find(id.app) else {
        return Ok(quiet());
    };
    let Some(current) = row.current else {
        return Ok(quiet());
    };
    if current.state != AttemptState::Scheduled || current.number != id.number {
        return Ok(quiet());
    }
    ask_for_master(t, id)
}

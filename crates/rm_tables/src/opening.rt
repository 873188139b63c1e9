ghost use Rattle.std.specs.Prelude.{◌≡◌, ◌++◌, cond, is_none, IfOk, OnOk};
ghost use Rattle.std.specs.Option.{option_copied};
ghost use Rattle.rm_states.specs.app.Table.{end_state};
ghost use Rattle.rm_types.specs.Records.{last_attempt};
ghost use Rattle.rm_tables.specs.Opening.{recovered_attempt, recovered_row, recovered_rows, going_in, main_of, sched_of, opening_main, opening_sched};

use crate::changes::state_of;
use crate::events::{MainEvent, SchedEvent};
use crate::rows::{AppRow, Current, Rows};
use rm_states::app::AppState;
use rm_states::attempt::AttemptState;
use rm_tree::Tree;
use rm_types::{AppRecord, AttemptId, AttemptRecord, Items, NoMemory, Queue};
use std::alloc::Global;

/// The last kept attempt of an application, if it has one.
pub fn last_attempt(app: &AppRecord) -> Option<&AttemptRecord>
    ensures { option_copied result ≡ last_attempt app.now.attempts }
{
    app.attempts.as_slice().last()
}

fn recovered_attempt(one: &AttemptRecord) -> Current
    ensures { result ≡ recovered_attempt one.now }
{
    let state = if one.ending.is_some() {
        AttemptState::Ended
    } else {
        AttemptState::Live
    };
    Current {
        number: one.id.number,
        state,
        master: Some(one.master),
        registered: false,
        lost: false,
        granted: 0,
        finished: false,
    }
}

fn recovered_row(alloc: Global, app: &AppRecord) -> AppRow
    ensures { result ≡ recovered_row app.now }
{
    let last = last_attempt(app);
    let state = match (&app.ending, last) {
        (Some((how, _)), _) => state_of(*how),
        (None, Some(_)) => AppState::Accepted,
        (None, None) => AppState::Submitted,
    };
    let current = match last {
        Some(one) => Some(recovered_attempt(one)),
        None => None,
    };
    AppRow {
        state,
        wish: false,
        pending: None,
        current,
        first: app.attempts.len(),
        dialogue: None,
        closings: Items::new(alloc),
    }
}

/// The rows of the applications that a tree records.
pub fn recovered_rows(alloc: Global, tree: &Tree) -> Result<Rows, NoMemory>
    ensures { IfOk result (λ rows. rows ≡ recovered_rows tree.now.apps) }
{
    let mut rows = Rows::new(alloc);
    let count = tree.len();
    'records: for place in 0..count {
        let app = tree.at(place);
        rows.add(app.id, recovered_row(alloc, app))?;
    }
    Ok(rows)
}

/// 1 for an application without an end, else 0.
fn goes_on(app: &AppRecord) -> usize
    ensures { result ≡ cond (is_none app.now.ending) 1 0 }
{
    if app.ending.is_none() { 1 } else { 0 }
}

/// How many of the recorded applications have no end.
pub fn going_in(tree: &Tree) -> usize
    ensures { result ≡ going_in tree.now.apps }
{
    let mut going = 0;
    let count = tree.len();
    'records: for place in 0..count {
        going += goes_on(tree.at(place));
    }
    going
}

/// Adds the event of a recorded application to the main queue, if it has one.
fn push_main(queue: &mut Queue<MainEvent>, app: &AppRecord) -> Result<(), NoMemory>
    ensures ok { OnOk result (queue.new ≡ queue.old ++ main_of app.now) }
{
    if app.ending.is_some() {
        return Ok(());
    }
    match last_attempt(app) {
        None => queue.push(MainEvent::AppSaved(app.id)),
        Some(last) => {
            if last.ending.is_some() {
                queue.push(MainEvent::AttemptDone(AttemptId {
                    app: app.id,
                    number: last.id.number,
                }))
            } else {
                Ok(())
            }
        }
    }
}

/// Adds the event of a recorded application to the scheduler's queue, if it has one.
fn push_sched(queue: &mut Queue<SchedEvent>, app: &AppRecord) -> Result<(), NoMemory>
    ensures ok { OnOk result (queue.new ≡ queue.old ++ sched_of app.now) }
{
    if app.ending.is_some() {
        return Ok(());
    }
    match last_attempt(app) {
        None => Ok(()),
        Some(last) => {
            if last.ending.is_some() && !app.submission.keep {
                Ok(())
            } else {
                queue.push(SchedEvent::AttemptRecovered(AttemptId {
                    app: app.id,
                    number: last.id.number,
                }))
            }
        }
    }
}

/// The events of the main queue with which a life opens over a tree.
pub fn opening_main(alloc: Global, tree: &Tree) -> Result<Queue<MainEvent>, NoMemory>
    ensures { IfOk result (λ queue. queue ≡ opening_main tree.now.apps) }
{
    let mut queue = Queue::new(alloc);
    let count = tree.len();
    'records: for place in 0..count {
        push_main(&mut queue, tree.at(place))?;
    }
    queue.push(MainEvent::Retire)?;
    Ok(queue)
}

/// Those of the scheduler's queue.
pub fn opening_sched(alloc: Global, tree: &Tree) -> Result<Queue<SchedEvent>, NoMemory>
    ensures { IfOk result (λ queue. queue ≡ opening_sched tree.now.apps) }
{
    let mut queue = Queue::new(alloc);
    let count = tree.len();
    'records: for place in 0..count {
        push_sched(&mut queue, tree.at(place))?;
    }
    Ok(queue)
}

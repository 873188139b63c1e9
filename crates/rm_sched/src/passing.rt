//! Passes: what a beat is granted.
ghost use Rattle.std.specs.Prelude.{◌≡◌, ◌+◌, ◌<◌, ◌^◌, ◌≤◌, [], ◌∷◌, ◌++◌, not, Some, filter, find, fold, map, option_map, length, count_by, ◌&&◌, if◌then◌else◌, is_some, IfOk, IfSome, OnOk, OnErr};
ghost use Rattle.std.specs.Option.{option_copied};
ghost use Rattle.rm_types.specs.Passes.{by_priority};
ghost use Rattle.rm_book.specs.AskTables.{attempt_asks};
ghost use Rattle.rm_book.specs.Books.{capability_of};
ghost use Rattle.rm_model.specs.Attempts.{attempt_at};
ghost use Rattle.rm_model.specs.Containers.{is_size};
ghost use Rattle.rm_tables.specs.Nodes.{node_row};
ghost use Rattle.rm_tables.specs.Passing.{asks_some, fitted_on, granted_number, masters_granted, passed_with, rows_after_grant, still_waits, turn_in, turns_in, updated_by, waits_for_master, table_without_granted};
ghost use Rattle.rm_tables.specs.Rows.{row_of};
ghost use Rattle.rm_sched.specs.Turns.{has_waiting, turns_of};
ghost use Rattle.rm_sched.specs.CanWork.{AreFew, CanPass, GrantsFit};

use crate::asking::quiet;
use crate::fit::first_fit;
use rm_book::Asks;
use rm_states::attempt::AttemptState;
use rm_states::node::NodeState;
use rm_tables::{AppRow, AttemptChange, MainEvent, RowChange, Rows, Tables};
use rm_types::{
    AppId, AppRecord, AskLine, AttemptId, AttemptRecord, Boxed, Duplicate, Entry, Grant, Items,
    NoMemory, Resource, Text, Turn,
};
use std::alloc::Global;

/// How many of these attempts have ended.
fn count_ended(attempts: &[AttemptRecord]) -> usize
    ensures ended { result ≡ count_by (λ one. is_some one.ending) attempts.now }
    ensures within { result ≤ length attempts.now }
{
    let mut ended = 0;
    'attempts: for one in attempts {
        if one.ending.is_some() {
            ended += 1;
        }
    }
    ended
}

/// The attempt that an application is at: the one after those that have ended.
pub fn attempt_at(app: &AppRecord) -> AttemptId
    requires few { length app.now.attempts + 1 < 2 ^ 32 }
    ensures { result ≡ attempt_at app.now }
{
    let ended = count_ended(app.attempts.as_slice());
    AttemptId {
        app: app.id,
        number: ended as u32 + 1,
    }
}

/// How many containers this life granted to an attempt, where it is the current one of its application; otherwise 0.
pub fn granted_to(rows: &Rows, id: AttemptId) -> u64
    ensures { result ≡ granted_number id.number (row_of rows.now id.app) }
{
    let Some(row) = rows.find(id.app) else {
        return 0;
    };
    let Some(current) = row.current else {
        return 0;
    };
    if current.number == id.number {
        current.granted
    } else {
        0
    }
}

/// Whether an attempt asks for something.
pub fn asks_some(asks: &Asks, id: AttemptId) -> bool
    ensures { result ≡ asks_some asks.now id }
{
    asks.of(id).is_some()
}

/// The applications of the attempts that ask for something, in kept order.
fn waiting_apps(t: &Tables) -> Result<Items<AppId>, NoMemory>
    ensures { IfOk result (λ ids. ids ≡ filter (has_waiting t.now.asks) (map (λ app. app.id) t.now.tree.apps)) }
{
    let waiting = t.asks.waiting()?;
    let apps = apps_of(t.alloc, waiting.as_slice())?;
    t.tree.in_kept_order(apps.as_slice())
}

/// The applications of these attempts.
fn apps_of(alloc: Global, attempts: &[AttemptId]) -> Result<Vec<AppId>, NoMemory>
    ensures { IfOk result (λ apps. apps.items ≡ map (λ attempt. attempt.app) attempts.now) }
{
    Ok(attempts.iter().map(|attempt| attempt.app).collect(alloc)?)
}

/// The turns of a pass. It goes over the applications alone of which an attempt asks for something.
fn turns(t: &Tables) -> Result<Items<Turn>, NoMemory>
    requires few { AreFew t.now }
    requires pass { CanPass t.now }
    ensures { IfOk result (λ turns. turns ≡ turns_in t.now) }
{
    // With its length a tree tells that each application is there once.
    let _apart = t.tree.len();
    let kept = waiting_apps(t)?;
    turns_of(t, kept.as_slice())
}

/// The turns of these applications.
fn turns_of(t: &Tables, ids: &[AppId]) -> Result<Items<Turn>, NoMemory>
    requires few { AreFew t.now }
    requires pass { CanPass t.now }
    ensures { IfOk result (λ turns. turns ≡ turns_of t.now ids.now) }
{
    let mut turns = Items::new(t.alloc);
    'records: for id in ids {
        if let Some(app) = t.tree.find(*id) {
            push_turn(&mut turns, t, attempt_at(app))?;
        }
    }
    Ok(turns)
}

/// An attempt that asks for something has a turn.
fn push_turn(turns: &mut Items<Turn>, t: &Tables, attempt: AttemptId) -> Result<(), NoMemory>
    requires pass { CanPass t.now }
    ensures ok { OnOk result (turns.new ≡ turns.old ++ (if asks_some t.now.asks attempt then turn_in t.now.rows attempt ∷ [] else [])) }
{
    if !asks_some(&t.asks, attempt) {
        return Ok(());
    }
    turns.push(Turn {
        attempt,
        next_seq: granted_to(&t.rows, attempt) + 1,
    })
}

/// Whether nothing is granted yet, since nodes may still report.
fn still_waits(t: &Tables) -> bool
    ensures { result ≡ still_waits t.now }
{
    t.waits && t.clock < t.settings.wait_ms
}

/// What first fit grants on a node.
fn fitted(t: &Tables, name: &Text) -> Result<Items<Grant>, NoMemory>
    requires few { AreFew t.now }
    requires pass { CanPass t.now }
    ensures grants { IfOk result (λ grants. grants ≡ fitted_on name.now (capability_of t.now.book name.now) t.now) }
    ensures fit { IfOk result (λ grants. GrantsFit t.now name.now grants) }
{
    if t.book.free_of(name).is_none() {
        return Ok(Items::new(t.alloc));
    }
    let order = turns(t)?;
    first_fit(t.alloc, &t.book, &t.asks, &order, name, t.epoch)
}

/// Whether the current attempt of an application waits for its master's container.
fn waits_for_master(rows: &Rows, grant: &Grant) -> bool
    ensures { result ≡ waits_for_master (row_of rows.now grant.now.id.attempt.app) }
{
    let Some(row) = rows.find(grant.id.attempt.app) else {
        return false;
    };
    let Some(current) = row.current else {
        return false;
    };
    current.state == AttemptState::Scheduled
}

/// What the manager is told of grants.
fn masters_granted(
    alloc: Global,
    rows: &Rows,
    grants: &[Grant],
) -> Result<Items<MainEvent>, NoMemory>
    ensures { IfOk result (λ events. events ≡ masters_granted rows.now grants.now) }
{
    let mut events = Items::new(alloc);
    'grants: for grant in grants {
        if waits_for_master(rows, grant) {
            events.push(MainEvent::MasterGranted(grant.id))?;
        }
    }
    Ok(events)
}

/// The priority of the first of these lines that asks for a size.
fn priority_of(lines: &[AskLine], size: Resource) -> Option<u32>
    ensures { result ≡ option_map (λ line. line.ask.priority) (find (λ line. is_size line.ask.size size) lines.now) }
{
    lines
        .iter()
        .find(|line| line.ask.size == size)
        .map(|line| line.ask.priority)
}

/// The priority of the ask that a grant answers.
fn answered_priority(asks: &Asks, grant: &Grant) -> Option<u32>
    ensures { result ≡ option_map (λ ask. ask.priority) (find (λ one. is_size one.size grant.now.size) (by_priority (attempt_asks asks.now grant.now.id.attempt))) }
{
    match asks.of(grant.id.attempt) {
        Some(lines) => priority_of(lines.as_slice(), grant.size),
        None => None,
    }
}

/// One less is asked for after a grant.
fn answer(asks: &mut Asks, grant: &Grant)
    ensures { asks.new ≡ table_without_granted asks.old grant.now }
{
    if let Some(priority) = answered_priority(asks, grant) {
        asks.granted(grant.id.attempt, priority, grant.size);
    }
}

/// The asks and the rows of applications after these grants.
fn take_grants(asks: &mut Asks, rows: &mut Rows, grants: &[Grant])
    ensures asks { asks.new ≡ fold table_without_granted asks.old grants.now }
    ensures rows { rows.new ≡ fold rows_after_grant rows.old grants.now }
{
    'grants: for grant in grants {
        answer(asks, grant);
        let change = AttemptChange::Grant {
            container: grant.id,
        };
        rows.change(grant.id.attempt.app, RowChange::OfAttempt { change });
    }
}

/// These grants are made on a node. `NoMemory` changes nothing.
fn grant_all(t: &mut Tables, name: &Text, grants: &Items<Grant>) -> Result<(), NoMemory>
    requires fit { GrantsFit t.old name.now grants.now }
    ensures ok { OnOk result (t.new ≡ passed_with grants.now t.old) }
    ensures err { OnErr result (t.new ≡ t.old) }
{
    if grants.is_empty() {
        return Ok(());
    }
    let events = masters_granted(t.alloc, &t.rows, grants.as_slice())?;
    t.book
        .add_grants(name, grants, &mut t.main, events.as_slice())?;
    take_grants(&mut t.asks, &mut t.rows, grants.as_slice());
    Ok(())
}

/// What a pass grants on a node that is ready, or isn't.
fn grants_on(t: &Tables, name: &Text, ready: bool) -> Result<Items<Grant>, NoMemory>
    requires few { AreFew t.now }
    requires pass { CanPass t.now }
    ensures grants { IfOk result (λ grants. grants ≡ (if ready && not (still_waits t.now) then fitted_on name.now (capability_of t.now.book name.now) t.now else [])) }
    ensures fit { IfOk result (λ grants. GrantsFit t.now name.now grants) }
{
    if ready && !still_waits(t) {
        fitted(t, name)
    } else {
        Ok(Items::new(t.alloc))
    }
}

/// NodeUpdate: a pass answers a beat.
pub fn updated(t: &mut Tables, name: &Text) -> Result<Entry, NoMemory>
    requires few { AreFew t.old }
    requires pass { CanPass t.old }
    ensures ok { IfOk result (λ e. (e, t.new) ≡ updated_by (node_row t.old.nodes name.now) name.now t.old) }
    ensures err { OnErr result (t.new ≡ t.old) }
{
    let Some(row) = t.nodes.find(name) else {
        return Ok(quiet());
    };
    let ready = row.state == NodeState::Ready;
    let logged = name.copy()?;
    let node = Boxed::new(t.alloc, logged)?;
    let made = grants_on(t, name, ready)?;
    let grants = Boxed::new(t.alloc, made)?;
    grant_all(t, name, grants.get())?;
    Ok(Entry::Pass { node, grants })
}

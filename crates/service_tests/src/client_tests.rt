//! What no clause says: that each ask can be answered, by the replies that the order of checks gives.
ghost use Rattle.std.specs.Prelude.{◌≡◌, ◌+◌, ◌<◌, ◌^◌};
ghost use Rattle.rm_types.specs.Records.{no_records};
ghost use Rattle.rm_tables.specs.Lives.{no_life};

use crate::helpers::{APP, SIZE, job, text, wants, wants_words, word};
use rm_client::serve;
use rm_queues::{QueueTree, starts_at_root};
use rm_states::app::AppState;
use rm_tables::{AppRow, Tables};
use rm_types::{
    AppId, AttemptId, ClientAsk, ContainerId, ContainerState, Items, QueueSpec, Reply, Resource,
    Settings, Text,
};
use std::alloc::Global;
use std::process::Abort;

/// The second id of the life with the stamp 5.
const SECOND: AppId = AppId {
    stamp: 5,
    number: 2,
};

/// A cluster whose only queue is the root, where rights aren't checked.
fn settings<R: Abort>(rt: &R, alloc: Global) -> Settings {
    let root = QueueSpec {
        name: text(rt, alloc, "root"),
        submit: None,
        admin: None,
    };
    let mut queues = Items::new(alloc);
    queues.push(root).expect(rt, "memory");
    Settings {
        max_attempts: 2,
        max_completed: 10,
        max_apps: 10,
        greatest: Resource {
            memory_mb: 8192,
            vcores: 8,
        },
        queues,
        ..Settings::empty(alloc)
    }
}

/// Its queues, and tables that show nothing of a store.
fn cluster<R: Abort>(rt: &R, alloc: Global) -> (QueueTree, Tables)
    ensures queues { result.0 ≡ result.1.settings }
    ensures tables { result.1 ≡ no_life alloc result.1.settings }
{
    let settings = settings(rt, alloc);
    assert!(rt; starts_at_root(&settings));
    let queues = QueueTree::new(alloc, &settings).expect(rt, "memory");
    (queues, Tables::new(alloc, settings))
}

/// The row of that job, which isn't issued yet.
fn row<R: Abort>(rt: &R, alloc: Global) -> AppRow {
    AppRow {
        state: AppState::New,
        wish: false,
        pending: Some(job(rt, alloc)),
        current: None,
        first: 0,
        dialogue: None,
        closings: Items::new(alloc),
    }
}

/// What alice is answered first by tables that show nothing of a store.
fn answered<R: Abort>(rt: &R, queues: &QueueTree, tables: &mut Tables, ask: &ClientAsk) -> Reply
    requires settings { queues.now ≡ tables.old.settings }
    requires few { (tables.old.given + 1 < 2 ^ 32) × (tables.old.going + 1 < 2 ^ 64) }
    requires empty { tables.old.tree ≡ no_records }
{
    let user = text(rt, tables.alloc, "alice");
    serve(queues, tables, &user, ask).expect(rt, "memory")
}

/// Whether a reply gives the first id.
fn gives_first(reply: &Reply) -> bool {
    matches!(reply, Reply::New(id) if *id == APP)
}

fn see_id<R: Abort>(rt: &R, queues: &QueueTree, tables: &mut Tables)
    requires settings { queues.now ≡ tables.old.settings }
    requires tables { tables.old ≡ no_life tables.old.alloc tables.old.settings }
{
    tables.stamp = 5;
    let reply = answered(rt, queues, tables, &ClientAsk::New);
    wants(rt, gives_first(&reply));
    wants(rt, tables.given == 1);
}

#[test]
fn a_new_id_has_the_stamp_and_the_next_number(rt: HostRuntime) {
    let (queues, mut tables) = cluster(&rt, rt.alloc());
    see_id(&rt, &queues, &mut tables);
    drop(queues);
    drop(tables);
}

fn see_submission<R: Abort>(rt: &R, queues: &QueueTree, tables: &mut Tables)
    requires settings { queues.now ≡ tables.old.settings }
    requires tables { tables.old ≡ no_life tables.old.alloc tables.old.settings }
{
    tables.stamp = 5;
    tables.given = 1;
    let ask = ClientAsk::Submit(APP, job(rt, tables.alloc));
    wants_words(rt, word(answered(rt, queues, tables, &ask)), "submitted");
    wants(rt, tables.going == 1);
    wants(rt, tables.rows.find(APP).is_some());
}

#[test]
fn a_submission_joins_what_is_known(rt: HostRuntime) {
    let (queues, mut tables) = cluster(&rt, rt.alloc());
    see_submission(&rt, &queues, &mut tables);
    drop(queues);
    drop(tables);
}

fn is_wished(tables: &Tables) -> bool {
    match tables.rows.find(APP) {
        Some(row) => row.wish,
        None => false,
    }
}

fn see_kill<R: Abort>(rt: &R, queues: &QueueTree, tables: &mut Tables)
    requires settings { queues.now ≡ tables.old.settings }
    requires tables { tables.old ≡ no_life tables.old.alloc tables.old.settings }
{
    let known = row(rt, tables.alloc);
    tables.rows.add(APP, known).expect(rt, "memory");
    let ask = ClientAsk::Kill(APP);
    wants_words(rt, word(answered(rt, queues, tables, &ask)), "killing");
    wants(rt, is_wished(tables));
}

#[test]
fn a_kill_is_wished_for(rt: HostRuntime) {
    let (queues, mut tables) = cluster(&rt, rt.alloc());
    see_kill(&rt, &queues, &mut tables);
    drop(queues);
    drop(tables);
}

/// A container of an application lives on a node.
fn lives<R: Abort>(rt: &R, tables: &mut Tables, app: AppId, node: &Text)
    ensures { tables.new ≡ record tables.old { book = tables.new.book } }
{
    assert!(rt; tables.book.free_of(node).is_some());
    let id = ContainerId {
        attempt: AttemptId { app, number: 1 },
        epoch: 1,
        seq: 1,
    };
    let added = tables.book.add(id, node, SIZE, ContainerState::Running);
    wants(rt, added.is_ok());
}

/// Whether a reply reports that one container lives.
fn has_one_alive(reply: &Reply) -> bool {
    matches!(reply, Reply::Report(report) if report.live == 1)
}

fn see_report<R: Abort>(rt: &R, queues: &QueueTree, tables: &mut Tables)
    requires settings { queues.now ≡ tables.old.settings }
    requires tables { tables.old ≡ no_life tables.old.alloc tables.old.settings }
{
    let known = row(rt, tables.alloc);
    tables.rows.add(APP, known).expect(rt, "memory");
    let node = text(rt, tables.alloc, "n1:1");
    let offer = tables.settings.greatest;
    tables.book.set_node(&node, offer).expect(rt, "memory");
    lives(rt, tables, APP, &node);
    lives(rt, tables, SECOND, &node);
    let reply = answered(rt, queues, tables, &ClientAsk::Report(APP));
    wants(rt, has_one_alive(&reply));
}

#[test]
fn a_report_counts_the_living_of_its_application(rt: HostRuntime) {
    let (queues, mut tables) = cluster(&rt, rt.alloc());
    see_report(&rt, &queues, &mut tables);
    drop(queues);
    drop(tables);
}

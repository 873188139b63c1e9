//! What no clause says: that nodes and the clock can be answered, by the words that the rules give.
ghost use Rattle.std.specs.Prelude.{◌≡◌, ◌<◌, []};
ghost use Rattle.rm_tracker.specs.Told.{elapsed};

use crate::helpers::{ATTEMPT, SIZE, tables, text, wants, wants_words, word};
use rm_states::app::AppState;
use rm_states::attempt::AttemptState;
use rm_tables::{AppRow, Current, NodeChange, Tables};
use rm_tracker::{serve, serve_clock};
use rm_types::{ClockAsk, ContainerId, Held, Items, NodeAsk, Reply, Text};
use std::alloc::Global;
use std::process::Abort;

/// A master's container, which is to be launched.
const MASTER: ContainerId = ContainerId {
    attempt: ATTEMPT,
    epoch: 0,
    seq: 1,
};

/// A container that isn't in the book.
const STRANGER: ContainerId = ContainerId {
    attempt: ATTEMPT,
    epoch: 0,
    seq: 2,
};

/// A node registers with a turn, and reports nothing; the turn and the epoch that it is answered.
fn register<R: Abort>(rt: &R, tables: &mut Tables, name: &Text, turn: u32) -> Option<(u32, u32)> {
    let ask = NodeAsk::Register {
        turn,
        capability: SIZE,
        running: Items::new(tables.alloc),
    };
    match serve(tables, name, &ask).expect(rt, "memory") {
        Reply::NodeRegistered { turn, epoch } => Some((turn, epoch)),
        _ => None,
    }
}

/// The first beat of a node, which reports a container that isn't in the book.
fn beat<R: Abort>(rt: &R, alloc: Global) -> NodeAsk {
    let mut running = Items::new(alloc);
    let held = Held {
        id: STRANGER,
        size: SIZE,
    };
    running.push(held).expect(rt, "memory");
    NodeAsk::Beat {
        id: 0,
        running,
        done: Items::new(alloc),
    }
}

/// What a node is told at its first beat.
fn told<R: Abort>(rt: &R, tables: &mut Tables, name: &Text) -> Reply {
    let ask = beat(rt, tables.alloc);
    assert!(rt; matches!(&ask, NodeAsk::Beat { id: 0, .. }));
    serve(tables, name, &ask).expect(rt, "memory")
}

/// What the clock says at the time 0 is answered by `Ok`.
fn tell<R: Abort>(rt: &R, tables: &mut Tables, ask: &ClockAsk)
    requires { elapsed ask.now < 100 }
{
    tables.clock = 0;
    let reply = serve_clock(tables, ask).expect(rt, "memory");
    wants_words(rt, word(reply), "ok");
}

fn see_registrations<R: Abort>(rt: &R, tables: &mut Tables) {
    let name = text(rt, tables.alloc, "n1:1");
    wants(rt, register(rt, tables, &name, 7) == Some((7, 0)));
    wants(rt, register(rt, tables, &name, 6) == Some((7, 0)));
    wants(rt, tables.sched.len() == 1);
}

#[test]
fn a_registration_is_answered_by_its_turn(rt: HostRuntime) {
    let mut tables = tables(rt.alloc());
    see_registrations(&rt, &mut tables);
    drop(tables);
}

/// The reply to the first beat tells to launch and to clean these containers.
fn wants_beat<R: Abort>(rt: &R, reply: &Reply, launched: &[ContainerId], cleaned: &[ContainerId]) {
    match reply {
        Reply::Beat {
            id: 1,
            launch,
            clean,
        } => {
            wants(rt, launch.as_slice() == launched);
            wants(rt, clean.as_slice() == cleaned);
        }
        _ => wants(rt, false),
    }
}

/// A node beats, and is told to launch and to clean these containers.
fn see_beat<R: Abort>(
    rt: &R,
    tables: &mut Tables,
    name: &Text,
    launched: &[ContainerId],
    cleaned: &[ContainerId],
) {
    let reply = told(rt, tables, name);
    wants_beat(rt, &reply, launched, cleaned);
}

fn see_beats<R: Abort>(rt: &R, tables: &mut Tables) {
    let name = text(rt, tables.alloc, "n1:1");
    register(rt, tables, &name, 7);
    tables.nodes.change(&name, NodeChange::Absorb);
    tables.nodes.order(&name, MASTER).expect(rt, "memory");
    see_beat(rt, tables, &name, &[MASTER], &[STRANGER]);
    see_beat(rt, tables, &name, &[MASTER], &[STRANGER]);
    wants(rt, tables.sched.len() == 2);
}

#[test]
fn a_ready_node_is_told_what_to_launch_and_to_clean(rt: HostRuntime) {
    let mut tables = tables(rt.alloc());
    see_beats(&rt, &mut tables);
    drop(tables);
}

fn see_waiting<R: Abort>(rt: &R, tables: &mut Tables) {
    let name = text(rt, tables.alloc, "n1:1");
    register(rt, tables, &name, 7);
    see_beat(rt, tables, &name, &[], &[]);
}

#[test]
fn a_node_that_waits_is_told_nothing(rt: HostRuntime) {
    let mut tables = tables(rt.alloc());
    see_waiting(&rt, &mut tables);
    drop(tables);
}

fn see_loss<R: Abort>(rt: &R, tables: &mut Tables) {
    let name = text(rt, tables.alloc, "n1:1");
    register(rt, tables, &name, 7);
    let node = text(rt, tables.alloc, "n1:1");
    tell(rt, tables, &ClockAsk::ExpireNode(node));
    wants_words(rt, word(told(rt, tables, &name)), "resync");
    wants(rt, tables.sched.len() == 2);
}

#[test]
fn a_node_that_expired_is_asked_to_register_again(rt: HostRuntime) {
    let mut tables = tables(rt.alloc());
    see_loss(&rt, &mut tables);
    drop(tables);
}

fn see_tick<R: Abort>(rt: &R, tables: &mut Tables) {
    tell(rt, tables, &ClockAsk::Tick(40));
    wants(rt, tables.clock == 40);
}

#[test]
fn the_time_goes_on(rt: HostRuntime) {
    let mut tables = tables(rt.alloc());
    see_tick(&rt, &mut tables);
    drop(tables);
}

/// The row of an application whose first attempt lives.
fn row(alloc: Global) -> AppRow {
    let current = Current {
        number: 1,
        state: AttemptState::Live,
        master: Some(MASTER),
        registered: false,
        lost: false,
        granted: 1,
        finished: false,
    };
    AppRow {
        state: AppState::Accepted,
        wish: false,
        pending: None,
        current: Some(current),
        first: 0,
        dialogue: None,
        closings: Items::new(alloc),
    }
}

fn see_expiry<R: Abort>(rt: &R, tables: &mut Tables)
    requires { tables.old.rows ≡ [] }
{
    let known = row(tables.alloc);
    tables.rows.add(ATTEMPT.app, known).expect(rt, "memory");
    tell(rt, tables, &ClockAsk::ExpireMaster(ATTEMPT));
    wants(rt, tables.main.len() == 1);
}

#[test]
fn the_master_of_an_attempt_that_lives_expires(rt: HostRuntime) {
    let mut tables = tables(rt.alloc());
    see_expiry(&rt, &mut tables);
    drop(tables);
}

//! What no clause says: that a master can be answered, by the words that the rules give.
ghost use Rattle.std.specs.Prelude.{◌≡◌, []};

use crate::helpers::{ATTEMPT, SIZE, tables, text, wants, wants_words, word};
use rm_book::Book;
use rm_conditions::can_serve_master;
use rm_master::serve;
use rm_states::app::AppState;
use rm_states::attempt::AttemptState;
use rm_tables::{AppRow, Current, Tables};
use rm_types::{
    Ask, Cause, Closing, ClosingOf, ContainerId, ContainerState, Items, MasterAsk, Reply, Resource,
};
use std::alloc::Global;
use std::process::Abort;

/// A container that was granted.
const GRANTED: ContainerId = ContainerId {
    attempt: ATTEMPT,
    epoch: 0,
    seq: 2,
};

/// A container that ended.
const ENDED: Closing = Closing {
    id: ContainerId {
        attempt: ATTEMPT,
        epoch: 0,
        seq: 3,
    },
    cause: Cause::Done,
};

/// More than a container may have.
const LARGE: Resource = Resource {
    memory_mb: 2048,
    vcores: 1,
};

/// The row of an application whose first attempt lives, and is to be told of an ending.
fn row<R: Abort>(rt: &R, alloc: Global) -> AppRow {
    let current = Current {
        number: 1,
        state: AttemptState::Live,
        master: None,
        registered: false,
        lost: false,
        granted: 3,
        finished: false,
    };
    let mut closings = Items::new(alloc);
    let told = ClosingOf {
        attempt: ATTEMPT,
        closing: ENDED,
    };
    closings.push(told).expect(rt, "memory");
    AppRow {
        state: AppState::Accepted,
        wish: false,
        pending: None,
        current: Some(current),
        first: 0,
        dialogue: None,
        closings,
    }
}

/// A container is granted, the only one in the book.
fn grant<R: Abort>(rt: &R, alloc: Global, book: &mut Book) {
    let node = text(rt, alloc, "n1:1");
    assert!(rt; book.is_empty());
    book.set_node(&node, SIZE).expect(rt, "memory");
    assert!(rt; book.free_of(&node).is_some());
    let added = book.add(GRANTED, &node, SIZE, ContainerState::Granted);
    wants(rt, added.is_ok());
}

/// The row enters the tables, and their book has the container that was granted.
fn fill<R: Abort>(rt: &R, tables: &mut Tables)
    requires { tables.old.rows ≡ [] }
{
    let row = row(rt, tables.alloc);
    tables.rows.add(ATTEMPT.app, row).expect(rt, "memory");
    grant(rt, tables.alloc, &mut tables.book);
}

fn register<R: Abort>(rt: &R, tables: &mut Tables) -> &'static str {
    word(serve(tables, ATTEMPT, &MasterAsk::Register).expect(rt, "memory"))
}

fn finish<R: Abort>(rt: &R, tables: &mut Tables) -> &'static str {
    let text = text(rt, tables.alloc, "done");
    word(serve(tables, ATTEMPT, &MasterAsk::Finish { text }).expect(rt, "memory"))
}

/// An ask for two containers of a size.
fn asks<R: Abort>(rt: &R, alloc: Global, size: Resource) -> Items<Ask> {
    let mut asks = Items::new(alloc);
    let ask = Ask {
        priority: 1,
        count: 2,
        size,
    };
    asks.push(ask).expect(rt, "memory");
    asks
}

/// The first allocation: the master asks for two containers of a size, and releases one that ended.
fn allocation<R: Abort>(rt: &R, alloc: Global, size: Resource) -> MasterAsk {
    let mut release = Items::new(alloc);
    release.push(ENDED.id).expect(rt, "memory");
    MasterAsk::Allocate {
        id: 0,
        asks: asks(rt, alloc, size),
        release,
    }
}

/// What the master is answered when it allocates first.
fn allocate<R: Abort>(rt: &R, tables: &mut Tables, size: Resource) -> Reply {
    let ask = allocation(rt, tables.alloc, size);
    assert!(rt; can_serve_master(&ask));
    serve(tables, ATTEMPT, &ask).expect(rt, "memory")
}

fn see_registrations<R: Abort>(rt: &R, tables: &mut Tables)
    requires { tables.old.rows ≡ [] }
{
    fill(rt, tables);
    wants_words(rt, register(rt, tables), "registered");
    wants_words(rt, register(rt, tables), "already");
}

#[test]
fn a_master_registers_once(rt: HostRuntime) {
    let mut tables = tables(rt.alloc());
    see_registrations(&rt, &mut tables);
    drop(tables);
}

/// The reply to the first allocation tells of the grant and of the ending.
fn wants_told<R: Abort>(rt: &R, reply: &Reply) {
    match reply {
        Reply::Allocated {
            id: 1,
            grants,
            ended,
        } => {
            wants(rt, ended.as_slice() == [ENDED].as_slice());
            wants(rt, grants.len() == 1);
            wants(
                rt,
                grants.as_slice().iter().all(|grant| grant.id == GRANTED),
            );
        }
        _ => wants(rt, false),
    }
}

/// The master is told of the grant and of the ending.
fn see_allocation<R: Abort>(rt: &R, tables: &mut Tables) {
    let reply = allocate(rt, tables, SIZE);
    wants_told(rt, &reply);
}

fn see_allocations<R: Abort>(rt: &R, tables: &mut Tables)
    requires { tables.old.rows ≡ [] }
{
    fill(rt, tables);
    register(rt, tables);
    see_allocation(rt, tables);
    see_allocation(rt, tables);
    wants(rt, tables.sched.len() == 1);
}

#[test]
fn a_master_is_told_of_grants_and_endings(rt: HostRuntime) {
    let mut tables = tables(rt.alloc());
    see_allocations(&rt, &mut tables);
    drop(tables);
}

fn see_refusal<R: Abort>(rt: &R, tables: &mut Tables)
    requires { tables.old.rows ≡ [] }
{
    fill(rt, tables);
    register(rt, tables);
    wants_words(rt, word(allocate(rt, tables, LARGE)), "too large");
    wants(rt, tables.asks.of(ATTEMPT).is_none());
}

#[test]
fn a_master_may_not_ask_for_too_much(rt: HostRuntime) {
    let mut tables = tables(rt.alloc());
    see_refusal(&rt, &mut tables);
    drop(tables);
}

fn see_finish<R: Abort>(rt: &R, tables: &mut Tables)
    requires { tables.old.rows ≡ [] }
{
    fill(rt, tables);
    register(rt, tables);
    wants_words(rt, finish(rt, tables), "finishing");
    wants_words(rt, finish(rt, tables), "finishing");
    wants(rt, tables.main.len() == 1);
}

#[test]
fn a_master_finishes(rt: HostRuntime) {
    let mut tables = tables(rt.alloc());
    see_finish(&rt, &mut tables);
    drop(tables);
}

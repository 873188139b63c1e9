//! What no clause says: that what services and dispatchers require can be tested for, in tables that know nothing yet.
use crate::helpers::{APP, ATTEMPT, SIZE, job, tables, text, wants};
use rm_conditions::{
    are_few, can_decide, can_pass, can_schedule, can_serve_client, can_serve_clock,
    can_serve_master, can_serve_node,
};
use rm_tables::{SchedEvent, Tables};
use rm_types::{
    Ask, ClockAsk, ContainerId, ContainerState, Items, MasterAsk, NodeAsk, Op, Resource,
};
use std::alloc::Global;
use std::process::Abort;

#[test]
fn counts_of_new_tables_have_room(rt: HostRuntime) {
    let tables = tables(rt.alloc());
    wants(&rt, are_few(&tables));
    wants(&rt, can_decide(&tables));
    wants(&rt, can_serve_client(&tables));
    drop(tables);
}

#[test]
fn the_last_epoch_and_the_last_id_have_no_next_one(rt: HostRuntime) {
    let mut tables = tables(rt.alloc());
    tables.epoch = u32::MAX;
    tables.given = u32::MAX;
    wants(&rt, !can_decide(&tables));
    wants(&rt, !can_serve_client(&tables));
    drop(tables);
}

#[test]
fn a_clock_tells_times_in_its_range(rt: HostRuntime) {
    let mut tables = tables(rt.alloc());
    wants(&rt, can_serve_clock(&tables, &ClockAsk::Tick(1)));
    tables.clock = u64::MAX;
    wants(&rt, !can_serve_clock(&tables, &ClockAsk::Tick(1)));
    drop(tables);
}

/// An allocation that asks for nothing, under a response id.
fn allocation(alloc: Global, id: u32) -> MasterAsk {
    MasterAsk::Allocate {
        id,
        asks: Items::new(alloc),
        release: Items::new(alloc),
    }
}

/// A beat that reports nothing, under a response id.
fn beat(alloc: Global, id: u32) -> NodeAsk {
    NodeAsk::Beat {
        id,
        running: Items::new(alloc),
        done: Items::new(alloc),
    }
}

/// Whether a master that allocates under this response id can be served.
fn can_allocate(alloc: Global, id: u32) -> bool {
    can_serve_master(&allocation(alloc, id))
}

/// Whether a node that beats under this response id can be served.
fn can_beat(alloc: Global, id: u32) -> bool {
    can_serve_node(&beat(alloc, id))
}

#[test]
fn the_last_response_id_has_no_next_one(rt: HostRuntime) {
    wants(&rt, can_serve_master(&MasterAsk::Register));
    wants(&rt, can_allocate(rt.alloc(), 0));
    wants(&rt, !can_allocate(rt.alloc(), u32::MAX));
    wants(&rt, can_beat(rt.alloc(), 0));
    wants(&rt, !can_beat(rt.alloc(), u32::MAX));
}

/// The book of these tables, which holds no container, has one node, which offers so many cores.
fn offer<R: Abort>(rt: &R, tables: &mut Tables, vcores: u32) {
    let capability = Resource {
        memory_mb: 1024,
        vcores,
    };
    let node = text(rt, tables.alloc, "n1");
    assert!(rt; tables.book.is_empty());
    tables.book.set_node(&node, capability).expect(rt, "memory");
}

/// Whether the first event may be worked off, once this one stands last.
fn can_schedule_with<R: Abort>(rt: &R, tables: &mut Tables, event: SchedEvent) -> bool {
    tables.sched.push(event).expect(rt, "memory");
    can_schedule(tables)
}

#[test]
fn a_pass_needs_nodes_of_few_cores_once_it_stands_first(rt: HostRuntime) {
    let mut tables = tables(rt.alloc());
    offer(&rt, &mut tables, 256);
    wants(&rt, can_pass(&tables));
    offer(&rt, &mut tables, 257);
    wants(&rt, !can_pass(&tables));
    let added = SchedEvent::AppAdded(APP);
    wants(&rt, can_schedule_with(&rt, &mut tables, added));
    let update = SchedEvent::NodeUpdate(text(&rt, rt.alloc(), "n1"));
    wants(&rt, can_schedule_with(&rt, &mut tables, update));
    let _ = tables.sched.take_first();
    wants(&rt, !can_schedule(&tables));
    drop(tables);
}

/// The first attempt of an application that is recorded asks for a container of so many cores.
fn ask<R: Abort>(rt: &R, tables: &mut Tables, vcores: u32) {
    let size = Resource {
        memory_mb: 1024,
        vcores,
    };
    let ask = Ask {
        priority: 1,
        count: 1,
        size,
    };
    tables.asks.set(ATTEMPT, ask).expect(rt, "memory");
}

/// The first container of that attempt, in a life's epoch, runs on a node.
fn run<R: Abort>(rt: &R, tables: &mut Tables, epoch: u32) {
    let node = text(rt, tables.alloc, "n1");
    let id = ContainerId {
        attempt: ATTEMPT,
        epoch,
        seq: 1,
    };
    assert!(rt; tables.book.free_of(&node).is_some());
    let added = tables.book.add(id, &node, SIZE, ContainerState::Running);
    wants(rt, added.is_ok());
}

#[test]
fn a_pass_needs_sizes_and_containers_that_are_new(rt: HostRuntime) {
    let mut tables = tables(rt.alloc());
    let submission = job(&rt, rt.alloc());
    let recorded = tables.tree.apply(&Op::App {
        id: APP,
        submission,
    });
    wants(&rt, recorded.is_ok());
    offer(&rt, &mut tables, 1);
    run(&rt, &mut tables, 1);
    ask(&rt, &mut tables, 1);
    wants(&rt, can_pass(&tables));
    tables.epoch = 1;
    wants(&rt, !can_pass(&tables));
    tables.epoch = 2;
    ask(&rt, &mut tables, 0);
    wants(&rt, !can_pass(&tables));
    drop(tables);
}

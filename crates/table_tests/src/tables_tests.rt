//! What no clause says: that a life begins and goes down where there is memory, and that its rows are found.
use crate::helpers::{size, wants};
use rm_states::app::AppState;
use rm_tables::{AppRow, RowChange, Rows, Tables};
use rm_tree::Tree;
use rm_types::{AppId, Items, Lane, Settings, Text};
use std::alloc::Global;
use std::process::Abort;

fn settings(alloc: Global) -> Settings {
    Settings {
        max_attempts: 2,
        max_completed: 1,
        max_apps: 10,
        greatest: size(8192, 8),
        ..Settings::empty(alloc)
    }
}

/// The tables before their first life.
fn new_tables(alloc: Global) -> Tables {
    Tables::new(alloc, settings(alloc))
}

fn see_life<R: Abort>(rt: &R, alloc: Global, tables: &mut Tables) {
    wants(rt, tables.is_ready(Lane::Begin));
    tables.begin(Tree::new(alloc), 5).expect(rt, "memory");
    wants(rt, tables.is_ready(Lane::Main));
    wants(rt, !tables.is_ready(Lane::Client));
    wants(rt, tables.may_go_down());
    tables.hand();
    wants(rt, !tables.may_go_down());
    tables.blow();
    wants(rt, tables.is_ready(Lane::Client));
    tables.go_down();
    wants(rt, tables.is_ready(Lane::Begin));
    wants(rt, tables.stamp == 5);
}

#[test]
fn a_life_begins_and_goes_down(rt: HostRuntime) {
    let alloc = rt.alloc();
    let mut tables = new_tables(alloc);
    see_life(&rt, alloc, &mut tables);
    drop(tables);
}

/// The row of an application that was submitted.
fn new_row(alloc: Global) -> AppRow {
    AppRow {
        state: AppState::New,
        wish: false,
        pending: None,
        current: None,
        first: 0,
        dialogue: None,
        closings: Items::new(alloc),
    }
}

fn is_in_state(rows: &Rows, id: AppId, state: AppState) -> bool {
    match rows.find(id) {
        Some(row) => row.state == state,
        None => false,
    }
}

const ID: AppId = AppId {
    stamp: 5,
    number: 1,
};

/// An application isn't scheduled before its submission is kept.
fn see_changes<R: Abort>(rt: &R, rows: &mut Rows) {
    rows.change(ID, RowChange::Schedule { number: 1 });
    wants(rt, is_in_state(rows, ID, AppState::New));
    rows.change(ID, RowChange::Issue);
    rows.change(ID, RowChange::Keep);
    rows.change(ID, RowChange::Schedule { number: 1 });
    wants(rt, is_in_state(rows, ID, AppState::Accepted));
}

/// A row that was removed is not found, and its application is retired.
fn see_removal<R: Abort>(rt: &R, rows: &mut Rows) {
    rows.remove(ID);
    wants(rt, rows.find(ID).is_none());
    wants(rt, rows.is_retired(ID));
}

#[test]
fn a_row_is_found_until_it_is_retired(rt: HostRuntime) {
    let alloc = rt.alloc();
    let mut rows = Rows::new(alloc);
    rows.add(ID, new_row(alloc)).expect(&rt, "memory");
    see_changes(&rt, &mut rows);
    see_removal(&rt, &mut rows);
}

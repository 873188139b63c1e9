//! What a pass needs of the nodes, of the rows of applications, of the asks and of the book.
ghost use Rattle.std.specs.Prelude.{◌≡◌, ◌↔◌, ◌+◌, ◌<◌, ◌^◌, ℕ, Some, true, IsTrue, length, option_map, slice_get};
ghost use Rattle.std.specs.List.{list_all};
ghost use Rattle.rm_types.specs.declared.ids.AppId.{AppId as App};
ghost use Rattle.rm_types.specs.declared.records.AppRecord.{AppRecord as Record};
ghost use Rattle.rm_book.specs.Books.{capability_of};
ghost use Rattle.rm_model.specs.Attempts.{attempt_at};
ghost use Rattle.rm_tables.specs.Rows.{row_of};
ghost use Rattle.rm_sched.specs.CanWork.{AreFew, CanPass};
ghost use Rattle.rm_conditions.specs.Passes.{is_early, has_only_past_ids, may_have_turn, offers_few, offers_few_at};

use crate::counts::are_few;
use crate::turns::law_apart;
use rm_book::Book;
use rm_sched::fit::has_sizes;
use rm_sched::{asks_some, attempt_at, granted_to};
use rm_tables::{Rows, Tables};
use rm_types::{AppId, AppRecord, AttemptId, GREATEST_VCORES, Text};

/// The sequence of an attempt's next container is at most this, so that those of one pass stay in their range.
const GREATEST_NEXT_SEQUENCE: u64 = 1 << 39;

/// Whether a node offers at most as many cores as a pass can grant, if it offers anything.
fn offers_few(book: &Book, node: &Text) -> bool
    ensures { result ≡ offers_few (capability_of book.now node.now) }
{
    match book.capability_of(node) {
        Some(capability) => capability.vcores <= GREATEST_VCORES,
        None => true,
    }
}

/// Whether the node at a place does, if there is one.
fn offers_few_at(book: &Book, place: usize) -> bool
    ensures { result ≡ offers_few_at book.now (slice_get book.now.nodes place) }
{
    match book.node_at(place) {
        Some(node) => offers_few(book, node),
        None => true,
    }
}

/// Whether each node does.
fn have_room(book: &Book) -> bool
    ensures { result ≡ list_all (λ one. offers_few (capability_of book.now one.node)) book.now.nodes }
{
    'nodes: for place in 0..book.node_count() {
        if !offers_few_at(book, place) {
            return false;
        }
    }
    true
}

/// Whether the sequence of one more container of an application's current attempt is at most the greatest.
fn is_early(rows: &Rows, id: AppId) -> bool
    ensures { result ≡ is_early (row_of rows.now id) }
{
    let Some(row) = rows.find(id) else {
        return true;
    };
    match row.current {
        Some(current) => current.granted < GREATEST_NEXT_SEQUENCE,
        None => true,
    }
}

/// Whether that of each application is.
fn are_early(rows: &Rows) -> bool
    ensures { IsTrue result ↔ ((place : ℕ) (id : App) → option_map (λ slot. slot.0) (slice_get rows.now place) ≡ Some id → is_early (row_of rows.now id) ≡ true) }
{
    'slots: for place in 0..rows.len() {
        if !is_early(rows, rows.id_at(place)) {
            return false;
        }
    }
    true
}

/// Whether no container of the book is one that an attempt may yet be granted.
fn is_new_to(t: &Tables, attempt: AttemptId) -> bool
    ensures { result ≡ has_only_past_ids t.now attempt }
{
    !t.book
        .has_later(attempt, t.epoch, granted_to(&t.rows, attempt))
}

/// Whether an attempt may have a turn.
fn may_have_turn(t: &Tables, attempt: AttemptId) -> bool
    ensures { result ≡ may_have_turn t.now attempt }
{
    has_sizes(&t.asks, attempt) && (!asks_some(&t.asks, attempt) || is_new_to(t, attempt))
}

/// Whether the attempt that an application is at may.
fn may_be_next(t: &Tables, app: &AppRecord) -> bool
    requires { length app.now.attempts + 1 < 2 ^ 32 }
    ensures { result ≡ may_have_turn t.now (attempt_at app.now) }
{
    may_have_turn(t, attempt_at(app))
}

/// Whether the attempt that each application is at may.
fn may_have_turns(t: &Tables) -> bool
    requires few { AreFew t.now }
    ensures { IsTrue result ↔ ((place : ℕ) (app : Record) → slice_get t.now.tree.apps place ≡ Some app → may_have_turn t.now (attempt_at app) ≡ true) }
{
    'records: for place in 0..t.tree.len() {
        if !may_be_next(t, t.tree.at(place)) {
            return false;
        }
    }
    true
}

/// Whether a pass may be made on any node, where the numbers of attempts are in range.
fn is_passable(t: &Tables) -> bool
    requires few { AreFew t.now }
    ensures { IsTrue result ↔ CanPass t.now }
{
    law_apart(t);
    have_room(&t.book) && are_early(&t.rows) && may_have_turns(t)
}

/// Whether a pass may be made on any node: all that `rm_sched::front` requires where its first event makes one. Each node offers at most
/// 256 cores; the number of the next attempt of each application, and the sequence of the next container of each attempt, are in range;
/// what is asked for has a megabyte and a core at least; and no container of the book is one that may yet be granted. It walks over all
/// records, and for each over the book.
pub fn can_pass(t: &Tables) -> bool
    ensures { IsTrue result ↔ (AreFew t.now × CanPass t.now) }
{
    are_few(t) && is_passable(t)
}

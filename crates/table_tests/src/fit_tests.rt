//! What no clause says: small passes by hand.
ghost use Rattle.std.specs.Prelude.{IsTrue};
ghost use Rattle.rm_sched.specs.fit.Conditions.{TurnsAreApart, are_early};

use crate::helpers::{FIRST, SECOND, ask, size, text, wants, wants_words};
use rm_book::{Asks, Book};
use rm_sched::fit::{first_fit, have_sizes};
use rm_types::{AttemptId, ContainerId, ContainerState, Grant, Items, Resource, Text, Turn};
use std::alloc::Global;
use std::process::Abort;

/// The name of the only node.
const NODE: &[u8] = b"n1:1";

/// A book of the node, on which nothing stands.
fn book_of<R: Abort>(rt: &R, alloc: Global, capability: Resource) -> Book {
    let mut book = Book::new(alloc);
    let node = text(rt, alloc, NODE);
    book.set_node(&node, capability).expect(rt, "memory");
    book
}

/// Asks of attempts for containers of one core: of whom, the priority, the number and the memory.
fn asked<R: Abort>(rt: &R, alloc: Global, lines: &[(AttemptId, u32, u32, u32)]) -> Asks {
    let mut asks = Asks::new(alloc);
    for (attempt, priority, count, memory_mb) in lines {
        let line = ask(*priority, *count, *memory_mb);
        asks.set(*attempt, line).expect(rt, "memory");
    }
    asks
}

/// The grants of a pass on the node, where the attempts have these turns.
fn pass<R: Abort>(rt: &R, alloc: Global, book: &Book, asks: &Asks, turns: &[Turn]) -> Items<Grant>
    requires attempts { TurnsAreApart turns.now }
    requires sequences { IsTrue (are_early turns.now) }
{
    let node = text(rt, alloc, NODE);
    let order = Items::from_vec(turns.to_vec(alloc).expect(rt, "memory"));
    let free = book.free_of(&node).expect(rt, "the node has a capability");
    assert!(rt; free.vcores <= 256 && have_sizes(asks, &order));
    first_fit(alloc, book, asks, &order, &node, 17).expect(rt, "memory")
}

/// The attempt's number, the sequence and the memory of each grant are these.
fn wants_grants<R: Abort>(rt: &R, alloc: Global, grants: &Items<Grant>, wanted: &str) {
    let mut found = String::new(alloc);
    for grant in grants.as_slice() {
        write!(
            found,
            "{}.{} {}, ",
            grant.id.attempt.number, grant.id.seq, grant.size.memory_mb
        )
        .expect(rt, "memory");
    }
    wants_words(rt, found.as_str(), wanted);
}

/// A container of the first attempt runs on the node, and takes so much of it.
fn run<R: Abort>(rt: &R, book: &mut Book, node: &Text, size: Resource) {
    let id = ContainerId {
        attempt: FIRST,
        epoch: 0,
        seq: 1,
    };
    assert!(rt; book.free_of(node).is_some());
    assert!(rt; book.add(id, node, size, ContainerState::Running).is_ok());
}

/// A pass on the node, where the attempts have these turns, grants these.
fn see_grants<R: Abort>(
    rt: &R,
    alloc: Global,
    book: &Book,
    asks: &Asks,
    turns: &[Turn],
    wanted: &str,
)
    requires attempts { TurnsAreApart turns.now }
    requires sequences { IsTrue (are_early turns.now) }
{
    let grants = pass(rt, alloc, book, asks, turns);
    wants_grants(rt, alloc, &grants, wanted);
}

/// A pass on the node, where the attempts ask for this and have these turns, grants these.
fn see_pass<R: Abort>(
    rt: &R,
    alloc: Global,
    book: Book,
    lines: &[(AttemptId, u32, u32, u32)],
    turns: &[Turn],
    wanted: &str,
)
    requires attempts { TurnsAreApart turns.now }
    requires sequences { IsTrue (are_early turns.now) }
{
    let asks = asked(rt, alloc, lines);
    see_grants(rt, alloc, &book, &asks, turns, wanted);
    drop(asks);
    drop(book);
}

const LARGE_ASK: [(AttemptId, u32, u32, u32); 3] = [
    (FIRST, 3, 1, 512),
    (FIRST, 2, 1, 2048),
    (FIRST, 1, 3, 1200),
];

const FROM_5: [Turn; 1] = [Turn {
    attempt: FIRST,
    next_seq: 5,
}];

#[test]
fn an_ask_that_does_not_fit_stops_no_later_one(rt: HostRuntime) {
    let alloc = rt.alloc();
    let mut book = book_of(&rt, alloc, size(4096, 4));
    run(&rt, &mut book, &text(&rt, alloc, NODE), size(1024, 1));
    see_pass(
        &rt,
        alloc,
        book,
        LARGE_ASK.as_slice(),
        FROM_5.as_slice(),
        "1.5 1200, 1.6 1200, 1.7 512, ",
    );
}

const TWO_ATTEMPTS: [(AttemptId, u32, u32, u32); 3] = [
    (FIRST, 1, 1, 512),
    (FIRST, 0, 2, 1024),
    (SECOND, 5, 2, 256),
];

const SECOND_FIRST: [Turn; 2] = [
    Turn {
        attempt: SECOND,
        next_seq: 9,
    },
    Turn {
        attempt: FIRST,
        next_seq: 1,
    },
];

#[test]
fn attempts_go_in_turn_and_their_asks_by_priority(rt: HostRuntime) {
    let alloc = rt.alloc();
    let book = book_of(&rt, alloc, size(4096, 4));
    see_pass(
        &rt,
        alloc,
        book,
        TWO_ATTEMPTS.as_slice(),
        SECOND_FIRST.as_slice(),
        "2.9 256, 2.10 256, 1.1 1024, 1.2 1024, ",
    );
}

const EQUAL_PRIORITIES: [(AttemptId, u32, u32, u32); 3] = [
    (FIRST, 1, 1, 1024),
    (FIRST, 1, 1, 512),
    (FIRST, 1, 2, 1024),
];

const FROM_1: [Turn; 1] = [Turn {
    attempt: FIRST,
    next_seq: 1,
}];

#[test]
fn equal_priorities_go_in_the_order_of_first_asking(rt: HostRuntime) {
    let alloc = rt.alloc();
    let book = book_of(&rt, alloc, size(2048, 4));
    see_pass(
        &rt,
        alloc,
        book,
        EQUAL_PRIORITIES.as_slice(),
        FROM_1.as_slice(),
        "1.1 1024, 1.2 1024, ",
    );
}

const THOUSAND: [(AttemptId, u32, u32, u32); 1] = [(FIRST, 1, 1000, 1)];

/// The greatest sequence that a turn may begin with.
const LAST_TURN: [Turn; 1] = [Turn {
    attempt: FIRST,
    next_seq: 549755813888,
}];

/// A pass on the node grants 256 containers.
fn see_most_grants<R: Abort>(rt: &R, alloc: Global, book: &Book, asks: &Asks) {
    let grants = pass(rt, alloc, book, asks, LAST_TURN.as_slice());
    wants(rt, grants.len() == 256);
}

#[test]
fn a_node_takes_256_containers_at_most(rt: HostRuntime) {
    let alloc = rt.alloc();
    let book = book_of(&rt, alloc, size(16777216, 256));
    let asks = asked(&rt, alloc, THOUSAND.as_slice());
    see_most_grants(&rt, alloc, &book, &asks);
    drop(asks);
    drop(book);
}

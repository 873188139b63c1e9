//! What no clause says: that calls succeed, and small cases by hand.
ghost use Rattle.std.specs.Prelude.{◌≡◌, ◌++◌, ◌∷◌, []};
ghost use Rattle.rm_book.specs.Books.{empty_book, set_node_in};

use crate::helpers::{FIRST, SECOND, ask, size, text, wants, wants_words};
use rm_book::{Asks, Book, BookError};
use rm_types::{
    Ask, AttemptId, ContainerId, ContainerState, Duplicate, Grant, Items, Queue, Resource, Text,
};
use std::alloc::Global;
use std::process::Abort;

fn container(attempt: AttemptId, seq: u64) -> ContainerId
    ensures { result ≡ record { attempt = attempt; epoch = 0; seq = seq } }
{
    ContainerId {
        attempt,
        epoch: 0,
        seq,
    }
}

/// What comes of adding a container on a node.
fn outcome(
    book: &mut Book,
    id: ContainerId,
    node: &Text,
    size: Resource,
    state: ContainerState,
) -> &'static str {
    if book.free_of(node).is_none() {
        return "no capability";
    }
    match book.add(id, node, size, state) {
        Ok(()) => "ok",
        Err(BookError::Held) => "held",
        Err(BookError::Ended) => "ended",
        Err(BookError::NoRoom) => "no room",
        Err(BookError::Memory) => "no memory",
    }
}

/// A container is granted on a node, and this comes of it.
fn grant<R: Abort>(
    rt: &R,
    book: &mut Book,
    id: ContainerId,
    node: &Text,
    size: Resource,
    wanted: &str,
) {
    let found = outcome(book, id, node, size, ContainerState::Granted);
    wants_words(rt, found, wanted);
}

/// So much is left of a node.
fn wants_free<R: Abort>(rt: &R, book: &Book, node: &Text, memory_mb: u32, vcores: u32) {
    wants(rt, book.free_of(node) == Some(size(memory_mb, vcores)));
}

/// These containers live on a node.
fn live_on<R: Abort>(rt: &R, book: &Book, node: &Text, wanted: &[ContainerId]) {
    let ids = book.of_node(node).expect(rt, "memory");
    assert!(rt; ids.as_slice() == wanted);
}

/// These containers of an attempt live.
fn live_of<R: Abort>(rt: &R, book: &Book, attempt: AttemptId, wanted: &[ContainerId]) {
    let ids = book.of_attempt(attempt).expect(rt, "memory");
    assert!(rt; ids.as_slice() == wanted);
}

/// A book of two nodes: containers of two attempts stand on one, and a container on the other.
fn shared<R: Abort>(rt: &R, alloc: Global, one: &Text, other: &Text) -> Book {
    let mut book = Book::new(alloc);
    book.set_node(one, size(4096, 4)).expect(rt, "memory");
    book.set_node(other, size(1024, 1)).expect(rt, "memory");
    wants_free(rt, &book, one, 4096, 4);
    grant(
        rt,
        &mut book,
        container(SECOND, 1),
        one,
        size(1024, 1),
        "ok",
    );
    grant(rt, &mut book, container(FIRST, 2), one, size(2048, 1), "ok");
    grant(
        rt,
        &mut book,
        container(FIRST, 1),
        other,
        size(1024, 1),
        "ok",
    );
    book
}

const ON_ONE: [ContainerId; 2] = [
    ContainerId {
        attempt: FIRST,
        epoch: 0,
        seq: 2,
    },
    ContainerId {
        attempt: SECOND,
        epoch: 0,
        seq: 1,
    },
];

const OF_FIRST: [ContainerId; 2] = [
    ContainerId {
        attempt: FIRST,
        epoch: 0,
        seq: 1,
    },
    ContainerId {
        attempt: FIRST,
        epoch: 0,
        seq: 2,
    },
];

/// The containers of both attempts stand in the shared book, and take their parts of the nodes.
fn see_shares<R: Abort>(rt: &R, book: &Book, one: &Text, other: &Text) {
    wants_free(rt, book, one, 1024, 2);
    wants_free(rt, book, other, 0, 0);
    live_on(rt, book, one, ON_ONE.as_slice());
    live_of(rt, book, FIRST, OF_FIRST.as_slice());
}

/// The shared book takes no container twice, none that doesn't fit, and none that has ended.
fn see_refusals<R: Abort>(rt: &R, book: &mut Book, one: &Text, other: &Text) {
    let held = container(FIRST, 2);
    grant(rt, book, held, other, size(9999, 9), "held");
    let third = container(SECOND, 2);
    grant(rt, book, third, one, size(1025, 1), "no room");
    grant(rt, book, third, one, size(1, 3), "no room");
    let ended = outcome(book, third, one, size(1, 3), ContainerState::Completed);
    wants_words(rt, ended, "ended");
}

/// The shared book takes a container that fills a node.
fn see_last_room<R: Abort>(rt: &R, book: &mut Book, one: &Text) {
    let third = container(SECOND, 2);
    grant(rt, book, third, one, size(1024, 2), "ok");
    wants(rt, book.len() == 4);
}

#[test]
fn two_attempts_share_a_node(rt: HostRuntime) {
    let alloc = rt.alloc();
    let one = text(&rt, alloc, b"n1:1");
    let other = text(&rt, alloc, b"n2:1");
    let mut book = shared(&rt, alloc, &one, &other);
    see_shares(&rt, &book, &one, &other);
    see_refusals(&rt, &mut book, &one, &other);
    see_last_room(&rt, &mut book, &one);
    drop(book);
}

fn is_told(book: &Book, id: ContainerId, told: u64) -> bool {
    match book.get(id) {
        Some(row) => row.told == told,
        None => false,
    }
}

fn is_in_state(book: &Book, id: ContainerId, state: ContainerState) -> bool {
    match book.get(id) {
        Some(row) => row.state == state,
        None => false,
    }
}

fn is_gone(book: &Book, id: ContainerId) -> bool {
    book.get(id).is_none()
}

/// A container that stood on a node under this number ends.
fn end<R: Abort>(rt: &R, book: &mut Book, id: ContainerId, node: &Text, told: u64) {
    let row = book.end(id).expect(rt, "the row is there");
    wants(rt, row.told == told);
    wants(rt, row.node.is_same(node));
}

/// A book of one node with two containers of the first attempt, of which the second runs.
fn two_of_one<R: Abort>(rt: &R, alloc: Global, node: &Text) -> Book {
    let mut book = Book::new(alloc);
    wants(rt, book.free_of(node).is_none());
    book.set_node(node, size(2048, 2)).expect(rt, "memory");
    grant(
        rt,
        &mut book,
        container(FIRST, 1),
        node,
        size(1024, 1),
        "ok",
    );
    grant(
        rt,
        &mut book,
        container(FIRST, 2),
        node,
        size(1024, 1),
        "ok",
    );
    wants(rt, book.run(container(FIRST, 2)));
    wants(rt, !book.run(container(FIRST, 3)));
    book
}

/// The first container ends once, and its room is free then.
fn see_end<R: Abort>(rt: &R, book: &mut Book, node: &Text) {
    let first = container(FIRST, 1);
    end(rt, book, first, node, 1);
    wants(rt, book.end(first).is_none());
    wants_free(rt, book, node, 1024, 1);
}

/// The first container is granted anew under the next number, and the others are as they were.
fn see_new_grant<R: Abort>(rt: &R, book: &mut Book, node: &Text) {
    let first = container(FIRST, 1);
    grant(rt, book, first, node, size(512, 1), "ok");
    wants(rt, is_told(book, first, 3));
    let second = container(FIRST, 2);
    wants(rt, is_in_state(book, second, ContainerState::Running));
    wants(rt, is_gone(book, container(FIRST, 3)));
}

#[test]
fn an_ended_container_gives_its_room_back_and_keeps_its_number(rt: HostRuntime) {
    let alloc = rt.alloc();
    let node = text(&rt, alloc, b"n1:1");
    let mut book = two_of_one(&rt, alloc, &node);
    see_end(&rt, &mut book, &node);
    see_new_grant(&rt, &mut book, &node);
    drop(book);
}

/// A book of one node, where nothing stands.
fn book_of<R: Abort>(rt: &R, alloc: Global, node: &Text, capability: Resource) -> Book
    ensures { result ≡ set_node_in empty_book node.now capability }
{
    let mut book = Book::new(alloc);
    book.set_node(node, capability).expect(rt, "memory");
    book
}

/// One more grant on a node.
fn push<R: Abort>(rt: &R, grants: &mut Items<Grant>, id: ContainerId, node: &Text, size: Resource)
    ensures { grants.new ≡ grants.old ++ record { id = id; node = node.now; size = size } ∷ [] }
{
    let node = node.copy().expect(rt, "memory");
    grants.push(Grant { id, node, size }).expect(rt, "memory");
}

/// A book of one node, in which the grants of a pass were entered at once.
fn entered<R: Abort>(rt: &R, alloc: Global) -> Book {
    let node = text(rt, alloc, b"n1:1");
    let mut book = book_of(rt, alloc, &node, size(4096, 4));
    let mut grants = Items::new(alloc);
    push(rt, &mut grants, container(FIRST, 1), &node, size(1024, 1));
    push(rt, &mut grants, container(SECOND, 1), &node, size(2048, 2));
    let mut posts: Queue<u32> = Queue::new(alloc);
    book.add_grants(&node, &grants, &mut posts, &[1, 2])
        .expect(rt, "memory");
    wants(rt, posts.len() == 2);
    book
}

/// The second container that entered has its number and its state, and both take their room.
fn see_entry<R: Abort>(rt: &R, book: &Book, node: &Text) {
    let second = container(SECOND, 1);
    wants(rt, is_told(book, second, 2));
    wants(rt, is_in_state(book, second, ContainerState::Granted));
    wants_free(rt, book, node, 1024, 1);
}

/// The second container ends with one that isn't there, and the first stands alone then.
fn see_ends<R: Abort>(rt: &R, book: &mut Book, node: &Text) {
    book.end_all(&[container(SECOND, 1), container(FIRST, 2)]);
    wants(rt, book.len() == 1);
    wants(rt, !is_gone(book, container(FIRST, 1)));
    wants_free(rt, book, node, 3072, 3);
}

#[test]
fn the_grants_of_a_pass_enter_and_end_at_once(rt: HostRuntime) {
    let alloc = rt.alloc();
    let node = text(&rt, alloc, b"n1:1");
    let mut book = entered(&rt, alloc);
    see_entry(&rt, &book, &node);
    see_ends(&rt, &mut book, &node);
    drop(book);
}

/// The priority, the number and the memory of each ask of the first attempt are these.
fn wants_asks<R: Abort>(rt: &R, alloc: Global, asks: &Asks, wanted: &str) {
    let mut found = String::new(alloc);
    if let Some(lines) = asks.of(FIRST) {
        for line in lines.as_slice() {
            write!(
                found,
                "{} {} {}, ",
                line.ask.priority, line.ask.count, line.ask.size.memory_mb
            )
            .expect(rt, "memory");
        }
    }
    wants_words(rt, found.as_str(), wanted);
}

/// Sets an ask of an attempt, for containers of one core.
fn set<R: Abort>(
    rt: &R,
    asks: &mut Asks,
    attempt: AttemptId,
    priority: u32,
    count: u32,
    memory_mb: u32,
) {
    let line = ask(priority, count, memory_mb);
    asks.set(attempt, line).expect(rt, "memory");
}

fn is_asking(asks: &Asks, attempt: AttemptId) -> bool {
    asks.of(attempt).is_some()
}

/// Asks of two attempts, of which two of the first have one priority.
fn asked<R: Abort>(rt: &R, alloc: Global) -> Asks {
    let mut asks = Asks::new(alloc);
    wants(rt, !is_asking(&asks, FIRST));
    set(rt, &mut asks, FIRST, 2, 1, 512);
    set(rt, &mut asks, FIRST, 1, 3, 1024);
    set(rt, &mut asks, SECOND, 1, 1, 1024);
    set(rt, &mut asks, FIRST, 1, 2, 256);
    asks
}

/// One of each of two sizes is granted to the first attempt, and no other of the last.
fn are_granted<R: Abort>(rt: &R, asks: &mut Asks) {
    wants(rt, asks.granted(FIRST, 1, size(256, 1)));
    wants(rt, asks.granted(FIRST, 2, size(512, 1)));
    wants(rt, !asks.granted(FIRST, 2, size(512, 1)));
}

/// An ask that is set anew keeps its place, and one that was taken back comes last of its priority.
fn see_order<R: Abort>(rt: &R, alloc: Global, asks: &mut Asks) {
    wants_asks(rt, alloc, asks, "1 3 1024, 1 2 256, 2 1 512, ");
    set(rt, asks, FIRST, 1, 5, 1024);
    wants_asks(rt, alloc, asks, "1 5 1024, 1 2 256, 2 1 512, ");
    set(rt, asks, FIRST, 1, 0, 1024);
    set(rt, asks, FIRST, 1, 1, 1024);
    wants_asks(rt, alloc, asks, "1 2 256, 1 1 1024, 2 1 512, ");
}

/// The first attempt's asks are cleared, and those of the second stay.
fn see_clearing<R: Abort>(rt: &R, asks: &mut Asks) {
    asks.clear(FIRST);
    wants(rt, !is_asking(asks, FIRST));
    wants(rt, is_asking(asks, SECOND));
}

#[test]
fn asks_of_equal_priority_stand_in_the_order_of_asking(rt: HostRuntime) {
    let alloc = rt.alloc();
    let mut asks = asked(&rt, alloc);
    see_order(&rt, alloc, &mut asks);
    are_granted(&rt, &mut asks);
    wants_asks(&rt, alloc, &asks, "1 1 256, 1 1 1024, ");
    see_clearing(&rt, &mut asks);
    drop(asks);
}

/// The numbers of the attempts that ask for something are these.
fn wants_waiting<R: Abort>(rt: &R, alloc: Global, asks: &Asks, wanted: &str) {
    let mut found = String::new(alloc);
    for id in asks.waiting().expect(rt, "memory").as_slice() {
        write!(found, "{} ", id.number).expect(rt, "memory");
    }
    wants_words(rt, found.as_str(), wanted);
}

/// Two attempts wait for one container each, until the second is granted it.
fn see_both_wait<R: Abort>(rt: &R, alloc: Global, asks: &mut Asks) {
    wants_waiting(rt, alloc, asks, "");
    set(rt, asks, SECOND, 1, 1, 1024);
    set(rt, asks, FIRST, 1, 1, 1024);
    wants_waiting(rt, alloc, asks, "1 2 ");
    wants(rt, asks.granted(SECOND, 1, size(1024, 1)));
    wants_waiting(rt, alloc, asks, "1 ");
}

/// The first attempt waits no more when its asks are cleared, and waits again when it asks again.
fn see_first_wait<R: Abort>(rt: &R, alloc: Global, asks: &mut Asks) {
    asks.clear(FIRST);
    wants_waiting(rt, alloc, asks, "");
    set(rt, asks, FIRST, 1, 1, 1024);
    wants_waiting(rt, alloc, asks, "1 ");
}

#[test]
fn attempts_wait_while_they_ask(rt: HostRuntime) {
    let alloc = rt.alloc();
    let mut asks = Asks::new(alloc);
    see_both_wait(&rt, alloc, &mut asks);
    see_first_wait(&rt, alloc, &mut asks);
    drop(asks);
}

/// Sets many asks of the first attempt, of which so many may stand; whether they were set.
fn set_all<R: Abort>(rt: &R, asks: &mut Asks, more: &[Ask], most: usize) -> bool {
    asks.set_all(FIRST, more, most).expect(rt, "memory")
}

const MORE: [Ask; 2] = [
    Ask {
        priority: 1,
        count: 3,
        size: Resource {
            memory_mb: 1024,
            vcores: 1,
        },
    },
    Ask {
        priority: 2,
        count: 4,
        size: Resource {
            memory_mb: 512,
            vcores: 1,
        },
    },
];

#[test]
fn many_asks_are_set_or_none(rt: HostRuntime) {
    let alloc = rt.alloc();
    let mut asks = Asks::new(alloc);
    set(&rt, &mut asks, FIRST, 2, 1, 512);
    wants(&rt, !set_all(&rt, &mut asks, MORE.as_slice(), 1));
    wants_asks(&rt, alloc, &asks, "2 1 512, ");
    wants(&rt, set_all(&rt, &mut asks, MORE.as_slice(), 2));
    wants_asks(&rt, alloc, &asks, "1 3 1024, 2 4 512, ");
    drop(asks);
}

/// The only container that an attempt was granted and not told of is this.
fn is_granted<R: Abort>(rt: &R, book: &Book, attempt: AttemptId, wanted: ContainerId) {
    let granted = book.granted_to(attempt).expect(rt, "memory");
    wants(rt, granted.len() == 1);
    wants(rt, granted.as_slice().iter().all(|one| one.id == wanted));
}

/// Two containers of the first attempt and one of the second are granted on a node.
fn grant_three<R: Abort>(rt: &R, book: &mut Book, node: &Text) {
    for id in OF_FIRST.as_slice() {
        grant(rt, book, *id, node, size(1024, 1), "ok");
    }
    grant(rt, book, container(SECOND, 3), node, size(1024, 1), "ok");
}

#[test]
fn what_nobody_was_told_of_is_granted(rt: HostRuntime) {
    let alloc = rt.alloc();
    let node = text(&rt, alloc, b"n1:1");
    let mut book = book_of(&rt, alloc, &node, size(4096, 4));
    grant_three(&rt, &mut book, &node);
    wants(&rt, book.run(container(FIRST, 1)));
    is_granted(&rt, &book, FIRST, container(FIRST, 2));
    drop(book);
}

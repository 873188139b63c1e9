//! What no clause says: each call once, over messages of all four senders.
use crate::helpers::{APP, ATTEMPT, text, wants, wants_words};
use rm_desk::Feed;
use rm_types::{ClientAsk, ClockAsk, Items, MasterAsk, Message, NodeAsk, Sender};
use std::alloc::Global;
use std::process::Abort;

fn put<R: Abort>(rt: &R, messages: &mut Items<Message>, message: Message) {
    messages.push(message).expect(rt, "memory");
}

/// The beat of a node that runs nothing.
fn beat<R: Abort>(rt: &R, alloc: Global) -> Message {
    let ask = NodeAsk::Beat {
        id: 1,
        running: Items::new(alloc),
        done: Items::new(alloc),
    };
    Message::Node(text(rt, alloc, "n1"), ask)
}

/// What alice wants.
fn wanted<R: Abort>(rt: &R, alloc: Global, ask: ClientAsk) -> Message {
    Message::Client(text(rt, alloc, "alice"), ask)
}

/// Alice wants a new id, a node beats, alice wants a report, the clock ticks, and a master registers.
fn mixed<R: Abort>(rt: &R, alloc: Global) -> Items<Message> {
    let mut messages = Items::new(alloc);
    put(rt, &mut messages, wanted(rt, alloc, ClientAsk::New));
    put(rt, &mut messages, beat(rt, alloc));
    put(rt, &mut messages, wanted(rt, alloc, ClientAsk::Report(APP)));
    put(rt, &mut messages, Message::Clock(ClockAsk::Tick(7)));
    put(
        rt,
        &mut messages,
        Message::Master(ATTEMPT, MasterAsk::Register),
    );
    messages
}

/// Which message of a sender is the first.
fn first(feed: &Feed, sender: Sender) -> &'static str {
    match feed.first(sender) {
        Some(Message::Client(_, ClientAsk::New)) => "new",
        Some(Message::Client(_, ClientAsk::Report(_))) => "report",
        Some(Message::Node(_, NodeAsk::Beat { id: 1, .. })) => "beat",
        Some(Message::Clock(ClockAsk::Tick(7))) => "tick",
        Some(Message::Master(_, MasterAsk::Register)) => "register",
        Some(_) => "another",
        None => "none",
    }
}

fn see_feeds<R: Abort>(rt: &R, feed: &mut Feed) {
    wants_words(rt, first(feed, Sender::Client), "new");
    feed.take(Sender::Client);
    wants_words(rt, first(feed, Sender::Client), "report");
    wants_words(rt, first(feed, Sender::Node), "beat");
    feed.take(Sender::Client);
    wants(rt, !feed.has(Sender::Client) && feed.has(Sender::Node));
    feed.take(Sender::Node);
    wants(rt, !feed.has(Sender::Node));
    wants_words(rt, first(feed, Sender::Node), "none");
    wants_words(rt, first(feed, Sender::Clock), "tick");
    wants_words(rt, first(feed, Sender::Master), "register");
}

#[test]
fn each_sender_has_a_feed(rt: HostRuntime) {
    let mut feed = Feed::from_items(mixed(&rt, rt.alloc()));
    see_feeds(&rt, &mut feed);
}

#[test]
fn a_feed_is_empty_once_all_is_taken(rt: HostRuntime) {
    wants(&rt, Feed::new(rt.alloc()).is_empty());
    let mut feed = Feed::from_items(mixed(&rt, rt.alloc()));
    feed.take(Sender::Master);
    feed.take(Sender::Clock);
    feed.take(Sender::Node);
    feed.take(Sender::Client);
    wants(&rt, !feed.is_empty());
    feed.take(Sender::Client);
    wants(&rt, feed.is_empty());
    feed.take(Sender::Client);
    wants(&rt, feed.is_empty());
}

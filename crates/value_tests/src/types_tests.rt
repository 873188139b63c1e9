//! What no clause says: that calls succeed, that the limits are those of the kinds, and that copies show as their sources.
use crate::helpers::{boxed, is_text, only, push, text, wants};
use rm_types::*;
use std::alloc::Global;
use std::fmt::Debug;
use std::process::Abort;

/// So many good bytes, but for a bad one at a place, if it is among them.
fn bytes_with<R: Abort + AllocGlobal>(
    rt: &R,
    count: usize,
    good: u8,
    bad: u8,
    bad_at: usize,
) -> Vec<u8> {
    let mut bytes = vec![in rt.alloc(); good; count].expect(rt, "memory");
    if let Some(byte) = bytes.get_mut(bad_at) {
        *byte = bad;
    }
    bytes
}

/// The place at fault in the bytes, if they are no text of the kind; `usize::MAX` where there is no memory.
fn fault_in(alloc: Global, bytes: &[u8], kind: TextKind) -> Option<usize> {
    match Text::read(alloc, bytes, kind) {
        Ok(_text) => None,
        Err(TextError::NotText { place }) => Some(place),
        Err(TextError::Memory) => Some(usize::MAX),
    }
}

/// A kind of texts, and what it takes.
#[derive(Clone, Copy)]
struct Limits {
    kind: TextKind,
    /// The place at fault in no bytes.
    empty: Option<usize>,
    /// The most bytes.
    greatest: usize,
    /// A byte that may stand in it, and one that mayn't.
    good: u8,
    bad: u8,
}

impl Limits {
    /// Sees that so many bytes are at fault at this place, or nowhere.
    fn see<R: Abort + AllocGlobal>(
        &self,
        rt: &R,
        count: usize,
        bad_at: usize,
        want: Option<usize>,
    ) {
        let bytes = bytes_with(rt, count, self.good, self.bad, bad_at);
        let fault = fault_in(rt.alloc(), &bytes, self.kind);
        let kind = self.kind;
        assert!(rt;
            fault == want,
            "{kind:?}: {count} bytes, the bad one at {bad_at}"
        );
    }
}

const KINDS: [Limits; 5] = [
    Limits {
        kind: TextKind::Name,
        empty: Some(0),
        greatest: 64,
        good: b'Z',
        bad: b':',
    },
    Limits {
        kind: TextKind::Node,
        empty: Some(0),
        greatest: 64,
        good: b':',
        bad: b'/',
    },
    Limits {
        kind: TextKind::Queue,
        empty: Some(0),
        greatest: 128,
        good: b'-',
        bad: b'A',
    },
    Limits {
        kind: TextKind::Note,
        empty: None,
        greatest: 256,
        good: 0x20,
        bad: 0x1f,
    },
    Limits {
        kind: TextKind::AclText,
        empty: None,
        greatest: 512,
        good: 0x7e,
        bad: 0x7f,
    },
];

#[test]
fn texts_are_read_by_their_kind(rt: HostRuntime) {
    for limits in KINDS.as_slice() {
        let greatest = limits.greatest;
        let last = greatest.saturating_sub(1);
        let over = greatest.saturating_add(1);
        limits.see(&rt, 0, 0, limits.empty);
        limits.see(&rt, 1, over, None);
        limits.see(&rt, greatest, over, None);
        limits.see(&rt, over, over, Some(greatest));
        limits.see(&rt, greatest, 0, Some(0));
        limits.see(&rt, greatest, last, Some(last));
        limits.see(&rt, over, last, Some(last));
        limits.see(&rt, over, greatest, Some(greatest));
    }
}

fn size(memory_mb: u32, vcores: u32) -> Resource {
    Resource { memory_mb, vcores }
}

#[test]
fn resources_go_by_part(rt: HostRuntime) {
    let most = u32::MAX;
    let all = Some(size(most, most));
    wants(&rt, size(most - 1, 1).plus(size(1, most - 1)) == all);
    wants(&rt, size(most, 0).plus(size(1, 0)).is_none());
    wants(&rt, size(0, most).plus(size(0, 1)).is_none());
    wants(&rt, size(5, 3).minus(size(5, 2)) == Some(size(0, 1)));
    wants(&rt, size(5, 3).minus(size(6, 0)).is_none());
    wants(&rt, size(5, 3).minus(size(0, 4)).is_none());
    wants(&rt, size(5, 3).fits(size(5, 3)));
    wants(&rt, !size(6, 3).fits(size(5, 4)));
    wants(&rt, !size(5, 4).fits(size(6, 3)));
}

fn an_attempt() -> AttemptId {
    let app = AppId {
        stamp: 1410901177871,
        number: 1,
    };
    AttemptId { app, number: 1 }
}

fn a_container(epoch: u32, seq: u64) -> ContainerId {
    ContainerId {
        attempt: an_attempt(),
        epoch,
        seq,
    }
}

#[test]
fn a_container_has_its_number(rt: HostRuntime) {
    let id = ContainerId {
        attempt: an_attempt(),
        epoch: 17,
        seq: 5,
    };
    assert_eq!(rt; id.number(), 18691697672197);
}

/// Puts a number in the place of the last one, if there is one.
fn set_last(numbers: &mut Items<u32>, number: u32) {
    if numbers.len() > 0 {
        numbers.set_last(number);
    }
}

fn second(numbers: &Items<u32>) -> Option<u32> {
    if numbers.len() > 1 {
        Some(*numbers.at(1))
    } else {
        None
    }
}

/// Sees what a list of numbers holds, as it changes.
fn see_numbers<R: Abort>(rt: &R, mut numbers: Items<u32>) {
    numbers.retain(|number| *number != 2);
    wants(rt, numbers.len() == 3);
    set_last(&mut numbers, 7);
    wants(rt, numbers.as_slice() == [1, 3, 7].as_slice());
    numbers.drop_last();
    wants(rt, numbers.len() == 2);
    wants(rt, second(&numbers) == Some(3));
}

/// Sees what two lists hold to which items are added at once.
fn see_lists<R: Abort + AllocGlobal>(rt: &R) {
    let mut numbers = Items::new(rt.alloc());
    let mut names = Items::new(rt.alloc());
    for number in 1..5 {
        push_both(&mut numbers, number, &mut names, b'a').expect(rt, "memory");
    }
    is_text(rt, &names.into_vec(), "aaaa");
    see_numbers(rt, numbers);
    let mut number = boxed(rt, 3);
    number.set(4);
    wants(rt, *number.get() == 4);
}

#[test]
fn lists_and_queues_take_items(rt: HostRuntime) {
    see_lists(&rt);
    let mut line = Queue::new(rt.alloc());
    wants(&rt, line.is_empty());
    for number in 1..4 {
        line.push(number).expect(&rt, "memory");
    }
    wants(&rt, line.first().copied() == Some(1));
    wants(&rt, line.take_first() == Some(1));
    wants(&rt, line.take_first() == Some(2));
    let mut more = Items::new(rt.alloc());
    more.push(4).expect(&rt, "memory");
    line.append(more).expect(&rt, "memory");
    wants(&rt, line.take_first() == Some(3));
    wants(&rt, line.take_first() == Some(4));
    wants(&rt, line.take_first().is_none());
}

fn a_size() -> Resource {
    size(1024, 2)
}

fn a_held() -> Held {
    Held {
        id: a_container(17, 5),
        size: a_size(),
    }
}

fn a_submission<R: Abort + AllocGlobal>(rt: &R) -> Submission {
    Submission {
        user: text(rt, "alice"),
        queue: text(rt, "root.dev"),
        name: text(rt, "job"),
        master: a_size(),
        attempts: 3,
        modify: text(rt, "erin ops"),
        ..Submission::empty()
    }
}

fn grants<R: Abort + AllocGlobal>(rt: &R) -> Items<Grant> {
    let grant = Grant {
        id: a_container(0, 6),
        node: text(rt, "n1"),
        size: a_size(),
    };
    only(rt, grant)
}

fn an_app_op<R: Abort + AllocGlobal>(rt: &R) -> Op {
    Op::App {
        id: an_attempt().app,
        submission: a_submission(rt),
    }
}

fn an_attempt_op<R: Abort + AllocGlobal>(rt: &R) -> Op {
    Op::Attempt {
        id: an_attempt(),
        master: a_container(17, 1),
        node: text(rt, "n1"),
    }
}

fn an_attempt_end<R: Abort + AllocGlobal>(rt: &R) -> Op {
    Op::AttemptEnd {
        id: an_attempt(),
        how: How::Failed,
        text: text(rt, "lost"),
    }
}

fn an_app_end<R: Abort + AllocGlobal>(rt: &R) -> Op {
    Op::AppEnd {
        id: an_attempt().app,
        how: How::Killed,
        text: text(rt, "done"),
    }
}

fn ops<R: Abort + AllocGlobal>(rt: &R) -> Items<Op> {
    let mut ops = only(rt, an_app_op(rt));
    push(rt, &mut ops, an_attempt_op(rt));
    push(rt, &mut ops, an_attempt_end(rt));
    push(rt, &mut ops, an_app_end(rt));
    ops
}

fn a_submit<R: Abort + AllocGlobal>(rt: &R) -> Message {
    let submit = ClientAsk::Submit(an_attempt().app, a_submission(rt));
    Message::Client(text(rt, "alice"), submit)
}

fn a_finish<R: Abort + AllocGlobal>(rt: &R) -> Message {
    let text = text(rt, "bye");
    Message::Master(an_attempt(), MasterAsk::Finish { text })
}

fn an_allocate<R: Abort + AllocGlobal>(rt: &R) -> Message {
    let ask = Ask {
        priority: 1,
        count: 2,
        size: a_size(),
    };
    let allocate = MasterAsk::Allocate {
        id: 3,
        asks: only(rt, ask),
        release: only(rt, a_container(0, 4)),
    };
    Message::Master(an_attempt(), allocate)
}

fn a_register<R: Abort + AllocGlobal>(rt: &R) -> Message {
    let register = NodeAsk::Register {
        turn: 5,
        capability: a_size(),
        running: only(rt, a_held()),
    };
    Message::Node(text(rt, "n1"), register)
}

fn a_beat<R: Abort + AllocGlobal>(rt: &R) -> Message {
    let beat = NodeAsk::Beat {
        id: 6,
        running: only(rt, a_held()),
        done: only(rt, a_container(0, 7)),
    };
    Message::Node(text(rt, "n2"), beat)
}

fn a_lost_node<R: Abort + AllocGlobal>(rt: &R) -> Message {
    Message::Clock(ClockAsk::ExpireNode(text(rt, "n3")))
}

fn messages<R: Abort + AllocGlobal>(rt: &R) -> Items<Message> {
    let mut messages = only(rt, a_submit(rt));
    push(rt, &mut messages, a_finish(rt));
    push(rt, &mut messages, an_allocate(rt));
    push(rt, &mut messages, a_register(rt));
    push(rt, &mut messages, a_beat(rt));
    push(rt, &mut messages, a_lost_node(rt));
    messages
}

fn a_denial<R: Abort + AllocGlobal>(rt: &R) -> Reply {
    Reply::Denied(Denial {
        op: AclOp::Kill,
        queue: text(rt, "root.dev"),
        lists: only(rt, text(rt, "root")),
    })
}

fn a_report<R: Abort + AllocGlobal>(rt: &R) -> Reply {
    Reply::Report(Report {
        state: StateWord::Running,
        user: text(rt, "alice"),
        queue: text(rt, "root.dev"),
        name: text(rt, "job"),
        attempts: 1,
        live: 2,
        text: text(rt, "fine"),
    })
}

fn an_allocation<R: Abort + AllocGlobal>(rt: &R) -> Reply {
    let closing = Closing {
        id: a_container(0, 8),
        cause: Cause::Node,
    };
    Reply::Allocated {
        id: 9,
        grants: grants(rt),
        ended: only(rt, closing),
    }
}

fn a_beat_reply<R: Abort + AllocGlobal>(rt: &R) -> Reply {
    Reply::Beat {
        id: 10,
        launch: only(rt, a_container(0, 11)),
        clean: only(rt, a_container(0, 12)),
    }
}

fn replies<R: Abort + AllocGlobal>(rt: &R) -> Items<Reply> {
    let mut replies = only(rt, a_denial(rt));
    push(rt, &mut replies, a_report(rt));
    push(rt, &mut replies, an_allocation(rt));
    push(rt, &mut replies, a_beat_reply(rt));
    replies
}

fn an_attempt_record<R: Abort + AllocGlobal>(rt: &R) -> AttemptRecord {
    AttemptRecord {
        id: an_attempt(),
        master: a_container(17, 1),
        node: text(rt, "n1"),
        ending: Some((How::Failed, text(rt, "lost"))),
    }
}

fn an_app<R: Abort + AllocGlobal>(rt: &R) -> AppRecord {
    AppRecord {
        id: an_attempt().app,
        submission: a_submission(rt),
        attempts: only(rt, an_attempt_record(rt)),
        ending: Some((How::Killed, text(rt, "over"))),
        end_order: 4,
    }
}

fn carols_groups<R: Abort + AllocGlobal>(rt: &R) -> UserGroups {
    UserGroups {
        user: text(rt, "carol"),
        groups: only(rt, text(rt, "ops")),
    }
}

fn a_root<R: Abort + AllocGlobal>(rt: &R) -> QueueSpec {
    QueueSpec {
        name: text(rt, "root"),
        submit: Some(text(rt, "dave")),
        admin: None,
    }
}

fn some_settings<R: Abort + AllocGlobal>(rt: &R) -> Settings {
    Settings {
        max_attempts: 1,
        max_completed: 2,
        max_apps: 3,
        wait_ms: 4,
        acl_enable: true,
        admin_acl: text(rt, "boss"),
        greatest: a_size(),
        groups: only(rt, carols_groups(rt)),
        queues: only(rt, a_root(rt)),
        ..Settings::empty(rt.alloc())
    }
}

/// How a value shows.
fn shown<R: Abort + AllocGlobal, T: Debug>(rt: &R, value: &T) -> String {
    format!(in rt.alloc(); "{value:?}").expect(rt, "memory")
}

/// Sees that a copy shows as its source.
fn see_copy<R: Abort + AllocGlobal, T: Duplicate + Debug + Drop>(rt: &R, value: T) {
    let other = value.copy().expect(rt, "memory");
    wants(rt, shown(rt, &value) == shown(rt, &other));
}

#[test]
fn copies_show_as_their_sources(rt: HostRuntime) {
    see_copy(&rt, ops(&rt));
    see_copy(&rt, messages(&rt));
    see_copy(&rt, replies(&rt));
    see_copy(&rt, an_app(&rt));
    see_copy(&rt, some_settings(&rt));
}

//! What no clause says: that calls succeed, that a line looks as it should, and how long scripts are, all
//! worked out by hand.
use crate::helpers::{push, text, wants, wants_in};
use rm_soak::{soak_page, soak_script, soak_settings};
use rm_types::{
    AppId, AttemptId, Boxed, ClientAsk, ContainerId, Entry, Grant, How, Items, Message, Op, Reply,
    Resource, Script, Sender,
};
use std::process::Abort;

const APP: AppId = AppId {
    stamp: 1_000_000,
    number: 1,
};

fn opened() -> Entry {
    Entry::Opened {
        landed: 0,
        epoch: 0,
        stamp: 1_000_000,
    }
}

fn boxed<R: Abort + AllocGlobal, T: Drop>(rt: &R, value: T) -> Boxed<T> {
    Boxed::new(rt.alloc(), value).expect(rt, "memory")
}

fn served<R: Abort + AllocGlobal>(rt: &R) -> Entry {
    let message = Message::Client(text(rt, "u1"), ClientAsk::New);
    Entry::Served {
        sender: Sender::Client,
        message: boxed(rt, message),
        reply: boxed(rt, Reply::New(APP)),
    }
}

fn grant<R: Abort + AllocGlobal>(rt: &R, seq: u64) -> Grant {
    let attempt = AttemptId {
        app: APP,
        number: 1,
    };
    Grant {
        id: ContainerId {
            attempt,
            epoch: 0,
            seq,
        },
        node: text(rt, "n1"),
        size: Resource {
            memory_mb: 1024,
            vcores: 1,
        },
    }
}

/// A pass that grants the containers with these numbers.
fn pass<R: Abort + AllocGlobal>(rt: &R, seqs: &[u64]) -> Entry {
    let mut grants = Items::new(rt.alloc());
    for seq in seqs {
        push(rt, &mut grants, grant(rt, *seq));
    }
    Entry::Pass {
        node: boxed(rt, text(rt, "n1")),
        grants: boxed(rt, grants),
    }
}

fn kept<R: Abort + AllocGlobal>(rt: &R, op: Op) -> Entry {
    Entry::Kept { op: boxed(rt, op) }
}

fn kept_end<R: Abort + AllocGlobal>(rt: &R, how: How) -> Entry {
    let text = text(rt, "done");
    kept(rt, Op::AppEnd { id: APP, how, text })
}

/// Whether the page of the log is this text.
fn is_page<R: Abort + AllocGlobal>(rt: &R, log: &Items<Entry>, want: &str) -> bool {
    let bytes = soak_page(rt.alloc(), 1, log).expect(rt, "memory");
    bytes.as_slice() == want.as_bytes()
}

/// Sees that a log shows by this line, once it has one entry more.
fn counts<R: Abort + AllocGlobal>(rt: &R, log: &mut Items<Entry>, entry: Entry, line: &str) {
    push(rt, log, entry);
    wants_in(rt, line, is_page(rt, log, line));
}

#[test]
fn counts_a_log(rt: HostRuntime) {
    let mut log = Items::new(rt.alloc());
    wants(&rt, is_page(&rt, &log, ""));
    let line = "soak 1 lives=1 served=0 grants=0 finished=0 kept=0\n";
    counts(&rt, &mut log, opened(), line);
    let line = "soak 1 lives=1 served=1 grants=0 finished=0 kept=0\n";
    counts(&rt, &mut log, served(&rt), line);
    let line = "soak 1 lives=1 served=1 grants=1 finished=0 kept=0\n";
    counts(&rt, &mut log, pass(&rt, &[1]), line);
    counts(&rt, &mut log, pass(&rt, &[]), line);
    let line = "soak 1 lives=1 served=1 grants=3 finished=0 kept=0\n";
    counts(&rt, &mut log, pass(&rt, &[2, 3]), line);
    let line = "soak 1 lives=1 served=1 grants=3 finished=0 kept=1\n";
    counts(&rt, &mut log, kept_end(&rt, How::Killed), line);
    let line = "soak 1 lives=1 served=1 grants=3 finished=1 kept=2\n";
    counts(&rt, &mut log, kept_end(&rt, How::Finished), line);
    let line = "soak 1 lives=1 served=1 grants=3 finished=1 kept=3\n";
    counts(&rt, &mut log, kept(&rt, Op::Remove { id: APP }), line);
    counts(&rt, &mut log, Entry::Down, line);
    let line = "soak 1 lives=2 served=1 grants=3 finished=1 kept=3\n";
    counts(&rt, &mut log, opened(), line);
}

/// How many lines spell a script: one for the start of each life, one for each message, and one for the end
/// of each segment.
fn lines_in(script: &Script) -> usize {
    let mut lines: usize = 0;
    for life in script.lives.as_slice() {
        lines = lines.saturating_add(1);
        for segment in life.segments.as_slice() {
            lines = lines
                .saturating_add(segment.messages.len())
                .saturating_add(1);
        }
    }
    lines
}

/// The numbers of soaks, how many lives their scripts have, and how many lines.
const SCRIPTS: [(u32, usize, usize); 4] = [
    (1, 1, 23),
    (50, 1, 1003),
    (51, 2, 1027),
    (1000, 20, 20_079),
];

/// Sees that the script of this soak has so many lives and lines.
fn see_script<R: Abort + AllocGlobal>(rt: &R, number: u32, lives: usize, lines: usize) {
    assert!(rt; 1 <= number && number <= 1000);
    let script = soak_script(rt.alloc(), number).expect(rt, "memory");
    let is_so = script.lives.len() == lives && lines_in(&script) == lines;
    assert!(rt; is_so, "at {number}");
}

#[test]
fn scripts_are_as_long_as_planned(rt: HostRuntime) {
    for (number, lives, lines) in SCRIPTS.as_slice() {
        see_script(&rt, *number, *lives, *lines);
    }
}

#[test]
fn remembers_forty(rt: HostRuntime) {
    let settings = soak_settings(rt.alloc()).expect(&rt, "memory");
    wants(&rt, settings.max_completed == 40);
}

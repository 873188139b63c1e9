//! What no clause says: that calls succeed, and whether the grammar is the one that is meant. The expected values are
//! worked out by hand.
use crate::helpers::{append, bytes_of, comment, wants, wants_in};
use rm_script::{ScriptError, read_script};
use rm_types::{
    AppId, Ask, AttemptId, ClientAsk, ClockAsk, Close, ContainerId, Held, Life, MasterAsk, Message,
    NodeAsk, Resource, Segment,
};
use std::alloc::Global;
use std::process::Abort;

/// The first refused line of a text, or 0 where it is a script.
fn refused_line(alloc: Global, text: &[u8]) -> u32 {
    match read_script(alloc, text) {
        Ok(_) => 0,
        Err(ScriptError::Refused { line }) => line,
        Err(ScriptError::Memory) => u32::MAX,
    }
}

/// Texts, and their first refused lines: 0 where they are scripts.
const SCRIPTS: [(&str, u32); 44] = [
    ("", 0),
    ("\n# no life\n\n", 0),
    ("start 1", 0),
    ("start 1000000000000000\nsettle\n", 0),
    ("start 1410901177871\nsettle", 0),
    (
        "start 1410901177871\nlose client alice new\nclient alice new\nsettle",
        0,
    ),
    (
        "#\nstart 1\n\nclient a new\n# b\nclient c new\nsettle\nsettle",
        0,
    ),
    ("start 7\nsettle\ncrash 0 0\nstart 7\nsettle", 0),
    (
        "start 7\nsettle\n# a comment\ncrash 1000000 4294967295\n\n",
        0,
    ),
    ("start 7\nsettle\ncrash 0 1\nstart 8", 0),
    (
        "start 7\nclock tick 1\ncrash 0 1\nstart 8\ncrash 2 0\nstart 9\nsettle\nclock tick 1\nlose clock tick 2\ncrash 3 4",
        0,
    ),
    ("start 1\nlose settle\nclient alice new\nsettle", 2),
    ("start 1\nclient alice new\nclient alice", 3),
    ("start 1\nclient alice new", 3),
    ("start 1\nlose client alice new\n", 3),
    ("start 1\n\n#\n\nclient alice old\n", 5),
    ("settle", 1),
    ("client alice new", 1),
    ("lose client alice new", 1),
    ("crash 0 0", 1),
    ("\nstart 1\nstart 2\n", 3),
    ("start 1\nsettle\nstart 2\n", 3),
    ("start 1\nlose", 2),
    ("start 1\nlose lose client alice new", 2),
    ("start  1", 1),
    (" start 1", 1),
    ("start 1 ", 1),
    ("start 01", 1),
    ("start 0", 1),
    ("start 1000000000000001", 1),
    ("start 18446744073709551617", 1),
    ("start 1\r\nsettle\r\n", 1),
    ("start 1\n#\r\nsettle\n", 2),
    ("start 1\nsettle \n", 2),
    ("start 1\nsettle\ncrash 0 0\nsettle", 4),
    ("start 1\nsettle\ncrash 1000001 0", 3),
    ("start 1\nsettle\ncrash 0 4294967296", 3),
    ("start 1\nclient alice kill application_1_0001\nsettle", 0),
    (
        "start 1\nclient alice submit application_1_0001 queue=q name=n memory=1 vcores=1 attempts=0 modify=*\nsettle",
        0,
    ),
    (
        "start 1\nnode n1 register 1 memory=1 vcores=1\nnode n1 register 1 memory=1 vcores=1\nsettle",
        0,
    ),
    (
        "start 1\nlose master appattempt_1_0001_000001 register\nsettle\ncrash 0 0",
        0,
    ),
    (
        "start 1\nlose master appattempt_1_0001_000001 finish \nsettle",
        2,
    ),
    ("start 1\nclock tick 1\n", 3),
    ("clock tick 1\n", 1),
];

#[test]
fn scripts(rt: HostRuntime) {
    for (text, line) in SCRIPTS.as_slice() {
        let refused = refused_line(rt.alloc(), text.as_bytes());
        wants_in(&rt, text, refused == *line);
    }
}

/// A text of so many comments.
fn comments<R: Abort + AllocGlobal>(rt: &R, count: usize) -> Vec<u8> {
    let mut text = Vec::new(rt.alloc());
    for _ in 0..count {
        append(rt, &mut text, b"#\n");
    }
    text
}

#[test]
fn limits(rt: HostRuntime) {
    let alloc = rt.alloc();
    wants(&rt, refused_line(alloc, &comments(&rt, 100_001)) == 100_001);
    wants(&rt, refused_line(alloc, &comments(&rt, 100_000)) == 0);
    wants(&rt, refused_line(alloc, &comment(&rt, 65_537)) == 1);
    wants(&rt, refused_line(alloc, &comment(&rt, 65_536)) == 0);
}

/// Lines of messages.
const MESSAGES: &[u8] = b"\
client 9_.-Z new\n\
client alice submit application_1_0001 queue=q name=A_b-1.c memory=16777216 vcores=256 attempts=100\n\
client alice submit application_1_0001 queue=q name=n memory=1 vcores=1 attempts=0 modify= \n\
client alice submit application_1_0001 queue=q name=n memory=1 vcores=1 attempts=0 modify=bob,carol  ops modify=*\n\
client alice submit application_1_0001 queue=q name=n memory=1 vcores=1 attempts=0 keep=yes\n\
client alice submit application_1_0001 queue=q name=n memory=1 vcores=1 attempts=0 keep=yes modify=bob  ops keep=yes\n\
client alice submit application_1_0001 queue=q name=n memory=1 vcores=1 attempts=0 modify=bob keep=yes\n\
client bob report application_9223372036854775807_2147483647\n\
client bob kill application_7_10000\n\
master appattempt_1_0001_000001 register\n\
master appattempt_1_0001_000001 allocate 0\n\
master appattempt_1_0001_000001 allocate 4294967294 ask=1:0:1:1,1000:1000:16777216:256\n\
master appattempt_1_0001_000001 allocate 1 release=container_1_0001_01_000002,container_e01_1_0001_01_000003\n\
master appattempt_1_0001_000001 allocate 1 ask=1:4:2048:2 release=container_1_0001_01_000002\n\
master appattempt_1_0001_000001 finish done\n\
master appattempt_1_0001_000001 finish  all is done \n\
node n1 register 1 memory=8192 vcores=8\n\
node host:8041 register 4294967295 memory=16777216 vcores=256 running=container_1_0001_01_000001:1024:1,container_1_0001_01_000002:2048:2\n\
node n1 beat 0\n\
node n1 beat 2 running=container_1_0001_01_000001:1024:1\n\
node n1 beat 2 done=container_1_0001_01_000001\n\
node n1 beat 2 running=container_1_0001_01_000001:1024:1 done=container_1_0001_01_000002\n\
clock tick 1\n\
clock tick 1000000000\n\
clock expire node n1\n\
clock expire master appattempt_1_0001_000001\n\
client u report application_1000000_0001\n\
client node new\n\
node lose beat 3\n\
node client register 1 memory=1 vcores=1\n\
master appattempt_1_0001_000001 finish finish\n\
client submit submit application_1_0001 queue=q name=n memory=1 vcores=1 attempts=0\n\
clock expire node master\n\
clock expire node node";

/// Lines that are no messages.
const NO_MESSAGES: &[u8] = b"\
client\n\
client alice\n\
client  new\n\
client alice  new\n\
client alice new \n\
client alice new new\n\
client al:ice new\n\
Client alice new\n\
client alice report\n\
client alice report application_0_0001\n\
client alice report application_1_001\n\
client alice report application_1_0001 \n\
client alice kill\n\
client alice submit application_1_0001\n\
client alice submit application_1_0001 queue=q name=n memory=1 vcores=1\n\
client alice submit application_1_0001 queue=q name=n memory=0 vcores=1 attempts=0\n\
client alice submit application_1_0001 queue=q name=n memory=16777217 vcores=1 attempts=0\n\
client alice submit application_1_0001 queue=q name=n memory=1 vcores=257 attempts=0\n\
client alice submit application_1_0001 queue=q name=n memory=1 vcores=1 attempts=101\n\
client alice submit application_1_0001 queue=q name=n memory=01 vcores=1 attempts=0\n\
client alice submit application_1_0001 queue=Q name=n memory=1 vcores=1 attempts=0\n\
client alice submit application_1_0001 name=n queue=q memory=1 vcores=1 attempts=0\n\
client alice submit application_1_0001 queue=q name=n memory=1 vcores=1 attempts=0 modify=\n\
client alice submit application_1_0001 queue=q name=n memory=1 vcores=1 attempts=0 *\n\
client alice submit application_1_0001 queue=q name=n memory=1 vcores=1 attempts=0 keep=no\n\
client alice submit application_1_0001 queue=q name=n memory=1 vcores=1 attempts=0 keep=\n\
client alice submit application_1_0001 queue=q name=n memory=1 vcores=1 attempts=0 keep=yes \n\
client alice submit application_1_0001 queue=q name=n memory=1 vcores=1 attempts=0 keep=yes keep=yes\n\
client alice submit application_1_0001 queue=q name=n memory=1 vcores=1 attempts=0  keep=yes\n\
client alice submit application_1_0001 queue=q name=n memory=1 vcores=1 keep=yes attempts=0\n\
client alice submit application_1_0001 keep=yes queue=q name=n memory=1 vcores=1 attempts=0\n\
client alice submit application_1_0001 queue=q name=n memory=1 vcores=1 attempts=0 keep=yes modify=\n\
client alice report application_1_0001 keep=yes\n\
client alice submit application_1_0001 queue=q name=n memory=1 vcores=1 attempts=0 \n\
master\n\
master appattempt_1_0001_000001\n\
master application_1_0001 register\n\
master appattempt_1_0001_000001 register \n\
master appattempt_1_0001_000001 finish\n\
master appattempt_1_0001_000001 finish \n\
master appattempt_1_0001_000001 allocate\n\
master appattempt_1_0001_000001 allocate 4294967295\n\
master appattempt_1_0001_000001 allocate 0 ask=\n\
master appattempt_1_0001_000001 allocate 0 ask=0:1:1:1\n\
master appattempt_1_0001_000001 allocate 0 ask=1:1001:1:1\n\
master appattempt_1_0001_000001 allocate 0 ask=1:1:1\n\
master appattempt_1_0001_000001 allocate 0 ask=1:1:1:1,\n\
master appattempt_1_0001_000001 allocate 0 ask=1:1:1:1 ask=1:1:1:1\n\
master appattempt_1_0001_000001 allocate 0 release=container_1_0001_01_000002 ask=1:1:1:1\n\
master appattempt_1_0001_000001 allocate 0 release=container_1_0001_01_000000\n\
node\n\
node n1\n\
node n/1 beat 0\n\
node n1 register 0 memory=1 vcores=1\n\
node n1 register 4294967296 memory=1 vcores=1\n\
node n1 register 1 memory=0 vcores=1\n\
node n1 register 1 memory=1\n\
node n1 register 1 memory=1 vcores=1 done=container_1_0001_01_000001\n\
node n1 register 1 memory=1 vcores=1 running=container_1_0001_01_000001\n\
node n1 beat 0 done=container_1_0001_01_000002 running=container_1_0001_01_000001:1024:1\n\
node n1 beat 0 running=container_1_0001_01_000001:1024:1:1\n\
node n1 beat 0 running=container_1_0001_01_000001:1024:0\n\
node n1 beat 00\n\
clock tick 0\n\
clock tick 1000000001\n\
clock tick\n\
clock expire n1\n\
clock expire master n1\n\
clock expire node n1 n2";

/// The text with a life in which a line stands alone in a segment.
fn with_line<R: Abort + AllocGlobal>(rt: &R, line: &[u8]) -> Vec<u8> {
    let mut text = bytes_of(rt, b"start 1\n");
    append(rt, &mut text, line);
    append(rt, &mut text, b"\nsettle");
    text
}

/// Sees that the text with the line at a place has this refused line.
fn see_line<R: Abort + AllocGlobal>(rt: &R, place: usize, line: &[u8], want: u32) {
    let refused = refused_line(rt.alloc(), &with_line(rt, line));
    assert!(rt; refused == want, "line {place}");
}

/// Sees that each of the lines has this refused line in its text.
fn see_lines<R: Abort + AllocGlobal>(rt: &R, lines: &[u8], want: u32) {
    for (place, line) in lines.split(|byte| *byte == b'\n').enumerate() {
        see_line(rt, place, line, want);
    }
}

#[test]
fn messages(rt: HostRuntime) {
    see_lines(&rt, MESSAGES, 0);
    see_lines(&rt, NO_MESSAGES, 2);
}

/// What stands behind a submission's fields, whether it keeps its containers by that, and who else may modify it.
const SUBMITTED: [(&str, bool, &str); 5] = [
    ("", false, ""),
    (" keep=yes", true, ""),
    (" modify=bob keep=yes", false, "bob keep=yes"),
    (" keep=yes modify=bob  ops", true, "bob  ops"),
    (" keep=yes modify=keep=yes", true, "keep=yes"),
];

/// Whether the message submits an application that keeps its containers or doesn't, and that these may modify.
fn submits(message: &Message, keep: bool, modify: &str) -> bool {
    match message {
        Message::Client(_, ClientAsk::Submit(_, submission)) => {
            submission.keep == keep && submission.modify.bytes() == modify.as_bytes()
        }
        _ => false,
    }
}

/// Whether a life's one segment has one message, which submits so.
fn submits_alone(lives: &[Life], keep: bool, modify: &str) -> bool {
    match lives {
        [life] => match life.segments.as_slice() {
            [segment] => {
                matches!(segment.messages.as_slice(), [message] if submits(message, keep, modify))
            }
            _ => false,
        },
        _ => false,
    }
}

fn see_submitted<R: Abort + AllocGlobal>(rt: &R, behind: &str, keep: bool, modify: &str) {
    let mut line = bytes_of(
        rt,
        b"client alice submit application_1_0001 queue=q name=n memory=1 vcores=1 attempts=0",
    );
    append(rt, &mut line, behind.as_bytes());
    let script = read_script(rt.alloc(), &with_line(rt, &line)).expect(rt, behind);
    wants_in(
        rt,
        behind,
        submits_alone(script.lives.as_slice(), keep, modify),
    );
}

#[test]
fn submissions(rt: HostRuntime) {
    for (behind, keep, modify) in SUBMITTED {
        see_submitted(&rt, behind, keep, modify);
    }
}

/// A script in which all that isn't a client speaks, and some of it is lost.
const TOLD: &[u8] = b"\
start 7\n\
node n1 register 1 memory=8192 vcores=8\n\
lose node n1 beat 1\n\
node n1 register 2 memory=4096 vcores=4 running=container_7_0001_01_000001:1024:1\n\
settle\n\
node n1 beat 3 done=container_7_0001_01_000001\n\
master appattempt_7_0001_000001 allocate 4 ask=1:2:1024:1 release=container_7_0001_01_000001\n\
master appattempt_7_0001_000001 finish  all done\n\
clock tick 10\n\
clock expire node n1\n\
clock expire master appattempt_7_0001_000001\n\
settle\n\
crash 5 1\n\
start 8\n";

/// The attempt `appattempt_7_0001_000001`.
const ATTEMPT: AttemptId = AttemptId {
    app: AppId {
        stamp: 7,
        number: 1,
    },
    number: 1,
};

/// The container `container_7_0001_01_000001`.
const CONTAINER: ContainerId = ContainerId {
    attempt: ATTEMPT,
    epoch: 0,
    seq: 1,
};

/// The size `1024:1`.
const SIZE: Resource = Resource {
    memory_mb: 1024,
    vcores: 1,
};

/// Whether the node `n1` registers in this turn, with such a capability and this running.
fn registers(message: &Message, turn: u32, memory_mb: u32, vcores: u32, running: &[Held]) -> bool {
    let size = Resource { memory_mb, vcores };
    match message {
        Message::Node(
            name,
            NodeAsk::Register {
                turn: found,
                capability,
                running: held,
            },
        ) => {
            name.bytes() == "n1".as_bytes()
                && *found == turn
                && *capability == size
                && held.as_slice() == running
        }
        _ => false,
    }
}

/// Whether the node `n1` beats with the id 3 and says that the container is done.
fn beats(message: &Message) -> bool {
    match message {
        Message::Node(name, NodeAsk::Beat { id, running, done }) => {
            name.bytes() == "n1".as_bytes()
                && *id == 3
                && running.is_empty()
                && done.as_slice() == [CONTAINER].as_slice()
        }
        _ => false,
    }
}

/// Whether the attempt's master asks for two containers and releases one.
fn allocates(message: &Message) -> bool {
    let ask = Ask {
        priority: 1,
        count: 2,
        size: SIZE,
    };
    match message {
        Message::Master(attempt, MasterAsk::Allocate { id, asks, release }) => {
            *attempt == ATTEMPT
                && *id == 4
                && asks.as_slice() == [ask].as_slice()
                && release.as_slice() == [CONTAINER].as_slice()
        }
        _ => false,
    }
}

/// Whether the attempt's master ends, with two spaces in its last word.
fn finishes(message: &Message) -> bool {
    match message {
        Message::Master(attempt, MasterAsk::Finish { text }) => {
            *attempt == ATTEMPT && text.bytes() == " all done".as_bytes()
        }
        _ => false,
    }
}

/// Whether the clock ticks 10 milliseconds.
fn ticks(message: &Message) -> bool {
    match message {
        Message::Clock(ClockAsk::Tick(time)) => *time == 10,
        _ => false,
    }
}

/// Whether the lease of the node `n1` runs out.
fn expires_node(message: &Message) -> bool {
    match message {
        Message::Clock(ClockAsk::ExpireNode(name)) => name.bytes() == "n1".as_bytes(),
        _ => false,
    }
}

/// Whether the lease of the attempt's master runs out.
fn expires_master(message: &Message) -> bool {
    match message {
        Message::Clock(ClockAsk::ExpireMaster(attempt)) => *attempt == ATTEMPT,
        _ => false,
    }
}

/// Whether the messages are those of the first segment.
fn are_first(messages: &[Message]) -> bool {
    let held = Held {
        id: CONTAINER,
        size: SIZE,
    };
    match messages {
        [one, two] => registers(one, 1, 8192, 8, &[]) && registers(two, 2, 4096, 4, &[held]),
        _ => false,
    }
}

/// Whether the messages are those of the second.
fn are_second(messages: &[Message]) -> bool {
    match messages {
        [beat, allocation, finish, tick, node, master] => {
            beats(beat)
                && allocates(allocation)
                && finishes(finish)
                && ticks(tick)
                && expires_node(node)
                && expires_master(master)
        }
        _ => false,
    }
}

/// Whether the segments are those of the first life.
fn are_segments(segments: &[Segment]) -> bool {
    match segments {
        [first, second, crash] => {
            are_first(first.messages.as_slice())
                && first.close == Close::Settle
                && are_second(second.messages.as_slice())
                && second.close == Close::Settle
                && crash.messages.is_empty()
                && crash.close == Close::Crash { calls: 5, image: 1 }
        }
        _ => false,
    }
}

/// Whether the lives are those that the script tells.
fn are_told(lives: &[Life]) -> bool {
    match lives {
        [first, last] => {
            first.stamp == 7
                && are_segments(first.segments.as_slice())
                && last.stamp == 8
                && last.segments.is_empty()
        }
        _ => false,
    }
}

#[test]
fn values(rt: HostRuntime) {
    let script = read_script(rt.alloc(), TOLD).expect(&rt, "a script");
    wants(&rt, are_told(script.lives.as_slice()));
}

/// A script whose lives go down after a message in their first segment, right after their start, and amid messages.
const CRASHING: &[u8] = b"\
start 7\n\
clock tick 10\n\
crash 0 0\n\
start 8\n\
crash 3 2\n\
start 9\n\
clock expire node n1\n\
settle\n\
clock tick 10\n\
lose clock tick 20\n\
clock expire node n1\n\
crash 1000000 4294967295\n";

/// Whether the segments are those of the first life that goes down: one, which crashes after the clock ticked.
fn is_ticked(segments: &[Segment]) -> bool {
    match segments {
        [crash] => {
            matches!(crash.messages.as_slice(), [tick] if ticks(tick))
                && crash.close == Close::Crash { calls: 0, image: 0 }
        }
        _ => false,
    }
}

/// Whether they are those of the second: one, which crashes with no message.
fn is_bare(segments: &[Segment]) -> bool {
    match segments {
        [crash] => {
            crash.messages.is_empty() && crash.close == Close::Crash { calls: 3, image: 2 }
        }
        _ => false,
    }
}

/// Whether they are those of the third: one that settles, and one that crashes after two messages, where a third was lost.
fn is_amid(segments: &[Segment]) -> bool {
    let close = Close::Crash {
        calls: 1_000_000,
        image: 4_294_967_295,
    };
    match segments {
        [first, crash] => {
            matches!(first.messages.as_slice(), [node] if expires_node(node))
                && first.close == Close::Settle
                && matches!(crash.messages.as_slice(), [tick, node] if ticks(tick) && expires_node(node))
                && crash.close == close
        }
        _ => false,
    }
}

/// Whether the lives are those that the script with these crashes tells.
fn are_crashing(lives: &[Life]) -> bool {
    match lives {
        [first, second, third] => {
            first.stamp == 7
                && is_ticked(first.segments.as_slice())
                && second.stamp == 8
                && is_bare(second.segments.as_slice())
                && third.stamp == 9
                && is_amid(third.segments.as_slice())
        }
        _ => false,
    }
}

#[test]
fn crashes(rt: HostRuntime) {
    let script = read_script(rt.alloc(), CRASHING).expect(&rt, "a script");
    wants(&rt, are_crashing(script.lives.as_slice()));
}

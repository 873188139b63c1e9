//! What no clause says: the sentence that a person is told of a refused script, by rows that are worked out by hand.
use crate::helpers::{append, bytes_of, comment, displays, repeated, wants_in};
use rm_script::{ScriptError, read_script, why};
use std::process::Abort;

/// The first refused line of a script, and what is told of it; empty where it is a script.
fn refusal<R: Abort + AllocGlobal>(rt: &R, script: &[u8]) -> String {
    let alloc = rt.alloc();
    match read_script(alloc, script) {
        Err(ScriptError::Refused { line }) => {
            let fault = why(alloc, script, line);
            format!(in alloc; "{line}: {fault}").expect(rt, "memory")
        }
        _ => String::new(alloc),
    }
}

/// Sees that this is told of the script.
fn tells<R: Abort + AllocGlobal>(rt: &R, script: &[u8], want: &str) {
    let told = refusal(rt, script);
    wants_in(rt, told.as_str(), told.as_str() == want);
}

/// Scripts, and what is told of them.
const SCRIPTS: &[(&str, &str)] = &[
    (
        "start 1\r\nsettle\r\n",
        "1: a carriage return at column 8: a line ends with a line feed alone",
    ),
    (
        "# grün\nstart 1\n",
        "1: the byte 0xc3 at column 5: a line has printable bytes alone, 0x20 to 0x7e",
    ),
    (
        "start 1\n\tsettle\n",
        "2: the byte 0x09 at column 1: a line has printable bytes alone, 0x20 to 0x7e",
    ),
    (
        "start 1\nclient \u{1b}[2J new\nsettle\n",
        "2: the byte 0x1b at column 8: a line has printable bytes alone, 0x20 to 0x7e",
    ),
    (
        "client alice new\n",
        "1: client USER new: it stands inside a life, and here none goes on: a life begins with `start STAMP`",
    ),
    (
        "start 1\ncrash 0 0\n#\nlose clock tick 1\n",
        "4: clock tick MS: it stands inside a life, and here none goes on: a life begins with `start STAMP`",
    ),
    (
        "start 1\nclock tick 1\ncrash 0 0\nsettle\n",
        "4: settle: it stands inside a life, and here none goes on: a life begins with `start STAMP`",
    ),
    (
        "start 1\nsettle\nstart 2\n",
        "3: a life begins with `start STAMP`, first or after a `crash`, and here one goes on",
    ),
    (
        "start 1\nclient alice new\n#\n",
        "4: the messages at the end are closed by no `settle` or `crash`",
    ),
    (
        "start 1\nlose client alice new",
        "3: the messages at the end are closed by no `settle` or `crash`",
    ),
    (
        "begin 1\n",
        "1: a line begins with `start`, `client`, `master`, `node`, `clock`, `lose`, `settle`, `crash` or `#`",
    ),
    (
        "start\n",
        "1: the line is `start STAMP`, with one space between words",
    ),
    (
        "start 0\n",
        "1: start STAMP: STAMP is 1 to 1000000000000000, found 0",
    ),
];

#[test]
fn scripts_are_told_by_their_causes(rt: HostRuntime) {
    for (script, want) in SCRIPTS {
        tells(&rt, script.as_bytes(), want);
    }
}

/// Second lines of a script, and what is told of them.
const LINES: &[(&str, &str)] = &[
    (
        "settle now",
        "the line is `settle`, with one space between words",
    ),
    (
        "crash 0",
        "the line is `crash CALLS IMAGE`, with one space between words",
    ),
    (
        "crash 1000001 0",
        "crash CALLS IMAGE: CALLS is 0 to 1000000, found 1000001",
    ),
    (
        "crash 0 4294967296",
        "crash CALLS IMAGE: IMAGE is 0 to 4294967295, found 4294967296",
    ),
    (
        "lose settle",
        "a message that is lost is `lose` and the line of a client, a master, a node or the clock",
    ),
    (
        "lose clock tick 0",
        "clock tick MS: MS is 1 to 1000000000, found 0",
    ),
    (
        "client alice old",
        "a client's message is `client USER new`, `client USER submit APP queue=QUEUE name=NAME memory=MB vcores=CORES attempts=N[ keep=yes][ modify=ACL]`, `client USER report APP` or `client USER kill APP`",
    ),
    (
        "client al:ice new",
        "client USER new: USER is 1 to 64 letters, digits, `_`, `.` and `-`, found al:ice",
    ),
    (
        "client alice report application_1_001",
        "client USER report APP: APP is an application's id, application_STAMP_NUMBER, found application_1_001",
    ),
    (
        "client alice submit application_1_0001 queue=Q name=n memory=1 vcores=1 attempts=0",
        "client USER submit APP queue=QUEUE name=NAME memory=MB vcores=CORES attempts=N[ keep=yes][ modify=ACL]: QUEUE is 1 to 128 lower-case letters, digits, `_`, `-` and `.`, found Q",
    ),
    (
        "client alice submit application_1_0001 queue=q name=n memory=0 vcores=1 attempts=0",
        "client USER submit APP queue=QUEUE name=NAME memory=MB vcores=CORES attempts=N[ keep=yes][ modify=ACL]: MB is 1 to 16777216, found 0",
    ),
    (
        "client alice submit application_1_0001 queue=q name=n memory=1 vcores=1 attempts=101",
        "client USER submit APP queue=QUEUE name=NAME memory=MB vcores=CORES attempts=N[ keep=yes][ modify=ACL]: N is 0 to 100, found 101",
    ),
    (
        "client alice submit application_1_0001 queue=q name=n memory=1 vcores=1 attempts=0 modify=",
        "client USER submit APP queue=QUEUE name=NAME memory=MB vcores=CORES attempts=N[ keep=yes][ modify=ACL]: ACL is 1 to 512 printable bytes, found nothing",
    ),
    (
        "client alice submit application_1_0001 queue=q name=n memory=1 vcores=1 attempts=0 keep=no",
        "the line is `client USER submit APP queue=QUEUE name=NAME memory=MB vcores=CORES attempts=N[ keep=yes][ modify=ACL]`, with one space between words",
    ),
    (
        "client alice submit application_1_0001 queue=q name=n memory=1 vcores=1 attempts=0 keep=yes modify=",
        "client USER submit APP queue=QUEUE name=NAME memory=MB vcores=CORES attempts=N[ keep=yes][ modify=ACL]: ACL is 1 to 512 printable bytes, found nothing",
    ),
    (
        "master appattempt_1_0001_000001 end",
        "a master's message is `master ATTEMPT register`, `master ATTEMPT allocate ID[ ask=PRIORITY:COUNT:MB:CORES,..][ release=CONTAINER,..]` or `master ATTEMPT finish NOTE`",
    ),
    (
        "master application_1_0001 register",
        "master ATTEMPT register: ATTEMPT is an attempt's id, appattempt_STAMP_NUMBER_ATTEMPT, found application_1_0001",
    ),
    (
        "master appattempt_1_0001_000001 allocate 0 ask=1:1001:1:1",
        "master ATTEMPT allocate ID[ ask=PRIORITY:COUNT:MB:CORES,..][ release=CONTAINER,..]: COUNT is 0 to 1000, found 1001",
    ),
    (
        "master appattempt_1_0001_000001 finish ",
        "master ATTEMPT finish NOTE: NOTE is 1 to 256 printable bytes, found nothing",
    ),
    (
        "node n/1 beat 0",
        "node NODE beat ID[ running=CONTAINER:MB:CORES,..][ done=CONTAINER,..]: NODE is 1 to 64 letters, digits, `_`, `.`, `-` and `:`, found n/1",
    ),
    (
        "node n1 register 1 memory=1",
        "the line is `node NODE register TURN memory=MB vcores=CORES[ running=CONTAINER:MB:CORES,..]`, with one space between words",
    ),
    (
        "node n1 beat 0 done=container_1_0001_01_000000",
        "node NODE beat ID[ running=CONTAINER:MB:CORES,..][ done=CONTAINER,..]: CONTAINER is a container's id, container_STAMP_NUMBER_ATTEMPT_SEQUENCE or container_eEPOCH_STAMP_NUMBER_ATTEMPT_SEQUENCE, found container_1_0001_01_000000",
    ),
    (
        "node n1",
        "a node's message is `node NODE register TURN memory=MB vcores=CORES[ running=CONTAINER:MB:CORES,..]` or `node NODE beat ID[ running=CONTAINER:MB:CORES,..][ done=CONTAINER,..]`",
    ),
    (
        "clock expire n1",
        "the clock's message is `clock tick MS`, `clock expire node NODE` or `clock expire master ATTEMPT`",
    ),
];

/// Sees that this is told of a line that stands alone in a life.
fn tells_line<R: Abort + AllocGlobal>(rt: &R, line: &str, want: &str) {
    let mut script = bytes_of(rt, b"start 1\n");
    append(rt, &mut script, line.as_bytes());
    append(rt, &mut script, b"\nsettle\n");
    let told = refusal(rt, &script);
    let told = told.as_str().strip_prefix("2: ").unwrap_or("");
    wants_in(rt, line, told == want);
}

#[test]
fn lines_are_told_by_their_causes(rt: HostRuntime) {
    for (line, want) in LINES {
        tells_line(&rt, line, want);
    }
}

#[test]
fn limits_are_told(rt: HostRuntime) {
    let lines = repeated(&rt, b"#\n", 100_001);
    tells(&rt, &lines, "100001: a script has at most 100000 lines");
    tells(
        &rt,
        &comment(&rt, 65_537),
        "1: a line has at most 65536 bytes, found 65537",
    );
    let mut list = bytes_of(
        &rt,
        b"start 1\nnode n1 beat 0 done=container_1_0001_01_000001",
    );
    append(
        &rt,
        &mut list,
        &repeated(&rt, b",container_1_0001_01_000001", 1000),
    );
    tells(
        &rt,
        &list,
        "2: node NODE beat ID[ running=CONTAINER:MB:CORES,..][ done=CONTAINER,..]: a list has 1 to 1000 items, found 1001",
    );
}

#[test]
fn too_many_bytes_are_told(rt: HostRuntime) {
    let bytes = comment(&rt, 16_777_217);
    let fault = why(rt.alloc(), &bytes, 1);
    displays(&rt, &fault, "a script has at most 16777216 bytes");
}

/// The forms of lines.
const FORMS: &str =
    "a line begins with `start`, `client`, `master`, `node`, `clock`, `lose`, `settle`, `crash` or `#`";

/// Scripts, and lines of them that aren't refused.
const NO_REFUSALS: &[(&str, u32)] = &[("", 1), ("", 7), ("start 1\n", 0), ("start 1\n", 2)];

#[test]
fn no_bytes_and_no_refusal_are_told_by_forms(rt: HostRuntime) {
    for (script, line) in NO_REFUSALS {
        displays(&rt, &why(rt.alloc(), script.as_bytes(), *line), FORMS);
    }
}

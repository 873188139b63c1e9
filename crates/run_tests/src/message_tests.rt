//! What is told on standard error of a call that wasn't Done: no clause speaks of it.

use crate::cases::wants;
use rm_main::{Cause, Message, Names};
use rm_types::Outcome;
use std::io;
use std::io::ErrorKind;
use std::process::Abort;

/// Names that a terminal must not be sent as they are.
const NAMES: Names<'static> = Names {
    program: "yewendro",
    cluster: "clus\u{1b}[2Jter.json",
    script: "job\n.txt",
    schedule: "caf\u{e9}",
    unread: "gone\r.txt",
    device: "rm.store",
};

/// Each outcome but Done and Usage, the hint that it has, and its line.
const LINES: &[(Outcome, &str, &str)] = &[
    (
        Outcome::ReadFault,
        "",
        "yewendro: the file gone\\r.txt could not be read",
    ),
    (
        Outcome::WriteFault {
            took_nothing: false,
        },
        "",
        "yewendro: the page could not be written",
    ),
    (
        Outcome::WriteFault { took_nothing: true },
        "",
        "yewendro: the output takes nothing of the page",
    ),
    (
        Outcome::ClusterRefused { place: 5 },
        "max_apps",
        "yewendro: the cluster file clus\\u{1b}[2Jter.json is refused at place 5: max_apps",
    ),
    (
        Outcome::ScriptRefused { line: 7 },
        "too long",
        "yewendro: the script job\\n.txt is refused at line 7: too long",
    ),
    (
        Outcome::ScheduleRefused { place: 2 },
        "no letter",
        "yewendro: the schedule caf\\u{e9} is refused at byte 2: no letter",
    ),
    (
        Outcome::DiskFault,
        "",
        "yewendro: rm.store: the store's device failed",
    ),
    (
        Outcome::StoreDamaged { offset: 19 },
        "",
        "yewendro: rm.store: the store is damaged at offset 19",
    ),
    (
        Outcome::StoreDamaged { offset: 0 },
        "",
        "yewendro: rm.store: the store is damaged at offset 0; if it is a store of one journal, yewendro_tool convert makes one of two areas of it",
    ),
    (
        Outcome::StoreFull {
            needed: 59,
            room: 4,
        },
        "",
        "yewendro: rm.store: the store is full: 59 bytes are needed, 4 are left",
    ),
    (
        Outcome::EpochsSpent,
        "",
        "yewendro: no epoch, or no stamp, is left for one more life",
    ),
    (Outcome::Memory, "", "yewendro: out of memory"),
];

/// The text of a message.
fn text_of<R: Abort + AllocGlobal>(
    rt: &R,
    outcome: Outcome,
    hint: &str,
    cause: Cause<'_>,
) -> String {
    let message = Message {
        outcome,
        names: NAMES,
        hint,
        cause,
    };
    format!(in rt.alloc(); "{message}").expect(rt, "memory")
}

/// Sees that a text is the one that is wanted.
fn is_told<R: Abort>(rt: &R, told: &str, wanted: &str) {
    assert!(rt; told == wanted, "`{told}` in place of `{wanted}`");
}

#[test]
fn each_outcome_has_its_line(rt: HostRuntime) {
    for (outcome, hint, wanted) in LINES {
        let told = text_of(&rt, *outcome, hint, Cause::Unknown);
        is_told(&rt, told.as_str(), wanted);
    }
    let told = text_of(&rt, Outcome::Done, "", Cause::Unknown);
    is_told(&rt, told.as_str(), "");
}

#[test]
fn a_cause_stands_behind_what_failed(rt: HostRuntime) {
    let error = io::Error::from(ErrorKind::PermissionDenied);
    let told = text_of(&rt, Outcome::ReadFault, "", Cause::System(&error));
    let wanted = "yewendro: the file gone\\r.txt could not be read: permission denied";
    is_told(&rt, told.as_str(), wanted);
}

#[test]
fn wrong_words_are_told_the_modes_behind_their_fault(rt: HostRuntime) {
    let told = text_of(&rt, Outcome::Usage, "`run` is no mode", Cause::Unknown);
    let mut lines = told.as_str().lines();
    is_told(
        &rt,
        lines.next().unwrap_or(""),
        "yewendro: `run` is no mode",
    );
    is_told(&rt, lines.next().unwrap_or(""), "modes of yewendro:");
    for mode in ["plain", "threads", "replay", "soak", "store"] {
        let line = lines.next().unwrap_or("");
        wants(&rt, line.split_whitespace().next() == Some(mode));
    }
    wants(&rt, lines.all(|line| line.len() <= 100));
}

/// The page of modes, flags and statuses, but for its last line.
const PAGE: &[&str] = &[
    "modes of yewendro:",
    "  plain CLUSTER SCRIPT             runs the script under the cluster file, and writes its page",
    "  threads CLUSTER SCRIPT           the same by seven workers in threads of their own",
    "  replay CLUSTER SCRIPT SCHEDULE   the same by the moves of a schedule",
    "  soak N                           runs a soak of N applications, 1 to 1000, and writes its line",
    "  store                            writes what the store keeps",
    "flags, anywhere among the words:",
    "  --file    the store is in the file rm.store of this folder, which is made where there is none;",
    "            without it the store is in memory, and new",
    "  --moves   for plain, threads and replay: a last line of the page tells the moves",
    "statuses:",
    "  0 done   1 words   2 a file not read   3 the page not written   4 cluster file refused",
    "  5 script refused   6 schedule refused   7 the store's device failed   8 store damaged",
    "  9 store full   10 epochs or stamps spent   11 out of memory",
];

#[test]
fn the_page_of_modes_is_written_from_the_tables(rt: HostRuntime) {
    let told = text_of(&rt, Outcome::Usage, "`run` is no mode", Cause::Unknown);
    let mut lines = told.as_str().lines().skip(1);
    for wanted in PAGE {
        is_told(&rt, lines.next().unwrap_or(""), wanted);
    }
}

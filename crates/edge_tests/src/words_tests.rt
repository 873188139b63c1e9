//! What no clause says: that words are answered at all, here by rows that are worked out by hand.
use crate::helpers::{displays, shows, wants, wants_in};
use rm_words::{command_line, name_at, word_fault};
use std::process::Abort;

/// Words, the mode that they ask for as it shows, and whether they have `--moves` and `--file`.
const ASKED: &[(&[&str], &str, bool, bool)] = &[
    (
        &["plain", "a", "b"],
        r#"Plain { cluster: "a", script: "b" }"#,
        false,
        false,
    ),
    (
        &["plain", "", "b"],
        r#"Plain { cluster: "", script: "b" }"#,
        false,
        false,
    ),
    (
        &["--file", "plain", "a", "b"],
        r#"Plain { cluster: "a", script: "b" }"#,
        false,
        true,
    ),
    (
        &["plain", "--moves", "a", "b", "--file"],
        r#"Plain { cluster: "a", script: "b" }"#,
        true,
        true,
    ),
    (
        &["threads", "a", "b"],
        r#"Threads { cluster: "a", script: "b" }"#,
        false,
        false,
    ),
    (
        &["replay", "a", "b", "c"],
        r#"Replay { cluster: "a", script: "b", schedule: "c" }"#,
        false,
        false,
    ),
    (&["soak", "5"], "Soak { number: 5 }", false, false),
    (&["store"], "Store", false, false),
    (&["store", "--file"], "Store", false, true),
];

/// Words that ask for nothing, and what is wrong with them.
const OTHERS: &[(&[&str], &str)] = &[
    (&[], "no mode is named"),
    (&[""], "no mode is named"),
    (&["--moves"], "no mode is named"),
    (&["plain", "a"], "`plain` lacks the name of a script"),
    (&["threads"], "`threads` lacks the name of a cluster file"),
    (
        &["replay", "a", "b"],
        "`replay` lacks the name of a schedule",
    ),
    (
        &["plain", "a", "b", "c"],
        "`c` is one word too many for `plain`",
    ),
    (
        &["plain", "a", "b", "c", "d"],
        "`c` is one word too many for `plain`",
    ),
    (&["soak"], "`soak` lacks the number of its applications"),
    (&["soak", "0"], "`0` is no number from 1 to 1000"),
    (&["soak", "05"], "`05` is no number from 1 to 1000"),
    (&["soak", "1001"], "`1001` is no number from 1 to 1000"),
    (&["soak", "5", "--moves"], "`soak` writes no moves"),
    (&["store", "--moves"], "`store` writes no moves"),
    (&["store", "a"], "`a` is one word too many for `store`"),
    (
        &["--file", "--file", "plain", "a", "b"],
        "`--file` stands more than once",
    ),
    (
        &["--moves", "plain", "--moves", "a", "b"],
        "`--moves` stands more than once",
    ),
    (&["--file=c", "plain", "a", "b"], "`--file=c` is no flag"),
    (&["-", "plain", "a", "b"], "`-` is no flag"),
    (&["--", "plain", "a", "b"], "`--` is no flag"),
    (&["-h"], "`-h` is no flag"),
    (&["--help"], "`--help` is no flag"),
    (&["--version"], "`--version` is no flag"),
    (&["help"], "`help` is no mode"),
    (&["\u{1b}[2J"], "`\\u{1b}[2J` is no mode"),
];

/// Adds a word at the end.
fn push_word<R: Abort + AllocGlobal>(rt: &R, list: &mut Vec<String>, word: &str) {
    let word = String::from_str(rt.alloc(), word).expect(rt, "memory");
    list.push(word).expect(rt, "memory");
}

fn strings<R: Abort + AllocGlobal>(rt: &R, words: &[&str]) -> Vec<String> {
    let mut list = Vec::new(rt.alloc());
    for word in words {
        push_word(rt, &mut list, word);
    }
    list
}

/// Sees that the words ask for this mode, with these flags.
fn asks<R: Abort + AllocGlobal>(
    rt: &R,
    words: &[&str],
    mode: &str,
    shows_moves: bool,
    is_in_file: bool,
) {
    let words = strings(rt, words);
    let line = command_line(rt.alloc(), words.as_slice()).expect(rt, "memory");
    let line = line.expect(rt, mode);
    shows(rt, &line.mode, mode);
    wants_in(rt, mode, line.shows_moves == shows_moves);
    wants_in(rt, mode, line.is_in_file == is_in_file);
}

#[test]
fn each_mode_is_asked_for(rt: HostRuntime) {
    for (words, mode, shows_moves, is_in_file) in ASKED {
        asks(&rt, words, mode, *shows_moves, *is_in_file);
    }
}

/// Sees what is said of the words.
fn see_fault<R: Abort + AllocGlobal>(rt: &R, words: &[String], wanted: &str) {
    let fault = word_fault(rt.alloc(), words).expect(rt, "memory");
    displays(rt, &fault.expect(rt, wanted), wanted);
}

/// Sees that the words ask for nothing, and what is said of them.
fn asks_nothing<R: Abort + AllocGlobal>(rt: &R, words: &[&str], wanted: &str) {
    let words = strings(rt, words);
    let line = command_line(rt.alloc(), words.as_slice()).expect(rt, "memory");
    wants_in(rt, wanted, line.is_none());
    see_fault(rt, words.as_slice(), wanted);
}

#[test]
fn other_words_ask_for_nothing(rt: HostRuntime) {
    for (words, wanted) in OTHERS {
        asks_nothing(&rt, words, wanted);
    }
}

/// Names, in the order of their places.
const NAMES: [&str; 4] = ["plain", "", "b", ""];

#[test]
fn names_are_told_by_their_place(rt: HostRuntime) {
    let words = strings(&rt, &["--file", "plain", "", "--moves", "b"]);
    for (place, name) in NAMES.iter().enumerate() {
        wants(&rt, name_at(words.as_slice(), place) == *name);
    }
}

//! What no clause says: the sentence that a person is told of a refused cluster file, by rows that are worked out by hand.
use crate::helpers::{append, bytes_of, chain, displays, repeated, wants_in};
use rm_cluster::{ClusterError, read_cluster, why};
use std::process::Abort;

/// The place at which a file is refused, and what is told of it; empty where it is read.
fn refusal<R: Abort + AllocGlobal>(rt: &R, file: &[u8]) -> String {
    let alloc = rt.alloc();
    match read_cluster(alloc, file) {
        Err(ClusterError::Refused { place }) => {
            let fault = why(alloc, file, place);
            format!(in alloc; "{place}: {fault}").expect(rt, "memory")
        }
        _ => String::new(alloc),
    }
}

/// Sees that this is told of the file.
fn tells<R: Abort + AllocGlobal>(rt: &R, file: &[u8], want: &str) {
    let told = refusal(rt, file);
    wants_in(rt, told.as_str(), told.as_str() == want);
}

/// Files, and what is told of them.
const FILES: &[(&str, &str)] = &[
    (
        "{\n\"wait_ms\": 1,\n}\n",
        "1: expected the file: one JSON value, found invalid JSON at line 3 column 1",
    ),
    (
        "{\"wait_ms\":",
        "1: expected the file: one JSON value, found EOF while parsing at line 1 column 11",
    ),
    ("[]", "2: expected the file: an object, found []"),
    (
        "{\"max_\\u001battempts\": 3}",
        "2: expected the file: an object, with no key but `max_attempts`, `max_completed`, `max_apps`, `wait_ms`, `acl_enable`, `admin_acl`, `max_memory_mb`, `max_vcores`, `groups`, `queues` and `recover_ended_containers`, found `max_\\x1battempts`",
    ),
    (
        "{\"max_attempts\": 0}",
        "3: expected max_attempts: a whole number from 1 to 100, found 0",
    ),
    (
        "{\"max_completed\": 10001}",
        "4: expected max_completed: a whole number from 0 to 10000, found 10001",
    ),
    (
        "{\"max_apps\": -5}",
        "5: expected max_apps: a whole number from 1 to 100000, found -5",
    ),
    (
        "{\"wait_ms\": \"10\"}",
        "6: expected wait_ms: a whole number from 0 to 1000000000, found \"10\"",
    ),
    (
        "{\"acl_enable\": null}",
        "7: expected acl_enable: true or false, found null",
    ),
    (
        "{\"admin_acl\": \"a\\nb\u{9b}\"}",
        "8: expected admin_acl: a string of at most 512 printable bytes, found \"a\\nb\\xc2\\x9b\"",
    ),
    (
        "{\"max_memory_mb\": true}",
        "9: expected max_memory_mb: a whole number from 1 to 16777216, found true",
    ),
    (
        "{\"max_vcores\": 257}",
        "10: expected max_vcores: a whole number from 1 to 256, found 257",
    ),
    (
        "{\"groups\": []}",
        "11: expected groups: an object of names, each with a list of names, found []",
    ),
    (
        "{\"groups\": {\"ann\": [], \"b\\u001b\": []}}",
        "11: expected groups: a user of 1 to 64 letters, digits, `_`, `.` and `-`, found `b\\x1b`",
    ),
    (
        "{\"groups\": {\"ann\": \"staff\"}}",
        "11: expected groups: a list of names for the user `ann`, found \"staff\"",
    ),
    (
        "{\"groups\": {\"ann\": [\"staff\", \"a/b\"]}}",
        "11: expected groups: groups of 1 to 64 letters, digits, `_`, `.` and `-` for the user `ann`, found \"a/b\"",
    ),
    (
        "{\"recover_ended_containers\": null}",
        "13: expected recover_ended_containers: true or false, found null",
    ),
    (
        "{\"queues\": {}}",
        "12: expected queues: a list of objects with a `name` and maybe `submit` and `admin`, found {}",
    ),
    (
        "{\"queues\": []}",
        "12: expected queues: 1 to 256 queues, found none",
    ),
    (
        "{\"queues\": [{\"name\": \"root\"}, 7]}",
        "12: expected queues: an object as queue 2 of the list, found 7",
    ),
    (
        "{\"queues\": [{\"name\": \"root\", \"lists\": 1}]}",
        "12: expected queues: no key but `name`, `submit` and `admin` in queue 1 of the list, found `lists`",
    ),
    (
        "{\"queues\": [{\"admin\": \"*\"}]}",
        "12: expected queues: a `name` in queue 1 of the list, found none",
    ),
    (
        "{\"queues\": [{\"name\": \"Root\"}]}",
        "12: expected queues: 1 to 128 lower-case letters, digits, `_`, `-` and `.` as the `name` of queue 1 of the list, found \"Root\"",
    ),
    (
        "{\"queues\": [{\"name\": \"root\", \"submit\": 1}]}",
        "12: expected queues: a string of at most 512 printable bytes as `submit` of the queue `root`, found 1",
    ),
    (
        "{\"queues\": [{\"name\": \"top\"}]}",
        "12: expected queues: `root` as the first queue, found `top`",
    ),
    (
        "{\"queues\": [{\"name\": \"root\"}, {\"name\": \"root.a.b\"}]}",
        "12: expected queues: the parent of the queue `root.a.b` before it, and one part more in its name",
    ),
    (
        "{\"queues\": [{\"name\": \"root\"}, {\"name\": \"root.a\"}, {\"name\": \"root.a\"}]}",
        "12: expected queues: the queue `root.a` once",
    ),
];

#[test]
fn files_are_told_by_their_causes(rt: HostRuntime) {
    for (file, want) in FILES {
        tells(&rt, file.as_bytes(), want);
    }
}

/// A root and so many queues below it, all of one name.
fn queues_of_one_name<R: Abort + AllocGlobal>(rt: &R, count: usize) -> Vec<u8> {
    let mut file = bytes_of(rt, b"{\"queues\":[{\"name\":\"root\"}");
    append(
        rt,
        &mut file,
        &repeated(rt, b",{\"name\":\"root.a\"}", count),
    );
    append(rt, &mut file, b"]}");
    file
}

#[test]
fn limits_are_told(rt: HostRuntime) {
    let mut spaces = vec![in rt.alloc(); b' '; 1_048_575].expect(&rt, "memory");
    append(&rt, &mut spaces, b"{}");
    tells(
        &rt,
        &spaces,
        "1: expected the file: at most 1048576 bytes, found more",
    );
    tells(
        &rt,
        &queues_of_one_name(&rt, 256),
        "12: expected queues: 1 to 256 queues, found 257",
    );
    tells(
        &rt,
        &chain(&rt, 9),
        "12: expected queues: at most 8 parts in the name of the queue `root.a.a.a.a.a.a.a.a`",
    );
}

/// Places of rules that an empty object keeps, and what is told of them.
const KEPT_RULES: &[(u32, &str)] = &[
    (3, "expected max_attempts: a whole number from 1 to 100"),
    (
        11,
        "expected groups: an object of names, each with a list of names",
    ),
];

#[test]
fn no_refusal_is_told_by_its_rule(rt: HostRuntime) {
    for (place, want) in KEPT_RULES {
        displays(&rt, &why(rt.alloc(), b"{}", *place), want);
    }
}

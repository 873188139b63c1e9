//! What the tests of several modules share: conditions to be met, and values with the memory that they take.
use rm_types::{Items, Text};
use std::fmt::{Debug, Display};
use std::process::Abort;

/// Sees that it is so.
pub fn wants<R: Abort>(rt: &R, is_so: bool) {
    assert!(rt; is_so);
}

/// Sees that it is so in this case.
pub fn wants_in<R: Abort>(rt: &R, case: &str, is_so: bool) {
    assert!(rt; is_so, "{case}");
}

/// Sees that the bytes are this text.
pub fn is_text<R: Abort>(rt: &R, bytes: &[u8], want: &str) {
    wants_in(rt, want, bytes == want.as_bytes());
}

/// Sees that the text stands somewhere in the bytes.
pub fn has_text<R: Abort>(rt: &R, bytes: &[u8], want: &str) {
    let mut windows = bytes.windows(want.len().max(1));
    wants_in(rt, want, windows.any(|window| window == want.as_bytes()));
}

/// Sees that a value shows as this text.
pub fn shows<R: Abort + AllocGlobal, T: Debug>(rt: &R, value: &T, want: &str) {
    let shown = format!(in rt.alloc(); "{value:?}").expect(rt, "memory");
    wants_in(rt, shown.as_str(), shown.as_str() == want);
}

pub fn text<R: Abort + AllocGlobal>(rt: &R, words: &str) -> Text {
    Text::from_bytes(rt.alloc(), words.as_bytes()).expect(rt, "memory")
}

pub fn push<R: Abort, T: Drop>(rt: &R, items: &mut Items<T>, item: T) {
    items.push(item).expect(rt, "memory");
}

/// The bytes, in memory of their own.
pub fn bytes_of<R: Abort + AllocGlobal>(rt: &R, bytes: &[u8]) -> Vec<u8> {
    Vec::from_slice(rt.alloc(), bytes).expect(rt, "memory")
}

/// Adds the bytes at the end.
pub fn append<R: Abort>(rt: &R, bytes: &mut Vec<u8>, more: &[u8]) {
    bytes.extend_from_slice(more).expect(rt, "memory");
}

/// The bytes, so many times.
pub fn repeated<R: Abort + AllocGlobal>(rt: &R, bytes: &[u8], times: usize) -> Vec<u8> {
    let mut all = Vec::new(rt.alloc());
    for _time in 0..times {
        append(rt, &mut all, bytes);
    }
    all
}

/// Adds a queue of this name to a list of queues.
fn append_queue<R: Abort>(rt: &R, file: &mut Vec<u8>, name: &[u8]) {
    append(rt, file, b",{\"name\":\"");
    append(rt, file, name);
    append(rt, file, b"\"}");
}

/// A cluster file with so many queues, each below the one before it.
pub fn chain<R: Abort + AllocGlobal>(rt: &R, queues: usize) -> Vec<u8> {
    let mut file = bytes_of(rt, b"{\"queues\":[{\"name\":\"root\"}");
    let mut name = bytes_of(rt, b"root");
    for _queue in 1..queues {
        append(rt, &mut name, b".a");
        append_queue(rt, &mut file, &name);
    }
    append(rt, &mut file, b"]}");
    file
}

/// A script's comment of so many bytes.
pub fn comment<R: Abort + AllocGlobal>(rt: &R, length: usize) -> Vec<u8> {
    vec![in rt.alloc(); b'#'; length].expect(rt, "memory")
}

/// Sees that a value is displayed as this text.
pub fn displays<R: Abort + AllocGlobal, T: Display>(rt: &R, value: &T, want: &str) {
    let told = format!(in rt.alloc(); "{value}").expect(rt, "memory");
    wants_in(rt, told.as_str(), told.as_str() == want);
}

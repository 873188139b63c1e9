//! What the tests of several modules share: conditions to be met, and values with the memory that they take.
use rm_types::{Boxed, Items, Text};
use std::process::Abort;

/// Sees that it is so.
pub fn wants<R: Abort>(rt: &R, is_so: bool) {
    assert!(rt; is_so);
}

/// Sees that it is so in this case.
pub fn wants_in<R: Abort>(rt: &R, case: &str, is_so: bool) {
    assert!(rt; is_so, "{case}");
}

/// Sees that the bytes are this text.
pub fn is_text<R: Abort>(rt: &R, bytes: &[u8], want: &str) {
    wants_in(rt, want, bytes == want.as_bytes());
}

/// The parts, one behind another.
pub fn joined<R: Abort + AllocGlobal>(rt: &R, first: &str, middle: &str, last: &str) -> String {
    format!(in rt.alloc(); "{first}{middle}{last}").expect(rt, "memory")
}

/// The bytes, in memory of their own.
pub fn bytes_of<R: Abort + AllocGlobal>(rt: &R, bytes: &[u8]) -> Vec<u8> {
    Vec::from_slice(rt.alloc(), bytes).expect(rt, "memory")
}

pub fn text<R: Abort + AllocGlobal>(rt: &R, words: &str) -> Text {
    Text::from_bytes(rt.alloc(), words.as_bytes()).expect(rt, "memory")
}

pub fn boxed<R: Abort + AllocGlobal, T: Drop>(rt: &R, value: T) -> Boxed<T> {
    Boxed::new(rt.alloc(), value).expect(rt, "memory")
}

pub fn push<R: Abort, T: Drop>(rt: &R, items: &mut Items<T>, item: T) {
    items.push(item).expect(rt, "memory");
}

/// A list of one item.
pub fn only<R: Abort + AllocGlobal, T: Drop>(rt: &R, item: T) -> Items<T> {
    let mut items = Items::new(rt.alloc());
    push(rt, &mut items, item);
    items
}

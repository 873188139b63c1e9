//! What the tests share: ids, sizes and asks, and how they make texts and compare.
ghost use Rattle.std.specs.Prelude.{◌≡◌};

use rm_types::{AppId, Ask, AttemptId, Resource, Text};
use std::alloc::Global;
use std::process::Abort;

pub const APP: AppId = AppId {
    stamp: 1410901177871,
    number: 1,
};

pub const FIRST: AttemptId = AttemptId {
    app: APP,
    number: 1,
};

pub const SECOND: AttemptId = AttemptId {
    app: APP,
    number: 2,
};

pub fn size(memory_mb: u32, vcores: u32) -> Resource
    ensures { result ≡ record { memory_mb = memory_mb; vcores = vcores } }
{
    Resource { memory_mb, vcores }
}

/// An ask for so many containers of one core.
pub fn ask(priority: u32, count: u32, memory_mb: u32) -> Ask {
    Ask {
        priority,
        count,
        size: size(memory_mb, 1),
    }
}

pub fn text<R: Abort>(rt: &R, alloc: Global, bytes: &[u8]) -> Text
    ensures { result ≡ bytes.now }
{
    Text::from_bytes(alloc, bytes).expect(rt, "memory")
}

pub fn wants<R: Abort>(rt: &R, is_so: bool) {
    assert!(rt; is_so);
}

/// The words that were found are those that were wanted.
pub fn wants_words<R: Abort>(rt: &R, found: &str, wanted: &str) {
    assert!(rt; found == wanted, "`{found}` in place of `{wanted}`");
}

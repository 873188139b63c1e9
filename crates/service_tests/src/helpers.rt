//! What the tests share: ids, a size, texts, the words of replies, and tables that know nothing yet.
ghost use Rattle.std.specs.Prelude.{◌≡◌, []};

use rm_tables::Tables;
use rm_types::{AppId, AttemptId, Items, Reply, Resource, Settings, Submission, Text};
use std::alloc::Global;
use std::process::Abort;

pub const APP: AppId = AppId {
    stamp: 5,
    number: 1,
};

pub const ATTEMPT: AttemptId = AttemptId {
    app: APP,
    number: 1,
};

pub const SIZE: Resource = Resource {
    memory_mb: 1024,
    vcores: 1,
};

pub fn wants<R: Abort>(rt: &R, is_so: bool) {
    assert!(rt; is_so);
}

/// The words that were found are those that were wanted.
pub fn wants_words<R: Abort>(rt: &R, found: &str, wanted: &str) {
    assert!(rt; found == wanted, "`{found}` in place of `{wanted}`");
}

/// The word of a reply that is no more than that.
pub fn word(reply: Reply) -> &'static str {
    match reply {
        Reply::Submitted => "submitted",
        Reply::Killing => "killing",
        Reply::MasterRegistered => "registered",
        Reply::Already => "already",
        Reply::TooLarge => "too large",
        Reply::Finishing => "finishing",
        Reply::Resync => "resync",
        Reply::Ok => "ok",
        _ => "another",
    }
}

pub fn text<R: Abort>(rt: &R, alloc: Global, words: &str) -> Text {
    Text::from_bytes(alloc, words.as_bytes()).expect(rt, "memory")
}

/// A job of alice.
pub fn job<R: Abort>(rt: &R, alloc: Global) -> Submission {
    let user = text(rt, alloc, "alice");
    let queue = text(rt, alloc, "root");
    let name = text(rt, alloc, "job");
    Submission {
        user,
        queue,
        name,
        master: SIZE,
        ..Submission::empty()
    }
}

/// Tables that know nothing yet.
pub fn tables(alloc: Global) -> Tables
    ensures { result.rows ≡ [] }
{
    let settings = Settings {
        max_attempts: 2,
        max_completed: 1,
        max_apps: 10,
        greatest: SIZE,
        ..Settings::empty(alloc)
    };
    Tables::new(alloc, settings)
}

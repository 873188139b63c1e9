ghost use Rattle.std.specs.Prelude.{List};
ghost use Rattle.rm_types.specs.declared.entries.Entry.{Entry};

use rm_types::Entry;
use std::collections::LinkedList;

/// A value that workers hand to one another. That its log is lawful is for its type to say.
pub trait Carries: Drop {
    /// What is the same from a run's beginning to its end, as its settings and its script are.
    type Run;

    /// The run that it is of.
    ghost run: { Self → Self.Run };

    /// Its log, the oldest entry first.
    ghost log: { Self → List Entry };
}

/// What a pass knows. It stands in contracts alone: no value of it is made.
pub struct Known<Run, T> {
    /// The run of its baton. A pass that has ended has none.
    pub run: Option<Run>,
    /// The logs that it has seen, which are those that it took, put or was told of.
    pub seen: LinkedList<LinkedList<Entry>>,
    /// The log that it took or put last; before that, the one of the pass that it was split from.
    pub latest: LinkedList<Entry>,
    /// Whether it has the baton.
    pub has: bool,
    /// Whether it is the store's.
    pub store: bool,
    /// Its parts, of the 2^63 that all passes have together.
    pub parts: u64,
    /// The value that it took last.
    pub taken: Option<T>,
    /// The value that it put last.
    pub given: Option<T>,
}

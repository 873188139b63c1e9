ghost use Rattle.rm_states.specs.attempt.Laws.{AttemptRowsAreOne, RegisteredWereLive, LiveWereKept, AttemptTableKeepsEnds, DroppedWereUnsaved};

/// A state and an event have at most one row.
pub fn one_row_answers_each_pair()
    ensures { AttemptRowsAreOne }
{}

/// A master registers only with an attempt that is live.
pub fn only_a_live_attempt_is_registered()
    ensures { RegisteredWereLive }
{}

/// An attempt is live only once its save is kept, and it is issued to the store only once its master has a
/// container.
pub fn an_attempt_is_kept_before_it_is_live()
    ensures { LiveWereKept }
{}

/// An attempt's end is issued to the store first, and told once it is kept and at no other time.
pub fn an_end_is_kept_before_it_is_told()
    ensures { AttemptTableKeepsEnds }
{}

/// An attempt is dropped only before it is issued to the store. From then on it never waits for a container
/// again.
pub fn only_an_unsaved_attempt_is_dropped()
    ensures { DroppedWereUnsaved }
{}

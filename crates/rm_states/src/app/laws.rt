ghost use Rattle.rm_states.specs.app.Laws.{AppRowsAreOne, AppTableKeepsEnds, RunsAreAccepted, AcceptancesAreKept, KillsEnd, StoreIsToldTwice};

/// A state and an event have at most one row.
pub fn one_row_answers_each_pair()
    ensures { AppRowsAreOne }
{}

/// An application comes to a final state only from its end's save, by the word that this end is kept, and
/// it retires then and at no other time.
pub fn an_end_is_kept_before_it_is_told()
    ensures { AppTableKeepsEnds }
{}

/// An application comes to run only from being accepted, when a master registers.
pub fn only_an_accepted_application_runs()
    ensures { RunsAreAccepted }
{}

/// An application is accepted once it is submitted, and again when an attempt of it fails; it is submitted
/// only once its save is kept.
pub fn acceptance_follows_the_save()
    ensures { AcceptancesAreKept }
{}

/// After a kill nothing but its end follows.
pub fn only_an_end_follows_a_kill()
    ensures { KillsEnd }
{}

/// An application is issued to the store only when it starts, and its end only when it goes to have its end
/// saved, which no row leads back from.
pub fn the_store_is_told_twice()
    ensures { StoreIsToldTwice }
{}

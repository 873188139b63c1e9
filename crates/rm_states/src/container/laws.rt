ghost use Rattle.rm_states.specs.container.Laws.{ContainerRowsAreOne, RowsGoForward, RunsAndEnds};

/// A state and an event have at most one row.
pub fn one_row_answers_each_pair()
    ensures { ContainerRowsAreOne }
{}

/// A container only goes forward: it is granted, told, running and ended in this order, and never comes back
/// to a state.
pub fn a_container_only_goes_forward()
    ensures { RowsGoForward }
{}

/// A container runs only by its node's report, before it has ended; it ends only by an end, which it may at
/// any time until then.
pub fn a_container_runs_and_ends_once()
    ensures { RunsAndEnds }
{}

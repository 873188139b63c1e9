use rm_types::{Lane, Sender};

/// What stands between the workers' steps. A gate may wait, and so bring about an order of the moves.
pub trait Gate {
    /// Before a worker joins the others at a life's start, once in each life. The lane is the worker's own, and `Hand` for the
    /// store's worker. A gate that doesn't say otherwise lets it through.
    fn before_start(&self, _lane: Lane) {}

    /// Before the worker of a service takes the baton, each time.
    fn before_serve(&self, sender: Sender);

    /// Before the append of this number, which counts from 1: over all lives of a run by `Workers`, or over the one life of
    /// `run_life`. The store's worker doesn't have the baton then.
    fn before_append(&self, number: u64);

    /// After a worker put the baton back and the bells rang, each time. The lane is that of the entry added; where none was, the worker's
    /// own, and `Hand` for the store's worker.
    fn after_hold(&self, lane: Lane);
}

/// A gate that is always open.
pub struct NoGate;

impl Gate for NoGate {
    fn before_serve(&self, _sender: Sender) {}

    fn before_append(&self, _number: u64) {}

    fn after_hold(&self, _lane: Lane) {}
}

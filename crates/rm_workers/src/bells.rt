use crate::called::Called;
use rm_types::Lane;
use std::sync::Wait;
use std::thread::Parker;
use std::time::Duration;

/// How many milliseconds a worker who may have something to do sleeps at most before it tries again.
const BATON_TURN: u64 = 1;

/// How many milliseconds a worker waits at most for those that haven't come yet, before it looks again.
const START_TURN: u64 = 10;

/// A bell for each of a life's workers, who sleeps until it rings. One that rings for a worker who is awake rings on, until that
/// worker sleeps the next time.
#[derive(Drop)]
pub(crate) struct Bells {
    client: Parker,
    master: Parker,
    node: Parker,
    clock: Parker,
    main: Parker,
    sched: Parker,
    store: Parker,
}

impl Bells {
    /// No bell rings. It takes no memory.
    pub(crate) fn new() -> Bells {
        Bells {
            client: Parker::new(),
            master: Parker::new(),
            node: Parker::new(),
            clock: Parker::new(),
            main: Parker::new(),
            sched: Parker::new(),
            store: Parker::new(),
        }
    }

    /// Rings for those who are called.
    pub(crate) fn ring(&self, called: Called) {
        for (is_called, bell) in [
            (called.client, &self.client),
            (called.master, &self.master),
            (called.node, &self.node),
            (called.clock, &self.clock),
            (called.main, &self.main),
            (called.sched, &self.sched),
            (called.store, &self.store),
        ] {
            if is_called {
                bell.unpark();
            }
        }
    }

    /// Rings for the store's worker.
    pub(crate) fn ring_for_store(&self) {
        self.store.unpark();
    }

    /// The bell of a lane's worker.
    fn of(&self, lane: Lane) -> &Parker {
        match lane {
            Lane::Client => &self.client,
            Lane::Master => &self.master,
            Lane::Node => &self.node,
            Lane::Clock => &self.clock,
            Lane::Main => &self.main,
            Lane::Sched => &self.sched,
            Lane::Hand | Lane::Write | Lane::End | Lane::Begin => &self.store,
        }
    }

    /// The lane's worker left nothing to do for itself. It sleeps until its bell rings: whose hold makes a lane ready rings for that lane's
    /// worker, once the baton is back.
    pub(crate) fn sleep<R: Wait>(&self, rt: &R, lane: Lane) {
        self.of(lane).park(rt);
    }

    /// The lane's worker found the baton with another one, or lets another one take it first. It sleeps until its bell rings, and not for
    /// long: who has the baton may go on with it and ring only behind its last hold, and who was let first may be held up.
    pub(crate) fn nap<R: Wait>(&self, rt: &R, lane: Lane) {
        self.of(lane)
            .park_timeout(rt, Duration::from_millis(BATON_TURN));
    }

    /// The lane's worker waits for those that haven't come yet. It sleeps until its bell rings, and not for long.
    pub(crate) fn await_start<R: Wait>(&self, rt: &R, lane: Lane) {
        self.of(lane)
            .park_timeout(rt, Duration::from_millis(START_TURN));
    }
}

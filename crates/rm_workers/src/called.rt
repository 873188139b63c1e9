//! Who is to be woken after a hold.
ghost use Rattle.std.specs.Prelude.{◌≡◌};
ghost use Rattle.rm_workers.specs.Waking.{CallsAll, calls_any, is_called, newly_called, without_worker};

use rm_types::Lane;

/// The workers whose bells are to ring.
#[derive(Clone, Copy, PartialEq, Eq)]
pub(crate) struct Called {
    pub(crate) client: bool,
    pub(crate) master: bool,
    pub(crate) node: bool,
    pub(crate) clock: bool,
    pub(crate) main: bool,
    pub(crate) sched: bool,
    pub(crate) store: bool,
}

impl Called {
    /// All workers.
    pub(crate) fn everyone() -> Called
        ensures { CallsAll result }
    {
        Called {
            client: true,
            master: true,
            node: true,
            clock: true,
            main: true,
            sched: true,
            store: true,
        }
    }

    /// The same, but for the worker of this lane.
    pub(crate) fn without(self, lane: Lane) -> Called
        ensures { result ≡ without_worker lane self }
    {
        let mut called = self;
        match lane {
            Lane::Client => called.client = false,
            Lane::Master => called.master = false,
            Lane::Node => called.node = false,
            Lane::Clock => called.clock = false,
            Lane::Main => called.main = false,
            Lane::Sched => called.sched = false,
            Lane::Hand | Lane::Write | Lane::End => called.store = false,
            Lane::Begin => {}
        }
        called
    }

    /// Whether the worker of this lane is called.
    pub(crate) fn has(self, lane: Lane) -> bool
        ensures { result ≡ is_called self lane }
    {
        match lane {
            Lane::Client => self.client,
            Lane::Master => self.master,
            Lane::Node => self.node,
            Lane::Clock => self.clock,
            Lane::Main => self.main,
            Lane::Sched => self.sched,
            Lane::Hand | Lane::Write | Lane::End => self.store,
            Lane::Begin => true,
        }
    }

    /// The same, but for those who were called before.
    pub(crate) fn but(self, before: Called) -> Called
        ensures { result ≡ newly_called before self }
    {
        Called {
            client: self.client && !before.client,
            master: self.master && !before.master,
            node: self.node && !before.node,
            clock: self.clock && !before.clock,
            main: self.main && !before.main,
            sched: self.sched && !before.sched,
            store: self.store && !before.store,
        }
    }

    /// Whether any worker is called.
    pub(crate) fn is_any(self) -> bool
        ensures { result ≡ calls_any self }
    {
        self.client
            || self.master
            || self.node
            || self.clock
            || self.main
            || self.sched
            || self.store
    }
}

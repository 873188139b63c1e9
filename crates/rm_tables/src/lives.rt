ghost use Rattle.std.specs.Prelude.{◌≡◌, OnOk, OnErr};
ghost use Rattle.rm_tables.specs.Lives.{no_life, cleared, begun, tables_gone_down, handed_out, refused, is_ready_lane, may_go_down};

use crate::completed::ended_in;
use crate::container_set::ContainerSet;
use crate::events::MainEvent;
use crate::nodes::Nodes;
use crate::opening::{going_in, recovered_rows};
use crate::rows::Rows;
use crate::tables::Tables;
use rm_book::{Asks, Book};
use rm_tree::Tree;
use rm_types::{Lane, NoMemory, Queue, Settings};
use std::alloc::Global;

impl Tables {
    /// The tables before the first life: nothing is known of the store. They take no memory.
    pub fn new(alloc: Global, settings: Settings) -> Tables
        ensures { result ≡ no_life alloc settings }
    {
        Tables {
            alloc,
            settings,
            tree: Tree::new(alloc),
            awaiting: Queue::new(alloc),
            alive: false,
            epoch: 0,
            stamp: 0,
            is_open: false,
            handed: false,
            blown: false,
            given: 0,
            served: 0,
            rows: Rows::new(alloc),
            going: 0,
            ended: Queue::new(alloc),
            clock: 0,
            waits: false,
            asks: Asks::new(alloc),
            book: Book::new(alloc),
            departed: ContainerSet::new(alloc),
            pending: ContainerSet::new(alloc),
            nodes: Nodes::new(alloc),
            main: Queue::new(alloc),
            sched: Queue::new(alloc),
        }
    }

    /// A life begins under a stamp, over a tree, which is moved in. It takes time in the number of recorded
    /// applications, and little more where they ended in about the order in which they were submitted. `NoMemory` leaves all as it was; the tree is then dropped.
    pub fn begin(&mut self, tree: Tree, stamp: u64) -> Result<(), NoMemory>
        ensures ok { OnOk result (self.new ≡ begun tree stamp self.old) }
        ensures err { OnErr result (self.new ≡ self.old) }
    {
        let mut main = Queue::new(self.alloc);
        main.push(MainEvent::EpochStart)?;
        let rows = recovered_rows(self.alloc, &tree)?;
        let ended = ended_in(self.alloc, &tree)?;
        self.clear();
        self.going = going_in(&tree);
        self.waits = self.going > 0;
        self.rows = rows;
        self.ended = ended;
        self.epoch = tree.next_epoch();
        self.stamp = stamp;
        self.main = main;
        self.awaiting = Queue::new(self.alloc);
        self.tree = tree;
        self.alive = true;
        Ok(())
    }

    /// A life goes down: what is recorded and what awaits is left of it, and whether the store refused an operation of it.
    pub fn go_down(&mut self)
        ensures { self.new ≡ tables_gone_down self.old }
    {
        let blown = self.blown;
        self.clear();
        self.blown = blown;
        self.alive = false;
    }

    /// Nothing of a life is left but its epoch and its stamp.
    fn clear(&mut self)
        ensures { self.new ≡ cleared self.old }
    {
        self.is_open = false;
        self.handed = false;
        self.blown = false;
        self.given = 0;
        self.served = 0;
        self.rows = Rows::new(self.alloc);
        self.going = 0;
        self.ended = Queue::new(self.alloc);
        self.clock = 0;
        self.waits = false;
        self.asks = Asks::new(self.alloc);
        self.book = Book::new(self.alloc);
        self.departed = ContainerSet::new(self.alloc);
        self.pending = ContainerSet::new(self.alloc);
        self.nodes = Nodes::new(self.alloc);
        self.main = Queue::new(self.alloc);
        self.sched = Queue::new(self.alloc);
    }

    /// The first awaiting operation is handed to the store.
    pub fn hand(&mut self)
        ensures { self.new ≡ handed_out self.old }
    {
        self.handed = true;
    }

    /// The store refused the operation that was handed to it.
    pub fn blow(&mut self)
        ensures { self.new ≡ refused self.old }
    {
        self.handed = false;
        self.blown = true;
    }

    /// Whether a lane has something to do, whatever the script says.
    pub fn is_ready(&self, lane: Lane) -> bool
        ensures { result ≡ is_ready_lane self.now lane }
    {
        match lane {
            Lane::Client | Lane::Master | Lane::Node | Lane::Clock => {
                self.alive && (self.is_open || self.blown)
            }
            Lane::Main => !self.main.is_empty(),
            Lane::Sched => !self.sched.is_empty(),
            Lane::Hand => self.alive && !self.awaiting.is_empty() && !self.handed && !self.blown,
            Lane::Write => self.alive && self.handed,
            Lane::End => {
                self.alive
                    && self.main.is_empty()
                    && self.sched.is_empty()
                    && self.awaiting.is_empty()
            }
            Lane::Begin => !self.alive,
        }
    }

    /// Whether a life may go down: it stands, and no operation is with the store.
    pub fn may_go_down(&self) -> bool
        ensures { result ≡ may_go_down self.now }
    {
        self.alive && !self.handed
    }
}

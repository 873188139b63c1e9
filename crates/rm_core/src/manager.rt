ghost use Rattle.std.specs.Prelude.{◌≡◌, ◌↔◌, ◌<◌, ◌≤◌, List, [], OnOk, OnErr, IsOk, IfOk, IfNone, IfSome, IsErrOf, IsTrue, Some, count_by, false};
ghost use Rattle.std.specs.Option.{option_copied};
ghost use Rattle.rm_types.specs.declared.entries.Entry.{Entry};
ghost use Rattle.rm_types.specs.declared.messages.Lane.{Lane};
ghost use Rattle.rm_types.specs.declared.operations.Op.{Op as AnyOp};
ghost use Rattle.rm_types.specs.Alike.{IsAlike};
ghost use Rattle.rm_types.specs.Ranges.{IsOperation};
ghost use Rattle.rm_types.specs.Limits.{greatest_stamp, most_served};
ghost use Rattle.rm_types.specs.Records.{no_records};
ghost use Rattle.rm_queues.specs.Rules.{KeepsRules};
ghost use Rattle.rm_model.specs.State.{opening_state};
ghost use Rattle.rm_model.specs.Lawful.{AllAllowed, state_after};
ghost use Rattle.rm_tables.specs.Lives.{is_ready_lane, may_go_down, no_life};
ghost use Rattle.rm_core.specs.Moves.{CanBeginOver, CanMake, MoveEffect, IsLeft, IsOwn, may_make};
ghost use Rattle.rm_core.specs.Invariant.{QueuesAre};
ghost use Rattle.rm_core.specs.Seen.{IsToBeKept, Rests, StandsFor, handed_op, is_kept_entry};
ghost use Rattle.rm_invariant.specs.messages.Ranges.{IsMessage, KeepsLimits};

use crate::likeness::are_alike;
use crate::moves;
use rm_queues::QueueTree;
use rm_tables::{Refused, Tables};
use rm_tree::Tree;
use rm_types::{Entry, Items, Lane, Message, NoMemory, Op, Settings};
use std::alloc::Global;
use std::marker::Model;

/// What may happen next.
#[derive(Drop)]
pub enum Move {
    /// A message is answered.
    Serve(Message),
    /// The first event of the main queue is worked off.
    Main,
    /// The first event of the scheduler's queue is worked off.
    Sched,
    /// The first awaiting operation is handed to the store.
    Hand,
    /// The store has kept the operation that was handed to it.
    Kept,
    /// The store has refused the operation that was handed to it: so many of its calls passed, and nothing more is kept in
    /// this life.
    Blown { passed: u32 },
    /// The segment of the script settles.
    Settle,
    /// The life goes down. What awaits may land on the device or be lost.
    Down,
    /// A life begins over what the store holds, of which `tree` is what it amounts to; `handed` (1 to 10^15)
    /// is the stamp that its script gives it. After the first life the manager goes on with its own records, from which
    /// `tree` differs in the numbers of ends alone: it tells whether the operation that the store refused landed.
    Begin { tree: Tree, handed: u64 },
}

/// The manager and its log. The log is stored here, once.
#[derive(Drop)]
pub struct Core {
    /// The queues of the settings, from the first life on.
    queues: Option<QueueTree>,
    tables: Tables,
    log: Items<Entry>,
}

impl Model for Core {
    ghost use Rattle.rm_core.specs.Invariant.{QueuesAre};
    ghost use Rattle.rm_core.specs.Seen.{Seen};

    ghost Value = { Seen };

    ghost use Rattle.rm_core.specs.Invariant.{IsSoundCore};

    ghost view = { λ a. record { settings = a.tables.settings; tables = a.tables; log = a.log } };

    ghost invariant = { λ a. IsSoundCore a.queues a.tables };
}

impl Core {
    /// A manager before its first life. Whatever the store holds, an empty log is lawful. The first queue of the settings is the root, and
    /// they allow 1 to 100 attempts of an application.
    pub fn new(alloc: Global, settings: Settings) -> Result<Core, NoMemory>
        requires rules { KeepsRules settings }
        requires limits { KeepsLimits settings }
        ensures made { IsOk result }
        ensures settings { IfOk result (λ core. core.settings ≡ settings) }
        ensures tables { IfOk result (λ core. core.tables ≡ no_life alloc settings) }
        ensures log { IfOk result (λ core. core.log ≡ []) }
        ensures stands { IfOk result (λ core. (opening : List AnyOp) → StandsFor opening core) }
    {
        Ok(Core {
            queues: None,
            tables: Tables::new(alloc, settings),
            log: Items::new(alloc),
        })
    }

    /// The log so far. Over a store that held the opening list, each entry of it is allowed in the state
    /// that those before it leave.
    pub fn log(&self) -> &Items<Entry>
        ensures log { result.now ≡ self.now.log }
        ensures allowed { (opening : List AnyOp) → StandsFor opening self.now → AllAllowed self.now.settings (opening_state opening) self.now.log }
    {
        &self.log
    }

    /// The log, handed out. It takes no memory.
    pub fn into_log(self) -> Items<Entry>
        ensures log { result ≡ self.log }
        ensures allowed { (opening : List AnyOp) → StandsFor opening self → AllAllowed self.settings (opening_state opening) self.log }
    {
        let _ = &self.log;
        self.log
    }

    /// The operation that was handed to the store and isn't kept yet: `None` exactly where none is. It can
    /// be framed, and fits what is kept.
    pub fn handed(&self) -> Option<&Op>
        ensures op { option_copied result ≡ handed_op self.now.tables }
        ensures none { IfNone result (is_ready_lane self.now.tables Lane.Write ≡ false) }
        ensures framed { IfSome result (λ op. IsOperation op.now) }
        ensures next { IfSome result (λ op. (opening : List AnyOp) → StandsFor opening self.now → IsToBeKept opening self.now op.now) }
        ensures unblown { IfSome result (λ _. self.now.tables.blown ≡ false) }
    {
        if self.tables.is_ready(Lane::Write) {
            self.tables.awaiting.first()
        } else {
            None
        }
    }

    /// How many `Kept` entries the log has, counted over the whole log.
    pub fn kept_count(&self) -> u64
        ensures { result ≡ count_by is_kept_entry self.now.log }
    {
        count_kept(self.log.as_slice()) as u64
    }

    /// How many messages were served in the life that stands: 0 to 2^31 - 1. Before the first life, and where a life went down, none were.
    pub fn served(&self) -> u32
        ensures { result ≡ self.now.tables.served }
    {
        self.tables.served
    }

    /// Whether a lane has something to do, as far as the manager itself can tell.
    pub fn is_ready(&self, lane: Lane) -> bool
        ensures { result ≡ is_ready_lane self.now.tables lane }
    {
        self.tables.is_ready(lane)
    }

    /// Whether the life may go down: one stands, and no operation is with the store.
    pub fn may_go_down(&self) -> bool
        ensures { result ≡ may_go_down self.now.tables }
    {
        self.tables.may_go_down()
    }

    /// Whether a tree is what the last life can have left of the store, but for the numbers of ends, which stand in the same order:
    /// what the kept operations amount to or, where that life blew, these and the first that awaits. Over such a tree a later life
    /// may begin. Before the first life, when nothing is known of a store, whether it records nothing. `NoMemory` where no memory was
    /// found to compare the two.
    pub fn is_left(&self, tree: &Tree) -> Result<bool, NoMemory>
        requires { self.now.tables.alive ≡ false }
        ensures left { (opening : List AnyOp) → StandsFor opening self.now → (self.now.log ≡ [] → ⊥) → IfOk result (λ left. IsTrue left ↔ IsLeft tree.now (state_after opening self.now.log)) }
        ensures unbegun { (opening : List AnyOp) → StandsFor opening self.now → self.now.log ≡ [] → IfOk result (λ left. IsTrue left ↔ IsAlike tree.now no_records) }
        ensures own { (self.now.log ≡ [] → ⊥) → IfOk result (λ left. IsTrue left → IsOwn self.now tree.now) }
    {
        let own = moves::with_landed(&self.tables, moves::landed_in(&self.tables, tree))?;
        are_alike(self.tables.alloc, &own, tree)
    }

    /// Where nothing is left to do, nothing is owed.
    pub fn rest(&self)
        ensures { Rests self.now }
    {
        let _ = &self.log;
    }

    /// Makes one move: the log has one more entry, or the move is refused and nothing has changed. `NotReady` comes exactly where the
    /// move's lane isn't ready: a life begins where none stands, and one goes down where no operation is with the store. Where the log
    /// was lawful over a store that held an opening list, and a life begins over what is kept by then, it is lawful after the move too.
    pub fn step(&mut self, next: Move) -> Result<(), Refused>
        requires { CanMake self.old next }
        ensures does { OnOk result (MoveEffect next self.old self.new) }
        ensures not_ready { IsErrOf result Refused.NotReady ↔ (may_make self.old.tables next ≡ false) }
        ensures err { OnErr result (self.new ≡ self.old) }
    {
        match next {
            Move::Begin { tree, handed } => self.begin(tree, handed),
            Move::Serve(message) => self.serve(message),
            Move::Main => self.main(),
            Move::Sched => self.sched(),
            Move::Hand => self.hand(),
            Move::Kept => self.keep(),
            Move::Blown { passed } => self.blow(passed),
            Move::Settle => self.settle(),
            Move::Down => self.go_down(),
        }
    }

    fn begin(&mut self, tree: Tree, handed: u64) -> Result<(), Refused>
        requires over { CanBeginOver tree }
        requires own { IsOwn self.old tree }
        requires low { 1 ≤ handed }
        requires high { handed ≤ greatest_stamp }
        ensures does { OnOk result (MoveEffect (Move.Begin tree handed) self.old self.new) }
        ensures not_ready { IsErrOf result Refused.NotReady ↔ (is_ready_lane self.old.tables Lane.Begin ≡ false) }
        ensures err { OnErr result (self.new ≡ self.old) }
    {
        if self.tables.alive {
            return Err(Refused::NotReady);
        }
        ready_queues(&mut self.queues, &self.tables)?;
        let landed = moves::landed_in(&self.tables, &tree);
        let own = moves::own_tree(&self.log, &self.tables, landed, tree)?;
        let stamp = handed.max(own.stamp() + 1);
        moves::begin(&mut self.tables, &mut self.log, landed, own, stamp)
    }

    fn main(&mut self) -> Result<(), Refused>
        ensures does { OnOk result (MoveEffect Move.Main self.old self.new) }
        ensures not_ready { IsErrOf result Refused.NotReady ↔ (is_ready_lane self.old.tables Lane.Main ≡ false) }
        ensures err { OnErr result (self.new ≡ self.old) }
    {
        moves::main(&mut self.tables, &mut self.log)
    }

    fn sched(&mut self) -> Result<(), Refused>
        ensures does { OnOk result (MoveEffect Move.Sched self.old self.new) }
        ensures not_ready { IsErrOf result Refused.NotReady ↔ (is_ready_lane self.old.tables Lane.Sched ≡ false) }
        ensures err { OnErr result (self.new ≡ self.old) }
    {
        // With its length a book tells that its containers live, each in one row.
        let _living = self.tables.book.len();
        moves::sched(&mut self.tables, &mut self.log)
    }

    fn hand(&mut self) -> Result<(), Refused>
        ensures does { OnOk result (MoveEffect Move.Hand self.old self.new) }
        ensures not_ready { IsErrOf result Refused.NotReady ↔ (is_ready_lane self.old.tables Lane.Hand ≡ false) }
        ensures err { OnErr result (self.new ≡ self.old) }
    {
        moves::hand(&mut self.tables, &mut self.log)
    }

    fn keep(&mut self) -> Result<(), Refused>
        ensures does { OnOk result (MoveEffect Move.Kept self.old self.new) }
        ensures not_ready { IsErrOf result Refused.NotReady ↔ (is_ready_lane self.old.tables Lane.Write ≡ false) }
        ensures err { OnErr result (self.new ≡ self.old) }
    {
        moves::keep(&mut self.tables, &mut self.log)
    }

    fn blow(&mut self, passed: u32) -> Result<(), Refused>
        ensures does { OnOk result (MoveEffect (Move.Blown passed) self.old self.new) }
        ensures not_ready { IsErrOf result Refused.NotReady ↔ (is_ready_lane self.old.tables Lane.Write ≡ false) }
        ensures err { OnErr result (self.new ≡ self.old) }
    {
        moves::blow(&mut self.tables, &mut self.log, passed)
    }

    fn serve(&mut self, message: Message) -> Result<(), Refused>
        requires message { IsMessage message }
        requires few { self.old.tables.served < most_served }
        ensures does { OnOk result (MoveEffect (Move.Serve message) self.old self.new) }
        ensures not_ready { IsErrOf result Refused.NotReady ↔ (may_make self.old.tables (Move.Serve message) ≡ false) }
        ensures err { OnErr result (self.new ≡ self.old) }
    {
        let Some(queues) = &self.queues else {
            return Err(Refused::NotReady);
        };
        let _living = self.tables.book.len();
        moves::answer_message(queues, &mut self.tables, &mut self.log, message)
    }

    fn settle(&mut self) -> Result<(), Refused>
        ensures does { OnOk result (MoveEffect Move.Settle self.old self.new) }
        ensures not_ready { IsErrOf result Refused.NotReady ↔ (is_ready_lane self.old.tables Lane.End ≡ false) }
        ensures err { OnErr result (self.new ≡ self.old) }
    {
        moves::settle(&self.tables, &mut self.log)
    }

    fn go_down(&mut self) -> Result<(), Refused>
        ensures does { OnOk result (MoveEffect Move.Down self.old self.new) }
        ensures not_ready { IsErrOf result Refused.NotReady ↔ (may_go_down self.old.tables ≡ false) }
        ensures err { OnErr result (self.new ≡ self.old) }
    {
        moves::go_down(&mut self.tables, &mut self.log)
    }
}

/// The queues of the settings are made, where they aren't there.
fn ready_queues(queues: &mut Option<QueueTree>, t: &Tables) -> Result<(), NoMemory>
    requires rules { KeepsRules t.now.settings }
    requires are { QueuesAre queues.old t.now }
    ensures ok { OnOk result (queues.new ≡ Some t.now.settings) }
    ensures err { OnErr result (queues.new ≡ queues.old) }
{
    if queues.is_some() {
        return Ok(());
    }
    *queues = Some(QueueTree::new(t.alloc, &t.settings)?);
    Ok(())
}

fn is_kept_entry(entry: &Entry) -> bool
    ensures { result ≡ is_kept_entry entry.now }
{
    matches!(entry, Entry::Kept { .. })
}

fn count_kept(log: &[Entry]) -> usize
    ensures { result ≡ count_by is_kept_entry log.now }
{
    let mut kept = 0;
    'entries: for entry in log {
        if is_kept_entry(entry) {
            kept += 1;
        }
    }
    kept
}

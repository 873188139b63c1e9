ghost use Rattle.std.specs.Prelude.{◌≡◌, ◌↔◌, ◌≤◌, ◌+◌, ℕ, List, [], length, OnOk, OnErr, IsOk, IfOk, IfNone, IfSome, IsErrOf, IsTrue, Some, true, false, not};
ghost use Rattle.std.specs.Option.{option_copied};
ghost use Rattle.rm_types.specs.declared.messages.Lane.{Lane};
ghost use Rattle.rm_types.specs.declared.operations.Op.{Op as AnyOp};
ghost use Rattle.rm_types.specs.declared.scripts.Close.{Close};
ghost use Rattle.rm_types.specs.declared.scripts.Script.{Script as AnyScript};
ghost use Rattle.rm_types.specs.Alike.{IsAlike};
ghost use Rattle.rm_types.specs.Ranges.{IsOperation};
ghost use Rattle.rm_types.specs.Limits.{greatest_stamp, most_served};
ghost use Rattle.rm_types.specs.Records.{no_records};
ghost use Rattle.rm_model.specs.Lawful.{IsDone, Lawful, state_after};
ghost use Rattle.rm_model.specs.Place.{ByLife, BySegment, beginning, close_left};
ghost use Rattle.rm_tables.specs.declared.events.Refused.{Refused};
ghost use Rattle.rm_queues.specs.Rules.{KeepsRules};
ghost use Rattle.rm_invariant.specs.messages.Ranges.{KeepsLimits};
ghost use Rattle.rm_core.specs.Moves.{CanBeginOver, IsLeft, IsOwn};
ghost use Rattle.rm_core.specs.Seen.{IsToBeKept, StandsFor};
ghost use Rattle.rm_core.specs.Words.{as_new, handed_of, has_rest, is_blown, new_manager, served_in, stands};
ghost use Rattle.rm_desk.specs.Effects.{Grows, LifeBegins, StoreBlows, LaneEffect, IsHanded};
ghost use Rattle.rm_desk.specs.Lanes.{HasNoWork, IsStep, is_ready_at};
ghost use Rattle.rm_desk.specs.Runs.{IsScriptOver, IsScriptRun, IsPlaceSound, DescribesState};
ghost use Rattle.rm_desk.specs.Scripts.{AllServed, CanGoAlong};

use crate::feeds::Feeds;
use crate::moves::{advance, begin, blown, kept};
use rm_core::{Core, Refused};
use rm_tree::Tree;
use rm_types::{Close, Entry, Items, Lane, Life, NoMemory, Op, Script, Segment, Sender, Settings};
use std::alloc::Global;
use std::marker::Model;

/// The manager with its log, and what is left of its script.
#[derive(Drop)]
pub struct Desk {
    core: Core,
    feeds: Feeds,
}

impl Model for Desk {
    ghost use Rattle.rm_desk.specs.View.{DeskView};

    ghost Value = { DeskView };

    ghost use Rattle.rm_desk.specs.Feeds.{IsEntered, at};
    ghost use Rattle.rm_desk.specs.Runs.{IsPlaceSound};

    ghost view = { λ a. at a.core a.feeds };

    ghost invariant = { λ a. IsPlaceSound (at a.core a.feeds) × IsEntered a.feeds };
}

impl Desk {
    /// A manager before the first life of a script. An empty log goes along each script, whatever the store
    /// holds.
    /// The first queue of the settings is the root, and they allow 1 to 100 attempts of an application.
    pub fn new(alloc: Global, settings: Settings, script: Script) -> Result<Desk, NoMemory>
        requires queues { KeepsRules settings }
        requires limits { KeepsLimits settings }
        requires script { CanGoAlong script }
        ensures made { IsOk result }
        ensures settings { IfOk result (λ desk. desk.core.settings ≡ settings) }
        ensures log { IfOk result (λ desk. desk.core.log ≡ []) }
        ensures place { IfOk result (λ desk. desk.place ≡ beginning script) }
        ensures down { IfOk result (λ desk. stands desk.core ≡ false) }
        ensures began { IfOk result (λ desk. as_new desk.core ≡ new_manager alloc settings) }
        ensures run { IfOk result (λ desk. (opening : List AnyOp) → IsScriptRun opening script desk) }
    {
        let core = Core::new(alloc, settings)?;
        Ok(Desk {
            core,
            feeds: Feeds::new(alloc, script),
        })
    }

    /// The script has a life more at its end, with this stamp (1 to 10^15) and with no segment yet: a run along the script is one along the
    /// longer script. No life stands, and none is left of the script. The manager and its log stay as they are. `NoMemory` where no memory was
    /// found for it, and then nothing has changed.
    pub fn add_life(&mut self, stamp: u64) -> Result<(), NoMemory>
        requires down { stands self.old.core ≡ false }
        requires last { self.old.place.lives ≡ [] }
        requires low { 1 ≤ stamp }
        requires high { stamp ≤ greatest_stamp }
        ensures grows { OnOk result (Grows (ByLife (record { stamp = stamp; segments = [] })) self.old self.new) }
        ensures err { OnErr result (self.new ≡ self.old) }
    {
        let life = Life {
            stamp,
            segments: Items::new(self.feeds.alloc),
        };
        self.feeds.add_life(life)
    }

    /// The script has this segment more at its end, which becomes the current one: a run along the script is one along the longer script. The
    /// last life of the script stands, and no segment of it is left; each message is of a kind that is served, and with those that the life
    /// served they are 2^31 - 1 at most. The manager and its log stay as they are. It takes no memory.
    pub fn add_segment(&mut self, segment: Segment)
        requires stands { stands self.old.core ≡ true }
        requires last { self.old.place.lives ≡ [] }
        requires closed { self.old.place.segments ≡ [] }
        requires each { AllServed segment.messages }
        requires few { served_in self.old.core + length segment.messages ≤ most_served }
        ensures { Grows (BySegment segment) self.old self.new }
    {
        self.feeds.add_segment(segment)
    }

    /// How many messages were served in the life that stands: 0 to 2^31 - 1. Before the first life, and where a life went down, none were.
    pub fn served(&self) -> u32
        ensures { result ≡ served_in self.now.core }
    {
        self.core.served()
    }

    /// Whether a lane may move: the manager has something to do there, and the script is at it. The lane of a feed
    /// has something to do where a message of its sender is left in the current segment.
    pub fn ready(&self, lane: Lane) -> bool
        ensures { result ≡ is_ready_at self.now lane }
    {
        if let Some(sender) = lane.sender() {
            return self.core.is_ready(lane) && self.feeds.feed.has(sender);
        }
        match lane {
            Lane::Main | Lane::Sched | Lane::Hand | Lane::Write => self.core.is_ready(lane),
            Lane::End => self.may_close(),
            Lane::Begin => self.core.is_ready(lane) && !self.feeds.lives.is_empty(),
            Lane::Client | Lane::Master | Lane::Node | Lane::Clock => unreachable!(),
        }
    }

    /// Whether the current segment may close: its feeds are empty, and nothing is left to do where it settles,
    /// or no operation is with the store where it crashes.
    fn may_close(&self) -> bool
        ensures { result ≡ is_ready_at self.now Lane.End }
    {
        match self.feeds.close {
            Some(Close::Settle) => self.core.is_ready(Lane::End) && self.feeds.feed.is_empty(),
            Some(Close::Crash { .. }) => self.core.may_go_down() && self.feeds.feed.is_empty(),
            None => false,
        }
    }

    /// Makes the move of a lane: the log has one more entry, of this lane, and less is left of the life.
    /// `NotReady` comes exactly where the lane isn't ready, and `Memory` where no memory was found; then
    /// nothing has changed.
    ///
    /// The store's lane moves by `kept`, and a life begins by `begin`.
    pub fn step(&mut self, lane: Lane) -> Result<(), Refused>
        requires { IsStep lane }
        ensures does { OnOk result (LaneEffect lane self.old self.new) }
        ensures ready { OnOk result (is_ready_at self.old lane ≡ true) }
        ensures not_ready { IsErrOf result Refused.NotReady ↔ (is_ready_at self.old lane ≡ false) }
        ensures err { OnErr result (self.new ≡ self.old) }
    {
        if !self.ready(lane) {
            return Err(Refused::NotReady);
        }
        advance(&mut self.core, &mut self.feeds, lane)
    }

    /// The store has kept the operation that was handed to it: the log has one more entry that says so.
    /// `NotReady` comes exactly where none is with the store, and `Memory` where no memory was found; then
    /// nothing has changed.
    pub fn kept(&mut self) -> Result<(), Refused>
        ensures does { OnOk result (LaneEffect Lane.Write self.old self.new) }
        ensures ready { OnOk result (is_ready_at self.old Lane.Write ≡ true) }
        ensures not_ready { IsErrOf result Refused.NotReady ↔ (is_ready_at self.old Lane.Write ≡ false) }
        ensures err { OnErr result (self.new ≡ self.old) }
    {
        if !self.ready(Lane::Write) {
            return Err(Refused::NotReady);
        }
        kept(&mut self.core, &self.feeds)
    }

    /// The store has refused the operation that was handed to it, after so many calls as the current segment's crash says:
    /// the log has one more entry that says so, and nothing more is kept in this life. `NotReady` comes exactly where none
    /// is with the store, and `Memory` where no memory was found; then nothing has changed.
    pub fn blown(&mut self, passed: u32) -> Result<(), Refused>
        requires { (image : ℕ) × (close_left self.old.place.segments ≡ Some (Close.Crash passed image)) }
        ensures does { OnOk result (StoreBlows passed self.old self.new) }
        ensures ready { OnOk result (is_ready_at self.old Lane.Write ≡ true) }
        ensures not_ready { IsErrOf result Refused.NotReady ↔ (is_ready_at self.old Lane.Write ≡ false) }
        ensures err { OnErr result (self.new ≡ self.old) }
    {
        if !self.ready(Lane::Write) {
            return Err(Refused::NotReady);
        }
        blown(&mut self.core, &self.feeds, passed)
    }

    /// The script's next life begins over what the last one left of the store, of which `tree` is what it amounts to; after the first
    /// life the manager goes on with its own records, from which `tree` differs in the numbers of ends alone.
    /// `NotReady` comes exactly where a life stands or none is left in the script, and `Memory` where no
    /// memory was found; then nothing has changed.
    pub fn begin(&mut self, tree: Tree) -> Result<(), Refused>
        requires over { CanBeginOver tree }
        requires own { IsOwn self.old.core tree }
        ensures begins { OnOk result (LifeBegins tree self.old self.new) }
        ensures ready { OnOk result (is_ready_at self.old Lane.Begin ≡ true) }
        ensures not_ready { IsErrOf result Refused.NotReady ↔ (is_ready_at self.old Lane.Begin ≡ false) }
        ensures err { OnErr result (self.new ≡ self.old) }
    {
        if !self.ready(Lane::Begin) {
            return Err(Refused::NotReady);
        }
        begin(&mut self.core, &mut self.feeds, tree)
    }

    /// The operation that was handed to the store and isn't kept yet: `None` exactly where none is. It can
    /// be framed, fits what is kept, and is the first that awaits.
    pub fn handed(&self) -> Option<&Op>
        ensures op { option_copied result ≡ handed_of self.now.core }
        ensures none { IfNone result (is_ready_at self.now Lane.Write ≡ false) }
        ensures some { IfSome result (λ _. is_ready_at self.now Lane.Write ≡ true) }
        ensures framed { IfSome result (λ op. IsOperation op.now) }
        ensures next { IfSome result (λ op. (opening : List AnyOp) → StandsFor opening self.now.core → IsToBeKept opening self.now.core op.now) }
        ensures handed { IfSome result (λ op. (opening : List AnyOp) → StandsFor opening self.now.core → IsHanded opening self.now.core.log op.now) }
        ensures busy { IfSome result (λ _. has_rest self.now.core → ⊥) }
        ensures unblown { IfSome result (λ _. is_blown self.now.core ≡ false) }
    {
        self.core.handed()
    }

    /// How the current segment closes: `None` exactly where no life stands or none is left of its segments.
    pub fn close_of(&self) -> Option<Close>
        ensures { result ≡ close_left self.now.place.segments }
    {
        self.feeds.close
    }

    /// Whether a tree is what the last life can have left of the store, but for the numbers of ends, which stand in the same order:
    /// what the kept operations amount to or, where that life blew, these and the first that awaits. Over such a tree a later life
    /// may begin. Before the first life, when nothing is known of a store, whether it records nothing. `NoMemory` where no memory was
    /// found to compare the two.
    pub fn is_left(&self, tree: &Tree) -> Result<bool, NoMemory>
        requires { stands self.now.core ≡ false }
        ensures left { (opening : List AnyOp) → StandsFor opening self.now.core → (self.now.core.log ≡ [] → ⊥) → IfOk result (λ left. IsTrue left ↔ IsLeft tree.now (state_after opening self.now.core.log)) }
        ensures unbegun { (opening : List AnyOp) → StandsFor opening self.now.core → self.now.core.log ≡ [] → IfOk result (λ left. IsTrue left ↔ IsAlike tree.now no_records) }
        ensures own { (self.now.core.log ≡ [] → ⊥) → IfOk result (λ left. IsTrue left → IsOwn self.now.core tree.now) }
    {
        self.core.is_left(tree)
    }

    /// Whether no life stands.
    pub fn is_down(&self) -> bool
        ensures { result ≡ not (stands self.now.core) }
    {
        self.core.is_ready(Lane::Begin)
    }

    /// Whether a life stands in which nothing is left to do: it may go down with nothing undone.
    pub fn is_idle(&self) -> bool
        ensures { IsTrue result ↔ ((stands self.now.core ≡ true) × has_rest self.now.core) }
    {
        self.core.is_ready(Lane::End) && self.core.may_go_down()
    }

    /// Whether the run is done: the script is at its end, and where a life stands nothing is left to do.
    /// Unless it is so, some lane is ready.
    pub fn is_at_end(&self) -> bool
        ensures over { IsTrue result ↔ IsScriptOver self.now }
        ensures done { IsTrue result → (opening : List AnyOp) (script : AnyScript) → IsScriptRun opening script self.now → IsDone self.now.core.settings script opening self.now.core.log }
        ensures lane { result ≡ false → (lane : Lane) × (is_ready_at self.now lane ≡ true) }
    {
        self.core.rest();
        self.feeds.is_at_end() && (self.is_down() || self.is_idle())
    }

    /// What holds of a desk at every moment, and what it tells of the state after its log. Where no life stands, no lane is ready
    /// but that in which one begins; where one stands of which no operation was refused, nothing is left to do unless a lane of
    /// the manager's own work is ready.
    pub fn law(&self)
        ensures sound { IsPlaceSound self.now }
        ensures dead { stands self.now.core ≡ false → (lane : Lane) → is_ready_at self.now lane ≡ true → lane ≡ Lane.Begin }
        ensures idle { stands self.now.core ≡ true → is_blown self.now.core ≡ false → HasNoWork self.now → has_rest self.now.core }
        ensures tells { (opening : List AnyOp) → StandsFor opening self.now.core → DescribesState opening self.now }
    {
        let _ = &self.feeds;
        self.core.rest();
    }

    /// The log so far. It goes along the script.
    pub fn log(&self) -> &Items<Entry>
        ensures log { result.now ≡ self.now.core.log }
        ensures lawful { (opening : List AnyOp) (script : AnyScript) → IsScriptRun opening script self.now → Lawful self.now.core.settings script opening self.now.core.log }
    {
        self.core.log()
    }

    /// The log, handed out. It takes no memory.
    pub fn into_log(self) -> Items<Entry>
        ensures log { result ≡ self.core.log }
        ensures lawful { (opening : List AnyOp) (script : AnyScript) → IsScriptRun opening script self → Lawful self.core.settings script opening self.core.log }
    {
        let Desk { core, feeds } = self;
        let _ = feeds;
        core.into_log()
    }
}

ghost use Rattle.std.specs.Prelude.{◌≡◌, ◌≢◌, ◌⊎◌, ◌||◌, ℕ, List, [], ◌∷◌, ◌++◌, IfOk, IfErr, OnOk, OnErr, IsErrOf, IsTrue, None, Some, true, false};
ghost use Rattle.rm_types.specs.declared.entries.Entry.TheVariants.{Kept as WasKept};
ghost use Rattle.rm_types.specs.declared.messages.Lane.{Lane};
ghost use Rattle.rm_types.specs.declared.operations.Op.{Op as AnyOp};
ghost use Rattle.rm_types.specs.declared.scripts.Close.{Close};
ghost use Rattle.rm_model.specs.Place.{close_left};
ghost use Rattle.rm_core.specs.Seen.{StandsFor, IsToBeKept};
ghost use Rattle.rm_core.specs.Words.{has_rest, is_blown, stands};
ghost use Rattle.rm_tables.specs.declared.events.Refused.{Refused};
ghost use Rattle.rm_desk.specs.Effects.{StoreBlows, LaneEffect};
ghost use Rattle.rm_desk.specs.Lanes.{IsStep, is_ready_at};
ghost use Rattle.rm_desk.specs.Runs.{IsScriptOver};
ghost use Rattle.rm_workers.specs.Came.{Moves, Went, came};
ghost use Rattle.rm_workers.specs.Waking.{CallsAll, CallsReady, IsGoing};

use crate::called::Called;
use crate::since::Since;
use rm_baton::Carries;
use rm_core::Refused;
use rm_desk::Desk;
use rm_lives::Halt;
use rm_types::Lane;
use std::alloc::Global;
use std::marker::{Model, PhantomData};

/// What the workers hand on: the desk, which goes on from the one with which the life began, and the first halt of a worker. The desk
/// stays where it is, so that what goes from hand to hand is small.
#[derive(Drop)]
pub(crate) struct Held<S: Since> {
    desk: Box<Desk>,
    halt: Option<Halt>,
    since: PhantomData<S>,
}

impl<S: Since> Model for Held<S> {
    ghost use Rattle.rm_workers.specs.Came.{Went};
    ghost use Rattle.rm_workers.specs.Carried.{HeldView};

    ghost Value = { HeldView };

    ghost view = { λ h. record { desk = h.desk.value; halt = h.halt } };

    ghost invariant = { λ h. Went S.began.desk h.desk.value };
}

impl<S: Since> Carries for Held<S> {
    type Run = ();

    ghost use Rattle.rm_workers.specs.Carried.{log_of, run_of};

    ghost run = { run_of };

    ghost log = { log_of };
}

impl<S: Since> Held<S> {
    /// The desk with which a life began. It comes back where no memory was found to hold it.
    pub(crate) fn new(alloc: Global, desk: Desk) -> Result<Held<S>, Desk>
        requires began { desk ≡ S.began.desk }
        requires stands { stands desk.core ≡ true }
        ensures desk { IfOk result (λ held. held.desk ≡ desk) }
        ensures halt { IfOk result (λ held. held.halt ≡ None) }
        ensures back { IfErr result (λ back. back ≡ desk) }
    {
        match Box::new(alloc, desk) {
            Ok(desk) => Ok(Held {
                desk,
                halt: None,
                since: PhantomData,
            }),
            Err(failed) => Err(failed.value),
        }
    }

    /// The desk, which goes on from the one with which the life began.
    pub(crate) fn desk(&self) -> &Desk
        ensures desk { result.now ≡ self.now.desk }
        ensures went { Went S.began.desk self.now.desk }
    {
        &self.desk
    }

    /// The first halt of a worker.
    pub(crate) fn halt(&self) -> Option<Halt>
        ensures { result ≡ self.now.halt }
    {
        self.halt
    }

    /// The desk, handed out.
    pub(crate) fn into_desk(self) -> Desk
        ensures desk { result ≡ self.desk }
        ensures went { Went S.began.desk result }
    {
        let Held {
            desk,
            halt: _,
            since: _,
        } = self;
        Box::into_inner(desk)
    }

    /// A worker halts the life. The first halt stays.
    pub(crate) fn stop(&mut self, halt: Halt)
        ensures desk { self.new.desk ≡ self.old.desk }
        ensures halt { self.new.halt ≢ None }
    {
        if self.halt.is_none() {
            self.halt = Some(halt);
        }
    }

    /// Whether the workers have nothing left to do: a halt stands, the life went down, or the run is at its end.
    pub(crate) fn is_over(&self) -> bool
        ensures over { IsTrue result → self.now.halt ≡ None → (stands self.now.desk.core ≡ false) ⊎ IsScriptOver self.now.desk }
        ensures going { result ≡ false → (self.now.halt ≡ None) × (stands self.now.desk.core ≡ true) }
        ensures unfinished { result ≡ false → IsScriptOver self.now.desk → ⊥ }
    {
        self.halt.is_some() || self.desk.is_down() || self.desk.is_at_end()
    }

    /// Whether an operation is with the store.
    pub(crate) fn has_handed(&self) -> bool
        ensures { result ≡ is_ready_at self.now.desk Lane.Write }
    {
        self.desk.ready(Lane::Write)
    }

    // Whether a lane of the store's worker is ready.
    fn calls_store(&self) -> bool
        ensures { result ≡ (is_ready_at self.now.desk Lane.Hand || (is_ready_at self.now.desk Lane.Write || is_ready_at self.now.desk Lane.End)) }
    {
        self.desk.ready(Lane::Hand) || self.has_handed() || self.desk.ready(Lane::End)
    }

    /// Who has something to do: each worker of whom a lane is ready, and all once none has anything left to do.
    pub(crate) fn called(&self) -> Called
        ensures ready { CallsReady self.now.desk result }
        ensures all { IsGoing self.now ⊎ CallsAll result }
    {
        if self.is_over() {
            return Called::everyone();
        }
        Called {
            client: self.desk.ready(Lane::Client),
            master: self.desk.ready(Lane::Master),
            node: self.desk.ready(Lane::Node),
            clock: self.desk.ready(Lane::Clock),
            main: self.desk.ready(Lane::Main),
            sched: self.desk.ready(Lane::Sched),
            store: self.calls_store(),
        }
    }

    /// One move of a lane, as the desk makes it. A segment closes only at rest, unless the life blew.
    pub(crate) fn step(&mut self, lane: Lane) -> Result<(), Refused>
        requires step { IsStep lane }
        requires rests { lane ≡ Lane.End → is_blown self.old.desk.core ≡ false → has_rest self.old.desk.core }
        ensures moves { OnOk result (Moves S.began.desk lane self.old.desk self.new.desk) }
        ensures ready { OnOk result (is_ready_at self.old.desk lane ≡ true) }
        ensures not_ready { IsErrOf result Refused.NotReady → is_ready_at self.old.desk lane ≡ false }
        ensures halt { OnOk result (self.new.halt ≡ self.old.halt) }
        ensures err { OnErr result (self.new ≡ self.old) }
    {
        let desk = &mut *self.desk;
        desk.law();
        let made = desk.step(lane);
        desk.law();
        made
    }

    /// The operation that is with the store is kept. `NotReady` comes only where none is.
    pub(crate) fn kept(&mut self) -> Result<(), Refused>
        ensures not_ready { IsErrOf result Refused.NotReady → is_ready_at self.old.desk Lane.Write ≡ false }
        ensures ready { OnOk result (is_ready_at self.old.desk Lane.Write ≡ true) }
        ensures does { OnOk result (LaneEffect Lane.Write self.old.desk self.new.desk) }
        ensures went { OnOk result (Went S.began.desk self.old.desk × Went S.began.desk self.new.desk) }
        ensures kept { OnOk result ((opening : List AnyOp) → StandsFor opening self.old.desk.core → (op : AnyOp) × IsToBeKept opening self.old.desk.core op × (self.new.desk.core.log ≡ self.old.desk.core.log ++ WasKept op ∷ [])) }
        ensures halt { OnOk result (self.new.halt ≡ self.old.halt) }
        ensures err { OnErr result (self.new ≡ self.old) }
    {
        let desk = &mut *self.desk;
        let Some(_) = desk.handed() else {
            return Err(Refused::NotReady);
        };
        desk.kept()
    }

    /// The store refused the operation that is with it, after so many calls. `NotReady` comes only where none is.
    pub(crate) fn blown(&mut self, passed: u32) -> Result<(), Refused>
        requires closes { (image : ℕ) × (close_left (came S.began.desk self.old.desk.core.log).place.segments ≡ Some (Close.Crash passed image)) }
        ensures not_ready { IsErrOf result Refused.NotReady → is_ready_at self.old.desk Lane.Write ≡ false }
        ensures ready { OnOk result (is_ready_at self.old.desk Lane.Write ≡ true) }
        ensures does { OnOk result (StoreBlows passed self.old.desk self.new.desk) }
        ensures went { OnOk result (Went S.began.desk self.old.desk × Went S.began.desk self.new.desk) }
        ensures halt { OnOk result (self.new.halt ≡ self.old.halt) }
        ensures err { OnErr result (self.new ≡ self.old) }
    {
        let desk = &mut *self.desk;
        desk.blown(passed)
    }
}

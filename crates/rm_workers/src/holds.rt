//! The workers' holds: each takes the value that the baton carries, makes one move, and puts the value back.
ghost use Rattle.std.specs.Prelude.{◌≡◌, ◌⊎◌, false, IfNone, IfSome, None};
ghost use Rattle.rm_core.specs.Words.{stands};
ghost use Rattle.rm_desk.specs.Runs.{IsScriptOver};
ghost use Rattle.rm_baton.specs.Entries.{AddsCommon};
ghost use Rattle.rm_baton.specs.Passes.{IsPassOf};
ghost use Rattle.rm_baton.specs.Views.{IsIdle, MayPut, Meets, gave, took, view};
ghost use Rattle.rm_lives.specs.declared.halts.Halt.{Halt};
ghost use Rattle.rm_workers.specs.Carried.{log_of, run_of};
ghost use Rattle.rm_workers.specs.Holds.{HelpsOnce, InOneHold, HoldsTurn, IsNextFor, IsToldOf, MayHelp, MayTell, MovesOnce};
ghost use Rattle.rm_workers.specs.Turns.{EndFact, IsHelpers, ToldFact, TurnFact, TurnOp};
ghost use Rattle.rm_workers.specs.Work.{Halting, IsHelper, Knows, Refused as WasRefused, Serving, Wrote};

use crate::bells::Bells;
use crate::called::Called;
use crate::gates::Gate;
use crate::held::Held;
use crate::moves::{blow, help, keep, turn};
use crate::since::Since;
use crate::turns::{End, Next, Told, Turn};
use rm_baton::{Baton, Pass};
use rm_disk::Disk;
use rm_lives::Halt;
use rm_store::Store;
use rm_types::{Lane, Op};
use std::sync::Wait;

/// What is told of a hold.
#[derive(Clone, Copy)]
struct Notice {
    /// The lane of the worker, and `Hand` for the store's worker.
    own: Lane,
    /// The lane of the entry that was added; where none was, the worker's own.
    lane: Lane,
    /// Whose bells are to ring.
    called: Called,
}

impl Notice {
    /// Of a hold of the store's worker, by which the value is so now: all others who are called are to learn of it.
    fn of_store<S: Since>(held: &Held<S>, lane: Lane) -> Notice
        ensures own { result.own ≡ Lane.Hand }
        ensures lane { result.lane ≡ lane }
    {
        Notice {
            own: Lane::Hand,
            lane,
            called: held.called().without(Lane::Hand),
        }
    }
}

// Puts the value back and tells of the hold: the bells ring, and the gate learns of which lane an entry was added.
fn give<S: Since, G: Gate, R: Wait>(
    rt: &R,
    baton: &Baton<Held<S>>,
    gate: &G,
    bells: &Bells,
    pass: &mut Pass<Held<S>>,
    held: Held<S>,
    notice: Notice,
)
    requires of { IsPassOf baton.now pass.old }
    requires may { MayPut run_of log_of (view pass.old) held }
    requires lane { IsToldOf notice.own notice.lane (view pass.old).latest held.desk.core.log }
    ensures of { IsPassOf baton.now pass.new }
    ensures gave { view pass.new ≡ gave log_of (view pass.old) held }
{
    baton.put(rt, pass, held);
    bells.ring(notice.called);
    gate.after_hold(notice.lane);
}

// A helper's one move, what its worker does next, and what is told of the hold.
#[tactic(auto, using(crate::proofs::HoldLemmas::helped_told, crate::proofs::HoldLemmas::helped_once, crate::proofs::HoldLemmas::helped_next))]
fn help_once<S: Since>(held: &mut Held<S>, lane: Lane, may_go_on: bool) -> (Next, Notice)
    requires lane { IsHelpers lane }
    ensures once { MovesOnce (MayHelp lane) held.old held.new }
    ensures next { IsNextFor lane result.0 held.new }
    ensures told { IsToldOf result.1.own result.1.lane held.old.desk.core.log held.new.desk.core.log }
    ensures common { AddsCommon held.old.desk.core.log held.new.desk.core.log }
{
    let before = held.called();
    let helped = help(held, lane);
    let called = held.called();
    let next = helped.next(lane, called, may_go_on);
    let notice = Notice {
        own: lane,
        lane,
        called: next.rings(before, called.without(lane)),
    };
    (next, notice)
}

/// A helper's hold: one move, and what the worker does next. `None` where another worker has the baton.
pub(crate) fn hold_help<S: Since, G: Gate, R: Wait>(
    rt: &R,
    baton: &Baton<Held<S>>,
    gate: &G,
    bells: &Bells,
    pass: &mut Pass<Held<S>>,
    lane: Lane,
    may_go_on: bool,
) -> Option<Next>
    requires of { IsPassOf baton.now pass.old }
    requires helper { IsHelper (view pass.old) }
    requires lane { IsHelpers lane }
    ensures of { IsPassOf baton.now pass.new }
    ensures helper { IsHelper (view pass.new) }
    ensures hold { IfSome result (λ next. InOneHold (HelpsOnce lane next) (view pass.old) (view pass.new)) }
    ensures none { IfNone result (view pass.new ≡ view pass.old) }
{
    let Some(mut held) = baton.take(rt, pass) else {
        return None;
    };
    let (next, notice) = help_once(&mut held, lane, may_go_on);
    give(rt, baton, gate, bells, pass, held, notice);
    Some(next)
}

/// A hold in which the store's worker makes a turn.
pub(crate) fn hold_turn<S: Since, D: Disk, G: Gate, R: Wait>(
    rt: &R,
    baton: &Baton<Held<S>>,
    gate: &G,
    bells: &Bells,
    pass: &mut Pass<Held<S>>,
    store: &mut Store<D>,
) -> Turn
    requires of { IsPassOf baton.now pass.old }
    requires knows { Knows (Serving D.view S.began store.old) (view pass.old) }
    ensures of { IsPassOf baton.now pass.new }
    ensures knows { Knows (TurnFact D.view S.began store.new result) (view pass.new) }
    ensures op { TurnOp result }
    ensures hold { HoldsTurn result (view pass.old) (view pass.new) }
{
    let Some(mut held) = baton.take(rt, pass) else {
        return Turn::Out;
    };
    let turn = turn(&mut held, store);
    let notice = Notice::of_store(&held, turn.lane());
    give(rt, baton, gate, bells, pass, held, notice);
    turn
}

// Waits for the baton.
fn wait_for<S: Since, R: Wait>(
    rt: &R,
    baton: &Baton<Held<S>>,
    bells: &Bells,
    pass: Pass<Held<S>>,
) -> (Pass<Held<S>>, Held<S>)
    requires of { IsPassOf baton.now pass }
    requires idle { IsIdle (view pass) }
    ensures of { IsPassOf baton.now result.0 }
    ensures took { view result.0 ≡ took log_of (view pass) result.1 }
    ensures meets { Meets run_of log_of (view pass) result.1 }
{
    let mut mine = pass;
    'holds: for _ in rt.forever() {
        if let Some(held) = baton.take(rt, &mut mine) {
            return (mine, held);
        }
        bells.nap(rt, Lane::Write);
    }
    unreachable!()
}

/// A hold after a write: the manager learns that the operation is kept, or the life is halted.
pub(crate) fn hold_kept<S: Since, D: Disk, G: Gate, R: Wait>(
    rt: &R,
    baton: &Baton<Held<S>>,
    gate: &G,
    bells: &Bells,
    pass: Pass<Held<S>>,
    store: &Store<D>,
    op: &Op,
) -> (Pass<Held<S>>, Told)
    requires of { IsPassOf baton.now pass }
    requires knows { Knows (Wrote D.view S.began store.now op.now) (view pass) }
    ensures of { IsPassOf baton.now result.0 }
    ensures knows { Knows (ToldFact D.view S.began store.now (Wrote D.view S.began store.now op.now) result.1) (view result.0) }
    ensures hold { InOneHold (MovesOnce MayTell) (view pass) (view result.0) }
{
    let (mut pass, mut held) = wait_for(rt, baton, bells, pass);
    let told = keep(&mut held, store, op);
    let notice = Notice::of_store(&held, told.lane());
    give(rt, baton, gate, bells, &mut pass, held, notice);
    (pass, told)
}

/// A hold after a write that the fuse refused: the manager learns of it, or the life is halted.
pub(crate) fn hold_blown<S: Since, D: Disk, G: Gate, R: Wait>(
    rt: &R,
    baton: &Baton<Held<S>>,
    gate: &G,
    bells: &Bells,
    pass: Pass<Held<S>>,
    store: &Store<D>,
    passed: u32,
) -> (Pass<Held<S>>, Told)
    requires of { IsPassOf baton.now pass }
    requires knows { Knows (WasRefused D.view S.began store.now passed) (view pass) }
    ensures of { IsPassOf baton.now result.0 }
    ensures knows { Knows (ToldFact D.view S.began store.now (WasRefused D.view S.began store.now passed) result.1) (view result.0) }
    ensures hold { InOneHold (MovesOnce MayTell) (view pass) (view result.0) }
{
    let (mut pass, mut held) = wait_for(rt, baton, bells, pass);
    let told = blow(&mut held, store, passed);
    let notice = Notice::of_store(&held, told.lane());
    give(rt, baton, gate, bells, &mut pass, held, notice);
    (pass, told)
}

/// The hold after a write that failed: the other workers learn of the halt.
pub(crate) fn hold_halt<S: Since, D: Disk, G: Gate, R: Wait>(
    rt: &R,
    baton: &Baton<Held<S>>,
    gate: &G,
    bells: &Bells,
    pass: Pass<Held<S>>,
    store: &Store<D>,
    halt: Halt,
) -> Pass<Held<S>>
    requires of { IsPassOf baton.now pass }
    requires knows { Knows (Halting D.view S.began store.now halt) (view pass) }
    ensures of { IsPassOf baton.now result }
    ensures knows { Knows (Halting D.view S.began store.now halt) (view result) }
    ensures hold { InOneHold (MovesOnce MayTell) (view pass) (view result) }
{
    let _ = store;
    let (mut pass, mut held) = wait_for(rt, baton, bells, pass);
    held.stop(halt);
    let notice = Notice::of_store(&held, Lane::Hand);
    give(rt, baton, gate, bells, &mut pass, held, notice);
    pass
}

/// The hold of the store's worker where not all workers came: want of threads halts the life.
pub(crate) fn hold_unstarted<S: Since, D: Disk, G: Gate, R: Wait>(
    rt: &R,
    baton: &Baton<Held<S>>,
    gate: &G,
    bells: &Bells,
    pass: Pass<Held<S>>,
    store: &Store<D>,
) -> (Pass<Held<S>>, Halt)
    requires of { IsPassOf baton.now pass }
    requires knows { Knows (Serving D.view S.began store.now) (view pass) }
    ensures of { IsPassOf baton.now result.0 }
    ensures knows { Knows (Halting D.view S.began store.now result.1) (view result.0) }
    ensures memory { result.1 ≡ Halt.Memory }
{
    let halt = Halt::Memory;
    (hold_halt(rt, baton, gate, bells, pass, store, halt), halt)
}

/// The last hold, by the only pass that is left: the value as the workers left it, which is over.
pub(crate) fn hold_last<S: Since, D: Disk, G: Gate, R: Wait>(
    rt: &R,
    baton: &Baton<Held<S>>,
    gate: &G,
    bells: &Bells,
    pass: Pass<Held<S>>,
    store: &Store<D>,
    end: End,
) -> Held<S>
    requires of { IsPassOf baton.now pass }
    requires knows { Knows (EndFact D.view S.began store.now end) (view pass) }
    ensures ended { EndFact D.view S.began store.now end result.desk.core.log }
    ensures over { result.halt ≡ None → (stands result.desk.core ≡ false) ⊎ IsScriptOver result.desk }
{
    let _ = store;
    let _ = end;
    let mut mine = pass;
    'holds: for _ in rt.forever() {
        let (mut next, held) = wait_for(rt, baton, bells, mine);
        if held.is_over() {
            return held;
        }
        // No worker ends before the life is over, and none adds anything behind it.
        let notice = Notice::of_store(&held, Lane::Hand);
        give(rt, baton, gate, bells, &mut next, held, notice);
        mine = next;
    }
    unreachable!()
}

//! The store's worker, which alone owns the device.
ghost use Rattle.std.specs.Prelude.{◌≡◌};
ghost use Rattle.rm_types.specs.Ranges.{IsOperation};
ghost use Rattle.rm_baton.specs.Passes.{IsPassOf};
ghost use Rattle.rm_baton.specs.Views.{view};
ghost use Rattle.rm_workers.specs.Turns.{EndFact, LearnedFact};
ghost use Rattle.rm_workers.specs.Work.{Knows, Owing, Refused as WasRefused, Serving, Wrote};

use crate::bells::Bells;
use crate::gates::Gate;
use crate::held::Held;
use crate::holds::{hold_blown, hold_halt, hold_kept, hold_turn, hold_unstarted};
use crate::signals::Signals;
use crate::since::Since;
use crate::storing::write;
use crate::turns::{End, Told, Turn, Written};
use rm_baton::{Baton, Pass};
use rm_disk::Disk;
use rm_lives::Halt;
use rm_store::Store;
use rm_types::{Lane, Op};
use std::sync::Wait;

// The manager learns that the operation is kept, unless that halts the life: in the first hold in which it is with the store.
fn tell_kept<S: Since, D: Disk, G: Gate, R: Wait>(
    rt: &R,
    baton: &Baton<Held<S>>,
    gate: &G,
    bells: &Bells,
    pass: Pass<Held<S>>,
    store: &Store<D>,
    op: &Op,
) -> (Pass<Held<S>>, Option<Halt>)
    requires of { IsPassOf baton.now pass }
    requires knows { Knows (Wrote D.view S.began store.now op.now) (view pass) }
    ensures of { IsPassOf baton.now result.0 }
    ensures knows { Knows (LearnedFact D.view S.began store.now result.1) (view result.0) }
{
    let mut mine = pass;
    'holds: for _ in rt.forever() {
        let (next, told) = hold_kept(rt, baton, gate, bells, mine, store, op);
        match told {
            Told::Learned => return (next, None),
            Told::Halted(halt) => return (next, Some(halt)),
            // What was handed stays with the store until its worker says what became of it.
            Told::Absent => mine = next,
        }
    }
    unreachable!()
}

// The manager learns that the fuse refused the operation, unless that halts the life: in the first hold in which it is with the store.
fn tell_blown<S: Since, D: Disk, G: Gate, R: Wait>(
    rt: &R,
    baton: &Baton<Held<S>>,
    gate: &G,
    bells: &Bells,
    pass: Pass<Held<S>>,
    store: &Store<D>,
    passed: u32,
) -> (Pass<Held<S>>, Option<Halt>)
    requires of { IsPassOf baton.now pass }
    requires knows { Knows (WasRefused D.view S.began store.now passed) (view pass) }
    ensures of { IsPassOf baton.now result.0 }
    ensures knows { Knows (LearnedFact D.view S.began store.now result.1) (view result.0) }
{
    let mut mine = pass;
    'holds: for _ in rt.forever() {
        let (next, told) = hold_blown(rt, baton, gate, bells, mine, store, passed);
        match told {
            Told::Learned => return (next, None),
            Told::Halted(halt) => return (next, Some(halt)),
            // What was handed stays with the store until its worker says what became of it.
            Told::Absent => mine = next,
        }
    }
    unreachable!()
}

// Writes the operation outside the baton, and lets the manager learn what came of it, unless that halts the life.
fn write_on<S: Since, D: Disk, G: Gate, R: Wait>(
    rt: &R,
    baton: &Baton<Held<S>>,
    gate: &G,
    bells: &Bells,
    pass: Pass<Held<S>>,
    store: &mut Store<D>,
    op: &Op,
) -> (Pass<Held<S>>, Option<Halt>)
    requires of { IsPassOf baton.now pass }
    requires knows { Knows (Owing D.view S.began store.old op.now) (view pass) }
    requires op { IsOperation op.now }
    ensures of { IsPassOf baton.now result.0 }
    ensures knows { Knows (LearnedFact D.view S.began store.new result.1) (view result.0) }
{
    match write::<S, D>(store, op) {
        Written::Kept => tell_kept(rt, baton, gate, bells, pass, store, op),
        Written::Blown(passed) => tell_blown(rt, baton, gate, bells, pass, store, passed),
        Written::Failed(halt) => (
            hold_halt(rt, baton, gate, bells, pass, store, halt),
            Some(halt),
        ),
    }
}

// The turns of the store's worker: it is handed operations, writes and keeps them, and closes segments, until the life is over
// or a halt stands.
fn keep_to_end<S: Since, D: Disk, G: Gate, R: Wait>(
    rt: &R,
    baton: &Baton<Held<S>>,
    gate: &G,
    bells: &Bells,
    mut pass: Pass<Held<S>>,
    mut store: Store<D>,
) -> (Pass<Held<S>>, Store<D>, End)
    requires of { IsPassOf baton.now pass }
    requires knows { Knows (Serving D.view S.began store) (view pass) }
    ensures of { IsPassOf baton.now result.0 }
    ensures knows { Knows (EndFact D.view S.began result.1 result.2) (view result.0) }
{
    let mut number: u64 = 0;
    'turns: for _ in rt.forever() {
        match hold_turn(rt, baton, gate, bells, &mut pass, &mut store) {
            Turn::Out => bells.nap(rt, Lane::Hand),
            Turn::Wait => bells.sleep(rt, Lane::Hand),
            Turn::Moved(_) => {}
            Turn::Write(op) => {
                number = number.saturating_add(1);
                gate.before_append(number);
                let (next, halt) = write_on(rt, baton, gate, bells, pass, &mut store, &op);
                if let Some(halt) = halt {
                    return (next, store, End::Halted(halt));
                }
                pass = next;
            }
            Turn::Ends(end) => return (pass, store, end),
        }
    }
    unreachable!()
}

/// The store's worker. Where not all workers came, it halts the life in which none of them moved.
pub(crate) fn keeper<S: Since, D: Disk, G: Gate, R: Wait>(
    rt: &R,
    baton: &Baton<Held<S>>,
    gate: &G,
    signals: &Signals,
    pass: Pass<Held<S>>,
    store: Store<D>,
) -> (Pass<Held<S>>, Store<D>, End)
    requires of { IsPassOf baton.now pass }
    requires knows { Knows (Serving D.view S.began store) (view pass) }
    ensures of { IsPassOf baton.now result.0 }
    ensures knows { Knows (EndFact D.view S.began result.1 result.2) (view result.0) }
{
    gate.before_start(Lane::Hand);
    if signals.start.all_come(rt, &signals.bells, Lane::Hand) {
        return keep_to_end(rt, baton, gate, &signals.bells, pass, store);
    }
    let (pass, halt) = hold_unstarted(rt, baton, gate, &signals.bells, pass, &store);
    (pass, store, End::Halted(halt))
}

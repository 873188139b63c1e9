ghost use Rattle.std.specs.Prelude.{◌≡◌, ◌⊎◌, IfErr, IfOk, None, false, true};
ghost use Rattle.rm_core.specs.Words.{stands};
ghost use Rattle.rm_desk.specs.Runs.{IsScriptOver};
ghost use Rattle.rm_baton.specs.Passes.{IsPassOf};
ghost use Rattle.rm_baton.specs.Views.{view};
ghost use Rattle.rm_lives.specs.Keeping.{FuseStays, HaltsBy, Serves};
ghost use Rattle.rm_lives.specs.Lives.{EndsBy};
ghost use Rattle.rm_workers.specs.AnyOrder.{any_order};
ghost use Rattle.rm_workers.specs.Began.{began_with};
ghost use Rattle.rm_workers.specs.Ends.{Ended};
ghost use Rattle.rm_workers.specs.Turns.{EndFact};
ghost use Rattle.rm_workers.specs.Work.{Knows, Serving};

use crate::gates::Gate;
use crate::held::Held;
use crate::holds::hold_last;
use crate::signals::Signals;
use crate::since::Since;
use crate::turns::End;
use crate::workers::run_workers;
use rm_baton::{Baton, Pass};
use rm_desk::Desk;
use rm_disk::Disk;
use rm_lives::{Halt, LifeEnd};
use rm_store::Store;
use std::alloc::Global;
use std::marker::Brand;
use std::sync::Wait;
use std::thread::Threads;

// A baton that carries the desk with which the life began, and the store's pass. The desk comes back where no memory was found.
fn start<S: Since, D: Disk>(
    alloc: Global,
    desk: Desk,
    store: &Store<D>,
) -> Result<(Baton<Held<S>>, Pass<Held<S>>), Desk>
    requires began { desk ≡ S.began.desk }
    requires stands { stands desk.core ≡ true }
    requires serving { Serving D.view S.began store.now desk.core.log }
    ensures of { IfOk result (λ made. IsPassOf made.0 made.1) }
    ensures knows { IfOk result (λ made. Knows (Serving D.view S.began store.now) (view made.1)) }
    ensures back { IfErr result (λ back. back ≡ desk) }
{
    let _ = store;
    let held = Held::<S>::new(alloc, desk)?;
    match Baton::new(alloc, held) {
        Ok(made) => Ok(made),
        Err(held) => Err(held.into_desk()),
    }
}

// What the life came to, by how the store's worker ended and whether another halted it.
fn finish<S: Since, D: Disk>(
    held: Held<S>,
    store: Store<D>,
    end: End,
) -> (Desk, Store<D>, Result<LifeEnd, Halt>)
    requires ended { EndFact D.view S.began store end held.desk.core.log }
    requires over { held.halt ≡ None → (stands held.desk.core ≡ false) ⊎ IsScriptOver held.desk }
    ensures ended { Ended D.view S.began result.0 result.1 result.2 }
{
    let halt = held.halt();
    let desk = held.into_desk();
    desk.law();
    match end {
        End::Down { image } => (desk, store, Ok(LifeEnd::Down { image })),
        End::Halted(halt) => (desk, store, Err(halt)),
        End::Over if halt.is_some() => (desk, store, Err(Halt::Memory)),
        End::Over => (desk, store, Ok(LifeEnd::Rest)),
    }
}

// A life from its beginning.
fn live<S: Since + Send + Sync, D: Disk + Drop + Send, G: Gate + Sync, R: Threads + Wait + Sync>(
    rt: &R,
    alloc: Global,
    gate: &G,
    desk: Desk,
    store: Store<D>,
) -> (Desk, Store<D>, Result<LifeEnd, Halt>)
    requires began { desk ≡ S.began.desk }
    requires stands { stands desk.core ≡ true }
    requires serving { Serving D.view S.began store desk.core.log }
    ensures ended { Ended D.view S.began result.0 result.1 result.2 }
{
    match start::<S, D>(alloc, desk, &store) {
        Err(desk) => stopped::<S, D>(desk, store),
        Ok((baton, pass)) => {
            let signals = Signals::new();
            let (pass, store, end) = run_workers(rt, &baton, gate, &signals, pass, store);
            let held = hold_last(rt, &baton, gate, &signals.bells, pass, &store, end);
            finish(held, store, end)
        }
    }
}

// No memory was found for the baton or the desk in it.
fn stopped<S: Since, D: Disk>(
    desk: Desk,
    store: Store<D>,
) -> (Desk, Store<D>, Result<LifeEnd, Halt>)
    requires began { desk ≡ S.began.desk }
    requires stands { stands desk.core ≡ true }
    requires serving { Serving D.view S.began store desk.core.log }
    ensures ended { Ended D.view S.began result.0 result.1 result.2 }
{
    (desk, store, Err(Halt::Memory))
}

// The store serves the life that begins here.
fn begins<D: Disk>(desk: &Desk, store: &Store<D>)
    requires stands { stands desk.now.core ≡ true }
    requires serves { Serves D.view desk.now store.now }
    ensures serving { Serving D.view (began_with D.view desk.now store.now.disk) store.now desk.now.core.log }
{
    let _ = desk;
    let _ = store;
}

/// Runs the life that stands, to its end, by seven workers in threads of their own, which call the gate between their steps.
/// Each of them joins before this returns.
///
/// Before any of them moves they wait for one another. Where the system refuses a thread, some of them can't come; then after
/// some seconds the life is halted with `Memory`, and nothing was added to its log. The same seven in fewer threads would wait
/// for each other for ever.
///
/// `DiskFault` comes only where the disk's count of faults rose, and `Full` only where the operation with the store needs more
/// than the disk has left. After a halt the desk is as the moves made so far left it.
pub fn run_life<D: Disk + Drop + Send, G: Gate + Sync, R: Threads + Wait + Sync>(
    rt: &R,
    alloc: Global,
    gate: &G,
    desk: Desk,
    store: Store<D>,
) -> (Desk, Store<D>, Result<LifeEnd, Halt>)
    requires stands { stands desk.core ≡ true }
    requires serves { Serves D.view desk store }
    ensures ends { IfOk result.2 (EndsBy any_order D.view desk result.0 store result.1) }
    ensures fuse { FuseStays D.view store.disk result.1.disk }
    ensures halts { IfErr result.2 (HaltsBy any_order D.view desk result.0 store.disk result.1.disk) }
{
    begins(&desk, &store);
    live::<Brand, D, G, R>(rt, alloc, gate, desk, store)
}

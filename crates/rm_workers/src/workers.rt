//! The six workers that don't touch the store, and all seven.
ghost use Rattle.std.specs.Prelude.{◌≡◌, false};
ghost use Rattle.rm_baton.specs.Passes.{IsPassOf};
ghost use Rattle.rm_baton.specs.Views.{view};
ghost use Rattle.rm_workers.specs.Holds.{LeavesNothing};
ghost use Rattle.rm_workers.specs.Turns.{EndFact, IsHelpers};
ghost use Rattle.rm_workers.specs.Work.{IsHelper, IsHelperOf, Knows, Serving};

use crate::bells::Bells;
use crate::gates::Gate;
use crate::held::Held;
use crate::holds::hold_help;
use crate::keeper::keeper;
use crate::signals::Signals;
use crate::since::Since;
use crate::turns::{End, Next};
use rm_baton::{Baton, Pass};
use rm_disk::Disk;
use rm_store::Store;
use rm_types::{Lane, Sender};
use std::sync::Wait;
use std::thread;
use std::thread::Threads;

/// How many holds in a row a helper has at most before it gives way to those who can move, so that nobody waits long for the baton.
const MOST_HOLDS: u32 = 1_024;

// The holds of one lane's worker, until the life is over or a halt stands.
fn help_to_end<S: Since, G: Gate, R: Wait>(
    rt: &R,
    baton: &Baton<Held<S>>,
    gate: &G,
    bells: &Bells,
    mut pass: Pass<Held<S>>,
    lane: Lane,
) -> Pass<Held<S>>
    requires of { IsPassOf baton.now pass }
    requires helper { IsHelper (view pass) }
    requires lane { IsHelpers lane }
    ensures of { IsPassOf baton.now result }
    ensures helper { IsHelper (view result) }
    ensures left { LeavesNothing (view result) }
{
    let mut row: u32 = 0;
    'holds: for _ in rt.forever() {
        if let Some(sender) = lane.sender() {
            gate.before_serve(sender);
        }
        let may_go_on = row < MOST_HOLDS;
        row = match hold_help(rt, baton, gate, bells, &mut pass, lane, may_go_on) {
            Some(Next::GoesOn) => row.saturating_add(1),
            Some(Next::Sleeps) => {
                bells.sleep(rt, lane);
                0
            }
            Some(Next::GivesWay) | None => {
                bells.nap(rt, lane);
                0
            }
            Some(Next::Leaves) => return pass,
        };
    }
    unreachable!()
}

// The worker of one lane. Where not all workers came, it makes no turn.
fn helper<S: Since, G: Gate, R: Wait>(
    rt: &R,
    baton: &Baton<Held<S>>,
    gate: &G,
    signals: &Signals,
    pass: Pass<Held<S>>,
    lane: Lane,
) -> Pass<Held<S>>
    requires of { IsPassOf baton.now pass }
    requires helper { IsHelper (view pass) }
    requires lane { IsHelpers lane }
    ensures of { IsPassOf baton.now result }
    ensures helper { IsHelper (view result) }
{
    gate.before_start(lane);
    if !signals.start.all_come(rt, &signals.bells, lane) {
        return pass;
    }
    help_to_end(rt, baton, gate, &signals.bells, pass, lane)
}

/// The pass of a worker that doesn't touch the store, and the lane that it moves.
#[derive(Drop)]
pub(crate) struct LanePass<S: Since> {
    pass: Pass<Held<S>>,
    lane: Lane,
}

// Two workers side by side. The pass of the one takes up that of the other.
fn run_two<S: Since + Send + Sync, G: Gate + Sync, R: Threads + Wait + Sync>(
    rt: &R,
    baton: &Baton<Held<S>>,
    gate: &G,
    signals: &Signals,
    one: LanePass<S>,
    other: LanePass<S>,
) -> Pass<Held<S>>
    requires one { IsHelperOf baton.now one.pass × IsHelpers one.lane }
    requires other { IsHelperOf baton.now other.pass × IsHelpers other.lane }
    ensures of { IsPassOf baton.now result }
    ensures helper { IsHelper (view result) }
{
    let (mut mine, theirs) = thread::join(
        rt,
        move ||
            requires { IsHelperOf baton.now one.pass × IsHelpers one.lane }
            ensures { IsHelperOf baton.entry.now result }
        { helper(rt, baton, gate, signals, one.pass, one.lane) },
        move ||
            requires { IsHelperOf baton.now other.pass × IsHelpers other.lane }
            ensures { IsHelperOf baton.entry.now result }
        { helper(rt, baton, gate, signals, other.pass, other.lane) },
    );
    baton.join(&mut mine, theirs);
    mine
}

/// The passes of the workers of the four services.
#[derive(Drop)]
pub(crate) struct ServicePasses<S: Since> {
    client: Pass<Held<S>>,
    master: Pass<Held<S>>,
    node: Pass<Held<S>>,
    clock: Pass<Held<S>>,
}

/// The passes of the six workers that don't touch the store.
#[derive(Drop)]
pub(crate) struct HelperPasses<S: Since> {
    services: ServicePasses<S>,
    main: Pass<Held<S>>,
    sched: Pass<Held<S>>,
}

// The workers of the four services.
fn run_services<S: Since + Send + Sync, G: Gate + Sync, R: Threads + Wait + Sync>(
    rt: &R,
    baton: &Baton<Held<S>>,
    gate: &G,
    signals: &Signals,
    passes: ServicePasses<S>,
) -> Pass<Held<S>>
    requires client { IsHelperOf baton.now passes.client }
    requires master { IsHelperOf baton.now passes.master }
    requires node { IsHelperOf baton.now passes.node }
    requires clock { IsHelperOf baton.now passes.clock }
    ensures of { IsPassOf baton.now result }
    ensures helper { IsHelper (view result) }
{
    let ServicePasses {
        client,
        master,
        node,
        clock,
    } = passes;
    let (mut mine, theirs) = thread::join(
        rt,
        move ||
            requires { IsHelperOf baton.now client × IsHelperOf baton.now master }
            ensures { IsHelperOf baton.entry.now result }
        {
            let one = LanePass {
                pass: client,
                lane: Lane::Client,
            };
            let other = LanePass {
                pass: master,
                lane: Lane::Master,
            };
            run_two(rt, baton, gate, signals, one, other)
        },
        move ||
            requires { IsHelperOf baton.now node × IsHelperOf baton.now clock }
            ensures { IsHelperOf baton.entry.now result }
        {
            let one = LanePass {
                pass: node,
                lane: Lane::Node,
            };
            let other = LanePass {
                pass: clock,
                lane: Lane::Clock,
            };
            run_two(rt, baton, gate, signals, one, other)
        },
    );
    baton.join(&mut mine, theirs);
    mine
}

// The six workers that don't touch the store.
fn run_helpers<S: Since + Send + Sync, G: Gate + Sync, R: Threads + Wait + Sync>(
    rt: &R,
    baton: &Baton<Held<S>>,
    gate: &G,
    signals: &Signals,
    passes: HelperPasses<S>,
) -> Pass<Held<S>>
    requires client { IsHelperOf baton.now passes.services.client }
    requires master { IsHelperOf baton.now passes.services.master }
    requires node { IsHelperOf baton.now passes.services.node }
    requires clock { IsHelperOf baton.now passes.services.clock }
    requires main { IsHelperOf baton.now passes.main }
    requires sched { IsHelperOf baton.now passes.sched }
    ensures of { IsPassOf baton.now result }
    ensures helper { IsHelper (view result) }
{
    let HelperPasses {
        services: passes,
        main,
        sched,
    } = passes;
    let (mut mine, theirs) = thread::join(
        rt,
        move ||
            requires { IsHelperOf baton.now passes.client × IsHelperOf baton.now passes.master × IsHelperOf baton.now passes.node × IsHelperOf baton.now passes.clock }
            ensures { IsHelperOf baton.entry.now result }
        { run_services(rt, baton, gate, signals, passes) },
        move ||
            requires { IsHelperOf baton.now main × IsHelperOf baton.now sched }
            ensures { IsHelperOf baton.entry.now result }
        {
            let one = LanePass {
                pass: main,
                lane: Lane::Main,
            };
            let other = LanePass {
                pass: sched,
                lane: Lane::Sched,
            };
            run_two(rt, baton, gate, signals, one, other)
        },
    );
    baton.join(&mut mine, theirs);
    mine
}

// The store's worker beside the six others, until the life is over or a halt stands.
fn run_with_store<
    S: Since + Send + Sync,
    D: Disk + Drop + Send,
    G: Gate + Sync,
    R: Threads + Wait + Sync,
>(
    rt: &R,
    baton: &Baton<Held<S>>,
    gate: &G,
    signals: &Signals,
    pass: Pass<Held<S>>,
    store: Store<D>,
    passes: HelperPasses<S>,
) -> (Pass<Held<S>>, Store<D>, End)
    requires of { IsPassOf baton.now pass }
    requires knows { Knows (Serving D.view S.began store) (view pass) }
    requires client { IsHelperOf baton.now passes.services.client }
    requires master { IsHelperOf baton.now passes.services.master }
    requires node { IsHelperOf baton.now passes.services.node }
    requires clock { IsHelperOf baton.now passes.services.clock }
    requires main { IsHelperOf baton.now passes.main }
    requires sched { IsHelperOf baton.now passes.sched }
    ensures of { IsPassOf baton.now result.0 }
    ensures knows { Knows (EndFact D.view S.began result.1 result.2) (view result.0) }
{
    let ((mut pass, store, end), rest) = thread::join(
        rt,
        move ||
            requires { IsPassOf baton.now pass × Knows (Serving D.view S.began store) (view pass) }
            ensures { IsPassOf baton.entry.now result.0 × Knows (EndFact D.view S.began result.1 result.2) (view result.0) }
        { keeper(rt, baton, gate, signals, pass, store) },
        move ||
            requires { (IsHelperOf baton.now passes.services.client × IsHelperOf baton.now passes.services.master × IsHelperOf baton.now passes.services.node × IsHelperOf baton.now passes.services.clock) × IsHelperOf baton.now passes.main × IsHelperOf baton.now passes.sched }
            ensures { IsHelperOf baton.entry.now result }
        { run_helpers(rt, baton, gate, signals, passes) },
    );
    baton.join(&mut pass, rest);
    (pass, store, end)
}

// A pass for another worker.
fn assist<S: Since, D: Disk>(
    baton: &Baton<Held<S>>,
    pass: &mut Pass<Held<S>>,
    store: &Store<D>,
) -> Pass<Held<S>>
    requires of { IsPassOf baton.now pass.old }
    requires knows { Knows (Serving D.view S.began store.now) (view pass.old) }
    ensures of { IsPassOf baton.now pass.new × IsPassOf baton.now result }
    ensures knows { Knows (Serving D.view S.began store.now) (view pass.new) }
    ensures helper { IsHelper (view result) }
{
    let _ = store;
    baton.split(pass)
}

/// All seven workers, each in a thread of its own, until the life is over or a halt stands.
pub(crate) fn run_workers<
    S: Since + Send + Sync,
    D: Disk + Drop + Send,
    G: Gate + Sync,
    R: Threads + Wait + Sync,
>(
    rt: &R,
    baton: &Baton<Held<S>>,
    gate: &G,
    signals: &Signals,
    mut pass: Pass<Held<S>>,
    store: Store<D>,
) -> (Pass<Held<S>>, Store<D>, End)
    requires of { IsPassOf baton.now pass }
    requires knows { Knows (Serving D.view S.began store) (view pass) }
    ensures of { IsPassOf baton.now result.0 }
    ensures knows { Knows (EndFact D.view S.began result.1 result.2) (view result.0) }
{
    let services = ServicePasses {
        client: assist(baton, &mut pass, &store),
        master: assist(baton, &mut pass, &store),
        node: assist(baton, &mut pass, &store),
        clock: assist(baton, &mut pass, &store),
    };
    let main = assist(baton, &mut pass, &store);
    let sched = assist(baton, &mut pass, &store);
    let passes = HelperPasses {
        services,
        main,
        sched,
    };
    run_with_store(rt, baton, gate, signals, pass, store, passes)
}

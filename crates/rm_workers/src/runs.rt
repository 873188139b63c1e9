//! The lives of a run, each by seven workers.
ghost use Rattle.std.specs.Prelude.{◌≡◌, ◌≢◌, ◌⊎◌, ◌<◌, [], length, OnOk, None, false, true};
ghost use Rattle.rm_types.specs.declared.messages.Lane.{Lane};
ghost use Rattle.rm_types.specs.Records.{stray};
ghost use Rattle.rm_queues.specs.Rules.{KeepsRules};
ghost use Rattle.rm_invariant.specs.messages.Ranges.{KeepsLimits};
ghost use Rattle.rm_core.specs.Moves.{CanBeginOver, IsLeftAfter, IsOwn};
ghost use Rattle.rm_core.specs.Words.{new_manager, stands};
ghost use Rattle.rm_desk.specs.Lanes.{is_ready_at};
ghost use Rattle.rm_desk.specs.Scripts.{CanGoAlong};
ghost use Rattle.rm_store.specs.Store.{StoreInvariant as IsStoreSound, seen};
ghost use Rattle.rm_lives.specs.Goes.{IsOver};
ghost use Rattle.rm_lives.specs.Keeping.{IsFoundOn};
ghost use Rattle.rm_lives.specs.Later.{FirstTo, LaterTo};
ghost use Rattle.rm_lives.specs.Starts.{IsAtEase, LeavesAtEnd, LivesTo};
ghost use Rattle.rm_lives.specs.Whole.{AllLived, HasRun};
ghost use Rattle.rm_workers.specs.AnyOrder.{any_order};

use crate::gates::Gate;
use crate::lives::run_life;
use rm_desk::Desk;
use rm_disk::{Disk, Fuse};
use rm_lives::{
    Halt, LifeEnd, Ordered, Run, Stop, Unfounded, Unopened, begin_life, leave, open_again,
    open_first,
};
use rm_store::Store;
use rm_tree::Tree;
use rm_types::{Entry, Items, Lane, Op, Script, Sender, Settings};
use std::alloc::Global;
use std::sync::Wait;
use std::thread::Threads;

/// Any order in which the lanes that move are ready.
struct AnyOrder;

impl Ordered for AnyOrder {
    ghost use Rattle.rm_workers.specs.AnyOrder.{any_order};

    ghost order = { λ any. any_order };
}

/// Seven workers for each life of a run, in threads of a runtime, which call the gate between their steps.
#[derive(Drop)]
pub struct Workers<'a, R, G> {
    rt: &'a R,
    gate: &'a G,
}

/// The gate of a run as one of its lives has it: its appends are counted on from those of the lives before.
#[derive(Drop)]
struct CountedOn<'a, G> {
    gate: &'a G,
    before: u64,
}

impl<G: Gate> Gate for CountedOn<'_, G> {
    fn before_start(&self, lane: Lane) {
        self.gate.before_start(lane);
    }

    fn before_serve(&self, sender: Sender) {
        self.gate.before_serve(sender);
    }

    fn before_append(&self, number: u64) {
        self.gate.before_append(self.before.saturating_add(number));
    }

    fn after_hold(&self, lane: Lane) {
        self.gate.after_hold(lane);
    }
}

/// How many operations were with the store by the first entries of a log. Each was written once.
#[derive(Clone, Copy)]
struct Appends {
    entries: usize,
    number: u64,
}

impl Appends {
    /// None, by no entries.
    fn none() -> Appends {
        Appends {
            entries: 0,
            number: 0,
        }
    }

    /// By all entries of a log that goes on from the one that was looked at. Those are not looked at again.
    fn through(self, log: &Items<Entry>) -> Appends
        ensures { result.entries ≡ length log.now }
    {
        let more = log.as_slice().get(self.entries..).unwrap_or(&[]);
        let handed = more
            .iter()
            .filter(|entry| matches!(entry, Entry::Handed))
            .count();
        Appends {
            entries: log.len(),
            number: self.number.saturating_add(handed as u64),
        }
    }
}

/// How lives went: the desk and the disk that they left, and whether they came to their ends.
#[derive(Drop)]
struct Lived<D: Disk> {
    desk: Desk,
    disk: Fuse<D>,
    ended: Result<(), Stop>,
}

/// The same from the first life on, and what its disk held before.
#[derive(Drop)]
struct First<D: Disk> {
    opening: Items<Op>,
    desk: Desk,
    disk: Fuse<D>,
    ended: Result<(), Stop>,
}

/// What a life left that ended so.
fn left<D: Disk>(desk: Desk, store: Store<D>, ended: Result<LifeEnd, Halt>) -> Lived<D>
    ensures desk { result.desk ≡ desk }
    ensures leaves { LeavesAtEnd D.view D.falls_to store.disk result.disk ended result.ended }
{
    let rm_lives::Lived { disk, ended } = leave(store, ended);
    Lived { desk, disk, ended }
}

/// A life begins over what the last one left in the store, and lives to its end; where it went down, its device has fallen.
fn live<D: Disk + Drop + Send, G: Gate + Sync, R: Threads + Wait + Sync>(
    workers: &Workers<'_, R, G>,
    alloc: Global,
    d: Desk,
    store: Store<D>,
    tree: Tree,
    before: u64,
) -> Lived<D>
    requires ready { is_ready_at d Lane.Begin ≡ true }
    requires over { CanBeginOver tree }
    requires own { IsOwn d.core tree }
    requires store { IsStoreSound D.view store }
    requires unbroken { store.is_broken ≡ false }
    requires unarmed { store.disk.armed ≡ None }
    requires unblown { store.disk.blown ≡ false }
    ensures lived { LivesTo any_order D.view (λ opening. IsLeftAfter tree opening d.core.log) (λ opening. IsFoundOn opening d.core tree (seen D.view store.disk)) d result.desk store.disk result.disk result.ended }
    ensures fewer { OnOk result.ended (length result.desk.place.lives < length d.place.lives) }
{
    let mut d = d;
    let mut store = store;
    match begin_life(&mut d, &mut store, &AnyOrder, tree) {
        Ok(()) => {
            let gate = CountedOn {
                gate: workers.gate,
                before,
            };
            let (desk, store, ended) = run_life(workers.rt, alloc, &gate, d, store);
            left(desk, store, ended)
        }
        Err(halt) => left(d, store, Err(halt)),
    }
}

/// The first life of a script, over whatever its disk holds.
fn first_life<D: Disk + Drop + Send, G: Gate + Sync, R: Threads + Wait + Sync>(
    workers: &Workers<'_, R, G>,
    alloc: Global,
    d: Desk,
    disk: Fuse<D>,
) -> First<D>
    requires ready { is_ready_at d Lane.Begin ≡ true }
    requires empty { d.core.log ≡ [] }
    requires unarmed { disk.armed ≡ None }
    ensures first { FirstTo any_order D.view result.opening d result.desk disk result.disk result.ended }
    ensures read_back { stray result.opening ≡ None }
{
    match open_first(alloc, disk) {
        Ok((store, tree, opening)) => {
            let Lived { desk, disk, ended } = live(workers, alloc, d, store, tree, 0);
            First {
                opening,
                desk,
                disk,
                ended,
            }
        }
        Err(Unfounded { opening, why, disk }) => First {
            opening,
            desk: d,
            disk,
            ended: Err(why),
        },
    }
}

/// A later life of a script, over what was kept.
fn next_life<D: Disk + Drop + Send, G: Gate + Sync, R: Threads + Wait + Sync>(
    workers: &Workers<'_, R, G>,
    alloc: Global,
    d: Desk,
    disk: Fuse<D>,
    before: u64,
) -> Lived<D>
    requires ready { is_ready_at d Lane.Begin ≡ true }
    requires some { d.core.log ≢ [] }
    requires unarmed { disk.armed ≡ None }
    ensures later { LaterTo any_order D.view d result.desk disk result.disk result.ended }
    ensures fewer { OnOk result.ended (length result.desk.place.lives < length d.place.lives) }
{
    match open_again(alloc, &d, disk) {
        Ok((store, tree)) => live(workers, alloc, d, store, tree, before),
        Err(Unopened { why, disk }) => Lived {
            desk: d,
            disk,
            ended: Err(why),
        },
    }
}

/// The lives that are left of a script, after one that ended.
fn later_lives<D: Disk + Drop + Send, G: Gate + Sync, R: Threads + Wait + Sync>(
    workers: &Workers<'_, R, G>,
    alloc: Global,
    d: Desk,
    disk: Fuse<D>,
) -> Lived<D>
    requires ends { (stands d.core ≡ false) ⊎ IsOver d }
    requires some { d.core.log ≢ [] }
    requires at_ease { IsAtEase disk }
    ensures later { LaterTo any_order D.view d result.desk disk result.disk result.ended }
    ensures over { OnOk result.ended (result.desk.place.lives ≡ []) }
{
    let mut desk = d;
    let mut disk = disk;
    let mut appends = Appends::none();
    'lives: while desk.ready(Lane::Begin) {
        appends = appends.through(desk.log());
        let lived = next_life(workers, alloc, desk, disk, appends.number);
        desk = lived.desk;
        disk = lived.disk;
        if let Err(stop) = lived.ended {
            return Lived {
                desk,
                disk,
                ended: Err(stop),
            };
        }
    }
    Lived {
        desk,
        disk,
        ended: Ok(()),
    }
}

/// All lives of a script, over whatever its disk holds. A script without lives leaves its disk as it is.
fn all_lives<D: Disk + Drop + Send, G: Gate + Sync, R: Threads + Wait + Sync>(
    workers: &Workers<'_, R, G>,
    alloc: Global,
    d: Desk,
    disk: Fuse<D>,
) -> First<D>
    requires dead { stands d.core ≡ false }
    requires empty { d.core.log ≡ [] }
    requires unarmed { disk.armed ≡ None }
    ensures all { AllLived any_order D.view result.opening d result.desk disk result.disk result.ended }
    ensures read_back { stray result.opening ≡ None }
{
    if !d.ready(Lane::Begin) {
        return First {
            opening: Items::new(alloc),
            desk: d,
            disk,
            ended: Ok(()),
        };
    }
    let First {
        opening,
        desk,
        disk,
        ended,
    } = first_life(workers, alloc, d, disk);
    match ended {
        Ok(()) => {
            let Lived { desk, disk, ended } = later_lives(workers, alloc, desk, disk);
            First {
                opening,
                desk,
                disk,
                ended,
            }
        }
        Err(stop) => First {
            opening,
            desk,
            disk,
            ended: Err(stop),
        },
    }
}

impl<'a, R: Threads + Wait + Sync, G: Gate + Sync> Workers<'a, R, G> {
    /// Workers that will run in threads of this runtime, and call this gate.
    pub fn new(rt: &'a R, gate: &'a G) -> Workers<'a, R, G> {
        Workers { rt, gate }
    }
}

/// Runs a script, each life by seven workers, over the store on the handed disk, with its fuse. It promises all that
/// a run on one thread does, for any order of the lanes that are ready: whatever the schedule of the threads, each entry of the
/// log is of a lane that was ready then. No letter stops it. That it returns is not promised.
pub fn run_script<D: Disk + Drop + Send, G: Gate + Sync, R: Threads + Wait + Sync>(
    workers: &Workers<'_, R, G>,
    alloc: Global,
    settings: Settings,
    script: Script,
    disk: Fuse<D>,
) -> Run<D>
    requires script { CanGoAlong script }
    requires queues { KeepsRules settings }
    requires limits { KeepsLimits settings }
    requires unarmed { disk.armed ≡ None }
    ensures ran { HasRun any_order D.view (new_manager alloc settings) settings script disk result.disk result.opening result.log result.ended }
{
    let Ok(d) = Desk::new(alloc, settings, script) else {
        unreachable!()
    };
    let First {
        opening,
        desk,
        disk,
        ended,
    } = all_lives(workers, alloc, d, disk);
    desk.law();
    let log = desk.into_log();
    Run {
        opening,
        log,
        disk,
        ended,
    }
}

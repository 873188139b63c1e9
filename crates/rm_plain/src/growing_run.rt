//! A run whose script grows at its end.
ghost use Rattle.std.specs.Prelude.{◌≡◌, ◌≢◌, ◌≤◌, ◌+◌, [], length, IfOk, IfErr, IsErr, None, Ok, Err, true, false};
ghost use Rattle.rm_types.specs.Limits.{greatest_stamp, most_served};
ghost use Rattle.rm_types.specs.declared.scripts.Script.{Script as AnyScript};
ghost use Rattle.rm_disk.specs.Fuse.{Fused};
ghost use Rattle.rm_model.specs.Place.{ByLife, BySegment, script_grown};
ghost use Rattle.rm_queues.specs.Rules.{KeepsRules};
ghost use Rattle.rm_invariant.specs.messages.Ranges.{KeepsLimits};
ghost use Rattle.rm_core.specs.Words.{as_new, new_manager, served_in, stands};
ghost use Rattle.rm_desk.specs.Scripts.{AllServed};
ghost use Rattle.rm_lives.specs.Whole.{HasRun, IsWholeRun};
ghost use Rattle.rm_lives.specs.Parts.{RunsOn};
ghost use Rattle.rm_plain.specs.declared.growing_run.Held.TheVariants as held;
ghost use Rattle.rm_plain.specs.Feeding.{IsLastDue, IsSameManager, StandsAtEnd, by_policy};
ghost use Rattle.rm_plain.specs.GrowingRuns.{BeginFails, EndsGrowing, GrowsInto, HasComeTo, IsGrowing, IsSettled, RunsSoFar, disk_held};
ghost use Rattle.rm_plain.specs.Schedule.{by_letters};

use crate::feeding::{feed, start_again, start_first};
use crate::lives::run_life;
use crate::schedule::Schedule;
use rm_desk::Desk;
use rm_disk::{Disk, Fuse};
use rm_lives::{Lived, Run, Stop, Unfounded, Unopened, leave};
use rm_store::Store;
use rm_types::{Entry, Items, Op, Script, Segment, Settings};
use std::alloc::Global;

/// Where the store of a growing run is.
#[derive(Drop)]
enum Held<D: Disk> {
    /// It serves the life that stands.
    Store(Store<D>),
    /// No life stands: the disk waits for the next one.
    Disk(Fuse<D>),
}

/// A run on one thread whose script grows at its end: a life begins, is fed a segment at a time until one of them crashes, and another life
/// begins. At any moment its log is that of a run of the whole script so far by the plain policy, so that it can be made again from the script.
#[derive(Drop)]
pub struct GrowingRun<D: Disk> {
    desk: Desk,
    opening: Items<Op>,
    held: Held<D>,
}

/// Why a life did not begin.
#[derive(Drop)]
pub enum BeginFail<D: Disk> {
    /// No memory was found to add it to the script. The run is as it was.
    Memory(GrowingRun<D>),
    /// Something stopped the run, which is given back.
    Stopped(Run<D>),
}

/// What a run comes to that ends here.
fn end_run<D: Disk>(
    desk: Desk,
    opening: Items<Op>,
    disk: Fuse<D>,
    ended: Result<(), Stop>,
) -> Run<D>
    ensures ended { result.ended ≡ ended }
    ensures ran { (script : AnyScript) (first : Fused D) → IsWholeRun (by_letters []) D.view opening script desk first disk ended
        → HasRun (by_letters []) D.view (as_new desk.core) desk.core.settings script first result.disk result.opening result.log result.ended }
{
    desk.law();
    let log = desk.into_log();
    Run {
        opening,
        log,
        disk,
        ended,
    }
}

/// The life begins that was added to the script: the first one, over whatever the disk holds, or a later one, over what the last one left.
fn begin_due<D: Disk>(
    alloc: Global,
    desk: Desk,
    opening: Items<Op>,
    disk: Fuse<D>,
) -> Result<GrowingRun<D>, Run<D>>
    requires due { IsLastDue desk }
    requires unarmed { disk.armed ≡ None }
    ensures growing { IfOk result (IsGrowing D.view) }
    ensures standing { IfOk result (λ run. stands run.desk.core ≡ true) }
    ensures same { IfOk result (λ run. IsSameManager desk run.desk) }
    ensures runs { IfOk result (λ run. (script : AnyScript) (first : Fused D) → RunsSoFar D.view script first opening desk (held.Disk disk) → HasComeTo D.view script first run) }
    ensures err { IfErr result (λ run. IsErr run.ended) }
    ensures stopped { IfErr result (λ run. (script : AnyScript) (first : Fused D) → RunsSoFar D.view script first opening desk (held.Disk disk)
        → HasRun (by_letters []) D.view (as_new desk.core) desk.core.settings script first run.disk run.opening run.log run.ended) }
{
    let mut desk = desk;
    if desk.log().is_empty() {
        match start_first(alloc, &mut desk, disk) {
            Ok((store, opening)) => Ok(GrowingRun {
                desk,
                opening,
                held: Held::Store(store),
            }),
            Err(Unfounded { opening, why, disk }) => Err(end_run(desk, opening, disk, Err(why))),
        }
    } else {
        match start_again(alloc, &mut desk, disk) {
            Ok(store) => Ok(GrowingRun {
                desk,
                opening,
                held: Held::Store(store),
            }),
            Err(Unopened { why, disk }) => Err(end_run(desk, opening, disk, Err(why))),
        }
    }
}

/// The life that stands at the script's end is worked off, as at the end of a script.
fn finish_life<D: Disk>(desk: Desk, opening: Items<Op>, store: Store<D>) -> Run<D>
    requires up { StandsAtEnd D.view desk store }
    ensures ran { (script : AnyScript) (first : Fused D) → RunsOn by_policy D.view opening script first store.disk desk
        → HasRun (by_letters []) D.view (as_new desk.core) desk.core.settings script first result.disk result.opening result.log result.ended }
{
    let mut desk = desk;
    let mut store = store;
    let mut schedule = Schedule::new(&[]);
    let ended = run_life(&mut desk, &mut store, &mut schedule);
    let Lived { disk, ended } = leave(store, ended);
    end_run(desk, opening, disk, ended)
}

impl<D: Disk> GrowingRun<D> {
    /// A run of no script yet, over a disk whose fuse isn't armed. No call of the disk is made before a life begins.
    pub fn new(alloc: Global, settings: Settings, disk: Fuse<D>) -> GrowingRun<D>
        requires queues { KeepsRules settings }
        requires limits { KeepsLimits settings }
        requires unarmed { disk.armed ≡ None }
        ensures growing { IsGrowing D.view result }
        ensures down { stands result.desk.core ≡ false }
        ensures unbegun { HasComeTo D.view (record { lives = [] }) disk result }
        ensures began { as_new result.desk.core ≡ new_manager alloc settings }
        ensures settings { result.desk.core.settings ≡ settings }
    {
        let script = Script {
            lives: Items::new(alloc),
        };
        let Ok(desk) = Desk::new(alloc, settings, script) else {
            unreachable!()
        };
        GrowingRun {
            desk,
            opening: Items::new(alloc),
            held: Held::Disk(disk),
        }
    }

    /// Whether a life stands: it can be fed. Otherwise one can begin.
    pub fn stands(&self) -> bool
        ensures { result ≡ stands self.now.desk.core }
    {
        !self.desk.is_down()
    }

    /// How many messages were served in the life that stands.
    pub fn served(&self) -> u32
        ensures { result ≡ served_in self.now.desk.core }
    {
        self.desk.served()
    }

    /// The log so far. Where all that was fed is worked off, it is that of a whole run of the script so far by the plain policy.
    pub fn log(&self) -> &Items<Entry>
        requires growing { IsGrowing D.view self.now }
        ensures log { result.now ≡ self.now.desk.core.log }
        ensures ran { IsSettled self.now → (script : AnyScript) (first : Fused D) → HasComeTo D.view script first self.now
            → HasRun (by_letters []) D.view (as_new self.now.desk.core) self.now.desk.core.settings script first (disk_held self.now.held) self.now.opening self.now.desk.core.log (Ok tt) }
    {
        self.desk.law();
        self.desk.log()
    }

    /// A life more begins, with this stamp (1 to 10^15), over what the last one left or, before the first one, whatever the disk holds. No life
    /// stands. Nothing of it is worked off before it is fed. `Memory` where no memory was found to add the life; `Stopped` where the run can't
    /// go on: with the causes of `run_script`.
    pub fn begin(self, alloc: Global, stamp: u64) -> Result<GrowingRun<D>, BeginFail<D>>
        requires growing { IsGrowing D.view self }
        requires down { stands self.desk.core ≡ false }
        requires low { 1 ≤ stamp }
        requires high { stamp ≤ greatest_stamp }
        ensures growing { IfOk result (IsGrowing D.view) }
        ensures standing { IfOk result (λ run. stands run.desk.core ≡ true) }
        ensures grows { IfOk result (GrowsInto D.view (ByLife (record { stamp = stamp; segments = [] })) self) }
        ensures fails { IfErr result (BeginFails D.view (record { stamp = stamp; segments = [] }) self) }
    {
        let GrowingRun {
            desk,
            opening,
            held,
        } = self;
        let mut desk = desk;
        let Held::Disk(disk) = held else {
            unreachable!()
        };
        if desk.add_life(stamp).is_err() {
            return Err(BeginFail::Memory(GrowingRun {
                desk,
                opening,
                held: Held::Disk(disk),
            }));
        }
        match begin_due(alloc, desk, opening, disk) {
            Ok(run) => Ok(run),
            Err(run) => Err(BeginFail::Stopped(run)),
        }
    }

    /// Feeds the life that stands one segment more, and works it off: until it settled and nothing is left to do, or the life went down, as the
    /// segment crashes. Each message is of a kind that is served, and with those that the life served they are 2^31 - 1 at most. Where the run
    /// can't go on it is given back as it ended: with the causes of `run_script`.
    pub fn feed(self, segment: Segment) -> Result<GrowingRun<D>, Run<D>>
        requires growing { IsGrowing D.view self }
        requires standing { stands self.desk.core ≡ true }
        requires each { AllServed segment.messages }
        requires few { served_in self.desk.core + length segment.messages ≤ most_served }
        ensures growing { IfOk result (IsGrowing D.view) }
        ensures settled { IfOk result IsSettled }
        ensures grows { IfOk result (GrowsInto D.view (BySegment segment) self) }
        ensures err { IfErr result (λ run. IsErr run.ended) }
        ensures stopped { IfErr result (EndsGrowing D.view (script_grown (BySegment segment)) self) }
    {
        let GrowingRun {
            desk,
            opening,
            held,
        } = self;
        let mut desk = desk;
        let Held::Store(store) = held else {
            unreachable!()
        };
        match feed(&mut desk, store, segment) {
            Ok(store) => Ok(GrowingRun {
                desk,
                opening,
                held: Held::Store(store),
            }),
            Err(Lived { disk, ended }) => match ended {
                Ok(()) => Ok(GrowingRun {
                    desk,
                    opening,
                    held: Held::Disk(disk),
                }),
                Err(stop) => Err(end_run(desk, opening, disk, Err(stop))),
            },
        }
    }

    /// The script is at its end: what is left of the life that stands is worked off, as at the end of a script, and the run is given back.
    pub fn finish(self) -> Run<D>
        requires growing { IsGrowing D.view self }
        ensures ends { EndsGrowing D.view (λ script. script) self result }
    {
        let GrowingRun {
            desk,
            opening,
            held,
        } = self;
        match held {
            Held::Store(store) => finish_life(desk, opening, store),
            Held::Disk(disk) => end_run(desk, opening, disk, Ok(())),
        }
    }
}

//! The lives of a script, one after another, on one thread.
ghost use Rattle.std.specs.Prelude.{◌≡◌, ◌≢◌, ◌⊎◌, ◌<◌, ℕ, [], length, IfErr, OnOk, None, Some, true, false};
ghost use Rattle.rm_types.specs.declared.messages.Lane.{Lane};
ghost use Rattle.rm_types.specs.Records.{stray};
ghost use Rattle.rm_store.specs.Store.{StoreInvariant as IsStoreSound, seen};
ghost use Rattle.rm_queues.specs.Rules.{KeepsRules};
ghost use Rattle.rm_invariant.specs.messages.Ranges.{KeepsLimits};
ghost use Rattle.rm_core.specs.Moves.{CanBeginOver, IsLeftAfter, IsOwn};
ghost use Rattle.rm_core.specs.Words.{new_manager, stands};
ghost use Rattle.rm_desk.specs.Lanes.{is_ready_at};
ghost use Rattle.rm_desk.specs.Scripts.{CanGoAlong};
ghost use Rattle.rm_lives.specs.declared.halts.Stop.{Stop};
ghost use Rattle.rm_lives.specs.Goes.{IsOver};
ghost use Rattle.rm_lives.specs.Keeping.{IsFoundOn};
ghost use Rattle.rm_lives.specs.Later.{FirstTo, LaterTo};
ghost use Rattle.rm_lives.specs.Starts.{IsAtEase, LivesTo};
ghost use Rattle.rm_lives.specs.Whole.{AllLived, HasRun};
ghost use Rattle.rm_plain.specs.Schedule.{IsAt, StopsAt, by_letters, chosen, course_left, order_of, steps_of};

use crate::lives::run_life;
use crate::schedule::Schedule;
use rm_desk::Desk;
use rm_disk::{Disk, Fuse};
use rm_lives::{Lived, Run, Stop, Unfounded, Unopened, begin_life, leave, open_again, open_first};
use rm_store::Store;
use rm_tree::Tree;
use rm_types::{Items, Lane, Op, Script, Settings};
use std::alloc::Global;

/// How the first life went, and what its disk held before.
#[derive(Drop)]
struct First<D: Disk> {
    opening: Items<Op>,
    disk: Fuse<D>,
    ended: Result<(), Stop>,
}

/// A life begins over what the last one left in the store, and lives to its end; where it went down, its device has fallen.
fn live<D: Disk>(d: &mut Desk, store: Store<D>, schedule: &mut Schedule<'_>, tree: Tree) -> Lived<D>
    requires at { IsAt schedule.old d.old.core.log }
    requires chosen { chosen (course_left schedule.old) d.old ≡ Some Lane.Begin }
    requires dead { stands d.old.core ≡ false }
    requires lives { d.old.place.lives ≢ [] }
    requires over { CanBeginOver tree }
    requires own { IsOwn d.old.core tree }
    requires store { IsStoreSound D.view store }
    requires unbroken { store.is_broken ≡ false }
    requires unarmed { store.disk.armed ≡ None }
    requires unblown { store.disk.blown ≡ false }
    ensures whole { schedule.new.whole ≡ schedule.old.whole }
    ensures at { OnOk result.ended (IsAt schedule.new d.new.core.log) }
    ensures used { OnOk result.ended (stands d.new.core ≡ true → course_left schedule.new ≡ []) }
    ensures lived { LivesTo (order_of schedule.old) D.view (λ opening. IsLeftAfter tree opening d.old.core.log) (λ opening. IsFoundOn opening d.old.core tree (seen D.view store.disk)) d.old d.new store.disk result.disk result.ended }
    ensures fewer { OnOk result.ended (length d.new.place.lives < length d.old.place.lives) }
{
    let mut store = store;
    match begin_life(d, &mut store, schedule, tree) {
        Ok(()) => {
            schedule.pass(Lane::Begin);
            let ended = run_life(d, &mut store, schedule);
            leave(store, ended)
        }
        Err(halt) => leave(store, Err(halt)),
    }
}

/// The first life of a script, over whatever its disk holds.
fn first_life<D: Disk>(
    alloc: Global,
    d: &mut Desk,
    disk: Fuse<D>,
    schedule: &mut Schedule<'_>,
) -> First<D>
    requires at { IsAt schedule.old d.old.core.log }
    requires chosen { chosen (course_left schedule.old) d.old ≡ Some Lane.Begin }
    requires dead { stands d.old.core ≡ false }
    requires lives { d.old.place.lives ≢ [] }
    requires empty { d.old.core.log ≡ [] }
    requires unarmed { disk.armed ≡ None }
    ensures whole { schedule.new.whole ≡ schedule.old.whole }
    ensures at { OnOk result.ended (IsAt schedule.new d.new.core.log) }
    ensures used { OnOk result.ended (stands d.new.core ≡ true → course_left schedule.new ≡ []) }
    ensures first { FirstTo (order_of schedule.old) D.view result.opening d.old d.new disk result.disk result.ended }
    ensures read_back { stray result.opening ≡ None }
{
    match open_first(alloc, disk) {
        Ok((store, tree, opening)) => {
            let Lived { disk, ended } = live(d, store, schedule, tree);
            First {
                opening,
                disk,
                ended,
            }
        }
        Err(Unfounded { opening, why, disk }) => First {
            opening,
            disk,
            ended: Err(why),
        },
    }
}

/// A later life of a script, over what was kept.
fn next_life<D: Disk>(
    alloc: Global,
    d: &mut Desk,
    disk: Fuse<D>,
    schedule: &mut Schedule<'_>,
) -> Lived<D>
    requires at { IsAt schedule.old d.old.core.log }
    requires chosen { chosen (course_left schedule.old) d.old ≡ Some Lane.Begin }
    requires dead { stands d.old.core ≡ false }
    requires lives { d.old.place.lives ≢ [] }
    requires some { d.old.core.log ≢ [] }
    requires unarmed { disk.armed ≡ None }
    ensures whole { schedule.new.whole ≡ schedule.old.whole }
    ensures at { OnOk result.ended (IsAt schedule.new d.new.core.log) }
    ensures used { OnOk result.ended (stands d.new.core ≡ true → course_left schedule.new ≡ []) }
    ensures later { LaterTo (order_of schedule.old) D.view d.old d.new disk result.disk result.ended }
    ensures fewer { OnOk result.ended (length d.new.place.lives < length d.old.place.lives) }
{
    match open_again(alloc, d, disk) {
        Ok((store, tree)) => live(d, store, schedule, tree),
        Err(Unopened { why, disk }) => Lived {
            disk,
            ended: Err(why),
        },
    }
}

/// Where no lane can move any more, no letter can be left of the schedule.
fn all_used(d: &Desk, schedule: &Schedule<'_>) -> Result<(), Stop>
    requires idle { (course_left schedule.now ≡ []) ⊎ ((lane : Lane) → is_ready_at d.now lane ≡ false) }
    ensures used { OnOk result (course_left schedule.now ≡ []) }
    ensures stops { IfErr result (λ stop. (place : ℕ) × (stop ≡ Stop.Schedule place) × StopsAt (course_left schedule.now) d.now place) }
{
    let _ = d;
    match schedule.place_left() {
        None => Ok(()),
        Some(place) => Err(Stop::Schedule { place }),
    }
}

/// The lives that are left of a script, after one that ended.
fn later_lives<D: Disk>(
    alloc: Global,
    d: &mut Desk,
    disk: Fuse<D>,
    schedule: &mut Schedule<'_>,
) -> Lived<D>
    requires at { IsAt schedule.old d.old.core.log }
    requires used { stands d.old.core ≡ true → course_left schedule.old ≡ [] }
    requires ends { (stands d.old.core ≡ false) ⊎ IsOver d.old }
    requires some { d.old.core.log ≢ [] }
    requires at_ease { IsAtEase disk }
    ensures later { LaterTo (order_of schedule.old) D.view d.old d.new disk result.disk result.ended }
    ensures over { OnOk result.ended (d.new.place.lives ≡ []) }
    ensures ends { OnOk result.ended ((order_of schedule.old).ends d.new.core.log) }
{
    let mut disk = disk;
    'lives: while d.ready(Lane::Begin) {
        d.law();
        if let Err(halt) = schedule.choice(d) {
            return Lived {
                disk,
                ended: Err(Stop::from(halt)),
            };
        }
        let lived = next_life(alloc, d, disk, schedule);
        disk = lived.disk;
        if let Err(stop) = lived.ended {
            return Lived {
                disk,
                ended: Err(stop),
            };
        }
    }
    d.law();
    Lived {
        disk,
        ended: all_used(d, schedule),
    }
}

/// All lives of a script, over whatever its disk holds. A script without lives leaves its disk as it is.
fn all_lives<D: Disk>(
    alloc: Global,
    d: &mut Desk,
    disk: Fuse<D>,
    schedule: &mut Schedule<'_>,
) -> First<D>
    requires at { IsAt schedule.old d.old.core.log }
    requires dead { stands d.old.core ≡ false }
    requires empty { d.old.core.log ≡ [] }
    requires unarmed { disk.armed ≡ None }
    ensures all { AllLived (order_of schedule.old) D.view result.opening d.old d.new disk result.disk result.ended }
    ensures read_back { stray result.opening ≡ None }
{
    d.law();
    if !d.ready(Lane::Begin) {
        return First {
            opening: Items::new(alloc),
            disk,
            ended: all_used(d, schedule),
        };
    }
    if let Err(halt) = schedule.choice(d) {
        return First {
            opening: Items::new(alloc),
            disk,
            ended: Err(Stop::from(halt)),
        };
    }
    let First {
        opening,
        disk,
        ended,
    } = first_life(alloc, d, disk, schedule);
    match ended {
        Ok(()) => {
            let Lived { disk, ended } = later_lives(alloc, d, disk, schedule);
            First {
                opening,
                disk,
                ended,
            }
        }
        Err(stop) => First {
            opening,
            disk,
            ended: Err(stop),
        },
    }
}

/// Runs a script on one thread, over the store on the handed disk, with its fuse.
///
/// Each entry of the log is of the lane that the schedule's letter says or, after its last letter, of the lane that comes first
/// in the policy's order of those that were ready then.
///
/// The log is lawful whatever the disk does, and so it is where the run stops before its script's end:
/// - `DiskFault`: the disk inside the fuse counted a fault;
/// - `Damaged`: the disk held no store, with the offset at which it is damaged;
/// - `Full`: the operation that awaits the store needs so many bytes, and so many are left;
/// - `EpochsSpent`: no epoch, or no stamp, is left for one more life;
/// - `Schedule`: the letter at this byte of the schedule is unknown or its lane isn't ready;
/// - `Memory`: no memory was found.
///
/// `Damaged` and `EpochsSpent` come only where a life is due and none stands, `Full` only where the operation is
/// with the store, and `DiskFault` only where one of the two is so.
///
/// The disk is given back in every case, with a fuse that isn't armed. Whether or not the run came to its end,
/// whatever a crash could have left of the disk at any moment is what it could have left before the run, or it
/// holds what was kept by some moment of the run, or this and the operation that awaited the store then. Where
/// nothing was logged a read gives what it gave, and of a script without lives no call of the disk is made. A
/// disk falls only where a life went down.
pub fn run_script<D: Disk>(
    alloc: Global,
    settings: Settings,
    script: Script,
    schedule: &[u8],
    disk: Fuse<D>,
) -> Run<D>
    requires script { CanGoAlong script }
    requires queues { KeepsRules settings }
    requires limits { KeepsLimits settings }
    requires unarmed { disk.armed ≡ None }
    ensures ran { HasRun (by_letters (steps_of schedule.now)) D.view (new_manager alloc settings) settings script disk result.disk result.opening result.log result.ended }
{
    let Ok(mut d) = Desk::new(alloc, settings, script) else {
        unreachable!()
    };
    let mut schedule = Schedule::new(schedule);
    let First {
        opening,
        disk,
        ended,
    } = all_lives(alloc, &mut d, disk, &mut schedule);
    d.law();
    let log = d.into_log();
    Run {
        opening,
        log,
        disk,
        ended,
    }
}

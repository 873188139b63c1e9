//! A life by the letters of a schedule, and behind them by the policy.
ghost use Rattle.std.specs.Prelude.{◌≡◌, OnOk, IfOk, IfErr, true};
ghost use Rattle.rm_core.specs.Words.{stands};
ghost use Rattle.rm_lives.specs.Keeping.{FuseStays, HaltsBy, Serves};
ghost use Rattle.rm_lives.specs.Lives.{EndsBy, GoesOnOrEnds};
ghost use Rattle.rm_plain.specs.Schedule.{IsAt, order_of};

use crate::schedule::Schedule;
use rm_desk::Desk;
use rm_disk::Disk;
use rm_lives::{Halt, LifeEnd, Ordered, advance};
use rm_store::Store;

impl Ordered for Schedule<'_> {
    ghost use Rattle.rm_plain.specs.Schedule.{order_of};

    ghost order = { λ schedule. order_of schedule };
}

/// The lane moves that the schedule says or, after its end, the first one that is ready in the policy's order. Some end where the
/// life ended by it.
fn tick<D: Disk>(
    d: &mut Desk,
    store: &mut Store<D>,
    schedule: &mut Schedule<'_>,
) -> Result<Option<LifeEnd>, Halt>
    requires stands { stands d.old.core ≡ true }
    requires serves { Serves D.view d.old store.old }
    requires at { IsAt schedule.old d.old.core.log }
    ensures moves { IfOk result (GoesOnOrEnds (order_of schedule.old) D.view d.old d.new store.old store.new) }
    ensures whole { schedule.new.whole ≡ schedule.old.whole }
    ensures at { OnOk result (IsAt schedule.new d.new.core.log) }
    ensures fuse { FuseStays D.view store.old.disk store.new.disk }
    ensures halts { IfErr result (HaltsBy (order_of schedule.old) D.view d.old d.new store.old.disk store.new.disk) }
{
    d.law();
    match schedule.choice(d)? {
        Some(lane) => {
            let down = advance(d, store, schedule, lane)?;
            schedule.pass(lane);
            Ok(down.map(|image| LifeEnd::Down { image }))
        }
        None => {
            let end = d.is_at_end();
            prove!(end);
            Ok(Some(LifeEnd::Rest))
        }
    }
}

/// Runs the life that stands, to its end. `DiskFault` comes only where the disk's count of faults rose, `Full`
/// only where the operation with the store needs more than the disk has left, and `Schedule` exactly where a letter is
/// reached that is unknown or whose lane isn't ready. After a halt the desk is as the moves made so far left it.
pub fn run_life<D: Disk>(
    d: &mut Desk,
    store: &mut Store<D>,
    schedule: &mut Schedule<'_>,
) -> Result<LifeEnd, Halt>
    requires stands { stands d.old.core ≡ true }
    requires serves { Serves D.view d.old store.old }
    requires at { IsAt schedule.old d.old.core.log }
    ensures ends { IfOk result (EndsBy (order_of schedule.old) D.view d.old d.new store.old store.new) }
    ensures whole { schedule.new.whole ≡ schedule.old.whole }
    ensures at { OnOk result (IsAt schedule.new d.new.core.log) }
    ensures fuse { FuseStays D.view store.old.disk store.new.disk }
    ensures halts { IfErr result (HaltsBy (order_of schedule.old) D.view d.old d.new store.old.disk store.new.disk) }
{
    'moves: loop {
        if let Some(end) = tick(d, store, schedule)? {
            return Ok(end);
        }
    }
}

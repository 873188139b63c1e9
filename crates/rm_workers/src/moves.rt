//! The workers' turns, over the value that is carried.
ghost use Rattle.std.specs.Prelude.{◌≡◌, ◌≢◌, ℕ, None, Some, true, false};
ghost use Rattle.rm_types.specs.declared.messages.Lane.{Lane};
ghost use Rattle.rm_types.specs.declared.scripts.Close.{Close};
ghost use Rattle.rm_model.specs.Place.{close_left};
ghost use Rattle.rm_core.specs.Words.{has_rest, is_blown, stands};
ghost use Rattle.rm_desk.specs.Lanes.{is_ready_at};
ghost use Rattle.rm_baton.specs.Entries.{AddsCommon};
ghost use Rattle.rm_workers.specs.declared.turns.End.{End};
ghost use Rattle.rm_workers.specs.declared.turns.Helped.{Helped};
ghost use Rattle.rm_workers.specs.declared.turns.Turn.{Turn};
ghost use Rattle.rm_workers.specs.Turns.{Helps, IsHandedTurn, IsHelpers, EndsWithCause, Learns, Makes, ToldFact, TurnFact, TurnOp};
ghost use Rattle.rm_workers.specs.Work.{Halting, Refused as WasRefused, Serving, Wrote};

use crate::held::Held;
use crate::since::Since;
use crate::storing::{arm, is_blown};
use crate::turns::{End, Helped, Told, Turn};
use rm_core::Refused;
use rm_disk::Disk;
use rm_lives::Halt;
use rm_store::Store;
use rm_types::{Close, Duplicate, Lane, NoMemory, Op};

/// A helper's move: its lane moves, where it is ready. Only a common entry is added. Once a halt stands nothing is done. It is
/// `Over` only where the life is over or a halt stands.
pub(crate) fn help<S: Since>(held: &mut Held<S>, lane: Lane) -> Helped
    requires lane { IsHelpers lane }
    ensures helps { Helps lane result held.old held.new }
    ensures common { AddsCommon held.old.desk.core.log held.new.desk.core.log }
    ensures halted { held.old.halt ≢ None → (held.new ≡ held.old) }
{
    if held.is_over() {
        return Helped::Over;
    }
    match held.step(lane) {
        Ok(()) => Helped::Moved,
        Err(Refused::NotReady) => Helped::Still,
        Err(Refused::Memory) => {
            held.stop(Halt::Memory);
            Helped::Over
        }
    }
}

// The operation that was handed is to be written.
fn write_next<S: Since, D: Disk>(held: &mut Held<S>, store: &Store<D>) -> Turn
    requires serving { Serving D.view S.began store.now held.old.desk.core.log }
    ensures turn { TurnFact D.view S.began store.now result held.new.desk.core.log }
    ensures handed { IsHandedTurn result }
    ensures same { held.new.desk ≡ held.old.desk }
    ensures cause { EndsWithCause result held.new }
    ensures op { TurnOp result }
{
    let _ = store;
    let desk = held.desk();
    desk.law();
    let copied = match desk.handed() {
        Some(op) => op.copy(),
        None => return Turn::Moved(Lane::Hand),
    };
    match copied {
        Ok(op) => Turn::Write(op),
        Err(NoMemory) => {
            held.stop(Halt::Memory);
            Turn::Ends(End::Over)
        }
    }
}

// The current segment settles, and the fuse is armed where the next one is to crash.
fn settle<S: Since, D: Disk>(held: &mut Held<S>, store: &mut Store<D>) -> Turn
    requires serving { Serving D.view S.began store.old held.old.desk.core.log }
    requires hand { is_ready_at held.old.desk Lane.Hand ≡ false }
    requires settles { close_left held.old.desk.place.segments ≡ Some Close.Settle }
    requires rests { is_blown held.old.desk.core ≡ false → has_rest held.old.desk.core }
    ensures turn { TurnFact D.view S.began store.new result held.new.desk.core.log }
    ensures makes { Makes result held.old.desk held.new.desk }
    ensures cause { EndsWithCause result held.new }
    ensures op { TurnOp result }
{
    match held.step(Lane::End) {
        Ok(()) => match arm(held.desk(), store) {
            Ok(()) => Turn::Moved(Lane::End),
            Err(NoMemory) => {
                held.stop(Halt::Memory);
                Turn::Ends(End::Halted(Halt::Memory))
            }
        },
        Err(Refused::NotReady) => Turn::Wait,
        Err(Refused::Memory) => {
            held.stop(Halt::Memory);
            Turn::Ends(End::Over)
        }
    }
}

// The life goes down; its device is to fall to the image.
fn go_down<S: Since, D: Disk>(held: &mut Held<S>, store: &Store<D>, image: u32) -> Turn
    requires serving { Serving D.view S.began store.now held.old.desk.core.log }
    requires hand { is_ready_at held.old.desk Lane.Hand ≡ false }
    requires crashes { (calls : ℕ) × (close_left held.old.desk.place.segments ≡ Some (Close.Crash calls image)) }
    requires rests { is_blown held.old.desk.core ≡ false → has_rest held.old.desk.core }
    ensures turn { TurnFact D.view S.began store.now result held.new.desk.core.log }
    ensures makes { Makes result held.old.desk held.new.desk }
    ensures cause { EndsWithCause result held.new }
    ensures op { TurnOp result }
{
    let _ = store;
    match held.step(Lane::End) {
        Ok(()) => Turn::Ends(End::Down { image }),
        Err(Refused::NotReady) => Turn::Wait,
        Err(Refused::Memory) => {
            held.stop(Halt::Memory);
            Turn::Ends(End::Over)
        }
    }
}

// The current segment closes where nothing is left to do, or where the life blew.
fn close<S: Since, D: Disk>(held: &mut Held<S>, store: &mut Store<D>) -> Turn
    requires serving { Serving D.view S.began store.old held.old.desk.core.log }
    requires hand { is_ready_at held.old.desk Lane.Hand ≡ false }
    ensures turn { TurnFact D.view S.began store.new result held.new.desk.core.log }
    ensures makes { Makes result held.old.desk held.new.desk }
    ensures cause { EndsWithCause result held.new }
    ensures op { TurnOp result }
{
    let may = is_blown(store) || held.desk().is_idle();
    if !may {
        return Turn::Wait;
    }
    match held.desk().close_of() {
        None => Turn::Wait,
        Some(Close::Settle) => settle(held, store),
        Some(Close::Crash { image, .. }) => go_down(held, store, image),
    }
}

/// A turn of the store's worker in its hold: one move, if one of its lanes may move. Once a halt stands nothing is done. It ends the
/// turns only where the life is over or a halt stands.
pub(crate) fn turn<S: Since, D: Disk>(held: &mut Held<S>, store: &mut Store<D>) -> Turn
    requires serving { Serving D.view S.began store.old held.old.desk.core.log }
    ensures turn { TurnFact D.view S.began store.new result held.new.desk.core.log }
    ensures makes { Makes result held.old.desk held.new.desk }
    ensures cause { EndsWithCause result held.new }
    ensures op { TurnOp result }
    ensures halted { held.old.halt ≢ None → (held.new ≡ held.old) × (store.new ≡ store.old) }
{
    if held.is_over() {
        return Turn::Ends(End::Over);
    }
    match held.step(Lane::Hand) {
        Ok(()) => write_next(held, store),
        Err(Refused::NotReady) => close(held, store),
        Err(Refused::Memory) => {
            held.stop(Halt::Memory);
            Turn::Ends(End::Over)
        }
    }
}

/// Says that the operation which was written is kept, where one is with the store. Want of memory for that halts the life.
pub(crate) fn keep<S: Since, D: Disk>(held: &mut Held<S>, store: &Store<D>, op: &Op) -> Told
    requires wrote { Wrote D.view S.began store.now op.now held.old.desk.core.log }
    ensures told { ToldFact D.view S.began store.now (Wrote D.view S.began store.now op.now) result held.new.desk.core.log }
    ensures learns { Learns result held.old held.new }
{
    let _ = store;
    let _ = op;
    match held.kept() {
        Ok(()) => Told::Learned,
        Err(Refused::NotReady) => Told::Absent,
        Err(Refused::Memory) => {
            held.stop(Halt::Memory);
            Told::Halted(Halt::Memory)
        }
    }
}

/// Says that the fuse refused the operation, after so many calls, where one is with the store. Want of memory for that halts the life.
pub(crate) fn blow<S: Since, D: Disk>(held: &mut Held<S>, store: &Store<D>, passed: u32) -> Told
    requires refused { WasRefused D.view S.began store.now passed held.old.desk.core.log }
    ensures told { ToldFact D.view S.began store.now (WasRefused D.view S.began store.now passed) result held.new.desk.core.log }
    ensures learns { Learns result held.old held.new }
{
    let _ = store;
    match held.blown(passed) {
        Ok(()) => Told::Learned,
        Err(Refused::NotReady) => Told::Absent,
        Err(Refused::Memory) => {
            held.stop(Halt::Memory);
            Told::Halted(Halt::Memory)
        }
    }
}

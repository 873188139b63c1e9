//! A master allocates.
ghost use Rattle.std.specs.Prelude.{◌≡◌, ◌+◌, ◌<◌, ◌^◌, [], ◌∷◌, ◌++◌, Some, Err, true, false, ◌&&◌, not, IfOk, OnOk, OnErr, if◌then◌else◌};
ghost use Rattle.rm_types.specs.declared.messages.MasterAsk.{MasterAsk as Asked};
ghost use Rattle.rm_types.specs.declared.replies.Reply.{Reply as Told};
ghost use Rattle.rm_book.specs.Granted.{AllMayBeTold};
ghost use Rattle.rm_book.specs.ManyAsks.{all_asked};
ghost use Rattle.rm_master.specs.declared.allocating.AskError.TheVariants.{Memory, TooMany};
ghost use Rattle.rm_master.specs.Answers.{acquired, after_master, allocated_with, grants_in, ids_granted, own_grants, release_events, containers_told, after_told};
ghost use Rattle.rm_master.specs.Told.{allocate_told, allocated_told, asks_too_much, closings_told, grants_told, asks_too_many, is_new_row, is_told_row, living_row};
ghost use Rattle.rm_tables.specs.LateRows.{is_late_row};
ghost use Rattle.rm_tables.specs.declared.events.SchedEvent.{SchedEvent as Event};
ghost use Rattle.rm_model.specs.Facts.{keeps};
ghost use Rattle.rm_tables.specs.Actions.{found_in};
ghost use Rattle.rm_tables.specs.ContainerSets.{with_containers};
ghost use Rattle.rm_tables.specs.Leaving.{is_masters_in};
ghost use Rattle.rm_tables.specs.Missing.{astray_released};
ghost use Rattle.rm_tables.specs.Rows.{row_of};

use crate::living::living;
use rm_book::{Asks, Book};
use rm_tables::{AppRow, SchedEvent, Tables, Talk, astray_released, is_earlier, is_masters, keeps};
use rm_types::{
    Ask, AttemptId, BookRow, Boxed, Closing, ClosingOf, ContainerId, ContainerState, Duplicate,
    Grant, Items, NoMemory, Queue, Reply, Resource,
};
use std::alloc::Global;
use thiserror::Error;

/// How many different asks an attempt may have.
const MOST_ASKS: usize = 64;

/// Whether one of these asks is for more than the greatest size.
fn asks_too_much(greatest: Resource, asks: &[Ask]) -> bool
    ensures { result ≡ asks_too_much greatest asks.now }
{
    asks.iter().any(|ask| !ask.size.fits(greatest))
}

/// Whether a row was granted to an attempt, which is to be told of it.
fn is_new(t: &Tables, attempt: AttemptId, row: &BookRow) -> bool
    ensures { result ≡ is_new_row t.now attempt row.now }
{
    row.id.attempt == attempt
        && row.state == ContainerState::Granted
        && !is_masters(&t.tree, row.id)
}

/// Whether a row came late to an attempt that was told of all rows up to a number.
fn is_late(t: &Tables, attempt: AttemptId, told: u64, row: &BookRow) -> bool
    ensures { result ≡ is_late_row t.now attempt told row.now }
{
    keeps(&t.tree, attempt.app)
        && is_earlier(row.id.attempt, attempt)
        && told < row.told
        && !is_masters(&t.tree, row.id)
}

/// Whether a master is to be told of a row.
fn is_told(t: &Tables, attempt: AttemptId, told: u64, row: &BookRow) -> bool
    ensures { result ≡ is_told_row t.now attempt told row.now }
{
    (t.settings.recover_ended_containers && is_late(t, attempt, told, row))
        || is_new(t, attempt, row)
}

/// The grants that a master is told of. Only where something may have come late are they looked for among all containers of the
/// application.
fn grants(t: &Tables, attempt: AttemptId, told: u64) -> Result<Items<Grant>, NoMemory>
    ensures grants { IfOk result (λ grants. grants ≡ grants_told t.now attempt told) }
    ensures told { IfOk result (λ grants. AllMayBeTold t.now.book.rows (own_grants attempt grants)) }
{
    if t.settings.recover_ended_containers && keeps(&t.tree, attempt.app) {
        late_grants(t, attempt, told)
    } else {
        new_grants(t, attempt, told)
    }
}

/// The grants that a master is told of, where something may have come late.
fn late_grants(t: &Tables, attempt: AttemptId, told: u64) -> Result<Items<Grant>, NoMemory>
    ensures grants { IfOk result (λ grants. grants ≡ grants_told t.now attempt told) }
    ensures told { IfOk result (λ grants. AllMayBeTold t.now.book.rows (own_grants attempt grants)) }
{
    // With its length a book tells that no two rows are of one container.
    let _living = t.book.len();
    t.book.grants_where(
        attempt.app,
        |row: &BookRow| -> bool
            ensures { result ≡ is_told_row t.entry.now attempt told row.now }
        { is_told(t, attempt, told, row) },
    )
}

/// The grants that a master is told of, where nothing can have come late.
fn new_grants(t: &Tables, attempt: AttemptId, told: u64) -> Result<Items<Grant>, NoMemory>
    requires { (t.now.settings.recover_ended_containers && keeps (found_in t.now attempt.app)) ≡ false }
    ensures grants { IfOk result (λ grants. grants ≡ grants_told t.now attempt told) }
    ensures told { IfOk result (λ grants. AllMayBeTold t.now.book.rows (own_grants attempt grants)) }
{
    let mut grants = t.book.granted_to(attempt)?;
    grants.retain(
        |grant: &Grant| -> bool
            ensures { result ≡ not (is_masters_in t.entry.now.tree.apps grant.now.id) }
        { !is_masters(&t.tree, grant.id) },
    );
    Ok(grants)
}

/// Those of these endings that a master is told of.
fn closings(
    alloc: Global,
    all: &[ClosingOf],
    attempt: AttemptId,
) -> Result<Items<Closing>, NoMemory>
    ensures { IfOk result (λ closings. closings ≡ closings_told attempt all.now) }
{
    let mut closings = Items::new(alloc);
    'all: for one in all {
        if one.attempt == attempt {
            closings.push(one.closing)?;
        }
    }
    Ok(closings)
}

/// What an allocation is answered that isn't refused.
fn answer(
    t: &Tables,
    attempt: AttemptId,
    id: u32,
    told: u64,
    row: &AppRow,
) -> Result<Reply, NoMemory>
    requires { id + 1 < 2 ^ 32 }
    ensures reply { IfOk result (λ reply. reply ≡ allocated_told t.now attempt id told row.now) }
    ensures told { IfOk result (λ reply. AllMayBeTold t.now.book.rows (own_grants attempt (grants_in reply))) }
{
    let grants = grants(t, attempt, told)?;
    let ended = closings(t.alloc, row.closings.as_slice(), attempt)?;
    Ok(Reply::Allocated {
        id: id + 1,
        grants,
        ended,
    })
}

/// Why the asks of an allocation weren't taken.
#[derive(Clone, Copy, Debug, PartialEq, Eq, Error)]
enum AskError {
    /// Its attempt would ask for too many.
    #[error("the attempt would have too many different asks")]
    TooMany,
    /// No memory was found.
    #[error("out of memory")]
    Memory,
}

impl From<NoMemory> for AskError {
    ghost from_gives = { λ _ error. error ≡ Memory };

    fn from(_refused: NoMemory) -> AskError {
        AskError::Memory
    }
}

/// The asks of an attempt are set, unless it would ask for too many. A refusal changes nothing.
fn set_asks(asks: &mut Asks, attempt: AttemptId, new: &[Ask]) -> Result<(), AskError>
    ensures ok { OnOk result ((asks_too_many asks.old attempt new.now ≡ false) × (asks.new ≡ all_asked attempt asks.old new.now)) }
    ensures too_many { result ≡ Err TooMany → asks_too_many asks.old attempt new.now ≡ true }
    ensures err { OnErr result (asks.new ≡ asks.old) }
{
    if asks.set_all(attempt, new, MOST_ASKS)? {
        Ok(())
    } else {
        Err(AskError::TooMany)
    }
}

/// The asks of an attempt are set, and what it releases is to be worked off, unless it would ask for too many. A refusal changes nothing.
fn set_and_release(
    asks: &mut Asks,
    sched: &mut Queue<SchedEvent>,
    attempt: AttemptId,
    new: &[Ask],
    release: Items<ContainerId>,
) -> Result<(), AskError>
    ensures few { OnOk result (asks_too_many asks.old attempt new.now ≡ false) }
    ensures set { OnOk result (asks.new ≡ all_asked attempt asks.old new.now) }
    ensures posted { OnOk result (sched.new ≡ sched.old ++ Event.Release attempt release ∷ []) }
    ensures too_many { result ≡ Err TooMany → asks_too_many asks.old attempt new.now ≡ true }
    ensures err { OnErr result ((asks.new ≡ asks.old) × (sched.new ≡ sched.old)) }
{
    sched.push_made(
        asks,
        |asks: &mut Asks| -> Result<SchedEvent, AskError>
            ensures event { IfOk result (λ made. made ≡ Event.Release attempt release) }
            ensures ok { OnOk result ((asks_too_many asks.old attempt new.entry.now ≡ false) × (asks.new ≡ all_asked attempt asks.old new.entry.now)) }
            ensures too_many { result ≡ Err TooMany → asks_too_many asks.old attempt new.entry.now ≡ true }
            ensures err { OnErr result (asks.new ≡ asks.old) }
        {
            set_asks(asks, attempt, new)?;
            Ok(SchedEvent::Release {
                attempt,
                list: release,
            })
        },
    )
}

/// The same where perhaps nothing is released.
fn take_asks(
    t: &mut Tables,
    attempt: AttemptId,
    new: &[Ask],
    release: &Items<ContainerId>,
) -> Result<(), AskError>
    ensures few { OnOk result (asks_too_many t.old.asks attempt new.now ≡ false) }
    ensures ok { OnOk result (t.new ≡ record t.old { asks = all_asked attempt t.old.asks new.now; sched = t.old.sched ++ release_events attempt release.now }) }
    ensures too_many { result ≡ Err TooMany → asks_too_many t.old.asks attempt new.now ≡ true }
    ensures err { OnErr result (t.new ≡ t.old) }
{
    if release.is_empty() {
        return set_asks(&mut t.asks, attempt, new);
    }
    let list = release.copy()?;
    set_and_release(&mut t.asks, &mut t.sched, attempt, new, list)
}

/// What a master was told of is acquired where it is its attempt's own; the rest is running already.
fn acquire_all(book: &mut Book, attempt: AttemptId, grants: &[Grant])
    requires { AllMayBeTold book.old.rows (own_grants attempt grants.now) }
    ensures { book.new ≡ acquired (ids_granted (own_grants attempt grants.now)) book.old }
{
    'grants: for grant in grants {
        if grant.id.attempt == attempt {
            book.tell(grant.id);
        }
    }
}

/// What a reply tells a master of is acquired where it is its attempt's own.
fn acquire_told(book: &mut Book, attempt: AttemptId, reply: &Reply)
    requires { AllMayBeTold book.old.rows (own_grants attempt (grants_in reply.now)) }
    ensures { book.new ≡ acquired (containers_told attempt reply.now) book.old }
{
    if let Reply::Allocated { grants, .. } = reply {
        acquire_all(book, attempt, grants.as_slice());
    }
}

/// A master is told what it is answered, and what it was told of is acquired.
fn tell(t: &mut Tables, attempt: AttemptId, id: u32, reply: &Reply, kept: Boxed<Reply>)
    requires id { id + 1 < 2 ^ 32 }
    requires kept { kept ≡ reply.now }
    requires told { AllMayBeTold t.old.book.rows (own_grants attempt (grants_in reply.now)) }
    ensures { t.new ≡ after_told attempt id reply.now t.old }
{
    let talk = Talk::Answer {
        attempt,
        id: id + 1,
        reply: kept,
        told: t.book.added(),
    };
    acquire_told(&mut t.book, attempt, reply);
    t.rows.talk(attempt.app, talk);
}

/// What an attempt releases while it is astray is pending. `NoMemory` changes nothing.
fn pend(t: &mut Tables, attempt: AttemptId, release: &Items<ContainerId>) -> Result<(), NoMemory>
    ensures ok { OnOk result (t.new ≡ record t.old { pending = with_containers t.old.pending (astray_released t.old attempt release.now) }) }
    ensures err { OnErr result (t.new ≡ t.old) }
{
    let astray = astray_released(t, attempt, release.as_slice())?;
    t.pending.join(astray.as_slice())
}

/// What an attempt releases while it is astray is pending, its asks are set and its release is posted, unless it would ask for too many. A
/// refusal changes nothing.
fn take_release(
    t: &mut Tables,
    attempt: AttemptId,
    new: &[Ask],
    release: &Items<ContainerId>,
) -> Result<(), AskError>
    ensures few { OnOk result (asks_too_many t.old.asks attempt new.now ≡ false) }
    ensures ok { OnOk result (t.new ≡ record t.old { asks = all_asked attempt t.old.asks new.now; sched = t.old.sched ++ release_events attempt release.now; pending = with_containers t.old.pending (astray_released t.old attempt release.now) }) }
    ensures too_many { result ≡ Err TooMany → asks_too_many t.old.asks attempt new.now ≡ true }
    ensures err { OnErr result (t.new ≡ t.old) }
{
    let pended = t.pending.len();
    pend(t, attempt, release)?;
    let taken = take_asks(t, attempt, new, release);
    if taken.is_err() {
        t.pending.truncate(pended);
    }
    taken
}

/// A new allocation, which is answered so, is taken unless its attempt would ask for too many. `NoMemory` changes nothing.
fn take(
    t: &mut Tables,
    attempt: AttemptId,
    id: u32,
    asks: &Items<Ask>,
    release: &Items<ContainerId>,
    reply: Reply,
) -> Result<Reply, NoMemory>
    requires id { id + 1 < 2 ^ 32 }
    requires told { AllMayBeTold t.old.book.rows (own_grants attempt (grants_in reply)) }
    ensures reply { IfOk result (λ told. told ≡ (if asks_too_many t.old.asks attempt asks.now then Told.Full else reply)) }
    ensures changed { IfOk result (λ told. t.new ≡ (if asks_too_many t.old.asks attempt asks.now then t.old else allocated_with attempt id asks.now release.now reply t.old)) }
    ensures err { OnErr result (t.new ≡ t.old) }
{
    let kept = reply.copy()?;
    let kept = Boxed::new(t.alloc, kept)?;
    match take_release(t, attempt, asks.as_slice(), release) {
        Ok(()) => {
            tell(t, attempt, id, &reply, kept);
            Ok(reply)
        }
        Err(AskError::TooMany) => Ok(Reply::Full),
        Err(AskError::Memory) => Err(NoMemory),
    }
}

/// An allocation is answered; where it is new and isn't refused, it is taken.
pub fn allocate(
    t: &mut Tables,
    attempt: AttemptId,
    id: u32,
    asks: &Items<Ask>,
    release: &Items<ContainerId>,
) -> Result<Reply, NoMemory>
    requires { id + 1 < 2 ^ 32 }
    ensures reply { IfOk result (λ reply. reply ≡ allocate_told t.old attempt id asks.now (living_row attempt (row_of t.old.rows attempt.app))) }
    ensures changed { IfOk result (λ reply. t.new ≡ after_master attempt (Asked.Allocate id asks.now release.now) reply t.old) }
    ensures err { OnErr result (t.new ≡ t.old) }
{
    let Some(row) = living(&t.rows, attempt) else {
        return Ok(Reply::Resync);
    };
    let Some(one) = &row.dialogue else {
        return Ok(Reply::Resync);
    };
    if one.finishing.is_some() {
        return Ok(Reply::Resync);
    }
    if id + 1 == one.last_id {
        return one.last_reply.get().copy();
    }
    if id != one.last_id {
        return Ok(Reply::WrongId);
    }
    if asks_too_much(t.settings.greatest, asks.as_slice()) {
        return Ok(Reply::TooLarge);
    }
    let reply = answer(t, attempt, id, one.told, row)?;
    take(t, attempt, id, asks, release, reply)
}

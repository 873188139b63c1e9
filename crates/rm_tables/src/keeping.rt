ghost use Rattle.std.specs.Prelude.{◌≡◌, ◌≢◌, ◌++◌, ℕ, List, ◌∷◌, [], true, IfOk, OnOk, OnErr, IsErrOf, IfSome, IfNone, Err};
ghost use Rattle.rm_tables.specs.Rows.{row_of};
ghost use Rattle.rm_types.specs.declared.ids.AttemptId.{AttemptId};
ghost use Rattle.rm_types.specs.declared.ids.ContainerId.{ContainerId};
ghost use Rattle.rm_types.specs.declared.operations.Op.{Op};
ghost use Rattle.rm_types.specs.declared.operations.Submission.{Submission};
ghost use Rattle.rm_types.specs.Records.{fits_records, recorded};
ghost use Rattle.rm_tables.specs.declared.events.MainEvent.{MainEvent as Told};
ghost use Rattle.rm_tables.specs.declared.events.SchedEvent.{SchedEvent as Removal};
ghost use Rattle.rm_tables.specs.KeptOps.{app_end_posted, removed_by, taken_up, kept};
ghost use Rattle.rm_tables.specs.Actions.{found_in};
ghost use Rattle.rm_model.specs.Facts.{keeps};

use crate::changes::{AttemptChange, RowChange};
use crate::events::{MainEvent, Refused, SchedEvent};
use crate::opening::{opening_main, opening_sched};
use crate::recorded::keeps;
use crate::tables::Tables;
use rm_states::attempt::AttemptState;
use rm_tree::{Tree, TreeError};
use rm_types::{AppId, AttemptId, Boxed, Duplicate, Entry, How, NoMemory, Op, Queue};
use std::mem;

/// The entry of the first awaiting operation, once it is kept.
fn kept_entry(t: &Tables) -> Result<Entry, NoMemory>
    requires awaits { t.now.awaiting ≢ [] }
    ensures { (op : Op) (rest : List Op) → t.now.awaiting ≡ op ∷ rest → IfOk result (λ e. e ≡ Entry.Kept op) }
{
    let Some(op) = t.awaiting.first() else {
        unreachable!()
    };
    let op = Boxed::new(t.alloc, op.copy()?)?;
    Ok(Entry::Kept { op })
}

/// An operation is recorded, which fits what is recorded.
fn record(tree: &mut Tree, op: &Op) -> Result<(), NoMemory>
    requires { fits_records tree.old op.now ≡ true }
    ensures ok { OnOk result (tree.new ≡ recorded tree.old op.now) }
    ensures err { OnErr result (tree.new ≡ tree.old) }
{
    match tree.apply(op) {
        Ok(()) => Ok(()),
        Err(TreeError::Stray) => unreachable!(),
        Err(TreeError::Memory) => Err(NoMemory),
    }
}

/// The first awaiting operation is taken up, where one awaits.
fn take_up(t: &mut Tables) -> Result<(), NoMemory>
    requires fits { (op : Op) (rest : List Op) → t.old.awaiting ≡ op ∷ rest → fits_records t.old.tree op ≡ true }
    ensures ok { (op : Op) (rest : List Op) → t.old.awaiting ≡ op ∷ rest → OnOk result (t.new ≡ taken_up op t.old) }
    ensures err { OnErr result (t.new ≡ t.old) }
{
    if let Some(op) = t.awaiting.first() {
        record(&mut t.tree, op)?;
        let _ = t.awaiting.take_first();
        t.handed = false;
    }
    Ok(())
}

/// It is taken up, and an event of the main queue is posted.
fn take_up_with(t: &mut Tables, event: MainEvent) -> Result<(), NoMemory>
    requires fits { (op : Op) (rest : List Op) → t.old.awaiting ≡ op ∷ rest → fits_records t.old.tree op ≡ true }
    ensures ok { (op : Op) (rest : List Op) → t.old.awaiting ≡ op ∷ rest → OnOk result (t.new ≡ taken_up op (record t.old { main = t.old.main ++ event ∷ [] })) }
    ensures err { OnErr result (t.new ≡ t.old) }
{
    let mut main = mem::replace(&mut t.main, Queue::new(t.alloc));
    let taken = main.push_made(
        t,
        |t: &mut Tables| -> Result<MainEvent, NoMemory>
            requires fits { (op : Op) (rest : List Op) → t.old.awaiting ≡ op ∷ rest → fits_records t.old.tree op ≡ true }
            ensures event { IfOk result (λ made. made ≡ event) }
            ensures ok { (op : Op) (rest : List Op) → t.old.awaiting ≡ op ∷ rest → OnOk result (t.new ≡ taken_up op t.old) }
            ensures err { OnErr result (t.new ≡ t.old) }
        {
            take_up(t)?;
            Ok(event)
        },
    );
    t.main = main;
    taken
}

/// It is taken up, an event of the main queue is posted, and an attempt is to be removed.
fn take_up_removing(t: &mut Tables, event: MainEvent, id: AttemptId) -> Result<(), NoMemory>
    requires fits { (op : Op) (rest : List Op) → t.old.awaiting ≡ op ∷ rest → fits_records t.old.tree op ≡ true }
    ensures ok { (op : Op) (rest : List Op) → t.old.awaiting ≡ op ∷ rest → OnOk result (t.new ≡ taken_up op (record t.old { main = t.old.main ++ event ∷ []; sched = t.old.sched ++ Removal.AttemptRemoved id ∷ [] })) }
    ensures err { OnErr result (t.new ≡ t.old) }
{
    let mut sched = mem::replace(&mut t.sched, Queue::new(t.alloc));
    let taken = sched.push_made(
        t,
        |t: &mut Tables| -> Result<SchedEvent, NoMemory>
            requires fits { (op : Op) (rest : List Op) → t.old.awaiting ≡ op ∷ rest → fits_records t.old.tree op ≡ true }
            ensures event { IfOk result (λ made. made ≡ Removal.AttemptRemoved id) }
            ensures ok { (op : Op) (rest : List Op) → t.old.awaiting ≡ op ∷ rest → OnOk result (t.new ≡ taken_up op (record t.old { main = t.old.main ++ event ∷ [] })) }
            ensures err { OnErr result (t.new ≡ t.old) }
        {
            take_up_with(t, event)?;
            Ok(SchedEvent::AttemptRemoved(id))
        },
    );
    t.sched = sched;
    taken
}

/// An App is kept: the application is saved.
fn keep_app(t: &mut Tables, id: AppId) -> Result<Entry, NoMemory>
    requires awaits { t.old.awaiting ≢ [] }
    requires fits { (op : Op) (rest : List Op) → t.old.awaiting ≡ op ∷ rest → fits_records t.old.tree op ≡ true }
    ensures ok { (s : Submission) (rest : List Op) → t.old.awaiting ≡ Op.App id s ∷ rest → IfOk result (λ e. (e ≡ Entry.Kept (Op.App id s)) × (t.new ≡ kept (Op.App id s) t.old)) }
    ensures err { OnErr result (t.new ≡ t.old) }
{
    let entry = kept_entry(t)?;
    take_up_with(t, MainEvent::AppSaved(id))?;
    t.rows.change(id, RowChange::Keep);
    Ok(entry)
}

/// The life's Epoch is kept: it opens.
fn keep_epoch(t: &mut Tables, next: u32, stamp: u64) -> Result<Entry, NoMemory>
    requires awaits { t.old.awaiting ≢ [] }
    requires fits { (op : Op) (rest : List Op) → t.old.awaiting ≡ op ∷ rest → fits_records t.old.tree op ≡ true }
    ensures ok { (rest : List Op) → t.old.awaiting ≡ Op.Epoch next stamp ∷ rest → IfOk result (λ e. (e ≡ Entry.Kept (Op.Epoch next stamp)) × (t.new ≡ kept (Op.Epoch next stamp) t.old)) }
    ensures err { OnErr result (t.new ≡ t.old) }
{
    let entry = kept_entry(t)?;
    let main = opening_main(t.alloc, &t.tree)?;
    let sched = opening_sched(t.alloc, &t.tree)?;
    take_up(t)?;
    t.is_open = true;
    t.clock = 0;
    t.main = main;
    t.sched = sched;
    Ok(entry)
}

/// An Attempt is kept: its master is to be launched.
fn keep_attempt(t: &mut Tables, id: AttemptId) -> Result<Entry, NoMemory>
    requires awaits { t.old.awaiting ≢ [] }
    requires fits { (op : Op) (rest : List Op) → t.old.awaiting ≡ op ∷ rest → fits_records t.old.tree op ≡ true }
    ensures ok { (c : ContainerId) (n : List ℕ) (rest : List Op) → t.old.awaiting ≡ Op.Attempt id c n ∷ rest → IfOk result (λ e. (e ≡ Entry.Kept (Op.Attempt id c n)) × (t.new ≡ kept (Op.Attempt id c n) t.old)) }
    ensures err { OnErr result (t.new ≡ t.old) }
{
    let entry = kept_entry(t)?;
    take_up_with(t, MainEvent::AttemptSaved(id))?;
    let change = AttemptChange::Keep;
    t.rows.change(id.app, RowChange::OfAttempt { change });
    Ok(entry)
}

/// An AttemptEnd is kept: its asks go, and its application is to be decided.
fn keep_attempt_end(t: &mut Tables, id: AttemptId, how: How) -> Result<Entry, NoMemory>
    requires awaits { t.old.awaiting ≢ [] }
    requires fits { (op : Op) (rest : List Op) → t.old.awaiting ≡ op ∷ rest → fits_records t.old.tree op ≡ true }
    ensures ok { (x : List ℕ) (rest : List Op) → t.old.awaiting ≡ Op.AttemptEnd id how x ∷ rest → IfOk result (λ e. (e ≡ Entry.Kept (Op.AttemptEnd id how x)) × (t.new ≡ kept (Op.AttemptEnd id how x) t.old)) }
    ensures err { OnErr result (t.new ≡ t.old) }
{
    let entry = kept_entry(t)?;
    take_up_removing(t, MainEvent::AttemptDone(id), id)?;
    let change = AttemptChange::KeepEnd { how };
    t.rows.change(id.app, RowChange::OfAttempt { change });
    t.asks.clear(id);
    Ok(entry)
}

/// A Remove is kept: the id is retired.
fn keep_remove(t: &mut Tables, id: AppId) -> Result<Entry, NoMemory>
    requires awaits { t.old.awaiting ≢ [] }
    requires fits { (op : Op) (rest : List Op) → t.old.awaiting ≡ op ∷ rest → fits_records t.old.tree op ≡ true }
    ensures ok { (rest : List Op) → t.old.awaiting ≡ Op.Remove id ∷ rest → IfOk result (λ e. (e ≡ Entry.Kept (Op.Remove id)) × (t.new ≡ kept (Op.Remove id) t.old)) }
    ensures err { OnErr result (t.new ≡ t.old) }
{
    let entry = kept_entry(t)?;
    take_up(t)?;
    t.rows.remove(id);
    Ok(entry)
}

/// The attempt of an application that ends, where it has containers still: it was dropped, or it has ended and left some over.
fn removed_attempt(t: &Tables, id: AppId) -> Option<AttemptId>
    ensures some { IfSome result (λ attempt. removed_by (row_of t.now.rows id) (keeps (found_in t.now id)) id ≡ Removal.AttemptRemoved attempt ∷ []) }
    ensures none { IfNone result (removed_by (row_of t.now.rows id) (keeps (found_in t.now id)) id ≡ []) }
{
    let current = t.rows.find(id)?.current?;
    if current.state == AttemptState::Dropped
        || (current.state == AttemptState::Ended && keeps(&t.tree, id))
    {
        Some(AttemptId {
            app: id,
            number: current.number,
        })
    } else {
        None
    }
}

/// It is taken up as the end of an application, which is to be retired, and whose attempt is to be removed where it has containers still.
fn take_up_retiring(t: &mut Tables, id: AppId) -> Result<(), NoMemory>
    requires fits { (op : Op) (rest : List Op) → t.old.awaiting ≡ op ∷ rest → fits_records t.old.tree op ≡ true }
    ensures ok { (op : Op) (rest : List Op) → t.old.awaiting ≡ op ∷ rest → OnOk result (t.new ≡ taken_up op (record t.old { main = t.old.main ++ Told.Retire ∷ []; sched = t.old.sched ++ removed_by (row_of t.old.rows id) (keeps (found_in t.old id)) id })) }
    ensures err { OnErr result (t.new ≡ t.old) }
{
    match removed_attempt(t, id) {
        Some(attempt) => take_up_removing(t, MainEvent::Retire, attempt),
        None => take_up_with(t, MainEvent::Retire),
    }
}

/// It is taken up as the end of an application, which joins those that have ended.
fn take_up_app_end(t: &mut Tables, id: AppId) -> Result<(), NoMemory>
    requires fits { (op : Op) (rest : List Op) → t.old.awaiting ≡ op ∷ rest → fits_records t.old.tree op ≡ true }
    ensures ok { (op : Op) (rest : List Op) → t.old.awaiting ≡ op ∷ rest → OnOk result (t.new ≡ taken_up op (app_end_posted id t.old)) }
    ensures err { OnErr result (t.new ≡ t.old) }
{
    let mut ended = mem::replace(&mut t.ended, Queue::new(t.alloc));
    let taken = ended.push_made(
        t,
        |t: &mut Tables| -> Result<AppId, NoMemory>
            requires fits { (op : Op) (rest : List Op) → t.old.awaiting ≡ op ∷ rest → fits_records t.old.tree op ≡ true }
            ensures id { IfOk result (λ made. made ≡ id) }
            ensures ok { (op : Op) (rest : List Op) → t.old.awaiting ≡ op ∷ rest → OnOk result (t.new ≡ taken_up op (record t.old { main = t.old.main ++ Told.Retire ∷ []; sched = t.old.sched ++ removed_by (row_of t.old.rows id) (keeps (found_in t.old id)) id })) }
            ensures err { OnErr result (t.new ≡ t.old) }
        {
            take_up_retiring(t, id)?;
            Ok(id)
        },
    );
    t.ended = ended;
    taken
}

/// An AppEnd is kept: the application is completed.
fn keep_app_end(t: &mut Tables, id: AppId, how: How) -> Result<Entry, NoMemory>
    requires awaits { t.old.awaiting ≢ [] }
    requires fits { (op : Op) (rest : List Op) → t.old.awaiting ≡ op ∷ rest → fits_records t.old.tree op ≡ true }
    ensures ok { (x : List ℕ) (rest : List Op) → t.old.awaiting ≡ Op.AppEnd id how x ∷ rest → IfOk result (λ e. (e ≡ Entry.Kept (Op.AppEnd id how x)) × (t.new ≡ kept (Op.AppEnd id how x) t.old)) }
    ensures err { OnErr result (t.new ≡ t.old) }
{
    let entry = kept_entry(t)?;
    take_up_app_end(t, id)?;
    t.rows.change(id, RowChange::KeepEnd { how });
    t.going = t.going.saturating_sub(1);
    Ok(entry)
}

impl Tables {
    /// The first awaiting operation is kept: it is recorded, the row of its application changes, and what follows
    /// from it is posted; its entry is answered. It must fit what is recorded. `NotReady` comes exactly where
    /// nothing awaits; a refusal leaves all as it was.
    pub fn keep(&mut self) -> Result<Entry, Refused>
        requires fits { (op : Op) (rest : List Op) → self.old.awaiting ≡ op ∷ rest → fits_records self.old.tree op ≡ true }
        ensures ok { (op : Op) (rest : List Op) → self.old.awaiting ≡ op ∷ rest → IfOk result (λ e. (e ≡ Entry.Kept op) × (self.new ≡ kept op self.old)) }
        ensures not_ready { IsErrOf result Refused.NotReady → self.old.awaiting ≡ [] }
        ensures none { self.old.awaiting ≡ [] → result ≡ Err Refused.NotReady }
        ensures err { OnErr result (self.new ≡ self.old) }
    {
        let Some(first) = self.awaiting.first() else {
            return Err(Refused::NotReady);
        };
        match first {
            Op::Epoch { next, stamp } => {
                let (next, stamp) = (*next, *stamp);
                Ok(keep_epoch(self, next, stamp)?)
            }
            Op::App { id, .. } => {
                let id = *id;
                Ok(keep_app(self, id)?)
            }
            Op::Attempt { id, .. } => {
                let id = *id;
                Ok(keep_attempt(self, id)?)
            }
            Op::AttemptEnd { id, how, .. } => {
                let (id, how) = (*id, *how);
                Ok(keep_attempt_end(self, id, how)?)
            }
            Op::AppEnd { id, how, .. } => {
                let (id, how) = (*id, *how);
                Ok(keep_app_end(self, id, how)?)
            }
            Op::Remove { id } => {
                let id = *id;
                Ok(keep_remove(self, id)?)
            }
        }
    }
}

ghost use Rattle.std.specs.Prelude.{◌≡◌, ◌<◌, ◌∷◌, [], ◌++◌, Some, None, IfOk, OnOk, OnErr, length, option_map, slice_get};
ghost use Rattle.std.specs.Option.{option_copied};
ghost use Rattle.rm_tables.specs.Rows.{slot_of, row_of, is_retired, with_row, without_row};
ghost use Rattle.rm_tables.specs.Changes.{changed};
ghost use Rattle.rm_tables.specs.Leaving.{telling};
ghost use Rattle.rm_tables.specs.Talks.{talked};

use crate::changes::RowChange;
use crate::talks::Talk;
use indexmap::IndexMap;
use rm_states::app::AppState;
use rm_states::attempt::AttemptState;
use rm_types::{
    AppId, Boxed, ClosingOf, ContainerId, Duplicate, Items, NoMemory, Reply, Submission, Text,
};
use std::alloc::Global;
use std::marker::Model;

/// The attempt of an application with the greatest number. All before it are kept and have ended.
#[derive(Clone, Copy, PartialEq, Eq)]
pub struct Current {
    pub number: u32,
    pub state: AttemptState,
    /// Its master's container, once one was granted.
    pub master: Option<ContainerId>,
    /// Its master registered in this life.
    pub registered: bool,
    /// Its master's container was lost before the attempt was saved.
    pub lost: bool,
    /// How many containers this life granted to it: the sequence of the last one.
    pub granted: u64,
    /// Its end was issued as FINISHED.
    pub finished: bool,
}

/// The dialogue with a master that registered in this life.
#[derive(Drop)]
pub struct Dialogue {
    /// The last response id that it was answered, and what it was answered then.
    pub last_id: u32,
    pub last_reply: Boxed<Reply>,
    /// How many containers had ever entered the book when it was last told of those that it has.
    pub told: u64,
    /// What it said when it finished, once it did.
    pub finishing: Option<Text>,
}

/// What a life knows of an application beside what is recorded of it.
#[derive(Drop)]
pub struct AppRow {
    pub state: AppState,
    /// A client wished to kill it in this life.
    pub wish: bool,
    /// What was submitted, until it is kept.
    pub pending: Option<Submission>,
    pub current: Option<Current>,
    /// How many of its attempts were kept when the life began.
    pub first: usize,
    /// The dialogue with the master of its current attempt.
    pub dialogue: Option<Dialogue>,
    /// The endings of its attempts' containers that masters were not told yet, each with the attempt that is to be told.
    pub closings: Items<ClosingOf>,
}

impl AppRow {
    /// What its masters are to be told, and one more ending.
    pub fn with_closing(&self, closing: ClosingOf) -> Result<Items<ClosingOf>, NoMemory>
        ensures { IfOk result (λ closings. closings ≡ self.now.closings ++ closing ∷ []) }
    {
        let mut closings = self.closings.copy()?;
        closings.push(closing)?;
        Ok(closings)
    }
}

/// The rows of the applications that a life knows, each found by its id without a walk. A removed application
/// leaves an empty slot, which tells that its id is retired. Contracts see the slots in the order of entering.
#[derive(Drop)]
pub struct Rows {
    map: IndexMap<AppId, Option<AppRow>>,
}

impl Model for Rows {
    ghost use Rattle.std.specs.Prelude.{List, Option};
    ghost use Rattle.rm_types.specs.declared.ids.AppId.{AppId};
    ghost use Rattle.rm_tables.specs.declared.rows.AppRow.{AppRow};

    ghost Value = { List (AppId × Option AppRow) };

    ghost view = { λ a. a.map.entries };
}

impl Rows {
    /// No rows. It takes no memory.
    pub fn new(alloc: Global) -> Rows
        ensures { result ≡ [] }
    {
        Rows {
            map: IndexMap::new(alloc),
        }
    }

    /// How many slots there are, those of removed applications among them.
    pub fn len(&self) -> usize
        ensures { result ≡ length self.now }
    {
        self.map.len()
    }

    /// The application whose slot stands at a place in the order of entering, which is below the length.
    pub fn id_at(&self, place: usize) -> AppId
        requires { place < length self.now }
        ensures { option_map (λ slot. slot.0) (slice_get self.now place) ≡ Some result }
    {
        let (id, _slot) = self.map.get_index(place).unwrap();
        *id
    }

    /// The row of an application. `None` comes exactly where the life doesn't know it.
    pub fn find(&self, id: AppId) -> Option<&AppRow>
        ensures { option_copied result ≡ row_of self.now id }
    {
        match self.map.get(&id) {
            Some(slot) => row_in(slot),
            None => None,
        }
    }

    /// Whether an application was removed in this life.
    pub fn is_retired(&self, id: AppId) -> bool
        ensures { result ≡ is_retired self.now id }
    {
        match self.map.get(&id) {
            Some(slot) => slot.is_none(),
            None => false,
        }
    }

    /// Adds the row of an application that has no slot; into the slot of one that has, the row is put. `NoMemory` leaves the rows
    /// as they were; the row is then dropped.
    pub fn add(&mut self, id: AppId, row: AppRow) -> Result<(), NoMemory>
        ensures ok { slot_of self.old id ≡ None → OnOk result (self.new ≡ self.old ++ (id, Some row) ∷ []) }
        ensures err { OnErr result (self.new ≡ self.old) }
    {
        self.map.insert(id, Some(row))?;
        Ok(())
    }

    /// Something happens to an application, where the life knows it. It takes no memory.
    pub fn change(&mut self, id: AppId, change: RowChange)
        ensures { self.new ≡ with_row (changed change) id self.old }
    {
        if let Some(slot) = self.map.get_mut(&id) {
            change_slot(slot, change);
        }
    }

    /// What masters of an application's attempts are to be told is this, where the life knows the application. It takes no memory.
    pub fn set_closings(&mut self, id: AppId, closings: Items<ClosingOf>)
        ensures { self.new ≡ with_row (telling closings) id self.old }
    {
        if let Some(slot) = self.map.get_mut(&id) {
            set_slot(slot, closings);
        }
    }

    /// Something is said between the manager and the master of an application's current attempt, where the life knows the
    /// application. It takes no memory.
    pub fn talk(&mut self, id: AppId, talk: Talk)
        ensures { self.new ≡ with_row (talked talk) id self.old }
    {
        if let Some(slot) = self.map.get_mut(&id) {
            talk_slot(slot, talk);
        }
    }

    /// Removes an application, whose id is retired from then on.
    pub fn remove(&mut self, id: AppId)
        ensures { self.new ≡ without_row id self.old }
    {
        if let Some(slot) = self.map.get_mut(&id) {
            *slot = None;
        }
    }
}

fn change_slot(slot: &mut Option<AppRow>, change: RowChange)
    ensures { slot.new ≡ option_map (changed change) slot.old }
{
    if let Some(row) = slot {
        row.change(change);
    }
}

fn talk_slot(slot: &mut Option<AppRow>, talk: Talk)
    ensures { slot.new ≡ option_map (talked talk) slot.old }
{
    if let Some(row) = slot {
        row.talk(talk);
    }
}

fn set_slot(slot: &mut Option<AppRow>, closings: Items<ClosingOf>)
    ensures { slot.new ≡ option_map (telling closings) slot.old }
{
    if let Some(row) = slot {
        row.closings = closings;
    }
}

fn row_in(slot: &Option<AppRow>) -> Option<&AppRow>
    ensures { option_copied result ≡ slot.now }
{
    match slot {
        Some(row) => Some(row),
        None => None,
    }
}

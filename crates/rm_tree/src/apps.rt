ghost use Rattle.std.specs.Prelude.{◌≡◌, ◌+◌, List, [], ◌∷◌, ◌++◌, length, filter, map, not, slice_get, None, true, OnOk, OnErr, IfOk, IfSome, IsTrue};
ghost use Rattle.std.specs.List.{list_any};
ghost use Rattle.std.specs.Option.{option_copied};
ghost use Rattle.rm_types.specs.Ids.{is_app};
ghost use Rattle.rm_types.specs.Records.{record_of, with_record, is_some_and};
ghost use Rattle.rm_tree.specs.Changes.{with_attempt, with_ended, with_ending, is_next, is_unended_last};
ghost use Rattle.rm_tree.specs.Numbers.{AreAttemptsFrom, AreApart, AreNumbered};

use crate::attempts::end_last_attempt;
use rm_keyed::Keyed;
use rm_types::{AppId, AppRecord, AttemptId, AttemptRecord, How, Items, NoMemory, Text};
use std::alloc::Global;
use std::marker::Model;

/// The records of applications in kept order, each found by its id, and taken away, without a walk.
#[derive(Drop)]
pub struct Apps {
    records: Keyed<AppId, AppRecord>,
}

impl Model for Apps {
    ghost use Rattle.std.specs.Prelude.{List};
    ghost use Rattle.std.specs.Map.{values_of};
    ghost use Rattle.rm_types.specs.declared.records.AppRecord.{AppRecord};
    ghost use Rattle.rm_tree.specs.Entries.{AreOwn};

    ghost Value = { List AppRecord };

    ghost view = { λ a. values_of a.records };

    ghost invariant = { λ a. AreOwn a.records };
}

impl Apps {
    /// No record. It takes no memory.
    pub fn new(alloc: Global) -> Apps
        ensures { result ≡ [] }
    {
        Apps {
            records: Keyed::new(alloc),
        }
    }

    /// A copy, which equals its source. `NoMemory` where no memory was found for it.
    pub fn copy(&self, alloc: Global) -> Result<Apps, NoMemory>
        ensures { IfOk result (λ copy. copy ≡ self.now) }
    {
        Ok(Apps {
            records: self.records.copy(alloc)?,
        })
    }

    /// How many records there are. No two are of one application, and the attempts of each are numbered
    /// from 1.
    pub fn len(&self) -> usize
        ensures length { result ≡ length self.now }
        ensures apart { AreApart self.now }
        ensures numbered { AreNumbered self.now }
    {
        self.records.len()
    }

    /// The record of an application, if there is one. Its attempts are numbered from 1.
    pub fn find(&self, id: AppId) -> Option<&AppRecord>
        ensures record { option_copied result ≡ record_of self.now id }
        ensures numbered { IfSome (option_copied result) (λ app. AreAttemptsFrom app.id 0 app.attempts) }
    {
        self.records.get(&id)
    }

    /// The record at a place, if it is below the length. Where there are gaps it is found by a walk.
    pub fn get(&self, place: usize) -> Option<&AppRecord>
        ensures { option_copied result ≡ slice_get self.now place }
    {
        self.records.nth(place)
    }

    /// Those of these applications that have a record, each once, in kept order.
    pub fn in_kept_order(&self, ids: &[AppId]) -> Result<Items<AppId>, NoMemory>
        ensures { IfOk result (λ kept. kept ≡ filter (λ id. list_any (λ one. is_app one id) ids.now) (map (λ app. app.id) self.now)) }
    {
        self.records.in_order(ids)
    }

    /// Adds a record of an application that has none, as the last, before its first attempt. `NoMemory` leaves
    /// the records as they were.
    pub fn add(&mut self, app: AppRecord) -> Result<(), NoMemory>
        requires none { record_of self.old app.id ≡ None }
        requires first { app.attempts ≡ [] }
        ensures ok { OnOk result (self.new ≡ self.old ++ app ∷ []) }
        ensures err { OnErr result (self.new ≡ self.old) }
    {
        self.records.insert(app.id, app)
    }

    /// Adds the next attempt of an application. `NoMemory` leaves the records as they were.
    pub fn add_attempt(&mut self, attempt: AttemptRecord) -> Result<(), NoMemory>
        requires { IsTrue (is_some_and (is_next attempt.id.number) (record_of self.old attempt.id.app)) }
        ensures ok { OnOk result (self.new ≡ with_record (with_attempt attempt) attempt.id.app self.old) }
        ensures err { OnErr result (self.new ≡ self.old) }
    {
        let id = attempt.id.app;
        let pushed = self.records.update(
            &id,
            |app: &mut AppRecord| -> Result<(), NoMemory>
                ensures { OnOk result (app.new ≡ with_attempt attempt app.old) × OnErr result (app.new ≡ app.old) }
            { app.attempts.push(attempt) },
        );
        pushed.unwrap_or(Ok(()))
    }

    /// Says how an application's last attempt ended, which goes on. `NoMemory` leaves the records as they
    /// were.
    pub fn end_attempt(&mut self, id: AttemptId, how: How, text: &Text) -> Result<(), NoMemory>
        requires { IsTrue (is_some_and (is_unended_last id) (record_of self.old id.app)) }
        ensures ok { OnOk result (self.new ≡ with_record (with_ended id how text.now) id.app self.old) }
        ensures err { OnErr result (self.new ≡ self.old) }
    {
        let ended = self.records.update(
            &id.app,
            |app: &mut AppRecord| -> Result<(), NoMemory>
                ensures { OnOk result (AreAttemptsFrom app.old.id 0 app.old.attempts → IsTrue (is_unended_last id app.old) → app.new ≡ with_ended id how text.entry.now app.old) × OnErr result (app.new ≡ app.old) }
            { end_last_attempt(app, id, how, text) },
        );
        ended.unwrap_or(Ok(()))
    }

    /// Says how an application ended, by which of the operations.
    pub fn set_ending(&mut self, id: AppId, how: How, text: Text, order: u64)
        ensures { self.new ≡ with_record (with_ending how text order) id self.old }
    {
        self.records.update(
            &id,
            |app: &mut AppRecord| -> ()
                ensures { app.new ≡ with_ending how text order app.old }
            {
                app.ending = Some((how, text));
                app.end_order = order;
            },
        );
    }

    /// Takes the record of an application away.
    pub fn remove(&mut self, id: AppId)
        ensures { self.new ≡ filter (λ app. not (is_app app.id id)) self.old }
    {
        self.records.remove(&id);
    }

    /// Closes the gaps, so that the record at a place is found without a walk. It does nothing where there is none.
    pub fn close_gaps(&mut self)
        ensures { self.new ≡ self.old }
    {
        self.records.close_gaps();
    }
}

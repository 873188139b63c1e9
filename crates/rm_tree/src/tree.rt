ghost use Rattle.std.specs.Prelude.{◌≡◌, ◌<◌, filter, length, map, slice_get, Some, Err, true, false, OnOk, OnErr, IfOk, IfErr, IfSome};
ghost use Rattle.std.specs.List.{list_any};
ghost use Rattle.std.specs.Option.{option_copied};
ghost use Rattle.rm_tree.specs.declared.tree.TreeError.TheVariants.{Memory, Stray};
ghost use Rattle.rm_tree.specs.Numbers.{AreAttemptsFrom, AreApart, AreNumbered};
ghost use Rattle.rm_tree.specs.Shows.{shows};
ghost use Rattle.rm_types.specs.Ids.{is_app};
ghost use Rattle.rm_types.specs.Records.{Records as AnyRecords, recorded, record_of, fits_records, no_records};

use crate::apps::Apps;
use crate::attempts::{has_stopped, is_end_recorded, is_next_attempt, is_unended_last};
use rm_types::{AppId, AppRecord, Items, NoMemory, Op};
use std::alloc::Global;
use std::marker::Model;
use thiserror::Error;

/// Why an operation wasn't applied.
#[derive(Clone, Copy, Debug, PartialEq, Eq, Error)]
pub enum TreeError {
    /// The operation doesn't fit the records.
    #[error("the operation doesn't fit the records")]
    Stray,
    /// No memory was found, or 2^64 - 1 operations were applied before.
    #[error("out of memory, or of numbers to count operations by")]
    Memory,
}

impl From<NoMemory> for TreeError {
    ghost from_gives = { λ _ error. error ≡ Memory };

    fn from(_refused: NoMemory) -> TreeError {
        TreeError::Memory
    }
}

/// What the operations applied so far amount to. Contracts see the records of their list.
#[derive(Drop)]
pub struct Tree {
    alloc: Global,
    next_epoch: u32,
    stamp: u64,
    applied: u64,
    apps: Apps,
}

impl Model for Tree {
    ghost use Rattle.rm_types.specs.Ids.{is_app};
    ghost use Rattle.rm_types.specs.Records.{Records};

    ghost Value = { Records };

    ghost view = { λ a. record { next_epoch = a.next_epoch; stamp = a.stamp; apps = a.apps; applied = a.applied } };
}

impl Tree {
    /// The tree of no operation. It takes no memory.
    pub fn new(alloc: Global) -> Tree
        ensures { result ≡ no_records }
    {
        Tree {
            alloc,
            next_epoch: 0,
            stamp: 0,
            applied: 0,
            apps: Apps::new(alloc),
        }
    }

    /// A copy, which equals its source. `NoMemory` where no memory was found for it.
    pub fn copy(&self) -> Result<Tree, NoMemory>
        ensures { IfOk result (λ copy. copy ≡ self.now) }
    {
        Ok(Tree {
            alloc: self.alloc,
            next_epoch: self.next_epoch,
            stamp: self.stamp,
            applied: self.applied,
            apps: self.apps.copy(self.alloc)?,
        })
    }

    /// The epoch that the next life has: 0 before the first `Epoch`.
    pub fn next_epoch(&self) -> u32
        ensures { result ≡ self.now.next_epoch }
    {
        self.next_epoch
    }

    /// The stamp of the last life: 0 before the first `Epoch`.
    pub fn stamp(&self) -> u64
        ensures { result ≡ self.now.stamp }
    {
        self.stamp
    }

    /// How many operations were applied.
    pub fn applied(&self) -> u64
        ensures { result ≡ self.now.applied }
    {
        self.applied
    }

    /// How many applications are kept. In each tree no two records are of one application, and the attempts of
    /// each are numbered from 1.
    pub fn len(&self) -> usize
        ensures length { result ≡ length self.now.apps }
        ensures apart { AreApart self.now.apps }
        ensures numbered { AreNumbered self.now.apps }
    {
        self.apps.len()
    }

    /// The record of the application at a place in kept order, which is below the length.
    pub fn at(&self, place: usize) -> &AppRecord
        requires { place < length self.now.apps }
        ensures { slice_get self.now.apps place ≡ Some result.now }
    {
        self.apps.get(place).unwrap()
    }

    /// The record of an application, found without a walk; its attempts are numbered from 1. `None` comes exactly
    /// where the application isn't kept.
    pub fn find(&self, id: AppId) -> Option<&AppRecord>
        ensures record { option_copied result ≡ record_of self.now.apps id }
        ensures numbered { IfSome (option_copied result) (λ app. AreAttemptsFrom app.id 0 app.attempts) }
    {
        self.apps.find(id)
    }

    /// Those of these applications that have a record, each once, in kept order. What it costs grows with the number of those that are
    /// given, and not with the number of records and of gaps.
    pub fn in_kept_order(&self, ids: &[AppId]) -> Result<Items<AppId>, NoMemory>
        ensures { IfOk result (λ kept. kept ≡ filter (λ id. list_any (λ one. is_app one id) ids.now) (map (λ app. app.id) self.now.apps)) }
    {
        self.apps.in_kept_order(ids)
    }

    /// Closes the gaps that removals left. Nothing that is seen changes; until the next removal the record at a
    /// place is then found without a walk.
    pub fn close_gaps(&mut self)
        ensures { self.new ≡ self.old }
    {
        self.apps.close_gaps();
    }

    /// Applies one more operation. It is `Stray` exactly where it doesn't fit the records; any refusal leaves
    /// the tree as it was.
    pub fn apply(&mut self, op: &Op) -> Result<(), TreeError>
        ensures stray { fits_records self.old op.now ≡ false → result ≡ Err Stray }
        ensures only_stray { IfErr result (λ error. error ≡ Stray → fits_records self.old op.now ≡ false) }
        ensures ok { OnOk result (self.new ≡ recorded self.old op.now) }
        ensures err { OnErr result (self.new ≡ self.old) }
    {
        if !self.fits(op) {
            return Err(TreeError::Stray);
        }
        let Some(applied) = self.applied.checked_add(1) else {
            return Err(TreeError::Memory);
        };
        self.apps.record(self.alloc, op, self.applied)?;
        if let Op::Epoch { next, stamp } = op {
            self.next_epoch = *next;
            self.stamp = *stamp;
        }
        self.applied = applied;
        Ok(())
    }

    /// Whether an operation is among those that were applied, as far as the records tell: one that isn't stray shows
    /// in the tree after it, and not in the tree before. The end of an attempt shows exactly where the attempt is recorded with an end.
    pub fn shows(&self, op: &Op) -> bool
        ensures shows { result ≡ shows self.now op.now }
        ensures before { fits_records self.now op.now ≡ true → result ≡ false }
        ensures after { (r : AnyRecords) → fits_records r op.now ≡ true → self.now ≡ recorded r op.now → result ≡ true }
    {
        self.tells(op)
    }

    /// Whether the records tell of an operation.
    fn tells(&self, op: &Op) -> bool
        ensures { result ≡ shows self.now op.now }
    {
        match op {
            Op::Epoch { next, .. } => self.next_epoch >= *next,
            Op::App { id, .. } => self.apps.find(*id).is_some(),
            Op::Attempt { id, .. } => match self.apps.find(id.app) {
                Some(app) => app.attempts.len() >= id.number as usize,
                None => false,
            },
            Op::AttemptEnd { id, .. } => match self.apps.find(id.app) {
                Some(app) => is_end_recorded(app, *id),
                None => false,
            },
            Op::AppEnd { id, .. } => match self.apps.find(*id) {
                Some(AppRecord { ending, .. }) => ending.is_some(),
                None => false,
            },
            Op::Remove { id } => self.apps.find(*id).is_none(),
        }
    }

    /// Whether an operation fits the records.
    fn fits(&self, op: &Op) -> bool
        ensures { result ≡ fits_records self.now op.now }
    {
        match op {
            Op::Epoch { next, stamp } => self.next_epoch < *next && self.stamp < *stamp,
            Op::App { id, .. } => self.apps.find(*id).is_none(),
            Op::Attempt { id, .. } => match self.apps.find(id.app) {
                Some(app) => is_next_attempt(app, id.number),
                None => false,
            },
            Op::AttemptEnd { id, .. } => match self.apps.find(id.app) {
                Some(app) => is_unended_last(app, *id),
                None => false,
            },
            Op::AppEnd { id, .. } => match self.apps.find(*id) {
                Some(app) => has_stopped(app),
                None => false,
            },
            Op::Remove { id } => match self.apps.find(*id) {
                Some(app) => app.ending.is_some(),
                None => false,
            },
        }
    }
}

//! What is recorded of attempts, and of which containers are masters', wanted and stale.
ghost use Rattle.std.specs.Prelude.{◌≡◌};
ghost use Rattle.std.specs.Option.{option_copied};
ghost use Rattle.rm_model.specs.Attempts.{unended};
ghost use Rattle.rm_model.specs.Facts.{keeps};
ghost use Rattle.rm_types.specs.Records.{record_of};
ghost use Rattle.rm_tables.specs.Leaving.{attempt_in, heir_by, heir_in, is_masters_in, is_own_or_unkept, is_stale_in, is_stale_of, is_wanted_in, is_wanted_of, leaves_over, stale_by, wanted_by};

use crate::opening::last_attempt;
use rm_tree::Tree;
use rm_types::{AppId, AppRecord, AttemptId, AttemptRecord, ContainerId};

/// The record of an attempt, if its application has one.
pub fn attempt_in(app: &AppRecord, id: AttemptId) -> Option<&AttemptRecord>
    ensures { option_copied result ≡ attempt_in app.now id }
{
    app.attempts.as_slice().iter().find(|one| one.id == id)
}

/// Whether the record of a container's attempt names it, or there is none.
fn is_own_or_unkept(app: &AppRecord, id: ContainerId) -> bool
    ensures { result ≡ is_own_or_unkept id (attempt_in app.now id.attempt) }
{
    match attempt_in(app, id.attempt) {
        Some(one) => one.master == id,
        None => true,
    }
}

/// Whether a container is a master's: its application is known, and its attempt's record, if there is one, names it.
pub fn is_masters(tree: &Tree, id: ContainerId) -> bool
    ensures { result ≡ is_masters_in tree.now.apps id }
{
    match tree.find(id.attempt.app) {
        Some(app) => is_own_or_unkept(app, id),
        None => false,
    }
}

/// Whether an application keeps the containers of an attempt that ended, for the next one.
pub fn keeps(tree: &Tree, id: AppId) -> bool
    ensures { result ≡ keeps (record_of tree.now.apps id) }
{
    match tree.find(id) {
        Some(app) => app.submission.keep,
        None => false,
    }
}

/// Whether an attempt that ended leaves the container to the next one.
fn leaves_over(keep: bool, one: &AttemptRecord, id: ContainerId) -> bool
    ensures { result ≡ leaves_over keep id one.now }
{
    keep && one.master != id
}

/// Whether a container is wanted, where its application goes on.
fn is_wanted_of(app: &AppRecord, id: ContainerId) -> bool
    ensures { result ≡ is_wanted_of app.now.submission.keep id (attempt_in app.now id.attempt) }
{
    match attempt_in(app, id.attempt) {
        Some(one) => one.ending.is_none() || leaves_over(app.submission.keep, one, id),
        None => false,
    }
}

/// Whether a container is wanted: its application goes on, and its attempt has no end or leaves it to the next one.
pub fn is_wanted(tree: &Tree, id: ContainerId) -> bool
    ensures { result ≡ is_wanted_in tree.now.apps id }
{
    match tree.find(id.attempt.app) {
        Some(app) => app.ending.is_none() && is_wanted_of(app, id),
        None => false,
    }
}

/// Whether a container is stale, though its application goes on.
fn is_stale_of(app: &AppRecord, id: ContainerId) -> bool
    ensures { result ≡ is_stale_of app.now.submission.keep id (attempt_in app.now id.attempt) }
{
    match attempt_in(app, id.attempt) {
        Some(one) => one.ending.is_some() && !leaves_over(app.submission.keep, one, id),
        None => false,
    }
}

/// Whether a container is stale: its application doesn't go on, or its attempt has ended and doesn't leave it to the next one.
pub fn is_stale(tree: &Tree, id: ContainerId) -> bool
    ensures { result ≡ is_stale_in tree.now.apps id }
{
    match tree.find(id.attempt.app) {
        Some(app) => app.ending.is_some() || is_stale_of(app, id),
        None => true,
    }
}

/// An attempt that has no end.
fn unended(one: &AttemptRecord) -> Option<AttemptId>
    ensures { result ≡ unended one.now }
{
    if one.ending.is_none() {
        Some(one.id)
    } else {
        None
    }
}

/// The heir of an application: its last attempt, where that has no end.
pub fn heir(tree: &Tree, id: AppId) -> Option<AttemptId>
    ensures { result ≡ heir_in tree.now.apps id }
{
    match tree.find(id) {
        Some(app) => match last_attempt(app) {
            Some(last) => unended(last),
            None => None,
        },
        None => None,
    }
}

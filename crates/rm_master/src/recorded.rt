//! What is recorded of the ends of attempts.
ghost use Rattle.std.specs.Prelude.{◌≡◌};
ghost use Rattle.rm_master.specs.Told.{finished_in, has_ended_with, is_finished_end};
ghost use Rattle.rm_types.specs.Records.{record_of};

use rm_tables::{attempt_in, last_attempt};
use rm_tree::Tree;
use rm_types::{AttemptId, AttemptRecord, How};

/// Whether an attempt has a kept end, FINISHED.
fn has_finished(one: &AttemptRecord) -> bool
    ensures { result ≡ is_finished_end one.now.ending }
{
    match &one.ending {
        Some((how, _)) => *how == How::Finished,
        None => false,
    }
}

/// Whether an attempt is recorded with a kept end, FINISHED.
pub fn finished(tree: &Tree, id: AttemptId) -> bool
    ensures { result ≡ finished_in id (record_of tree.now.apps id.app) }
{
    let Some(app) = tree.find(id.app) else {
        return false;
    };
    match attempt_in(app, id) {
        Some(one) => has_finished(one),
        None => false,
    }
}

/// Whether an attempt's application has ended, with this attempt as its last.
pub fn has_ended_with(tree: &Tree, id: AttemptId) -> bool
    ensures { result ≡ has_ended_with id (record_of tree.now.apps id.app) }
{
    let Some(app) = tree.find(id.app) else {
        return false;
    };
    if app.ending.is_none() {
        return false;
    }
    match last_attempt(app) {
        Some(last) => last.id == id,
        None => false,
    }
}

ghost use Rattle.std.specs.Prelude.{◌≡◌, ◌↔◌, IfOk, IsTrue, map};
ghost use Rattle.rm_types.specs.Alike.{IsAlike, without_end_order};

use crate::ends::end_together;
use rm_tree::Tree;
use rm_types::{AppRecord, AttemptRecord, How, NoMemory, Submission, Text};
use std::alloc::Global;

fn is_same_submission(one: &Submission, other: &Submission) -> bool
    ensures { IsTrue result ↔ (one.now ≡ other.now) }
{
    one.user.is_same(&other.user)
        && one.queue.is_same(&other.queue)
        && one.name.is_same(&other.name)
        && one.master == other.master
        && one.attempts == other.attempts
        && one.keep == other.keep
        && one.modify.is_same(&other.modify)
}

fn is_same_ending(one: &Option<(How, Text)>, other: &Option<(How, Text)>) -> bool
    ensures { IsTrue result ↔ (one.now ≡ other.now) }
{
    match (one, other) {
        (Some((how, text)), Some((also, words))) => how == also && text.is_same(words),
        (None, None) => true,
        _ => false,
    }
}

fn is_same_attempt(one: &AttemptRecord, other: &AttemptRecord) -> bool
    ensures { IsTrue result ↔ (one.now ≡ other.now) }
{
    one.id == other.id
        && one.master == other.master
        && one.node.is_same(&other.node)
        && is_same_ending(&one.ending, &other.ending)
}

fn are_same_attempts(some: &[AttemptRecord], others: &[AttemptRecord]) -> bool
    ensures { IsTrue result ↔ (some.now ≡ others.now) }
{
    if some.len() != others.len() {
        return false;
    }
    'attempts: for place in 0..some.len() {
        if !is_same_attempt(&some[place], &others[place]) {
            return false;
        }
    }
    true
}

/// Whether two records are the same but for the numbers of their ends.
fn is_like_app(one: &AppRecord, other: &AppRecord) -> bool
    ensures { IsTrue result ↔ (without_end_order one.now ≡ without_end_order other.now) }
{
    one.id == other.id
        && is_same_submission(&one.submission, &other.submission)
        && are_same_attempts(one.attempts.as_slice(), other.attempts.as_slice())
        && is_same_ending(&one.ending, &other.ending)
}

fn are_like_apps(tree: &Tree, other: &Tree) -> bool
    ensures { IsTrue result ↔ (map without_end_order tree.now.apps ≡ map without_end_order other.now.apps) }
{
    if tree.len() != other.len() {
        return false;
    }
    'records: for place in 0..tree.len() {
        if !is_like_app(tree.at(place), other.at(place)) {
            return false;
        }
    }
    true
}

/// Whether two trees record the same but for the numbers of ends, which stand in the same order. `NoMemory` where no memory was
/// found to compare that order.
pub fn are_alike(alloc: Global, tree: &Tree, other: &Tree) -> Result<bool, NoMemory>
    ensures { IfOk result (λ alike. IsTrue alike ↔ IsAlike tree.now other.now) }
{
    if tree.next_epoch() != other.next_epoch() || tree.stamp() != other.stamp() {
        return Ok(false);
    }
    if !are_like_apps(tree, other) {
        return Ok(false);
    }
    end_together(alloc, tree, other)
}

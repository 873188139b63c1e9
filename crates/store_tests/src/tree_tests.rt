//! What no clause says: that calls succeed, and what a job's operations amount to, by hand.
use crate::helpers::{wants, wants_words};
use rm_store::compaction::fold;
use rm_tree::{Tree, TreeError};
use rm_types::{
    AppId, AppRecord, AttemptId, ContainerId, How, Items, Op, Resource, Submission, Text, TextKind,
};
use std::alloc::{AllocError, Global};
use std::process::Abort;

const JOB: AppId = AppId {
    stamp: 7,
    number: 1,
};

const OTHER: AppId = AppId {
    stamp: 7,
    number: 2,
};

const NOBODY: AppId = AppId {
    stamp: 6,
    number: 1,
};

/// An operation, but for its application and its texts.
#[derive(Clone, Copy, Drop)]
enum Step {
    Life(u32, u64),
    Submit,
    Start(u32),
    Stop(u32, How),
    End,
    Remove,
}

fn text<R: Abort>(rt: &R, alloc: Global, words: &str) -> Text {
    Text::read(alloc, words.as_bytes(), TextKind::Note).expect(rt, "a text")
}

fn submission<R: Abort>(rt: &R, alloc: Global) -> Submission {
    let user = text(rt, alloc, "alice");
    let queue = text(rt, alloc, "root.default");
    let name = text(rt, alloc, "job");
    Submission {
        user,
        queue,
        name,
        master: Resource {
            memory_mb: 1024,
            vcores: 1,
        },
        ..Submission::empty()
    }
}

fn started<R: Abort>(rt: &R, alloc: Global, id: AttemptId) -> Op {
    let master = ContainerId {
        attempt: id,
        epoch: 0,
        seq: 1,
    };
    let node = text(rt, alloc, "n1");
    Op::Attempt { id, master, node }
}

/// The operation of a step of an application.
fn op_of<R: Abort>(rt: &R, alloc: Global, app: AppId, step: Step) -> Op {
    match step {
        Step::Life(next, stamp) => Op::Epoch { next, stamp },
        Step::Submit => Op::App {
            id: app,
            submission: submission(rt, alloc),
        },
        Step::Start(number) => started(rt, alloc, AttemptId { app, number }),
        Step::Stop(number, how) => Op::AttemptEnd {
            id: AttemptId { app, number },
            how,
            text: text(rt, alloc, "stopped"),
        },
        Step::End => Op::AppEnd {
            id: app,
            how: How::Finished,
            text: text(rt, alloc, "done"),
        },
        Step::Remove => Op::Remove { id: app },
    }
}

/// What came of a step of an application.
fn apply<R: Abort>(rt: &R, alloc: Global, tree: &mut Tree, app: AppId, step: Step) -> &'static str {
    match tree.apply(&op_of(rt, alloc, app, step)) {
        Ok(()) => "applied",
        Err(TreeError::Stray) => "stray",
        Err(TreeError::Memory) => "no memory",
    }
}

/// Each of these steps is applied.
fn are_applied<R: Abort>(rt: &R, alloc: Global, tree: &mut Tree, steps: &[(AppId, Step)]) {
    for (app, step) in steps {
        wants_words(rt, apply(rt, alloc, tree, *app, *step), "applied");
    }
}

/// Each of these steps is stray.
fn are_stray<R: Abort>(rt: &R, alloc: Global, tree: &mut Tree, steps: &[(AppId, Step)]) {
    for (app, step) in steps {
        wants_words(rt, apply(rt, alloc, tree, *app, *step), "stray");
    }
}

fn how_told(ending: &Option<(How, Text)>) -> &'static str {
    match ending {
        None => " goes on",
        Some((How::Finished, _)) => " finished",
        Some((How::Failed, _)) => " failed",
        Some((How::Killed, _)) => " killed",
    }
}

/// An application's number, how each of its attempts ended, and how it ended itself.
fn show(app: &AppRecord, line: &mut String) -> Result<(), AllocError> {
    write!(line, "{}:", app.id.number)?;
    for attempt in app.attempts.as_slice() {
        line.push_str(how_told(&attempt.ending))?;
    }
    write!(line, " -{};", how_told(&app.ending))
}

/// The applications in kept order are these.
fn are_kept<R: Abort>(rt: &R, alloc: Global, tree: &Tree, wanted: &str) {
    let mut found = String::new(alloc);
    for place in 0..tree.len() {
        show(tree.at(place), &mut found).expect(rt, "memory");
    }
    wants_words(rt, found.as_str(), wanted);
}

/// A job's steps, and what is kept after each.
const LIFE: [(Step, &str); 8] = [
    (Step::Submit, "1: - goes on;"),
    (Step::Start(1), "1: goes on - goes on;"),
    (Step::Stop(1, How::Failed), "1: failed - goes on;"),
    (Step::Start(2), "1: failed goes on - goes on;"),
    (
        Step::Stop(2, How::Finished),
        "1: failed finished - goes on;",
    ),
    (Step::End, "1: failed finished - finished;"),
    (Step::Remove, ""),
    (Step::Submit, "1: - goes on;"),
];

/// A copy of the tree keeps these applications.
fn copy_keeps<R: Abort>(rt: &R, alloc: Global, tree: &Tree, wanted: &str) {
    let copy = tree.copy().expect(rt, "memory");
    are_kept(rt, alloc, &copy, wanted);
}

fn see_life<R: Abort>(rt: &R, alloc: Global, tree: &mut Tree) {
    for (step, wanted) in LIFE.as_slice() {
        are_applied(rt, alloc, tree, &[(JOB, *step)]);
        are_kept(rt, alloc, tree, wanted);
        copy_keeps(rt, alloc, tree, wanted);
    }
}

#[test]
fn a_job_is_kept_from_its_submission_to_its_removal(rt: HostRuntime) {
    let mut tree = Tree::new(rt.alloc());
    see_life(&rt, rt.alloc(), &mut tree);
}

const JOBS: [(AppId, Step); 4] = [
    (NOBODY, Step::Life(1, 7)),
    (JOB, Step::Submit),
    (OTHER, Step::Submit),
    (JOB, Step::Start(1)),
];

/// Steps that don't fit once the jobs are there.
const STRAY: [(AppId, Step); 14] = [
    (NOBODY, Step::Life(1, 8)),
    (NOBODY, Step::Life(2, 7)),
    (JOB, Step::Submit),
    (NOBODY, Step::Start(1)),
    (JOB, Step::Start(2)),
    (OTHER, Step::Start(2)),
    (OTHER, Step::Start(0)),
    (NOBODY, Step::Stop(1, How::Failed)),
    (JOB, Step::Stop(2, How::Failed)),
    (OTHER, Step::Stop(1, How::Failed)),
    (NOBODY, Step::End),
    (JOB, Step::End),
    (NOBODY, Step::Remove),
    (OTHER, Step::Remove),
];

#[test]
fn an_operation_that_does_not_fit_is_stray(rt: HostRuntime) {
    let alloc = rt.alloc();
    let mut tree = Tree::new(alloc);
    are_applied(&rt, alloc, &mut tree, JOBS.as_slice());
    are_stray(&rt, alloc, &mut tree, STRAY.as_slice());
    wants(&rt, tree.applied() == 4);
}

/// A job's steps up to its end.
const ENDED: [(AppId, Step); 4] = [
    (JOB, Step::Submit),
    (JOB, Step::Start(1)),
    (JOB, Step::Stop(1, How::Failed)),
    (JOB, Step::End),
];

/// Steps that fit neither behind the end nor behind the removal.
const BEHIND: [(AppId, Step); 3] = [
    (JOB, Step::Start(2)),
    (JOB, Step::Stop(1, How::Failed)),
    (JOB, Step::End),
];

#[test]
fn behind_an_end_only_a_removal_fits(rt: HostRuntime) {
    let alloc = rt.alloc();
    let mut tree = Tree::new(alloc);
    are_applied(&rt, alloc, &mut tree, ENDED.as_slice());
    are_stray(&rt, alloc, &mut tree, &[(JOB, Step::Submit)]);
    are_stray(&rt, alloc, &mut tree, BEHIND.as_slice());
    are_applied(&rt, alloc, &mut tree, &[(JOB, Step::Remove)]);
    are_stray(&rt, alloc, &mut tree, BEHIND.as_slice());
}

/// A job's steps up to the end of its first attempt.
const STOPPED: [(AppId, Step); 3] = [
    (JOB, Step::Submit),
    (JOB, Step::Start(1)),
    (JOB, Step::Stop(1, How::Finished)),
];

#[test]
fn an_attempt_ends_once(rt: HostRuntime) {
    let alloc = rt.alloc();
    let mut tree = Tree::new(alloc);
    are_applied(&rt, alloc, &mut tree, STOPPED.as_slice());
    are_stray(
        &rt,
        alloc,
        &mut tree,
        &[(JOB, Step::Stop(1, How::Finished))],
    );
}

/// Of these applications those with these numbers are kept, in this order.
fn kept_of<R: Abort>(rt: &R, alloc: Global, tree: &Tree, ids: &[AppId], wanted: &str) {
    let mut found = String::new(alloc);
    for id in tree.in_kept_order(ids).expect(rt, "memory").as_slice() {
        write!(found, "{} ", id.number).expect(rt, "memory");
    }
    wants_words(rt, found.as_str(), wanted);
}

/// Three jobs, of which the second ends.
const THREE: [(AppId, Step); 6] = [
    (OTHER, Step::Submit),
    (JOB, Step::Submit),
    (NOBODY, Step::Submit),
    (JOB, Step::Start(1)),
    (JOB, Step::Stop(1, How::Finished)),
    (JOB, Step::End),
];

#[test]
fn some_applications_are_put_into_kept_order(rt: HostRuntime) {
    let alloc = rt.alloc();
    let mut tree = Tree::new(alloc);
    are_applied(&rt, alloc, &mut tree, THREE.as_slice());
    kept_of(&rt, alloc, &tree, &[JOB, OTHER, JOB], "2 1 ");
    are_applied(&rt, alloc, &mut tree, &[(JOB, Step::Remove)]);
    kept_of(&rt, alloc, &tree, &[NOBODY, JOB, OTHER], "2 1 ");
    kept_of(&rt, alloc, &tree, &[], "");
}

/// The application of this number.
fn numbered(number: u32) -> AppId {
    AppId { stamp: 7, number }
}

/// Eight jobs are submitted, of which five come to their end and are removed.
fn remove_five<R: Abort>(rt: &R, alloc: Global, tree: &mut Tree) {
    for number in 1..9 {
        are_applied(rt, alloc, tree, &[(numbered(number), Step::Submit)]);
    }
    for number in [3, 1, 8, 5, 4] {
        let id = numbered(number);
        are_applied(rt, alloc, tree, &[(id, Step::End), (id, Step::Remove)]);
    }
}

fn is_found(tree: &Tree, id: AppId) -> bool {
    match tree.find(id) {
        Some(record) => record.id == id,
        None => false,
    }
}

#[test]
fn a_removal_leaves_the_order_of_the_others(rt: HostRuntime) {
    let mut tree = Tree::new(rt.alloc());
    remove_five(&rt, rt.alloc(), &mut tree);
    are_kept(
        &rt,
        rt.alloc(),
        &tree,
        "2: - goes on;6: - goes on;7: - goes on;",
    );
    wants(&rt, is_found(&tree, numbered(6)));
    wants(&rt, tree.find(numbered(5)).is_none());
}

/// Two lives, and two jobs, of which one is removed.
const TO_FOLD: [(AppId, Step); 7] = [
    (NOBODY, Step::Life(1, 7)),
    (JOB, Step::Submit),
    (OTHER, Step::Submit),
    (NOBODY, Step::Life(2, 9)),
    (JOB, Step::End),
    (JOB, Step::Remove),
    (OTHER, Step::Start(1)),
];

/// The operations of these steps.
fn ops_of<R: Abort>(rt: &R, alloc: Global, steps: &[(AppId, Step)]) -> Items<Op> {
    let mut ops = Items::new(alloc);
    for (app, step) in steps {
        ops.push(op_of(rt, alloc, *app, *step)).expect(rt, "memory");
    }
    ops
}

/// What operations amount to, none of which is stray.
fn tree_of<R: Abort>(rt: &R, alloc: Global, ops: &Items<Op>) -> Tree {
    let mut tree = Tree::new(alloc);
    for op in ops.as_slice() {
        wants(rt, tree.apply(op).is_ok());
    }
    tree
}

#[test]
fn a_folded_list_lacks_the_first_life_and_the_removed_job(rt: HostRuntime) {
    let ops = ops_of(&rt, rt.alloc(), TO_FOLD.as_slice());
    let left = fold(rt.alloc(), &ops).expect(&rt, "memory");
    wants(&rt, left.len() == 3);
    let tree = tree_of(&rt, rt.alloc(), &left);
    wants(&rt, tree.next_epoch() == 2 && tree.stamp() == 9);
    are_kept(&rt, rt.alloc(), &tree, "2: goes on - goes on;");
}

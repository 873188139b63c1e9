//! What no clause says: that calls succeed, and that the clauses say what is meant, by examples.

use crate::helpers::{size, text, wants};
use rm_queues::{Acl, QueueTree, starts_at_root};
use rm_types::{AclOp, Denial, Items, NoMemory, QueueSpec, Settings, Submission, Text, UserGroups};
use std::alloc::Global;
use std::process::Abort;

fn put<R: Abort, T: Drop>(rt: &R, items: &mut Items<T>, item: T) {
    items.push(item).expect(rt, "memory");
}

/// The groups of which one name each is given; the empty name gives none.
fn groups<R: Abort>(rt: &R, alloc: Global, group: &str) -> Items<Text> {
    let mut groups = Items::new(alloc);
    if !group.is_empty() {
        put(rt, &mut groups, text(rt, alloc, group.as_bytes()));
    }
    groups
}

/// Whether a list admits a user who is in a group.
fn is_admitted<R: Abort>(rt: &R, alloc: Global, list: &str, user: &str, group: &str) -> bool {
    let acl = Acl::read(alloc, list.as_bytes()).expect(rt, "memory");
    let groups = groups(rt, alloc, group);
    acl.admits(user.as_bytes(), &groups)
}

/// A list, a user, the group that he is in, and whether the list admits him.
const LISTS: [(&str, &str, &str, bool); 20] = [
    ("alice,bob ops", "bob", "", true),
    ("alice,bob ops", "carol", "ops", true),
    ("alice,bob ops", "carol", "dev", false),
    ("alice,bob ops", "ops", "alice", false),
    ("alice,,bob", "bob", "", true),
    ("alice,,bob", "", "", false),
    ("alice  ops , dev ", "carol", "dev", true),
    ("alice  ops , dev ", "carol", " dev", false),
    (" alice,bob", "alice", "", false),
    (" alice,bob", "carol", "bob", true),
    (" ops", "carol", "ops", true),
    ("*", "carol", "", true),
    ("  * ", "carol", "", true),
    ("alice,*", "carol", "", false),
    ("alice,*", "*", "", true),
    ("* ops", "carol", "", false),
    ("* ops", "carol", "ops", true),
    (" ", "carol", "ops", false),
    ("", "carol", "ops", false),
    ("", "", "", false),
];

#[test]
fn lists_admit_whom_they_name(rt: HostRuntime) {
    for (list, user, group, want) in LISTS.as_slice() {
        let is_so = is_admitted(&rt, rt.alloc(), list, user, group) == *want;
        assert!(rt; is_so, "`{list}`: {user} in `{group}`");
    }
}

/// A queue, the list of those who may submit to it, and of those who may administer it.
fn queue<R: Abort>(
    rt: &R,
    alloc: Global,
    name: &[u8],
    submit: &[u8],
    admin: Option<Text>,
) -> QueueSpec {
    let name = text(rt, alloc, name);
    let submit = Some(text(rt, alloc, submit));
    QueueSpec {
        name,
        submit,
        admin,
    }
}

/// The root lets dave submit and no one administer; alice may submit to `root.dev`, and the group
/// `ops` to `root.ops`.
fn queues<R: Abort>(rt: &R, alloc: Global) -> Items<QueueSpec> {
    let mut queues = Items::new(alloc);
    let no_one = Some(text(rt, alloc, b" "));
    put(rt, &mut queues, queue(rt, alloc, b"root", b"dave", no_one));
    put(
        rt,
        &mut queues,
        queue(rt, alloc, b"root.dev", b"alice", None),
    );
    put(
        rt,
        &mut queues,
        queue(rt, alloc, b"root.ops", b" ops", None),
    );
    queues
}

/// Carol is in the group `ops`.
fn carol<R: Abort>(rt: &R, alloc: Global) -> Items<UserGroups> {
    let user = text(rt, alloc, b"carol");
    let groups = groups(rt, alloc, "ops");
    let mut users = Items::new(alloc);
    put(rt, &mut users, UserGroups { user, groups });
    users
}

fn cluster<R: Abort>(rt: &R, alloc: Global, acl_enable: bool) -> Settings {
    let admin_acl = text(rt, alloc, b"boss");
    let groups = carol(rt, alloc);
    let queues = queues(rt, alloc);
    Settings {
        max_attempts: 2,
        max_completed: 10,
        max_apps: 10,
        acl_enable,
        admin_acl,
        greatest: size(1024, 1),
        groups,
        queues,
        ..Settings::empty(alloc)
    }
}

/// The tree of the cluster, with rights checked or not.
fn tree<R: Abort>(rt: &R, alloc: Global, acl_enable: bool) -> QueueTree {
    let settings = cluster(rt, alloc, acl_enable);
    assert!(rt; starts_at_root(&settings));
    QueueTree::new(alloc, &settings).expect(rt, "memory")
}

fn job<R: Abort>(rt: &R, alloc: Global, queue: &str) -> Submission {
    let user = text(rt, alloc, b"alice");
    let queue = text(rt, alloc, queue.as_bytes());
    let name = text(rt, alloc, b"job");
    let modify = text(rt, alloc, b"erin");
    Submission {
        user,
        queue,
        name,
        master: size(1024, 1),
        modify,
        ..Submission::empty()
    }
}

/// Whether the user may kill alice's job in a queue.
fn kills<R: Abort>(rt: &R, alloc: Global, queue_tree: &QueueTree, user: &str, queue: &str) -> bool {
    let job = job(rt, alloc, queue);
    queue_tree
        .may_kill(user.as_bytes(), &job)
        .expect(rt, "memory")
}

/// A queue, and whether it is a leaf.
const LEAVES: [(&str, bool); 5] = [
    ("root", false),
    ("root.dev", true),
    ("root.ops", true),
    ("root.de", false),
    ("root.dev.test", false),
];

fn see_leaves<R: Abort>(rt: &R, queue_tree: &QueueTree) {
    for (queue, want) in LEAVES.as_slice() {
        assert!(rt; queue_tree.is_leaf(queue.as_bytes()) == *want, "{queue}");
    }
}

#[test]
fn leaves_are_queues_without_queues_below(rt: HostRuntime) {
    let queue_tree = tree(&rt, rt.alloc(), true);
    see_leaves(&rt, &queue_tree);
    drop(queue_tree);
}

/// Whether a user may submit to a queue, and whether he may administer it.
fn rights(queue_tree: &QueueTree, user: &str, queue: &str) -> (bool, bool) {
    (
        queue_tree.may_submit(user.as_bytes(), queue.as_bytes()),
        queue_tree.may_administer(user.as_bytes(), queue.as_bytes()),
    )
}

/// A user, a queue, and whether he may submit to it and administer it.
const RIGHTS: [(&str, &str, bool, bool); 8] = [
    ("alice", "root.dev", true, false),
    ("dave", "root.dev", true, false),
    ("boss", "root.dev", true, true),
    ("bob", "root.dev", false, false),
    ("carol", "root.ops", true, false),
    ("alice", "root.ops", false, false),
    ("ops", "root.ops", false, false),
    ("alice", "root", false, false),
];

fn see_rights<R: Abort>(rt: &R, queue_tree: &QueueTree) {
    for (user, queue, submits, administers) in RIGHTS.as_slice() {
        let is_so = rights(queue_tree, user, queue) == (*submits, *administers);
        assert!(rt; is_so, "{user} in {queue}");
    }
}

#[test]
fn rights_come_from_the_queue_its_parents_and_the_admin_list(rt: HostRuntime) {
    let queue_tree = tree(&rt, rt.alloc(), true);
    see_rights(&rt, &queue_tree);
    drop(queue_tree);
}

/// Bob may do all in a queue.
fn see_freedom<R: Abort>(rt: &R, alloc: Global, queue_tree: &QueueTree) {
    wants(rt, rights(queue_tree, "bob", "root.dev") == (true, true));
    wants(rt, kills(rt, alloc, queue_tree, "bob", "root.dev"));
}

#[test]
fn where_rights_are_not_checked_all_is_allowed(rt: HostRuntime) {
    let queue_tree = tree(&rt, rt.alloc(), false);
    see_freedom(&rt, rt.alloc(), &queue_tree);
    drop(queue_tree);
}

/// A user, the queue of alice's job, which may have left the tree, and whether he may kill the job.
const KILLS: [(&str, &str, bool); 8] = [
    ("alice", "root.dev", true),
    ("boss", "root.dev", true),
    ("erin", "root.dev", true),
    ("bob", "root.dev", false),
    ("boss", "root.dev.gone", true),
    ("bob", "root.dev.gone", false),
    ("boss", "gone", true),
    ("bob", "gone", false),
];

fn see_kills<R: Abort>(rt: &R, alloc: Global, queue_tree: &QueueTree) {
    for (user, queue, want) in KILLS.as_slice() {
        let is_so = kills(rt, alloc, queue_tree, user, queue) == *want;
        assert!(rt; is_so, "{user} in {queue}");
    }
}

#[test]
fn owners_and_those_who_may_modify_kill(rt: HostRuntime) {
    let queue_tree = tree(&rt, rt.alloc(), true);
    see_kills(&rt, rt.alloc(), &queue_tree);
    drop(queue_tree);
}

/// What is denied, in which queue, and what the denial names.
const DENIALS: [(AclOp, &str, &str); 5] = [
    (AclOp::Submit, "root.dev", "root.dev,root.dev,root,admin"),
    (AclOp::Submit, "root", "root,root,admin"),
    (
        AclOp::Kill,
        "root.dev",
        "root.dev,root.dev,root,admin,modify",
    ),
    (
        AclOp::Kill,
        "root.dev.a.b",
        "root.dev,root.dev,root,admin,modify",
    ),
    (AclOp::Kill, "gone", "root,root,admin,modify"),
];

/// What a denial names: the queue that was consulted first, and the names that were consulted, each
/// after a comma.
fn named(alloc: Global, denial: &Denial) -> Result<Vec<u8>, NoMemory> {
    let mut names = Vec::from_slice(alloc, denial.queue.bytes())?;
    for name in denial.lists.as_slice() {
        names.push(b',')?;
        names.extend_from_slice(name.bytes())?;
    }
    Ok(names)
}

/// A denial in a queue names these.
fn see_denial<R: Abort>(rt: &R, alloc: Global, queue: &str, denial: &Denial, want: &str) {
    let names = named(alloc, denial).expect(rt, "memory");
    assert!(rt; names.as_slice() == want.as_bytes(), "{queue}");
}

fn see_denials<R: Abort>(rt: &R, alloc: Global, queue_tree: &QueueTree) {
    for (op, queue, want) in DENIALS.as_slice() {
        let denial = queue_tree
            .denial(*op, queue.as_bytes())
            .expect(rt, "memory");
        see_denial(rt, alloc, queue, &denial, want);
    }
}

#[test]
fn a_denial_names_what_was_consulted(rt: HostRuntime) {
    let queue_tree = tree(&rt, rt.alloc(), true);
    see_denials(&rt, rt.alloc(), &queue_tree);
    drop(queue_tree);
}

//! What reports are of pages that were written by hand.
use crate::helpers::{is_text, wants_in};
use crate::pages::{KEPT, LETTERS, RUN};
use rm_page_reader::PageError;
use rm_report::{ReportError, follow, summary};
use std::process::Abort;

const SUMMARY: &str = "29 lines, 2 lives\n\
    life 1: epoch 0, stamp 7, landed 0, kept no more after 3 device calls\n\
    life 2: epoch 1, stamp 8, landed 1, open at the end of the page\n\
    jobs: 1 kept, 1 FINISHED, 0 FAILED, 0 KILLED, 0 live, 0 removed\n\
    replies: 7: 2 registered 1 new 1 DENIED 1 submitted 1 allocated 1 finishing\n\
    denials: 1 root.dev\n\
    containers: 2 granted in 2 passes, 1 taken in again\n\
    endings: 0 done, 0 released, 0 node, 1 attempt, 1 gone\n\
    longest list: 4\n\
    operations: 3 issued, 4 kept of 118 bytes\n";

/// A container, with what is told of it.
const CONTAINER: &str = "container_7_0001_01_000002: 3 of 29 lines\n\
    -- opened landed=0 epoch=0 stamp=7\n    a life begins; landed=0: no operation on its way was kept\n\
    18: pass n2 grants=[container_7_0001_01_000002]\n    the node's beat is answered with grants\n\
    19: served master appattempt_7_0001_000001 allocate 1 -> allocated id=2 grants=[container_7_0001_01_000002@n2] ended=[]\n    \
    the master is told its grants, and the containers that ended\n\
    -- blown passed=3\n    the store's device refused a call: this life keeps nothing more\n\
    -- down\n    the manager goes down\n\
    -- opened landed=1 epoch=1 stamp=8\n    a life begins; landed=1: the operation on its way was kept\n\
    25: absorbed n2 taken=[] ended=[container_7_0001_01_000002]\n    the node's report is absorbed: what it runs is taken in again, or ended\n";

/// Ids, and how the report on each begins.
const HEADS: [(&str, &str); 5] = [
    ("application_7_0001", "application_7_0001: 19 of 29 lines\n"),
    (
        "appattempt_7_0001_000001",
        "appattempt_7_0001_000001: 12 of 29 lines\n",
    ),
    (
        "container_7_0001_01_000001",
        "container_7_0001_01_000001: 6 of 29 lines\n",
    ),
    ("n1", "node n1: 7 of 29 lines\n"),
    ("application_7_1", "node application_7_1: 0 of 29 lines\n"),
];

/// Ids of a job that keeps its containers, and how the report on each begins.
const KEPT_HEADS: [(&str, &str); 4] = [
    ("application_7_0001", "application_7_0001: 21 of 26 lines\n"),
    (
        "appattempt_7_0001_000001",
        "appattempt_7_0001_000001: 13 of 26 lines\n",
    ),
    (
        "appattempt_7_0001_000002",
        "appattempt_7_0001_000002: 8 of 26 lines\n",
    ),
    (
        "container_7_0001_01_000003",
        "container_7_0001_01_000003: 5 of 26 lines\n",
    ),
];

/// A container that is handed over, with what is told of it.
const KEPT_CONTAINER: &str = "container_7_0001_01_000002: 5 of 26 lines\n\
    -- opened landed=0 epoch=0 stamp=7\n    a life begins; landed=0: no operation on its way was kept\n\
    8: pass n1 grants=[container_7_0001_01_000002]\n    the node's beat is answered with grants\n\
    10: served master appattempt_7_0001_000001 allocate 1 -> allocated id=2 grants=[container_7_0001_01_000002@n1,container_7_0001_01_000003@n2] ended=[]\n    \
    the master is told its grants, and the containers that ended\n\
    -- down\n    the manager goes down\n\
    -- opened landed=0 epoch=1 stamp=8\n    a life begins; landed=0: no operation on its way was kept\n\
    18: absorbed n1 taken=[container_7_0001_02_000001,container_7_0001_01_000002] ended=[]\n    the node's report is absorbed: what it runs is taken in again, or ended\n\
    19: served master appattempt_7_0001_000002 register -> registered kept=[container_7_0001_01_000002@n1]\n    \
    this life knows the master, which is handed the containers of attempts before\n\
    25: ended attempt [container_7_0001_01_000002,container_7_0001_02_000001,container_7_0001_01_000003]\n    the containers ended: their attempt is over\n";

fn follows<R: Abort + AllocGlobal>(rt: &R, page: &str, id: &str, head: &str) {
    let report = follow(rt.alloc(), page.as_bytes(), id).expect(rt, id);
    wants_in(rt, id, report.as_slice().starts_with(head.as_bytes()));
}

#[test]
fn sums_up(rt: HostRuntime) {
    let report = summary(rt.alloc(), RUN.as_bytes()).expect(&rt, "a page");
    is_text(&rt, report.as_slice(), SUMMARY);
}

#[test]
fn follows_ids(rt: HostRuntime) {
    for (id, head) in HEADS {
        follows(&rt, RUN, id, head);
    }
    for (id, head) in KEPT_HEADS {
        follows(&rt, KEPT, id, head);
    }
}

#[test]
fn follows_a_container(rt: HostRuntime) {
    let report = follow(rt.alloc(), RUN.as_bytes(), "container_7_0001_01_000002").expect(
        &rt, "a page",
    );
    is_text(&rt, report.as_slice(), CONTAINER);
}

#[test]
fn follows_a_container_that_is_handed_over(rt: HostRuntime) {
    let report = follow(rt.alloc(), KEPT.as_bytes(), "container_7_0001_01_000002").expect(
        &rt, "a page",
    );
    is_text(&rt, report.as_slice(), KEPT_CONTAINER);
}

#[test]
fn refuses_what_is_no_id(rt: HostRuntime) {
    let is_so = matches!(
        follow(rt.alloc(), RUN.as_bytes(), "a b"),
        Err(ReportError::NotAnId)
    );
    wants_in(&rt, "two words", is_so);
    let is_refused = matches!(
        summary(rt.alloc(), LETTERS.as_bytes()),
        Err(PageError::NotAPage { line: 1 })
    );
    wants_in(&rt, "letters of no lines", is_refused);
}

//! Which bytes are pages, and at which line others are refused.
use crate::helpers::{append, repeated, wants_in};
use crate::pages::{KEPT, RUN};
use rm_page_reader::{Page, PageError, SoakLine, law_one_reading, read_page};
use std::process::Abort;

/// Pages, with the number of their lines that tell an entry.
const PAGES: [(&str, usize); 12] = [
    ("", 0),
    (RUN, 29),
    ("settled\nsettled\nmoves hede\n", 2),
    ("settled\nmoves eds\n", 1),
    (
        "kept remove application_1_0001\nkept remove application_1_0002\n",
        2,
    ),
    (
        "served client u report application_1_0001 -> report state=NEW user=u queue=root.a name=j attempts=0 live=0 text=a -> b\n",
        1,
    ),
    (
        "served master appattempt_1_0001_000001 finish a -> ok -> ALREADY\n",
        1,
    ),
    (KEPT, 26),
    (
        "kept app application_1_0001 user=a queue=q name=n memory=1 vcores=1 attempts=0 keep=yes\n",
        1,
    ),
    (
        "kept app application_1_0001 user=a queue=q name=n memory=1 vcores=1 attempts=0 keep=yes modify=a  keep=yes\n",
        1,
    ),
    (
        "kept app application_1_0001 user=a queue=q name=n memory=1 vcores=1 attempts=0 modify=keep=yes\n",
        1,
    ),
    (
        "served master appattempt_1_0001_000002 register -> registered kept=[]\n",
        1,
    ),
];

/// Texts that are no pages, with the first line that is none of a page.
const OTHERS: [(&str, u32); 30] = [
    ("\n", 1),
    ("hello\n", 1),
    ("settled", 1),
    ("settled\nsettl", 2),
    ("settled \n", 1),
    ("settled\r\n", 1),
    ("settled\n\nsettled\n", 2),
    ("opened landed=00 epoch=0 stamp=1\n", 1),
    ("opened landed=0 epoch=4294967296 stamp=1\n", 1),
    ("opened landed=0  epoch=0 stamp=1\n", 1),
    ("opened landed=0 stamp=1 epoch=0\n", 1),
    ("kept epoch next=0 stamp=1\n", 1),
    (
        "kept attempt appattempt_1_0001_000001 master=container_1_0002_01_000001 node=n\n",
        1,
    ),
    ("accepted application_1_1\n", 1),
    ("ended lost []\n", 1),
    ("ended done [container_1_0001_01_000001\n", 1),
    (
        "ended done [container_1_0001_01_000001, container_1_0001_01_000002]\n",
        1,
    ),
    (
        "served client u new -> report state=NEW user=u queue=root.a name=j attempts=0 live=0 text=\n",
        1,
    ),
    ("served client u new\n", 1),
    (
        "kept app application_1_0001 user=a queue=q name=n memory=1 vcores=1 attempts=0 keep=no\n",
        1,
    ),
    (
        "kept app application_1_0001 user=a queue=q name=n memory=1 vcores=1 attempts=0 keep=yes keep=yes\n",
        1,
    ),
    (
        "kept app application_1_0001 user=a queue=q name=n memory=1 vcores=1 attempts=0 keep=yes \n",
        1,
    ),
    (
        "served master appattempt_1_0001_000002 register -> registered kept=\n",
        1,
    ),
    (
        "served master appattempt_1_0001_000002 register -> registered kept=[container_1_0001_01_000002]\n",
        1,
    ),
    (
        "served master appattempt_1_0001_000002 register -> registered kept=[] turn=1\n",
        1,
    ),
    ("served settle -> ok\n", 1),
    ("settled\nmoves oe\n", 2),
    ("settled\nmoves d\n", 2),
    ("settled\nmoves e\nsettled\n", 3),
    ("moves \n", 1),
];

const SOAK: &str = "soak 60 lives=2 served=600 grants=120 finished=60 kept=242\n";

fn refuses<R: Abort + AllocGlobal>(rt: &R, case: &str, bytes: &[u8], line: u32) {
    let is_so = match read_page(rt.alloc(), bytes) {
        Ok(_) => false,
        Err(error) => error == PageError::NotAPage { line },
    };
    wants_in(rt, case, is_so);
}

fn reads<R: Abort + AllocGlobal>(rt: &R, bytes: &str, lines: usize) {
    let page = read_page(rt.alloc(), bytes.as_bytes()).expect(rt, bytes);
    wants_in(rt, bytes, page.entries().len() == lines);
}

#[test]
fn reads_pages(rt: HostRuntime) {
    for (bytes, lines) in PAGES {
        reads(&rt, bytes, lines);
    }
}

#[test]
fn refuses_what_is_no_page(rt: HostRuntime) {
    for (bytes, line) in OTHERS {
        refuses(&rt, bytes, bytes.as_bytes(), line);
    }
}

#[test]
fn reads_a_soak(rt: HostRuntime) {
    let want = SoakLine {
        apps: 60,
        lives: 2,
        served: 600,
        grants: 120,
        finished: 60,
        kept: 242,
    };
    let is_so = match read_page(rt.alloc(), SOAK.as_bytes()) {
        Ok(Page::Soak(soak)) => soak == want,
        _ => false,
    };
    wants_in(&rt, SOAK, is_so);
    refuses(&rt, "cut", SOAK.as_bytes().get(..20).unwrap_or(b""), 1);
}

/// 64 bytes of a page.
const LINES: &[u8] = b"settled\nsettled\nsettled\nsettled\nsettled\nsettled\nsettled\nsettled\n";

#[test]
fn an_endless_line_is_refused(rt: HostRuntime) {
    let endless = repeated(&rt, LINES.get(..7).unwrap_or(b""), 16 * 1024 * 1024 / 7);
    refuses(&rt, "an endless line", endless.as_slice(), 1);
}

#[test]
fn a_long_page_is_refused_at_its_end(rt: HostRuntime) {
    let mut long = repeated(&rt, LINES, 16 * 1024);
    append(&rt, &mut long, b"x");
    refuses(&rt, "a long page", long.as_slice(), 131_073);
}

#[test]
fn laws_are_called() {
    law_one_reading();
}

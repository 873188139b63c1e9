//! Messages that are late, wrong or repeat themselves: what a master and a node are answered that say what isn't so, amid the
//! course of a job.

use crate::attempt_tests::asks;
use crate::cases::{joined, plain, writes};
use crate::job_tests::{JOB, JOB_PAGE};
use std::process::Abort;

/// The job up to a message of it, what is said then, and what is answered.
const LIES: [(&str, &str, &str); 4] = [
    ("node n1 beat 1", EARLY, EARLY_PAGE),
    (
        "master appattempt_1410901177871_0001_000001 allocate 1",
        RELEASED,
        RELEASED_PAGE,
    ),
    (
        "master appattempt_1410901177871_0001_000001 allocate 1",
        DONE_ELSEWHERE,
        DONE_ELSEWHERE_PAGE,
    ),
    // The whole job.
    ("crash 0 0", REPEATED, REPEATED_PAGE),
];

/// A master asks before it registers, for more than there may be, and by an id that it wasn't given.
const EARLY: &str = "\
master appattempt_1410901177871_0001_000001 allocate 0 ask=1:1:9000:1
master appattempt_1410901177871_0001_000001 register
master appattempt_1410901177871_0001_000001 allocate 0 ask=1:1:9000:1
master appattempt_1410901177871_0001_000001 allocate 5
master appattempt_1410901177871_0001_000001 allocate 0
settle
";

const EARLY_PAGE: &str = "\
served master appattempt_1410901177871_0001_000001 allocate 0 ask=1:1:9000:1 -> RESYNC
served master appattempt_1410901177871_0001_000001 register -> registered
served master appattempt_1410901177871_0001_000001 allocate 0 ask=1:1:9000:1 -> TOOLARGE
served master appattempt_1410901177871_0001_000001 allocate 5 -> WRONGID
served master appattempt_1410901177871_0001_000001 allocate 0 -> allocated id=1 grants=[] ended=[]
settled
";

/// A master releases its own container and one that nobody knows.
const RELEASED: &str = "\
master appattempt_1410901177871_0001_000001 allocate 1 release=container_1410901177871_0001_01_000001,container_1410901177871_0007_01_000002
settle
";

const RELEASED_PAGE: &str = "\
served master appattempt_1410901177871_0001_000001 allocate 1 release=container_1410901177871_0001_01_000001,container_1410901177871_0007_01_000002 -> allocated id=2 grants=[container_1410901177871_0001_01_000002@n1,container_1410901177871_0001_01_000003@n1,container_1410901177871_0001_01_000004@n1,container_1410901177871_0001_01_000005@n2] ended=[]
settled
";

/// A node says that the container of another one is done.
const DONE_ELSEWHERE: &str = "\
node n1 beat 3 done=container_1410901177871_0001_01_000005
settle
";

const DONE_ELSEWHERE_PAGE: &str = "\
served node n1 beat 3 done=container_1410901177871_0001_01_000005 -> beat id=4 launch=[] clean=[]
pass n1 grants=[]
settled
";

/// After a restart a node reports a container twice, registers by an older turn with another size, and reports a stranger twice.
const REPEATED: &str = "\
crash 0 0
start 1410901177871
node n1 register 2 memory=8192 vcores=8 running=container_1410901177871_0001_01_000001:1024:1,container_1410901177871_0001_01_000001:1024:1
settle
node n1 register 1 memory=1 vcores=1
settle
node n1 beat 0 running=container_1410901177871_0007_01_000002:512:1,container_1410901177871_0007_01_000002:512:1
settle
";

const REPEATED_PAGE: &str = "\
down
opened landed=0 epoch=1 stamp=1410901177872
issued epoch next=2 stamp=1410901177872
kept epoch next=2 stamp=1410901177872
served node n1 register 2 memory=8192 vcores=8 running=container_1410901177871_0001_01_000001:1024:1,container_1410901177871_0001_01_000001:1024:1 -> registered turn=2 epoch=1
absorbed n1 taken=[container_1410901177871_0001_01_000001] ended=[]
settled
served node n1 register 1 memory=1 vcores=1 -> registered turn=2 epoch=1
settled
served node n1 beat 0 running=container_1410901177871_0007_01_000002:512:1,container_1410901177871_0007_01_000002:512:1 -> beat id=1 launch=[] clean=[container_1410901177871_0007_01_000002]
pass n1 grants=[]
settled
";

/// A text up to a part of it, or all of it where that isn't in it.
fn before<'a>(text: &'a str, part: &str) -> &'a str {
    match text.split_once(part) {
        Some((before, _)) => before,
        None => text,
    }
}

/// Checks the page of a run of the job up to a message of it, in place of which something else is said.
fn answers<R: Abort + AllocGlobal>(rt: &R, message: &str, said: &[&str], page: &[&str]) {
    let line = joined(rt, &[message, "\n"]);
    let served = joined(rt, &["served ", message, " -> "]);
    let said = joined(rt, said);
    let page = joined(rt, page);
    let script = [before(JOB, line.as_str()), said.as_str()];
    let wanted = [before(JOB_PAGE, served.as_str()), page.as_str()];
    writes(rt, &plain(&script), &wanted);
}

#[test]
fn a_lie_is_answered_and_changes_nothing_else(rt: HostRuntime) {
    for (message, said, page) in LIES.as_slice() {
        answers(&rt, message, &[*said], &[*page]);
    }
}

/// A master registers, and asks by its first id.
const REGISTERS: &str = "\
master appattempt_1410901177871_0001_000001 register
master appattempt_1410901177871_0001_000001 allocate 0 ask=";

const REGISTERS_PAGE: &str = "\
served master appattempt_1410901177871_0001_000001 register -> registered
served master appattempt_1410901177871_0001_000001 allocate 0 ask=";

/// It asks once more by that id.
const AGAIN: &str = "\nmaster appattempt_1410901177871_0001_000001 allocate 0 ask=";

const FULL: &str = " -> FULL\nserved master appattempt_1410901177871_0001_000001 allocate 0 ask=";

const SETTLE: &str = "\nsettle\n";

const ALLOCATED: &str = " -> allocated id=1 grants=[] ended=[]\nsettled\n";

// A master may have 64 asks: 65 at once are refused whole, and of 65 one may ask for none.
#[test]
fn a_list_of_too_many_asks_is_refused_whole(rt: HostRuntime) {
    let (many, most, fit) = (asks(&rt, 65, 0), asks(&rt, 64, 0), asks(&rt, 65, 65));
    let (many, most, fit) = (many.as_str(), most.as_str(), fit.as_str());
    let said = [REGISTERS, many, AGAIN, most, SETTLE];
    let page = [REGISTERS_PAGE, many, FULL, most, ALLOCATED];
    answers(&rt, "node n1 beat 1", &said, &page);
    let said = [REGISTERS, fit, SETTLE];
    let page = [REGISTERS_PAGE, fit, ALLOCATED];
    answers(&rt, "node n1 beat 1", &said, &page);
}

//! The job's run over a device of which one call fails: each call of a whole run, in turn, and then each write, of which half is
//! written.

use crate::cases::{Case, Device, EMPTY, Left, device_of, joined, listed, plain, run_on, wants};
use crate::job_tests::{FINISH, FINISH_PAGE, JOB, JOB_PAGE, JOB_STORE, RESYNCED, RESYNCED_PAGE};
use rm_disk::{MemDisk, Torn};
use rm_types::Outcome;
use std::process::Abort;

const SCRIPT: [&str; 3] = [JOB, RESYNCED, FINISH];

const SHOWN: [&str; 4] = ["plain", "cluster", "script", "--moves"];

/// The job's run, with a last line of its page that has a letter for each entry, silent ones too.
fn job<'a>() -> Case<'a> {
    Case {
        words: &SHOWN,
        ..plain(&SCRIPT)
    }
}

/// The lines of a page, and the letters of its moves.
fn parted(page: &str) -> (&str, &str) {
    match page.split_once("moves ") {
        Some((lines, letters)) => (lines, letters.trim_end_matches('\n')),
        None => (page, ""),
    }
}

/// How many operations a page says are kept.
fn kept_in(page: &str) -> usize {
    page.lines()
        .filter(|line| line.starts_with("kept "))
        .count()
}

/// Checks what a run left whose device failed: its page is a beginning of the whole run's, line by line, and so are its moves; and the store
/// on the device lists what the page says is kept, or this and the operation after it.
fn stopped_well<R: Abort + AllocGlobal>(rt: &R, whole: &str, page: &str, device: MemDisk) {
    let (all_lines, all_moves) = parted(whole);
    let (lines, moves) = parted(page);
    wants(
        rt,
        all_lines.starts_with(lines) && all_moves.starts_with(moves),
    );
    wants(rt, lines.is_empty() == moves.is_empty());
    wants(rt, page.is_empty() || page.ends_with('\n'));
    let list = listed(rt, device);
    wants(rt, JOB_STORE.starts_with(list.as_str()));
    let kept = kept_in(page);
    let found = kept_in(list.as_str());
    wants(rt, found == kept || found.checked_sub(kept) == Some(1));
}

/// Whether a run was stopped by its device, and then left it well; else it was done.
fn is_stopped<R: Abort + AllocGlobal>(
    rt: &R,
    whole: &str,
    outcome: Outcome,
    page: &str,
    device: MemDisk,
) -> bool {
    if outcome == Outcome::Done {
        return false;
    }
    assert_eq!(rt; outcome, Outcome::DiskFault);
    stopped_well(rt, whole, page, device);
    true
}

/// The page of the whole run.
fn whole_page<R: Abort + AllocGlobal>(rt: &R) -> String {
    let left = run_on(rt, &job(), device_of(rt, EMPTY));
    assert_eq!(rt; left.outcome, Outcome::Done);
    let wanted = joined(rt, &[JOB_PAGE, RESYNCED_PAGE, FINISH_PAGE]);
    wants(rt, parted(left.page.as_str()).0 == wanted.as_str());
    left.page
}

/// Whether a run stops whose device fails at this call.
fn stops_at_call<R: Abort + AllocGlobal>(rt: &R, whole: &str, call: u64) -> bool {
    let device = Device {
        failing: &[call],
        ..EMPTY
    };
    let Left {
        outcome,
        page,
        device,
    } = run_on(rt, &job(), device_of(rt, device));
    is_stopped(rt, whole, outcome, page.as_str(), device)
}

/// Whether a run stops whose device writes half of this write.
fn stops_at_write<R: Abort + AllocGlobal>(rt: &R, whole: &str, write: u64) -> bool {
    let device = Torn::new(device_of(rt, EMPTY), write);
    let Left {
        outcome,
        page,
        device,
    } = run_on(rt, &job(), device);
    is_stopped(rt, whole, outcome, page.as_str(), device.inner())
}

// Six operations are kept, each by two writes and two syncs, and the device is read at the beginning of each life.
#[test]
fn a_run_stops_where_its_device_fails(rt: HostRuntime) {
    let whole = whole_page(&rt);
    let mut stopped = 0;
    for call in 1..1000 {
        if !stops_at_call(&rt, whole.as_str(), call) {
            break;
        }
        stopped = call;
    }
    wants(&rt, stopped >= 26 && stopped < 999);
}

#[test]
fn a_run_stops_where_a_write_is_torn(rt: HostRuntime) {
    let whole = whole_page(&rt);
    let mut stopped = 0;
    for write in 1..1000 {
        if !stops_at_write(&rt, whole.as_str(), write) {
            break;
        }
        stopped = write;
    }
    wants(&rt, stopped >= 12 && stopped < 999);
}

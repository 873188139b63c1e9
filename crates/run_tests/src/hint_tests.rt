//! What no clause says: the sentence that a person is told of a refused schedule, by rows that are worked out by hand.
use rm_main::schedule_hint;
use std::process::Abort;

/// Schedules, the bytes at which they are refused, and what is told of them.
const SCHEDULES: &[(&str, u64, &str)] = &[
    (
        "oxd",
        1,
        "expected one of the letters c m n k d s h w e o p, found `x`",
    ),
    (
        "o\r\n",
        1,
        "expected one of the letters c m n k d s h w e o p, found `\\r`",
    ),
    (
        "w",
        0,
        "the lane isn't ready: it is `w`, where an operation is with the store",
    ),
    (
        "o\npp",
        3,
        "the plain policy isn't ready: it is `p`, where a life stands and has a segment left",
    ),
    ("", 0, "expected the letter of a lane that is ready"),
];

/// Sees that this is told of a schedule that is refused at a byte.
fn tells<R: Abort + AllocGlobal>(rt: &R, schedule: &str, place: u64, want: &str) {
    let fault = schedule_hint(schedule.as_bytes(), place);
    let told = format!(in rt.alloc(); "{fault}").expect(rt, "memory");
    assert!(rt; told.as_str() == want, "{told}");
}

#[test]
fn schedules_are_told_by_their_causes(rt: HostRuntime) {
    for (schedule, place, want) in SCHEDULES {
        tells(&rt, schedule, *place, want);
    }
}

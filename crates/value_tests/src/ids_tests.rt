//! What no clause says: that calls succeed, and what the texts of ids and the places where bytes leave them
//! are, worked out by hand.
use crate::helpers::{bytes_of, is_text, joined, wants_in};
use rm_formats::ids::*;
use rm_types::{AppId, AttemptId, ContainerId};
use std::process::Abort;

const FIRST: AppId = AppId {
    stamp: 1,
    number: 1,
};

const LAST: AppId = AppId {
    stamp: 9223372036854775807,
    number: 2147483647,
};

const KNOWN: AppId = AppId {
    stamp: 1410901177871,
    number: 1,
};

const FIRST_ATTEMPT: AttemptId = AttemptId {
    app: FIRST,
    number: 1,
};

const LAST_ATTEMPT: AttemptId = AttemptId {
    app: LAST,
    number: 2147483647,
};

const KNOWN_ATTEMPT: AttemptId = AttemptId {
    app: KNOWN,
    number: 1,
};

/// Sees that this id was read from the text.
fn is_read<R: Abort, I: PartialEq + Drop>(rt: &R, text: &str, read: Result<I, NotAnId>, id: I) {
    wants_in(rt, text, matches!(&read, Ok(found) if *found == id));
}

/// Sees that the text was written behind what stood there.
fn is_written<R: Abort + AllocGlobal>(rt: &R, out: &[u8], text: &str) {
    is_text(rt, out, joined(rt, "before ", text, "").as_str());
}

/// Sees that no id was read from the text, which bytes leave at this place.
fn is_left<R: Abort, I: Drop>(rt: &R, text: &str, read: Result<I, NotAnId>, place: usize) {
    wants_in(rt, text, matches!(read, Err(error) if error.place == place));
}

/// Applications, and their texts.
const APPLICATIONS: [(AppId, &str); 4] = [
    (FIRST, "application_1_0001"),
    (LAST, "application_9223372036854775807_2147483647"),
    (
        AppId {
            stamp: 1410901177871,
            number: 42,
        },
        "application_1410901177871_0042",
    ),
    (
        AppId {
            stamp: 10,
            number: 10000,
        },
        "application_10_10000",
    ),
];

/// Sees that the application is written as the text, and read from it.
fn see_app<R: Abort + AllocGlobal>(rt: &R, id: AppId, text: &str) {
    is_read(rt, text, read_app(text.as_bytes()), id);
    let mut out = bytes_of(rt, b"before ");
    write_app(id, &mut out).expect(rt, "memory");
    is_written(rt, &out, text);
}

#[test]
fn an_application_is_written_and_read(rt: HostRuntime) {
    for (id, text) in APPLICATIONS.as_slice() {
        see_app(&rt, *id, text);
    }
}

/// Attempts, and their texts.
const ATTEMPTS: [(AttemptId, &str); 3] = [
    (FIRST_ATTEMPT, "appattempt_1_0001_000001"),
    (
        LAST_ATTEMPT,
        "appattempt_9223372036854775807_2147483647_2147483647",
    ),
    (
        AttemptId {
            app: KNOWN,
            number: 2,
        },
        "appattempt_1410901177871_0001_000002",
    ),
];

/// Sees that the attempt is written as the text, and read from it.
fn see_attempt<R: Abort + AllocGlobal>(rt: &R, id: AttemptId, text: &str) {
    is_read(rt, text, read_attempt(text.as_bytes()), id);
    let mut out = bytes_of(rt, b"before ");
    write_attempt(id, &mut out).expect(rt, "memory");
    is_written(rt, &out, text);
}

#[test]
fn an_attempt_is_written_and_read(rt: HostRuntime) {
    for (id, text) in ATTEMPTS.as_slice() {
        see_attempt(&rt, *id, text);
    }
}

/// Containers, and their texts.
const CONTAINERS: [(ContainerId, &str); 5] = [
    (
        ContainerId {
            attempt: FIRST_ATTEMPT,
            epoch: 0,
            seq: 1,
        },
        "container_1_0001_01_000001",
    ),
    (
        ContainerId {
            attempt: LAST_ATTEMPT,
            epoch: 16777215,
            seq: 1099511627775,
        },
        "container_e16777215_9223372036854775807_2147483647_2147483647_1099511627775",
    ),
    (
        ContainerId {
            attempt: KNOWN_ATTEMPT,
            epoch: 0,
            seq: 5,
        },
        "container_1410901177871_0001_01_000005",
    ),
    (
        ContainerId {
            attempt: KNOWN_ATTEMPT,
            epoch: 17,
            seq: 5,
        },
        "container_e17_1410901177871_0001_01_000005",
    ),
    (
        ContainerId {
            attempt: KNOWN_ATTEMPT,
            epoch: 3,
            seq: 1234567,
        },
        "container_e03_1410901177871_0001_01_1234567",
    ),
];

/// Sees that the container is written as the text, and read from it.
fn see_container<R: Abort + AllocGlobal>(rt: &R, id: ContainerId, text: &str) {
    is_read(rt, text, read_container(text.as_bytes()), id);
    let mut out = bytes_of(rt, b"before ");
    write_container(id, &mut out).expect(rt, "memory");
    is_written(rt, &out, text);
}

#[test]
fn a_container_is_written_and_read(rt: HostRuntime) {
    for (id, text) in CONTAINERS.as_slice() {
        see_container(&rt, *id, text);
    }
}

#[test]
fn a_container_has_its_number(rt: HostRuntime) {
    let read = read_container(b"container_e17_1410901177871_0001_01_000005");
    let number = read.map(|id| id.number());
    assert_eq!(rt; number, Ok(18691697672197));
}

/// Bytes, and the place where they leave the texts of applications.
const NO_APPLICATIONS: [(&str, usize); 24] = [
    ("", 0),
    ("Application_1_0001", 0),
    ("appattempt_1_0001_000001", 3),
    ("application", 11),
    ("application-1_0001", 11),
    ("application_", 12),
    ("application_0_0001", 12),
    ("application_01_0001", 12),
    ("application__0001", 12),
    ("application_9223372036854775808_0001", 30),
    ("application_18446744073709551617_0001", 31),
    ("application_1", 13),
    ("application_1 _0001", 13),
    ("application_1_", 14),
    ("application_1_000", 17),
    ("application_1_001", 17),
    ("application_1_0000", 17),
    ("application_1_00001", 17),
    ("application_1_00010", 18),
    ("application_1_0001x", 18),
    ("application_1_0001_", 18),
    ("application_1_10000 ", 19),
    ("application_1_2147483648", 23),
    ("application_1_21474836470", 24),
];

#[test]
fn bytes_leave_the_texts_of_applications(rt: HostRuntime) {
    for (text, place) in NO_APPLICATIONS.as_slice() {
        is_left(&rt, text, read_app(text.as_bytes()), *place);
    }
}

/// Bytes, and the place where they leave the texts of attempts.
const NO_ATTEMPTS: [(&str, usize); 13] = [
    ("", 0),
    ("application_1_0001", 3),
    ("appattempt_0", 11),
    ("appattempt_1_0001", 17),
    ("appattempt_1_0001-000001", 17),
    ("appattempt_1_0001_", 18),
    ("appattempt_1_0001_01", 20),
    ("appattempt_1_0001_000000", 23),
    ("appattempt_1_0001_0000001", 23),
    ("appattempt_1_0001_000001x", 24),
    ("appattempt_1_0001_0000010", 24),
    ("appattempt_1_0001_2147483648", 27),
    ("appattempt_9223372036854775808_0001_000001", 29),
];

#[test]
fn bytes_leave_the_texts_of_attempts(rt: HostRuntime) {
    for (text, place) in NO_ATTEMPTS.as_slice() {
        is_left(&rt, text, read_attempt(text.as_bytes()), *place);
    }
}

/// Bytes, and the place where they leave the texts of containers.
const NO_CONTAINERS: [(&str, usize); 27] = [
    ("", 0),
    ("Container_1410901177871_0001_01_000005", 0),
    ("container", 9),
    ("container_", 10),
    ("container_x", 10),
    ("container_E17_1410901177871_0001_01_000005", 10),
    ("container_e", 11),
    ("container_e_1410901177871_0001_01_000005", 11),
    ("container_e00_1410901177871_0001_01_000005", 12),
    ("container_e1_1410901177871_0001_01_000005", 12),
    ("container_e017_1410901177871_0001_01_000005", 13),
    ("container_e17", 13),
    ("container_e17-1410901177871_0001_01_000005", 13),
    ("container_e16777216_1_0001_01_000001", 18),
    ("container_e17_0", 14),
    ("container_0", 10),
    ("container_1_0001_00_000001", 18),
    ("container_1_0001_001_000001", 18),
    ("container_1_0001_1_000001", 18),
    ("container_1410901177871_0001_000001_000005", 30),
    ("container_1_0001_2147483648_000001", 26),
    ("container_1_0001_01_000000", 25),
    ("container_1_0001_01_0000001", 25),
    ("container_1_0001_01_00005", 25),
    ("container_1_0001_01_000005 ", 26),
    ("container_1_0001_01_000005_", 26),
    ("container_1_0001_01_1099511627776", 32),
];

#[test]
fn bytes_leave_the_texts_of_containers(rt: HostRuntime) {
    for (text, place) in NO_CONTAINERS.as_slice() {
        is_left(&rt, text, read_container(text.as_bytes()), *place);
    }
}

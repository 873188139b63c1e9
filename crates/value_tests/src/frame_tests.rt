//! What no clause says: that calls succeed, and what the bytes of each kind of frame and the places of
//! faults are, by hand.
use crate::helpers::{bytes_of, wants_in};
use rm_frame::*;
use rm_types::Op;
use std::alloc::Global;
use std::process::Abort;

const EPOCH: &[u8] = &[1, 0, 0, 1, 2, 1, 2, 3, 4, 5, 6, 7, 8];

const APP: &[u8] = &[
    7, 1, 2, 3, 4, 5, 6, 7, 8, 10, 11, 12, 13, 0, 1, b'u', 0, 1, b'q', 0, 2, b'n', b'-', 0, 0, 2,
    0, 0, 0, 0, 3, 0, 0, 0, 4, 0, 0, 1, b'*',
];

/// The same application as it was kept before there was a choice to keep containers.
const OLDER_APP: &[u8] = &[
    2, 1, 2, 3, 4, 5, 6, 7, 8, 10, 11, 12, 13, 0, 1, b'u', 0, 1, b'q', 0, 2, b'n', b'-', 0, 0, 2,
    0, 0, 0, 0, 3, 0, 0, 0, 4, 0, 1, b'*',
];

/// One that keeps containers.
const KEEPING_APP: &[u8] = &[
    7, 1, 2, 3, 4, 5, 6, 7, 8, 10, 11, 12, 13, 0, 1, b'u', 0, 1, b'q', 0, 2, b'n', b'-', 0, 0, 2,
    0, 0, 0, 0, 3, 0, 0, 0, 4, 1, 0, 1, b'*',
];

const ATTEMPT: &[u8] = &[
    3, 1, 2, 3, 4, 5, 6, 7, 8, 10, 11, 12, 13, 0, 0, 0, 5, 0, 0, 0, 6, 0, 0, 0, 0, 0, 0, 1, 7, 0,
    3, b'n', b':', b'1',
];

const ATTEMPT_END: &[u8] = &[
    4, 1, 2, 3, 4, 5, 6, 7, 8, 10, 11, 12, 13, 0, 0, 0, 5, 2, 0, 2, b'o', b'k',
];

const APP_END: &[u8] = &[5, 1, 2, 3, 4, 5, 6, 7, 8, 10, 11, 12, 13, 3, 0, 0];

const REMOVE: &[u8] = &[6, 1, 2, 3, 4, 5, 6, 7, 8, 10, 11, 12, 13];

/// Frames, and how their operations show.
const FRAMES: [(&[u8], &str); 7] = [
    (EPOCH, "Epoch { next: 258, stamp: 72623859790382856 }"),
    (
        APP,
        "App { id: AppId { stamp: 72623859790382856, number: 168496141 }, submission: Submission { user: Text { shared: Some([117]) }, queue: Text { shared: Some([113]) }, name: Text { shared: Some([110, 45]) }, master: Resource { memory_mb: 512, vcores: 3 }, attempts: 4, keep: false, modify: Text { shared: Some([42]) } } }",
    ),
    (
        KEEPING_APP,
        "App { id: AppId { stamp: 72623859790382856, number: 168496141 }, submission: Submission { user: Text { shared: Some([117]) }, queue: Text { shared: Some([113]) }, name: Text { shared: Some([110, 45]) }, master: Resource { memory_mb: 512, vcores: 3 }, attempts: 4, keep: true, modify: Text { shared: Some([42]) } } }",
    ),
    (
        ATTEMPT,
        "Attempt { id: AttemptId { app: AppId { stamp: 72623859790382856, number: 168496141 }, number: 5 }, master: ContainerId { attempt: AttemptId { app: AppId { stamp: 72623859790382856, number: 168496141 }, number: 5 }, epoch: 6, seq: 263 }, node: Text { shared: Some([110, 58, 49]) } }",
    ),
    (
        ATTEMPT_END,
        "AttemptEnd { id: AttemptId { app: AppId { stamp: 72623859790382856, number: 168496141 }, number: 5 }, how: Failed, text: Text { shared: Some([111, 107]) } }",
    ),
    (
        APP_END,
        "AppEnd { id: AppId { stamp: 72623859790382856, number: 168496141 }, how: Killed, text: Text { shared: None } }",
    ),
    (
        REMOVE,
        "Remove { id: AppId { stamp: 72623859790382856, number: 168496141 } }",
    ),
];

/// The frame with more bytes behind it.
fn with_more<R: Abort + AllocGlobal>(rt: &R, frame: &[u8]) -> Vec<u8> {
    let mut bytes = bytes_of(rt, frame);
    bytes.extend_from_slice(b"more").expect(rt, "memory");
    bytes
}

/// How an operation shows.
fn shown<R: Abort + AllocGlobal>(rt: &R, op: &Op) -> String {
    format!(in rt.alloc(); "{op:?}").expect(rt, "memory")
}

/// Sees that the bytes, with others behind them, are read as an operation that shows so, and that its frame is this.
fn see_read<R: Abort + AllocGlobal>(
    rt: &R,
    encoder: &mut Encoder,
    bytes: &[u8],
    frame: &[u8],
    show: &str,
) {
    let more = with_more(rt, bytes);
    let (op, count) = decode(rt.alloc(), &more).expect(rt, show);
    wants_in(rt, show, count == bytes.len());
    wants_in(rt, show, shown(rt, &op).as_str() == show);
    let made = encoder.frame(&op).expect(rt, "memory");
    wants_in(rt, show, made == frame);
}

#[test]
fn each_kind_has_its_bytes(rt: HostRuntime) {
    let mut encoder = Encoder::new(rt.alloc());
    for (frame, show) in FRAMES.as_slice() {
        see_read(&rt, &mut encoder, frame, frame, show);
    }
}

#[test]
fn an_older_frame_of_an_app_is_read_and_not_written(rt: HostRuntime) {
    let (frame, show) = FRAMES[1];
    see_read(&rt, &mut Encoder::new(rt.alloc()), OLDER_APP, frame, show);
}

/// The place at fault in the bytes, if they begin with no frame; `usize::MAX` where there is no memory.
fn fault_in(alloc: Global, bytes: &[u8]) -> Option<usize> {
    match decode(alloc, bytes) {
        Ok((_op, _count)) => None,
        Err(FrameError::BadFrame { place }) => Some(place),
        Err(FrameError::Memory) => Some(usize::MAX),
    }
}

/// The places at fault in the first bytes of the frame of an attempt's end, by their count.
const PLACES: [usize; 22] = [
    0, 1, 1, 1, 1, 1, 1, 1, 1, 9, 9, 9, 9, 13, 13, 13, 13, 17, 18, 18, 18, 18,
];

/// Sees that the first bytes of a frame are at fault at this place.
fn see_short<R: Abort + AllocGlobal>(rt: &R, bytes: &[u8], place: usize) {
    let count = bytes.len();
    let fault = fault_in(rt.alloc(), bytes);
    assert!(rt; fault == Some(place), "{count} bytes");
}

#[test]
fn a_short_frame_is_at_fault_where_its_last_field_begins(rt: HostRuntime) {
    for (count, place) in PLACES.iter().enumerate() {
        if let Some(bytes) = ATTEMPT_END.get(..count) {
            see_short(&rt, bytes, *place);
        }
    }
}

/// Frames, a byte at a place in them, and the place at fault with this byte.
const CHANGES: [(&[u8], usize, u8, Option<usize>); 31] = [
    (EPOCH, 0, 0, Some(0)),
    (EPOCH, 0, 8, Some(0)),
    (EPOCH, 1, 1, Some(1)),
    (EPOCH, 5, 0x80, Some(5)),
    (EPOCH, 5, 0x7f, None),
    (REMOVE, 1, 0x80, Some(1)),
    (REMOVE, 9, 0x80, Some(9)),
    (REMOVE, 9, 0x7f, None),
    (APP, 14, 0, Some(13)),
    (APP, 15, b':', Some(13)),
    (APP, 16, 1, Some(16)),
    (APP, 18, b'Q', Some(16)),
    (APP, 22, b' ', Some(19)),
    (APP, 23, 1, Some(23)),
    (APP, 29, 1, Some(27)),
    (APP, 30, 0, Some(27)),
    (APP, 34, 0, None),
    (APP, 34, 101, Some(31)),
    (APP, 35, 1, None),
    (APP, 35, 2, Some(35)),
    (APP, 38, 0x7f, Some(36)),
    (OLDER_APP, 37, 0x7f, Some(35)),
    (ATTEMPT, 13, 0x80, Some(13)),
    (ATTEMPT, 17, 1, Some(17)),
    (ATTEMPT, 23, 1, Some(21)),
    (ATTEMPT, 31, b' ', Some(29)),
    (ATTEMPT_END, 17, 0, Some(17)),
    (ATTEMPT_END, 17, 4, Some(17)),
    (ATTEMPT_END, 20, 0x1f, Some(18)),
    (APP_END, 13, 4, Some(13)),
    (APP_END, 15, 1, Some(14)),
];

/// The frame with another byte at a place.
fn changed<R: Abort + AllocGlobal>(rt: &R, frame: &[u8], at: usize, byte: u8) -> Vec<u8> {
    let mut bytes = bytes_of(rt, frame);
    if let Some(changed) = bytes.get_mut(at) {
        *changed = byte;
    }
    bytes
}

/// Sees that the frame with another byte at a place is at fault at this place, or nowhere.
fn see_changed<R: Abort + AllocGlobal>(
    rt: &R,
    frame: &[u8],
    at: usize,
    byte: u8,
    place: Option<usize>,
) {
    let bytes = changed(rt, frame, at, byte);
    let fault = fault_in(rt.alloc(), &bytes);
    assert!(rt; fault == place, "{byte} at {at}");
}

#[test]
fn a_field_out_of_range_is_at_fault_where_it_begins(rt: HostRuntime) {
    for (frame, at, byte, place) in CHANGES.as_slice() {
        see_changed(&rt, frame, *at, *byte, *place);
    }
}

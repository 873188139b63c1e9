//! Runs of the program over files, an output and a device in memory, and the checks of what they leave.

use rm_disk::{Disk, Fuse, MemDisk};
use rm_main::top_plain;
use rm_outside::{MemShelf, MemSink, NamedFile};
use rm_types::{Items, Outcome, Text};
use std::process::Abort;

/// The record of generation 1, with which the first area of a device begins.
pub(crate) const GENERATION: [u8; 13] = [1, 0, 0, 0, 8, 0, 0, 0, 0, 0, 0, 0, 1];

/// A device in memory: it begins with these bytes, in parts, behind which stand zeros.
#[derive(Clone, Copy)]
pub(crate) struct Device<'a> {
    pub bytes: &'a [&'a [u8]],
    pub size: usize,
    pub failing: &'a [u64],
}

/// A run of the program over a shelf, a sink and a device in memory: the files' texts, and the numbers of the
/// reads and of the writes that fail.
#[derive(Clone, Copy)]
pub(crate) struct Case<'a> {
    pub words: &'a [&'a str],
    pub cluster: &'a str,
    /// The script's parts, one behind the other.
    pub script: &'a [&'a str],
    pub schedule: &'a [u8],
    pub device: Device<'a>,
    pub failing_reads: &'a [u64],
    pub failing_writes: &'a [u64],
    /// How many bytes the sink takes at once.
    pub most: usize,
}

/// What a run left.
#[derive(Drop)]
pub(crate) struct Left<D> {
    pub outcome: Outcome,
    pub page: String,
    pub device: D,
}

const PLAIN: [&str; 3] = ["plain", "cluster", "script"];

const REPLAY: [&str; 4] = ["replay", "cluster", "script", "schedule"];

pub(crate) const EMPTY: Device<'static> = Device {
    bytes: &[],
    size: 4096,
    failing: &[],
};

/// A run by the plain policy, on a device that is empty.
pub(crate) fn plain<'a>(script: &'a [&'a str]) -> Case<'a> {
    Case {
        words: &PLAIN,
        cluster: "{}\n",
        script,
        schedule: &[],
        device: EMPTY,
        failing_reads: &[],
        failing_writes: &[],
        most: 65536,
    }
}

/// A run by a schedule.
pub(crate) fn replay<'a>(script: &'a [&'a str], schedule: &'a [u8]) -> Case<'a> {
    Case {
        words: &REPLAY,
        schedule,
        ..plain(script)
    }
}

/// Checks that this is so.
pub(crate) fn wants<R: Abort>(rt: &R, is_so: bool) {
    assert!(rt; is_so);
}

/// A text of these parts.
pub(crate) fn joined<R: Abort + AllocGlobal>(rt: &R, parts: &[&str]) -> String {
    let mut text = String::new(rt.alloc());
    for part in parts {
        text.push_str(part).expect(rt, "memory");
    }
    text
}

fn bytes<R: Abort + AllocGlobal>(rt: &R, list: &[u8]) -> Items<u8> {
    Items::from_vec(Vec::from_slice(rt.alloc(), list).expect(rt, "memory"))
}

pub(crate) fn numbers<R: Abort + AllocGlobal>(rt: &R, list: &[u64]) -> Items<u64> {
    Items::from_vec(Vec::from_slice(rt.alloc(), list).expect(rt, "memory"))
}

fn put_file<R: Abort + AllocGlobal>(
    rt: &R,
    files: &mut Items<NamedFile>,
    name: &str,
    content: &[u8],
) {
    let name = Text::from_bytes(rt.alloc(), name.as_bytes()).expect(rt, "memory");
    let bytes = bytes(rt, content);
    files.push(NamedFile { name, bytes }).expect(rt, "memory");
}

/// The shelf with the files of a run.
pub(crate) fn shelf_of<R: Abort + AllocGlobal>(rt: &R, case: &Case<'_>) -> MemShelf {
    let mut files = Items::new(rt.alloc());
    put_file(rt, &mut files, "cluster", case.cluster.as_bytes());
    put_file(rt, &mut files, "script", joined(rt, case.script).as_bytes());
    put_file(rt, &mut files, "schedule", case.schedule);
    MemShelf::new(rt.alloc(), files, numbers(rt, case.failing_reads))
}

/// The words of a run.
pub(crate) fn words_of<R: Abort + AllocGlobal>(rt: &R, case: &Case<'_>) -> Vec<String> {
    let mut words = Vec::new(rt.alloc());
    for word in case.words {
        let word = String::from_str(rt.alloc(), word).expect(rt, "memory");
        words.push(word).expect(rt, "memory");
    }
    words
}

fn flattened<R: Abort + AllocGlobal>(rt: &R, parts: &[&[u8]]) -> Vec<u8> {
    let mut bytes = Vec::new(rt.alloc());
    for part in parts {
        bytes.extend_from_slice(part).expect(rt, "memory");
    }
    bytes
}

/// A device in memory.
pub(crate) fn device_of<R: Abort + AllocGlobal>(rt: &R, device: Device<'_>) -> MemDisk {
    let mut bytes = flattened(rt, device.bytes);
    bytes.resize(device.size, 0).expect(rt, "memory");
    let failing = numbers(rt, device.failing);
    MemDisk::of(rt.alloc(), Items::from_vec(bytes), failing).expect(rt, "memory")
}

/// The sink that takes the page of a run.
pub(crate) fn sink_of<R: Abort + AllocGlobal>(rt: &R, case: &Case<'_>) -> MemSink {
    MemSink::new(rt.alloc(), numbers(rt, case.failing_writes), case.most)
}

/// The page that a sink took.
pub(crate) fn page_of<R: Abort + AllocGlobal>(rt: &R, sink: &MemSink) -> String {
    let page = str::from_utf8(sink.taken().as_slice()).expect(rt, "a page is text");
    String::from_str(rt.alloc(), page).expect(rt, "memory")
}

/// Makes a run on this device.
pub(crate) fn run_on<R: Abort + AllocGlobal, D: Disk>(
    rt: &R,
    case: &Case<'_>,
    device: D,
) -> Left<D> {
    let mut shelf = shelf_of(rt, case);
    let mut sink = sink_of(rt, case);
    let words = words_of(rt, case);
    let disk = Fuse::new(rt.alloc(), device);
    let ended = top_plain(rt.alloc(), words.as_slice(), &mut shelf, &mut sink, disk);
    Left {
        outcome: ended.outcome,
        page: page_of(rt, &sink),
        device: ended.disk.inner(),
    }
}

/// Checks what a run came to.
fn comes_to<R: Abort>(rt: &R, case: &Case<'_>, left: &Left<MemDisk>, outcome: Outcome) {
    assert_eq!(rt; left.outcome, outcome, "{} {:?}", case.cluster, case.script);
}

/// Checks that a run wrote a page of these parts.
fn wrote<R: Abort + AllocGlobal>(rt: &R, case: &Case<'_>, left: &Left<MemDisk>, parts: &[&str]) {
    let wanted = joined(rt, parts);
    assert_eq!(rt; left.page.as_str(), wanted.as_str(), "{:?}", case.script);
}

/// Makes a run, and checks what it comes to.
pub(crate) fn ends<R: Abort + AllocGlobal>(
    rt: &R,
    case: &Case<'_>,
    outcome: Outcome,
) -> Left<MemDisk> {
    let left = run_on(rt, case, device_of(rt, case.device));
    comes_to(rt, case, &left, outcome);
    left
}

/// Makes a run, checks what it comes to and its page, and gives back the device.
pub(crate) fn leaves<R: Abort + AllocGlobal>(
    rt: &R,
    case: &Case<'_>,
    outcome: Outcome,
    page: &[&str],
) -> MemDisk {
    let left = ends(rt, case, outcome);
    wrote(rt, case, &left, page);
    left.device
}

/// Makes a run to its end, and checks its page.
pub(crate) fn writes<R: Abort + AllocGlobal>(rt: &R, case: &Case<'_>, page: &[&str]) {
    let _device = leaves(rt, case, Outcome::Done, page);
}

/// What the store of a device lists.
pub(crate) fn listed<R: Abort + AllocGlobal>(rt: &R, device: MemDisk) -> String {
    let case = Case {
        words: &["store"],
        ..plain(&[])
    };
    let left = run_on(rt, &case, device);
    comes_to(rt, &case, &left, Outcome::Done);
    left.page
}

/// Checks what the store of a device keeps.
pub(crate) fn keeps<R: Abort + AllocGlobal>(rt: &R, device: MemDisk, page: &str) {
    let list = listed(rt, device);
    assert_eq!(rt; list.as_str(), page);
}

/// Checks that a device begins with these bytes, in parts, and has zeros behind them up to the fortieth.
pub(crate) fn begins<R: Abort + AllocGlobal>(rt: &R, device: MemDisk, wanted: &[&[u8]]) {
    let mut device = device;
    let wanted = flattened(rt, wanted);
    assert!(rt; device.size() >= 40);
    let mut bytes = [255; 40];
    device.read(0, &mut bytes).expect(rt, "a read");
    for (place, byte) in bytes.iter().enumerate() {
        let is_so = *byte == *wanted.get(place).unwrap_or(&0);
        assert!(rt; is_so, "byte {place} is {byte}");
    }
}

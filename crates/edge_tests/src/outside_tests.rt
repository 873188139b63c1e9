//! What no clause says: that calls succeed, what a shelf reads of files, in memory and of the system, and how often
//! an output is asked.
use crate::helpers::{bytes_of, push, text, wants};
use rm_outside::{
    FileShelf, MOST_READ, MemShelf, MemSink, NamedFile, OutSink, Shelf, ShelfError, Sink,
    StandardDescriptors, Written, write_all,
};
use rm_types::Items;
use std::cell::Cell;
use std::fmt::Display;
use std::fs::OpenFile;
use std::io::ErrorKind;
use std::process::Abort;
use std::rt::Files;
use std::{fs, io};

/// A file `input` with these bytes.
fn input<R: Abort + AllocGlobal>(rt: &R, bytes: &[u8]) -> NamedFile {
    NamedFile {
        name: text(rt, "input"),
        bytes: Items::from_vec(bytes_of(rt, bytes)),
    }
}

/// A shelf that holds `input` and, under the same name, another file behind it.
fn shelf<R: Abort + AllocGlobal>(rt: &R, failing: Items<u64>) -> MemShelf {
    let mut files = Items::new(rt.alloc());
    push(rt, &mut files, input(rt, b"begin\n"));
    push(rt, &mut files, input(rt, b"other\n"));
    MemShelf::new(rt.alloc(), files, failing)
}

/// The number of a call that fails.
fn failing<R: Abort + AllocGlobal>(rt: &R, number: u64) -> Items<u64> {
    let mut numbers = Items::new(rt.alloc());
    push(rt, &mut numbers, number);
    numbers
}

/// Whether a read gave these bytes.
fn gives(read: Result<Vec<u8>, ShelfError>, want: &[u8]) -> bool {
    match read {
        Ok(bytes) => bytes.as_slice() == want,
        Err(_) => false,
    }
}

/// Whether a read failed.
fn failed(read: Result<Vec<u8>, ShelfError>) -> bool {
    matches!(read, Err(ShelfError::Failed))
}

#[test]
fn a_shelf_in_memory_gives_the_first_file_of_a_name(rt: HostRuntime) {
    let mut shelf = shelf(&rt, Items::new(rt.alloc()));
    wants(&rt, gives(shelf.read("input"), b"begin\n"));
    wants(&rt, failed(shelf.read("output")));
}

#[test]
fn a_shelf_in_memory_fails_at_its_first_call(rt: HostRuntime) {
    let mut shelf = shelf(&rt, failing(&rt, 1));
    wants(&rt, failed(shelf.read("input")));
    wants(&rt, gives(shelf.read("input"), b"begin\n"));
}

/// Writes a file of the system.
fn put<R: Abort + Files>(rt: &R, name: &str, bytes: &str) {
    fs::write(rt, name, bytes).expect(rt, name);
}

fn remove<R: Abort + Files>(rt: &R, name: &str) {
    fs::remove_file(rt, name).expect(rt, name);
}

#[test]
fn a_shelf_of_files_reads_those_named_and_counts_a_missing_one(rt: HostRuntime) {
    put(&rt, "input", "begin\n");
    let mut shelf = FileShelf::new(rt);
    wants(&rt, gives(shelf.read("input"), b"begin\n"));
    put(&rt, "other", "other\n");
    wants(&rt, gives(shelf.read("other"), b"other\n"));
    wants(&rt, gives(shelf.read("input"), b"begin\n"));
    remove(&rt, "other");
    wants(&rt, shelf.faults() == 0);
    wants(&rt, shelf.answered() == 3);
    wants(&rt, failed(shelf.read("output")));
    wants(&rt, shelf.faults() == 1);
    remove(&rt, "input");
}

#[test]
fn a_shelf_of_files_keeps_what_it_read_last_and_why_it_failed(rt: HostRuntime) {
    put(&rt, "last", "begin\n");
    let mut shelf = FileShelf::new(rt);
    wants(&rt, shelf.last_read().is_empty());
    wants(&rt, gives(shelf.read("last"), b"begin\n"));
    remove(&rt, "last");
    wants(&rt, failed(shelf.read("last")));
    wants(&rt, shelf.last_read() == b"begin\n".as_slice());
    wants(&rt, is_missing(shelf.last_fault()));
}

/// Whether a fault is that a file isn't there.
fn is_missing(fault: Option<&io::Error>) -> bool {
    match fault {
        Some(error) => error.kind() == ErrorKind::NotFound,
        None => false,
    }
}

/// Whether a file takes nothing.
fn takes_nothing<F: io::Write>(file: &mut F) -> bool {
    file.write(b"text").is_err()
}

#[test]
fn the_standard_descriptors_are_taken_for_reading_alone(rt: HostRuntime) {
    let mut held = StandardDescriptors::take(&rt).expect(&rt, "descriptors");
    wants(&rt, takes_nothing(held.output()));
}

/// Makes a file of zeros.
fn put_zeros<R: Abort + Files>(rt: &R, name: &str, count: u64) {
    let file = fs::create(rt, name).expect(rt, name);
    file.set_len(count).expect(rt, name);
}

#[test]
fn a_file_too_long_is_read_up_to_one_byte_past_the_longest(rt: HostRuntime) {
    put_zeros(&rt, "input", MOST_READ as u64 + 1);
    let mut shelf = FileShelf::new(rt);
    let bytes = shelf.read("input").expect(&rt, "input");
    wants(&rt, bytes.len() == MOST_READ);
    remove(&rt, "input");
}

/// Whether the sink took these bytes so far.
fn took(sink: &MemSink, bytes: &[u8]) -> bool {
    sink.taken().as_slice() == bytes
}

#[test]
fn a_sink_in_memory_takes_pieces(rt: HostRuntime) {
    let mut sink = MemSink::new(rt.alloc(), Items::new(rt.alloc()), 10);
    let written = write_all(&mut sink, b"twenty-five bytes of text");
    wants(&rt, written == Written::All);
    wants(&rt, sink.write(b"!") == Ok(1));
    wants(&rt, took(&sink, b"twenty-five bytes of text!"));
}

#[test]
fn a_failing_second_write_leaves_the_first_piece(rt: HostRuntime) {
    let mut sink = MemSink::new(rt.alloc(), failing(&rt, 2), 10);
    let written = write_all(&mut sink, b"0123456789abc");
    wants(&rt, written == Written::Fault);
    wants(&rt, took(&sink, b"0123456789"));
}

#[test]
fn a_sink_that_takes_nothing(rt: HostRuntime) {
    let mut sink = MemSink::new(rt.alloc(), Items::new(rt.alloc()), 0);
    wants(&rt, write_all(&mut sink, b"text") == Written::Nothing);
    wants(&rt, write_all(&mut sink, b"") == Written::All);
    wants(&rt, sink.write(b"text") == Ok(0));
    wants(&rt, sink.taken().is_empty());
}

#[test]
fn the_standard_output_takes_a_short_piece(rt: HostRuntime) {
    let mut sink = OutSink::new(rt);
    wants(&rt, sink.write(b"") == Ok(0));
    wants(&rt, write_all(&mut sink, b"short\n") == Written::All);
}

/// What an output was asked for, and took.
#[derive(Drop)]
struct Taken {
    calls: Cell<u32>,
    /// How many of the next calls are interrupted.
    interruptions: Cell<u32>,
    /// The bytes, as a number with the base 256.
    bytes: Cell<u64>,
}

/// An output that takes two bytes at a time.
#[derive(Drop)]
struct TwoBytes<'a> {
    taken: &'a Taken,
}

impl Print for TwoBytes<'_> {
    fn print<D: Display + Drop>(&self, _value: D) -> io::Result<()> {
        Err(io::Error::from(ErrorKind::Unsupported))
    }

    fn println<D: Display + Drop>(&self, _value: D) -> io::Result<()> {
        Err(io::Error::from(ErrorKind::Unsupported))
    }

    fn write_all(&self, _bytes: &[u8]) -> io::Result<()> {
        Err(io::Error::from(ErrorKind::Unsupported))
    }

    fn write_some(&self, bytes: &[u8]) -> io::Result<usize> {
        self.taken
            .calls
            .set(self.taken.calls.get().saturating_add(1));
        let interruptions = self.taken.interruptions.get();
        if interruptions > 0 {
            self.taken.interruptions.set(interruptions - 1);
            return Err(io::Error::from(ErrorKind::Interrupted));
        }
        let count = bytes.len().min(2);
        for byte in &bytes[..count] {
            let before = self.taken.bytes.get();
            self.taken
                .bytes
                .set(before.wrapping_mul(256).wrapping_add(u64::from(*byte)));
        }
        Ok(count)
    }
}

#[test]
fn the_standard_output_takes_each_byte_once(rt: HostRuntime) {
    let taken = Taken {
        calls: Cell::new(0),
        interruptions: Cell::new(2),
        bytes: Cell::new(0),
    };
    let mut sink = OutSink::new(TwoBytes { taken: &taken });
    wants(&rt, write_all(&mut sink, b"abcde") == Written::All);
    wants(&rt, taken.bytes.get() == 0x61_62_63_64_65);
    wants(&rt, taken.calls.get() == 5);
}

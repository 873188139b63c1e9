//! The device that tells how far a run has come: that it is the device inside, and what it tells.

use crate::cases::{numbers, wants};
use rm_disk::{Disk, DiskError, FileDisk, Fuse, MemDisk};
use rm_main::Watched;
use std::alloc::Global;
use std::cell::Cell;
use std::fmt::Display;
use std::io;
use std::io::{ErrorKind, IsTerminal};
use std::process::Abort;

/// A standard error that keeps what it is given, and yet answers that nothing can be written.
#[derive(Drop)]
struct Page {
    alloc: Global,
    text: Cell<String>,
}

impl Eprint for Page {
    fn eprint<D: Display + Drop>(&self, value: D) -> io::Result<()> {
        let before = self.text.replace(String::new(self.alloc));
        self.text.set(format!(in self.alloc; "{before}{value}")?);
        Err(io::Error::from(ErrorKind::BrokenPipe))
    }

    fn eprintln<D: Display + Drop>(&self, value: D) -> io::Result<()> {
        self.eprint(format_args!("{value}\n"))
    }
}

/// A device of four bytes that fails at the calls of these numbers.
fn device<R: Abort + AllocGlobal>(rt: &R, failing: &[u64]) -> MemDisk {
    MemDisk::new(rt.alloc(), 4, numbers(rt, failing)).expect(rt, "memory")
}

#[test]
fn a_watched_disk_is_the_disk_inside(rt: HostRuntime) {
    let mut watched = Watched::new(device(&rt, &[]), rt, "program", false);
    assert!(rt; watched.size() == 4);
    wants(&rt, watched.write(1, &[7, 8]) == Ok(()));
    wants(&rt, watched.sync() == Ok(()));
    watched.fall(0);
    assert!(rt; watched.size() == 4);
    let mut bytes = [1; 4];
    wants(&rt, watched.read(0, &mut bytes) == Ok(()));
    assert!(rt; bytes == [0, 7, 8, 0]);
    let mut inner = watched.inner();
    assert!(rt; inner.size() == 4);
    wants(&rt, inner.read(1, &mut bytes[..2]) == Ok(()));
    wants(&rt, bytes == [7, 8, 8, 0]);
}

/// Checks what a page was given since the last time.
fn is_told<R: Abort>(rt: &R, page: &Page, wanted: &str) {
    let told = page.text.replace(String::new(page.alloc));
    assert_eq!(rt; told.as_str(), wanted);
}

/// Opens a gate of a device of four bytes, and checks what the sync behind that answers.
fn opens<R: Abort, D: Disk>(rt: &R, device: &mut D, gate: u64, wanted: Result<(), DiskError>) {
    assert!(rt; device.size() == 4 && gate < 4);
    wants(rt, device.write(gate, &[1]) == Ok(()));
    assert_eq!(rt; device.sync(), wanted, "gate {gate}");
}

// The first gates of both areas stand at 0 and 2, and the sync of the first operation fails.
#[test]
fn a_line_is_told_at_each_thousand_operations(rt: HostRuntime) {
    let page = Page {
        alloc: rt.alloc(),
        text: Cell::new(String::new(rt.alloc())),
    };
    let mut watched = Watched::new(device(&rt, &[6]), &page, "program", true);
    opens(&rt, &mut watched, 0, Ok(()));
    opens(&rt, &mut watched, 2, Ok(()));
    opens(&rt, &mut watched, 3, Err(DiskError::DiskFault));
    for _ in 1..=999u32 {
        opens(&rt, &mut watched, 3, Ok(()));
    }
    is_told(&rt, &page, "");
    opens(&rt, &mut watched, 3, Ok(()));
    is_told(&rt, &page, "program: 1000 operations kept\n");
}

fn sends<D: Disk + Drop + Send>(_disk: &D) {}

/// A device that is watched under a fuse may change threads; it is given back.
fn changes_threads<D: Disk + Drop + Send, R: Eprint + Drop + Send>(
    alloc: Global,
    device: D,
    rt: R,
    tells: bool,
) -> D {
    let fuse = Fuse::new(alloc, Watched::new(device, rt, "program", tells));
    sends(&fuse);
    fuse.inner().inner()
}

// A file that was not asked for anything has no fault behind it.
#[test]
fn a_watched_disk_under_a_fuse_may_change_threads(rt: HostRuntime) {
    let _memory = changes_threads(rt.alloc(), device(&rt, &[]), rt, false);
    let tells = rt.stderr().is_terminal();
    let file = changes_threads(rt.alloc(), FileDisk::new(&rt, "none"), &rt, tells);
    wants(&rt, file.last_fault().is_none());
}

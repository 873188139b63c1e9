//! What no clause says: that the calls of two areas succeed, and what a disk of them holds after each.
ghost use Rattle.std.specs.Prelude.{◌≡◌, ◌≤◌, None};
ghost use Rattle.rm_journal.specs.two_areas.Areas.{AreasInvariant};
ghost use Rattle.rm_journal.specs.two_areas.Reading.{IsReading};

use crate::helpers::{filled, wants};
use rm_disk::Disk;
use rm_formats::GENERATION_RECORD;
use rm_journal::two_areas::{Areas, Reading};
use std::alloc::Global;
use std::process::Abort;

/// The areas of a disk.
fn opened<R: Abort, D: Disk>(rt: &R, alloc: Global, disk: &mut D) -> Areas
    ensures { AreasInvariant (D.view disk.new) result }
{
    Areas::open(alloc, disk).expect(rt, "areas")
}

/// A payload is written anew into the other area, which takes over.
fn write_anew<R: Abort, D: Disk>(rt: &R, disk: &mut D, areas: &mut Areas, payload: &[u8; 3])
    requires { AreasInvariant (D.view disk.old) areas.old }
    ensures stands { AreasInvariant (D.view disk.new) areas.new }
    ensures live { 1 ≤ areas.new.generation }
    ensures no_build { areas.new.build ≡ None }
{
    assert!(rt; areas.half() > GENERATION_RECORD && areas.generation() < u64::MAX);
    areas.begin(disk).expect(rt, "begun");
    areas.add(disk, payload).expect(rt, "added");
    areas.finish(disk).expect(rt, "finished");
}

/// A payload is added to the current area.
fn append<R: Abort, D: Disk>(rt: &R, disk: &mut D, areas: &mut Areas, payload: &[u8; 3])
    requires stands { AreasInvariant (D.view disk.old) areas.old }
    requires live { 1 ≤ areas.old.generation }
    requires no_build { areas.old.build ≡ None }
    ensures { AreasInvariant (D.view disk.new) areas.new }
{
    areas.append(disk, payload).expect(rt, "appended");
}

/// The next payload that is read is this one.
fn reads<R: Abort, D: Disk>(
    rt: &R,
    disk: &mut D,
    reading: &mut Reading,
    out: &mut Vec<u8>,
    wanted: &[u8; 3],
)
    requires { IsReading (D.view disk.old) reading.old }
    ensures { IsReading (D.view disk.new) reading.new }
{
    wants(
        rt,
        reading.next(disk, out).expect(rt, "a payload").is_some(),
    );
    wants(rt, out.as_slice() == wanted.as_slice());
}

/// No payload is read any more.
fn ends<R: Abort, D: Disk>(rt: &R, disk: &mut D, reading: &mut Reading, out: &mut Vec<u8>)
    requires { IsReading (D.view disk.old) reading.old }
{
    wants(rt, reading.next(disk, out).expect(rt, "an end").is_none());
}

fn reading<R: Abort, D: Disk>(rt: &R, alloc: Global, disk: &mut D) -> Reading
    ensures { IsReading (D.view disk.new) result }
{
    Reading::start(alloc, disk).expect(rt, "areas")
}

/// A disk holds this payload alone.
fn holds_one<R: Abort, D: Disk>(rt: &R, alloc: Global, disk: &mut D, one: &[u8; 3]) {
    let mut out = Vec::new(alloc);
    let mut walk = reading(rt, alloc, disk);
    reads(rt, disk, &mut walk, &mut out, one);
    ends(rt, disk, &mut walk, &mut out);
}

/// A disk holds these payloads.
fn holds_two<R: Abort, D: Disk>(rt: &R, alloc: Global, disk: &mut D, one: &[u8; 3], two: &[u8; 3]) {
    let mut out = Vec::new(alloc);
    let mut walk = reading(rt, alloc, disk);
    reads(rt, disk, &mut walk, &mut out, one);
    reads(rt, disk, &mut walk, &mut out, two);
    ends(rt, disk, &mut walk, &mut out);
}

#[test]
fn what_was_built_is_held_with_what_is_appended(rt: HostRuntime) {
    let mut disk = filled(&rt, rt.alloc(), 0, 100, &[]);
    let mut areas = opened(&rt, rt.alloc(), &mut disk);
    wants(&rt, areas.generation() == 0 && areas.room() == 0);
    write_anew(&rt, &mut disk, &mut areas, b"one");
    append(&rt, &mut disk, &mut areas, b"two");
    wants(
        &rt,
        areas.generation() == 1 && areas.room() == 50 - 13 - 8 - 8,
    );
    holds_two(&rt, rt.alloc(), &mut disk, b"one", b"two");
}

#[test]
fn what_is_built_takes_the_place_of_what_stood(rt: HostRuntime) {
    let mut disk = filled(&rt, rt.alloc(), 0, 100, &[]);
    let mut areas = opened(&rt, rt.alloc(), &mut disk);
    write_anew(&rt, &mut disk, &mut areas, b"one");
    write_anew(&rt, &mut disk, &mut areas, b"two");
    wants(&rt, areas.generation() == 2);
    holds_one(&rt, rt.alloc(), &mut disk, b"two");
}

ghost use Rattle.std.specs.Prelude.{◌≡◌, ◌⊎◌, map, string_bytes, None, false};
ghost use Rattle.rm_types.specs.Counts.{Rose};
ghost use Rattle.rm_main.specs.Complete.{HasPlaceFor, IsAccepted, ScheduleIsFollowed, NoneRose};
ghost use Rattle.rm_main.specs.Made.{LeavesDevice, StaysStore, made_by};
ghost use Rattle.rm_main.specs.Runs.{StopsBefore, WritesPage};
ghost use Rattle.rm_main.specs.modes.{CallEnds, ReadsFor, page_for};
ghost use Rattle.rm_words.specs.Words.{has_flags, mode_of, shows_moves};

use crate::ended::{Ended, nothing};
use crate::modes::top_line;
use rm_disk::{Disk, Fuse};
use rm_outside::{Shelf, Sink};
use rm_types::{NoMemory, Outcome};
use rm_words::command_line;
use rm_workers::Gate;
use std::alloc::Global;
use std::sync::Wait;
use std::thread::Threads;

/// Does what the words say, over a device under a fuse that isn't armed. `threads CLUSTER SCRIPT` reads the cluster file and
/// the script by these names, runs the script by seven workers for each life, in threads of the runtime, which call the gate
/// between their steps, and writes the page of the run to the sink; every other mode is `top_plain`'s.
///
/// It promises all that `top_plain` does, `threads` among the words, where it returns: that it does so is not promised of
/// `threads`. Whatever the schedule of the threads, the log of such a run is lawful for the settings and the script of the two files,
/// each entry of it is of a lane that was ready then, and each life that went down did so at rest, unless it was blown. No
/// `ScheduleRefused` comes of it.
pub fn top<R: Threads + Wait + Sync, F: Shelf, K: Sink, D: Disk + Drop + Send, G: Gate + Sync>(
    rt: &R,
    alloc: Global,
    words: &[String],
    shelf: &mut F,
    sink: &mut K,
    disk: Fuse<D>,
    gate: &G,
) -> Ended<D>
    requires { disk.armed ≡ None }
    ensures ends { CallEnds D.view (F.bytes_of shelf.old) (mode_of (map string_bytes words.now)) (made_by disk result) result.outcome }
    ensures complete { IsAccepted (F.bytes_of shelf.old) (mode_of (map string_bytes words.now)) → HasPlaceFor D.view (F.bytes_of shelf.old) (mode_of (map string_bytes words.now)) (made_by disk result)
        → ScheduleIsFollowed (F.bytes_of shelf.old) (mode_of (map string_bytes words.now)) (made_by disk result)
        → NoneRose (F.faults shelf.old) (F.faults shelf.new) (K.faults sink.old) (K.faults sink.new) (K.idle sink.old) (K.idle sink.new)
        → (result.outcome ≡ Outcome.Done) ⊎ (result.outcome ≡ Outcome.Memory) }
    ensures flags { has_flags (map string_bytes words.now) ≡ false → result.outcome ≡ Outcome.Usage }
    ensures reads { ReadsFor F.reads (F.bytes_of shelf.old) (mode_of (map string_bytes words.now)) result.outcome shelf.old shelf.new }
    ensures writes { WritesPage K.taken K.faults K.idle sink.old sink.new (page_for (shows_moves (map string_bytes words.now)) (mode_of (map string_bytes words.now)) result.opening result.log) result.outcome }
    ensures read_fault { result.outcome ≡ Outcome.ReadFault → Rose (F.faults shelf.old) (F.faults shelf.new) }

    // What becomes of the device.
    ensures unused { StopsBefore result.outcome → result.disk ≡ disk }
    ensures device { LeavesDevice D.view (made_by disk result) }
    ensures store { StaysStore D.view (made_by disk result) result.outcome }
{
    match command_line(alloc, words) {
        Ok(Some(line)) => top_line(rt, alloc, line, shelf, sink, disk, gate),
        Ok(None) => nothing(alloc, Outcome::Usage, disk),
        Err(NoMemory) => nothing(alloc, Outcome::Memory, disk),
    }
}

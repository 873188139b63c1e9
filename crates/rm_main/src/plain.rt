ghost use Rattle.std.specs.Prelude.{◌≡◌, ◌⊎◌, map, string_bytes, None, false};
ghost use Rattle.rm_types.specs.Counts.{Rose};
ghost use Rattle.rm_main.specs.Complete.{HasPlaceFor, IsAccepted, ScheduleIsFollowed, NoneRose};
ghost use Rattle.rm_main.specs.Made.{LeavesDevice, StaysStore, made_by};
ghost use Rattle.rm_main.specs.Runs.{StopsBefore, WritesPage};
ghost use Rattle.rm_main.specs.modes.{CallEnds, ReadsFor, page_for};
ghost use Rattle.rm_words.specs.Words.{has_flags, plain_mode_of, shows_moves};

use crate::ended::{Ended, nothing};
use crate::modes::plain_line;
use rm_disk::{Disk, Fuse};
use rm_outside::{Shelf, Sink};
use rm_types::{NoMemory, Outcome};
use rm_words::command_line;
use std::alloc::Global;

/// Does what the words say without threads, over a device under a fuse that isn't armed. `plain CLUSTER SCRIPT` reads the
/// cluster file and the script by these names, runs the script and writes the page of the run to the sink;
/// `replay CLUSTER SCRIPT SCHEDULE` does so by the letters of the schedule's file; `soak N` runs a script made from the number N
/// and writes one line about it; `store` writes what the device's store keeps.
///
/// - `ends`: by the outcome, what was run. The log of a run is lawful for the settings and the script of the
///   two files, over what the device held; each move was of the lane that the schedule's letter or, after the last one,
///   the plain policy says; by `plain` each life that went down did so at rest, unless it was blown; each let the device
///   fall as its crash says; and the log meets the laws of `rm_laws`. The log is empty where nothing was run. `Done`: the script is at its end, nothing awaits and nothing is owed. `Usage`: exactly
///   where the words are of another form, and `threads CLUSTER SCRIPT` is; to read them takes memory. `ClusterRefused` and `ScriptRefused`: exactly where the file, as the
///   shelf tells it, breaks a rule or is no script, with the first rule's place or the first line; the cluster
///   file is read first. `DiskFault`: the device inside the fuse counted a fault, while a life was due or an
///   operation was with the store. `StoreDamaged`: the first life was due, and the device holds no store, at
///   the offset of a fault that the store names. `StoreFull`: the operation that is with the store needs more
///   than is left behind what is kept. `EpochsSpent`: a life was due, and no epoch or stamp is left. `Memory`
///   is free. `ScheduleRefused`: exactly where a letter of the schedule is reached that is unknown or whose lane isn't
///   ready, with its byte. Of a script without lives no call of the device is made.
/// - `flags`: to words with a flag that is unknown or repeated the answer is `Usage`, whatever memory there is.
/// - `complete`: where the files are accepted, the device held a store, an epoch and a stamp are left at each start, an operation
///   that is handed has room, each letter of the schedule is known and ready, and no count rises, the outcome is `Done` or
///   `Memory`; of `soak` and `store` as far as it speaks of them.
/// - `reads`: the cluster file was read, and then the script's file, and then the schedule's, or fewer of them in this
///   order; else no file. Where memory ran out before the words were read, none was.
/// - `writes`: the sink took the page of the log, or of `store` the page of what is kept; after a
///   `WriteFault` or `Memory` a beginning of it; where nothing was run, nothing. Where that page is empty, the sink is as
///   it was. A `WriteFault` comes only where one of the sink's counts rose, that of faults, or that of idle writes; and by
///   `read_fault` a `ReadFault` only where the shelf's count of faults did.
/// - `unused`: where the words or a file stop the call, the device is as it was. `device`, for every outcome
///   (`LeavesDevice`): it fell only while its fuse was armed, it has its size, and the fuse is given back unarmed; a device on
///   which something was logged held the opening list; where nothing was logged, and so by `store`, no byte of it changed; at
///   each moment of the call a crash left what could be left of the handed device, or what is kept at some moment of the log,
///   or this and the operation that awaited; and where something was logged it leaves now what is kept, or this and the
///   operation that awaits. `store`: a device that holds a store isn't found damaged, nor full where nothing was logged, and what
///   a crash leaves of it then opens again.
pub fn top_plain<F: Shelf, K: Sink, D: Disk>(
    alloc: Global,
    words: &[String],
    shelf: &mut F,
    sink: &mut K,
    disk: Fuse<D>,
) -> Ended<D>
    requires { disk.armed ≡ None }
    ensures ends { CallEnds D.view (F.bytes_of shelf.old) (plain_mode_of (map string_bytes words.now)) (made_by disk result) result.outcome }
    ensures complete { IsAccepted (F.bytes_of shelf.old) (plain_mode_of (map string_bytes words.now)) → HasPlaceFor D.view (F.bytes_of shelf.old) (plain_mode_of (map string_bytes words.now)) (made_by disk result)
        → ScheduleIsFollowed (F.bytes_of shelf.old) (plain_mode_of (map string_bytes words.now)) (made_by disk result)
        → NoneRose (F.faults shelf.old) (F.faults shelf.new) (K.faults sink.old) (K.faults sink.new) (K.idle sink.old) (K.idle sink.new)
        → (result.outcome ≡ Outcome.Done) ⊎ (result.outcome ≡ Outcome.Memory) }
    ensures flags { has_flags (map string_bytes words.now) ≡ false → result.outcome ≡ Outcome.Usage }
    ensures reads { ReadsFor F.reads (F.bytes_of shelf.old) (plain_mode_of (map string_bytes words.now)) result.outcome shelf.old shelf.new }
    ensures writes { WritesPage K.taken K.faults K.idle sink.old sink.new (page_for (shows_moves (map string_bytes words.now)) (plain_mode_of (map string_bytes words.now)) result.opening result.log) result.outcome }
    ensures read_fault { result.outcome ≡ Outcome.ReadFault → Rose (F.faults shelf.old) (F.faults shelf.new) }

    // What becomes of the device.
    ensures unused { StopsBefore result.outcome → result.disk ≡ disk }
    ensures device { LeavesDevice D.view (made_by disk result) }
    ensures store { StaysStore D.view (made_by disk result) result.outcome }
{
    match command_line(alloc, words) {
        Ok(Some(line)) => plain_line(alloc, line, shelf, sink, disk),
        Ok(None) => nothing(alloc, Outcome::Usage, disk),
        Err(NoMemory) => nothing(alloc, Outcome::Memory, disk),
    }
}

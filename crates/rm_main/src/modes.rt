//! The modes: each is a module with one call, whose clause is its own (`specs/modes`), and a line of the two functions here, by which a
//! command line comes to it.
ghost use Rattle.std.specs.Prelude.{◌≡◌, None, Some};
ghost use Rattle.rm_types.specs.Counts.{Rose};
ghost use Rattle.rm_main.specs.Made.{LeavesDevice, made_by};
ghost use Rattle.rm_main.specs.Runs.{StopsBefore, WritesPage};
ghost use Rattle.rm_main.specs.modes.{CallEnds, ReadsFor, page_for};
ghost use Rattle.rm_words.specs.Words.{IsWithinSoak, asked, without_threads};

mod listing;
mod run;
mod soak;
mod workers;

use crate::ended::{Ended, nothing};
use crate::inputs::Files;
use listing::list;
use rm_disk::{Disk, Fuse};
use rm_outside::{Shelf, Sink};
use rm_types::Outcome;
use rm_words::{CommandLine, Mode};
use rm_workers::{Gate, Workers};
use run::run_files;
use soak::soak;
use std::alloc::Global;
use std::sync::Wait;
use std::thread::Threads;
use workers::{by_workers, run_files_by_workers};

/// Does what a command line asks for, on one thread: a run by workers is none of it.
pub(crate) fn plain_line<F: Shelf, K: Sink, D: Disk>(
    alloc: Global,
    line: CommandLine<'_>,
    shelf: &mut F,
    sink: &mut K,
    disk: Fuse<D>,
) -> Ended<D>
    requires within { IsWithinSoak line.mode }
    requires unarmed { disk.armed ≡ None }
    ensures ends { CallEnds D.view (F.bytes_of shelf.old) (without_threads (Some (asked line.entry.mode))) (made_by disk result) result.outcome }
    ensures reads { ReadsFor F.reads (F.bytes_of shelf.old) (without_threads (Some (asked line.entry.mode))) result.outcome shelf.old shelf.new }
    ensures writes { WritesPage K.taken K.faults K.idle sink.old sink.new (page_for line.entry.shows_moves (without_threads (Some (asked line.entry.mode))) result.opening result.log) result.outcome }
    ensures read_fault { result.outcome ≡ Outcome.ReadFault → Rose (F.faults shelf.old) (F.faults shelf.new) }
    ensures unused { StopsBefore result.outcome → result.disk ≡ disk }
    ensures device { LeavesDevice D.view (made_by disk result) }
{
    match line.mode {
        Mode::Plain { cluster, script } => {
            let files = Files {
                cluster,
                script,
                schedule: None,
            };
            run_files(alloc, files, line.shows_moves, shelf, sink, disk)
        }
        Mode::Replay {
            cluster,
            script,
            schedule,
        } => {
            let files = Files {
                cluster,
                script,
                schedule: Some(schedule),
            };
            run_files(alloc, files, line.shows_moves, shelf, sink, disk)
        }
        Mode::Soak { number } => soak(alloc, number, sink, disk),
        Mode::Store => list(alloc, sink, disk),
        Mode::Threads { .. } => nothing(alloc, Outcome::Usage, disk),
    }
}

/// Does what a command line asks for: a run by workers in threads of the runtime, which call the gate between their steps, or what is done on one thread.
pub(crate) fn top_line<
    R: Threads + Wait + Sync,
    F: Shelf,
    K: Sink,
    D: Disk + Drop + Send,
    G: Gate + Sync,
>(
    rt: &R,
    alloc: Global,
    line: CommandLine<'_>,
    shelf: &mut F,
    sink: &mut K,
    disk: Fuse<D>,
    gate: &G,
) -> Ended<D>
    requires within { IsWithinSoak line.mode }
    requires unarmed { disk.armed ≡ None }
    ensures ends { CallEnds D.view (F.bytes_of shelf.old) (Some (asked line.entry.mode)) (made_by disk result) result.outcome }
    ensures reads { ReadsFor F.reads (F.bytes_of shelf.old) (Some (asked line.entry.mode)) result.outcome shelf.old shelf.new }
    ensures writes { WritesPage K.taken K.faults K.idle sink.old sink.new (page_for line.entry.shows_moves (Some (asked line.entry.mode)) result.opening result.log) result.outcome }
    ensures read_fault { result.outcome ≡ Outcome.ReadFault → Rose (F.faults shelf.old) (F.faults shelf.new) }
    ensures unused { StopsBefore result.outcome → result.disk ≡ disk }
    ensures device { LeavesDevice D.view (made_by disk result) }
{
    let Some((cluster, script)) = by_workers(line.mode) else {
        return plain_line(alloc, line, shelf, sink, disk);
    };
    let files = Files {
        cluster,
        script,
        schedule: None,
    };
    let workers = Workers::new(rt, gate);
    run_files_by_workers(&workers, alloc, files, line.shows_moves, shelf, sink, disk)
}

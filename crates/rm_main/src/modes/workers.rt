//! The mode `threads`: a script is run under a cluster file by workers in threads of their own, in whatever order these move.
ghost use Rattle.std.specs.Prelude.{◌≡◌, IfNone, IfSome, None, Some};
ghost use Rattle.rm_formats.specs.Page.{page};
ghost use Rattle.std.specs.Option.{option_copied};
ghost use Rattle.rm_types.specs.Counts.{Rose};
ghost use Rattle.rm_desk.specs.Scripts.{CanGoAlong};
ghost use Rattle.rm_queues.specs.Rules.{KeepsRules};
ghost use Rattle.rm_invariant.specs.messages.Ranges.{KeepsLimits};
ghost use Rattle.rm_workers.specs.AnyOrder.{any_order};
ghost use Rattle.rm_main.specs.Made.{LeavesDevice, made_by};
ghost use Rattle.rm_main.specs.Runs.{RanBy, StopsBefore, WritesPage};
ghost use Rattle.rm_main.specs.Ways.{IsOfRun};
ghost use Rattle.rm_main.specs.modes.RunClause.{RunEnds};
ghost use Rattle.rm_main.specs.modes.RunReads.{ReadsBy};
ghost use Rattle.rm_words.specs.Words.{Run, Workers as ByWorkers, asked, without_threads};

use crate::ended::{Ended, nothing};
use crate::inputs::{Files, Inputs, read_inputs};
use crate::writing::{Shown, outcome_of, write_shown};
use rm_disk::{Disk, Fuse};
use rm_outside::{Shelf, Sink};
use rm_types::Outcome;
use rm_words::Mode;
use rm_workers::{Gate, Workers, run_script};
use std::alloc::Global;
use std::sync::Wait;
use std::thread::Threads;

/// Makes a run of these inputs by workers in threads, and writes its page, with its moves or without. Its frame isn't there while
/// they are read.
#[inline(never)]
fn run_by_workers<R: Threads + Wait + Sync, G: Gate + Sync, K: Sink, D: Disk + Drop + Send>(
    workers: &Workers<'_, R, G>,
    alloc: Global,
    inputs: Inputs,
    moves: bool,
    sink: &mut K,
    disk: Fuse<D>,
) -> Ended<D>
    requires script { CanGoAlong inputs.script }
    requires queues { KeepsRules inputs.settings }
    requires limits { KeepsLimits inputs.settings }
    requires unarmed { disk.armed ≡ None }
    ensures ran { RanBy D.view any_order alloc inputs.settings inputs.script (made_by disk result) result.outcome }
    ensures of_run { IsOfRun result.outcome }
    ensures writes { WritesPage K.taken K.faults K.idle sink.old sink.new (page result.log moves) result.outcome }
    ensures device { LeavesDevice D.view (made_by disk result) }
{
    let Inputs {
        settings,
        script,
        schedule: _,
    } = inputs;
    let made = run_script(workers, alloc, settings, script, disk);
    let written = write_shown(alloc, sink, &made.log, Shown::Page { moves });
    Ended {
        outcome: outcome_of(made.ended, written),
        opening: made.opening,
        log: made.log,
        disk: made.disk,
    }
}

/// Reads the files of a run by their names, makes the run by workers in threads, and writes its page, with its moves or
/// without.
pub(crate) fn run_files_by_workers<
    R: Threads + Wait + Sync,
    G: Gate + Sync,
    F: Shelf,
    K: Sink,
    D: Disk + Drop + Send,
>(
    workers: &Workers<'_, R, G>,
    alloc: Global,
    files: Files<'_>,
    moves: bool,
    shelf: &mut F,
    sink: &mut K,
    disk: Fuse<D>,
) -> Ended<D>
    requires { disk.armed ≡ None }
    ensures ends { RunEnds D.view (F.bytes_of shelf.old) files.entry.cluster.now files.entry.script.now (option_copied files.entry.schedule) ByWorkers (made_by disk result) result.outcome }
    ensures reads { ReadsBy F.reads (F.bytes_of shelf.old) files.entry.cluster.now files.entry.script.now (option_copied files.entry.schedule) result.outcome shelf.old shelf.new }
    ensures writes { WritesPage K.taken K.faults K.idle sink.old sink.new (page result.log moves) result.outcome }
    ensures read_fault { result.outcome ≡ Outcome.ReadFault → Rose (F.faults shelf.old) (F.faults shelf.new) }
    ensures unused { StopsBefore result.outcome → result.disk ≡ disk }
    ensures device { LeavesDevice D.view (made_by disk result) }
{
    match read_inputs(alloc, shelf, files) {
        Ok(inputs) => run_by_workers(workers, alloc, inputs, moves, sink, disk),
        Err(outcome) => nothing(alloc, outcome, disk),
    }
}

/// The names of the cluster file and of the script of a run by workers, where that is what a mode is.
pub(crate) fn by_workers(mode: Mode<'_>) -> Option<(&str, &str)>
    ensures some { IfSome result (λ names. asked mode.entry ≡ Run names.0.now names.1.now None ByWorkers) }
    ensures none { IfNone result (without_threads (Some (asked mode.entry)) ≡ Some (asked mode.entry)) }
{
    match mode {
        Mode::Threads { cluster, script } => Some((cluster, script)),
        _ => None,
    }
}

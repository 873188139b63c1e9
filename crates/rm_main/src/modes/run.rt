//! The modes `plain` and `replay`: a script is run under a cluster file on one thread, by the letters of a schedule and then by the plain policy.
ghost use Rattle.std.specs.Prelude.{◌≡◌, None};
ghost use Rattle.rm_formats.specs.Page.{page};
ghost use Rattle.std.specs.Option.{option_copied};
ghost use Rattle.rm_types.specs.Counts.{Rose};
ghost use Rattle.rm_desk.specs.Scripts.{CanGoAlong};
ghost use Rattle.rm_queues.specs.Rules.{KeepsRules};
ghost use Rattle.rm_invariant.specs.messages.Ranges.{KeepsLimits};
ghost use Rattle.rm_plain.specs.Schedule.{by_letters, steps_of};
ghost use Rattle.rm_main.specs.Made.{LeavesDevice, made_by};
ghost use Rattle.rm_main.specs.Runs.{RanBy, StopsBefore, WritesPage};
ghost use Rattle.rm_main.specs.Shown.{shown_in};
ghost use Rattle.rm_main.specs.Ways.{IsOfRun};
ghost use Rattle.rm_main.specs.modes.RunClause.{RunEnds};
ghost use Rattle.rm_main.specs.modes.RunReads.{ReadsBy};
ghost use Rattle.rm_words.specs.Words.{OneThread};

use crate::ended::{Ended, nothing};
use crate::inputs::{Files, Inputs, read_inputs};
use crate::writing::{Shown, outcome_of, write_shown};
use rm_disk::{Disk, Fuse};
use rm_outside::{Shelf, Sink};
use rm_plain::run_script;
use rm_types::Outcome;
use std::alloc::Global;

/// Makes a run of these inputs and writes what is to be shown of it.
pub(crate) fn run<K: Sink, D: Disk>(
    alloc: Global,
    inputs: Inputs,
    shown: Shown,
    sink: &mut K,
    disk: Fuse<D>,
) -> Ended<D>
    requires script { CanGoAlong inputs.script }
    requires queues { KeepsRules inputs.settings }
    requires limits { KeepsLimits inputs.settings }
    requires unarmed { disk.armed ≡ None }
    ensures ran { RanBy D.view (by_letters (steps_of inputs.schedule.items)) alloc inputs.settings inputs.script (made_by disk result) result.outcome }
    ensures of_run { IsOfRun result.outcome }
    ensures writes { WritesPage K.taken K.faults K.idle sink.old sink.new (shown_in shown result.log) result.outcome }
    ensures device { LeavesDevice D.view (made_by disk result) }
{
    let Inputs {
        settings,
        script,
        schedule,
    } = inputs;
    let made = run_script(alloc, settings, script, schedule.as_slice(), disk);
    let written = write_shown(alloc, sink, &made.log, shown);
    Ended {
        outcome: outcome_of(made.ended, written),
        opening: made.opening,
        log: made.log,
        disk: made.disk,
    }
}

/// Reads the files of a run by their names, makes the run, and writes its page, with its moves or without.
pub(crate) fn run_files<F: Shelf, K: Sink, D: Disk>(
    alloc: Global,
    files: Files<'_>,
    moves: bool,
    shelf: &mut F,
    sink: &mut K,
    disk: Fuse<D>,
) -> Ended<D>
    requires { disk.armed ≡ None }
    ensures ends { RunEnds D.view (F.bytes_of shelf.old) files.entry.cluster.now files.entry.script.now (option_copied files.entry.schedule) OneThread (made_by disk result) result.outcome }
    ensures reads { ReadsBy F.reads (F.bytes_of shelf.old) files.entry.cluster.now files.entry.script.now (option_copied files.entry.schedule) result.outcome shelf.old shelf.new }
    ensures writes { WritesPage K.taken K.faults K.idle sink.old sink.new (page result.log moves) result.outcome }
    ensures read_fault { result.outcome ≡ Outcome.ReadFault → Rose (F.faults shelf.old) (F.faults shelf.new) }
    ensures unused { StopsBefore result.outcome → result.disk ≡ disk }
    ensures device { LeavesDevice D.view (made_by disk result) }
{
    match read_inputs(alloc, shelf, files) {
        Ok(inputs) => run(alloc, inputs, Shown::Page { moves }, sink, disk),
        Err(outcome) => nothing(alloc, outcome, disk),
    }
}

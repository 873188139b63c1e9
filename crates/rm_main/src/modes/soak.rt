//! The mode `soak`: a script that is made from a number is run on one thread by the plain policy.
ghost use Rattle.std.specs.Prelude.{◌≡◌, ◌≤◌, [], IfOk, None};
ghost use Rattle.rm_desk.specs.Scripts.{CanGoAlong};
ghost use Rattle.rm_queues.specs.Rules.{KeepsRules};
ghost use Rattle.rm_invariant.specs.messages.Ranges.{KeepsLimits};
ghost use Rattle.rm_main.specs.Made.{LeavesDevice, made_by};
ghost use Rattle.rm_main.specs.Runs.{StopsBefore, WritesPage};
ghost use Rattle.rm_main.specs.modes.SoakClause.{SoakEnds};
ghost use Rattle.rm_soak.specs.Limits.{most_soaked};
ghost use Rattle.rm_soak.specs.Lines.{soak_page};
ghost use Rattle.rm_soak.specs.Scripts.{soak_of};
ghost use Rattle.rm_soak.specs.Settings.{soak_settings};

use crate::ended::{Ended, nothing};
use crate::inputs::Inputs;
use crate::modes::run::run;
use crate::writing::Shown;
use rm_disk::{Disk, Fuse};
use rm_outside::Sink;
use rm_soak::{soak_script, soak_settings};
use rm_types::{NoMemory, Outcome};
use std::alloc::Global;

/// What a soak of so many applications is made from.
fn soak_inputs(alloc: Global, number: u32) -> Result<Inputs, NoMemory>
    requires some { 1 ≤ number }
    requires few { number ≤ most_soaked }
    ensures settings { IfOk result (λ inputs. inputs.settings ≡ soak_settings) }
    ensures queues { IfOk result (λ inputs. KeepsRules inputs.settings) }
    ensures limits { IfOk result (λ inputs. KeepsLimits inputs.settings) }
    ensures script { IfOk result (λ inputs. inputs.script ≡ soak_of number) }
    ensures can_run { IfOk result (λ inputs. CanGoAlong inputs.script) }
    ensures schedule { IfOk result (λ inputs. inputs.schedule.items ≡ []) }
{
    Ok(Inputs {
        settings: soak_settings(alloc)?,
        script: soak_script(alloc, number)?,
        schedule: Vec::new(alloc),
    })
}

/// Makes the run of a soak of so many applications, and writes its line. Its frame isn't there while files are read.
#[inline(never)]
pub(crate) fn soak<K: Sink, D: Disk>(
    alloc: Global,
    number: u32,
    sink: &mut K,
    disk: Fuse<D>,
) -> Ended<D>
    requires some { 1 ≤ number }
    requires few { number ≤ most_soaked }
    requires unarmed { disk.armed ≡ None }
    ensures ends { SoakEnds D.view number (made_by disk result) result.outcome }
    ensures read { result.outcome ≡ Outcome.ReadFault → ⊥ }
    ensures writes { WritesPage K.taken K.faults K.idle sink.old sink.new (soak_page number result.log) result.outcome }
    ensures unused { StopsBefore result.outcome → result.disk ≡ disk }
    ensures device { LeavesDevice D.view (made_by disk result) }
{
    match soak_inputs(alloc, number) {
        Ok(inputs) => run(alloc, inputs, Shown::Line { number }, sink, disk),
        Err(NoMemory) => nothing(alloc, Outcome::Memory, disk),
    }
}

ghost use Rattle.std.specs.Prelude.{List};
ghost use Rattle.rm_types.specs.declared.operations.Op.{Op};
ghost use Rattle.rm_model.specs.Lawful.{Lawful};
ghost use Rattle.rm_core.specs.FinalStates.{AppEndsAreKept, AttemptEndsAreKept, FinalAppsStay, FinalAttemptsStay};
ghost use Rattle.rm_core.specs.Seen.{StandsFor};
ghost use Rattle.rm_core.specs.Spelled.{spelled};

use crate::manager::Core;

/// Whatever moves a core made, and whatever the store held before its first life, its log is lawful for the script that the log spells.
pub fn law_spelled(core: &Core)
    ensures { (opening : List Op) → StandsFor opening core.now → Lawful core.now.settings (spelled core.now.log) opening core.now.log }
{
    let _ = core.log();
}

/// No move within a life leads an application from a final state, or an attempt as long as it is the current one.
pub fn law_final_states()
    ensures applications { FinalAppsStay }
    ensures attempts { FinalAttemptsStay }
{}

/// By the moves within a life an application comes to a final state only from where its end is being saved, and its current attempt to
/// where it has ended likewise: so an end is told only once it is kept.
pub fn law_ends_are_kept()
    ensures applications { AppEndsAreKept }
    ensures attempts { AttemptEndsAreKept }
{}

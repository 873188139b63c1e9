ghost use Rattle.std.specs.Prelude.{◌≡◌, ◌≢◌, Err, is_ok};
ghost use Rattle.rm_tables.specs.declared.events.Refused.{Refused};

use rm_core::Refused;
use rm_types::NoMemory;

/// A refusal that isn't for an unready lane is for want of memory.
pub(crate) fn memory_only(moved: Result<(), Refused>) -> Result<(), NoMemory>
    requires { moved ≢ Err Refused.NotReady }
    ensures { is_ok result ≡ is_ok moved }
{
    match moved {
        Ok(()) => Ok(()),
        Err(Refused::Memory) => Err(NoMemory),
        Err(Refused::NotReady) => unreachable!(),
    }
}

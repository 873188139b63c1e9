ghost use Rattle.rm_lives.specs.Opens.{OpensAgain};

use rm_types::{Entry, Items, Op};

/// Whatever a run left on its device opens again: no bytes that hold what is kept after a log, or this and the operation that awaits
/// there, are a cause for which `Store::open` refuses them. Where it doesn't answer Ok, the device failed or memory ran out.
pub fn law_opens_again(opening: &Items<Op>, log: &Items<Entry>)
    ensures { OpensAgain opening.now log.now }
{
    let _ = opening;
    let _ = log;
}

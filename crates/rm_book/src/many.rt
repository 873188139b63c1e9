//! The lines of an attempt after many asks, as a copy.
ghost use Rattle.std.specs.Prelude.{◌≡◌, ◌+◌, ◌<◌, ◌^◌, length, IfOk};
ghost use Rattle.rm_book.specs.ManyAsks.{lines_after};

use crate::lines::set_line;
use rm_types::{Ask, AskLine, NoMemory};
use std::alloc::Global;

/// A copy of these lines in which these asks are set, one after the other, numbered from behind so many that were set before.
pub fn lines_after(
    alloc: Global,
    lines: &[AskLine],
    asks: &[Ask],
    asked: u64,
) -> Result<Vec<AskLine>, NoMemory>
    requires { asked + length asks.now < 2 ^ 64 }
    ensures { IfOk result (λ after. after.items ≡ lines_after asks.now asked lines.now) }
{
    let mut after = Vec::from_slice(alloc, lines)?;
    let mut order = asked;
    'asks: for ask in asks {
        order += 1;
        set_line(&mut after, *ask, order)?;
    }
    Ok(after)
}

ghost use Rattle.std.specs.Fmt.{decimal};
ghost use Rattle.rm_types.specs.Ranges.{IsText};
ghost use Rattle.rm_page.specs.Ranges.{IsWord32, IsWord64};
ghost use Rattle.rm_lines.specs.Results.{Finds, IsOf};

use rm_lines::{LineError, Part};
use rm_types::{Text, TextKind};
use std::alloc::Global;

/// The number of 64 bits that decimal digits write, with no zero before them.
pub(crate) fn long_number(text: &[u8]) -> Result<u64, LineError>
    ensures { Finds result (IsOf decimal IsWord64 text.now) }
{
    rm_lines::long_number(text, Part::Other, 0, u64::MAX)
}

/// The same of a number of 32 bits.
pub(crate) fn number(text: &[u8]) -> Result<u32, LineError>
    ensures { Finds result (IsOf decimal IsWord32 text.now) }
{
    rm_lines::number(text, Part::Other, 0, u32::MAX)
}

/// The text of a kind that the bytes are.
pub(crate) fn text(alloc: Global, bytes: &[u8], kind: TextKind) -> Result<Text, LineError>
    ensures { Finds result (IsOf (λ text. text) (IsText kind) bytes.now) }
{
    rm_lines::text(alloc, bytes, Part::Other, kind)
}

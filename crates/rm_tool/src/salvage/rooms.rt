ghost use Rattle.std.specs.Prelude.{◌≡◌, All, IfOk};
ghost use Rattle.rm_types.specs.Ranges.{IsOperation};
ghost use Rattle.rm_store.specs.Content.{room_for};

use rm_frame::Encoder;
use rm_store::compaction::fold;
use rm_store::room_of;
use rm_types::{Items, NoMemory, Op};
use std::alloc::Global;

/// How many bytes an area of this size has behind a generation's record and the records of what is left of these operations.
pub fn room_behind(alloc: Global, half: u64, ops: &Items<Op>) -> Result<u64, NoMemory>
    requires { All IsOperation ops.now }
    ensures { IfOk result (λ room. room ≡ room_for half ops.now) }
{
    let left = fold(alloc, ops)?;
    room_of(&mut Encoder::new(alloc), half, &left)
}

ghost use Rattle.std.specs.Prelude.{◌≡◌, ℕ, List, All, IfOk, IfErr, map};
ghost use Rattle.rm_page.proofs.Bytes.{cut};
ghost use Rattle.rm_lines.specs.Cuts.{HasNoComma};
ghost use Rattle.rm_lines.specs.Results.{Finds, IsOf};

use crate::errors::LineError;
use rm_types::Items;
use std::alloc::Global;

/// How an item of a list is read. A comma stands between each two items of a list.
pub trait Reading<T> {
    /// What it is written as.
    ghost text: { T → List ℕ };

    /// What holds of each item that is read.
    ghost is: { T → Type 0 };

    /// Reads an item.
    fn read(alloc: Global, bytes: &[u8]) -> Result<T, LineError>
        ensures { Finds result (IsOf text is bytes.now) };

    /// It can be told where its text ends in a list.
    ghost no_comma: { (item : T) → is item → HasNoComma (text item) };
}

/// The pieces of a text between the places of a byte.
pub fn pieces(alloc: Global, text: &[u8], byte: u8) -> Result<Vec<&[u8]>, LineError>
    ensures pieces { IfOk result (λ pieces. map (λ piece. piece.now) pieces.items ≡ cut byte text.now) }
    ensures memory { IfErr result (λ error. error ≡ LineError.Memory) }
{
    let pieces = text.split(|one| *one == byte).collect(alloc)?;
    Ok(pieces)
}

/// The items that the pieces of a list's text are.
pub fn items_of<R: Reading<T>, T: Drop>(
    alloc: Global,
    pieces: &[&[u8]],
) -> Result<Items<T>, LineError>
    ensures { Finds result (IsOf (map R.text) (All R.is) (map (λ piece. piece.now) pieces.now)) }
{
    let mut items = Items::new(alloc);
    'pieces: for piece in pieces {
        items.push(R::read(alloc, piece)?)?;
    }
    Ok(items)
}

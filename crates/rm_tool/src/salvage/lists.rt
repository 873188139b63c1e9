ghost use Rattle.std.specs.Prelude.{◌≡◌, ℕ, All, Err, IfOk, List, None};
ghost use Rattle.rm_types.specs.declared.operations.Op.{Op as AnyOp};
ghost use Rattle.rm_types.specs.Folded.{folded};
ghost use Rattle.rm_types.specs.Ranges.{IsOperation};
ghost use Rattle.rm_types.specs.Records.{stray};
ghost use Rattle.rm_tool.specs.declared.salvage.checks.Fault.{Fault as AnyFault};
ghost use Rattle.rm_tool.specs.salvage.Checks.{HasOldContent, IsOldFault};
ghost use Rattle.rm_tool.specs.salvage.Forms.{HasFirstFrame};
ghost use Rattle.rm_tool.specs.salvage.Fronts.{IsFront, IsStop};
ghost use Rattle.rm_tool.specs.salvage.Lists.{left_by};

use crate::salvage::checks::{Fault, journal_fault};
use crate::salvage::fixed::FixedDisk;
use crate::salvage::forms::Form;
use crate::salvage::fronts::{Salvaged, Stop, salvage};
use rm_store::compaction::fold;
use rm_types::{Items, NoMemory, Op};
use std::alloc::Global;
use thiserror::Error;

/// Why a store of the old form was not converted.
#[derive(Clone, Copy, Debug, Error)]
pub enum ConvertError {
    /// It doesn't begin with the record of an operation, so it is none of the old form, or an empty one.
    #[error("it is no store of the old form, or an empty one")]
    OtherForm,
    /// This is at fault in it.
    #[error("{fault}")]
    Faulty { fault: Fault },
    /// No memory was found.
    #[error("out of memory")]
    Memory,
}

impl From<NoMemory> for ConvertError {
    ghost use Rattle.rm_tool.specs.declared.salvage.lists.ConvertError.TheVariants.{Memory};

    ghost from_gives = { λ _ told. told ≡ Memory };

    fn from(_refused: NoMemory) -> Self {
        ConvertError::Memory
    }
}

/// What is left of the operations that a store of the old form holds, one journal over the whole of it. `OtherForm` comes only where it
/// doesn't begin with the record of an operation, and `Faulty` only where that is at fault in it; want of memory is free.
pub fn old_operations(alloc: Global, disk: &mut FixedDisk) -> Result<Items<Op>, ConvertError>
    ensures same { disk.new ≡ disk.old }
    ensures left { IfOk result (λ left. (ops : List AnyOp) × (HasOldContent disk.old ops × (left ≡ folded ops))) }
    ensures framed { IfOk result (All IsOperation) }
    ensures none_stray { IfOk result (λ left. stray left ≡ None) }
    ensures other_form { result ≡ Err ConvertError.OtherForm → HasFirstFrame disk.old → ⊥ }
    ensures faulty { (fault : AnyFault) → result ≡ Err (ConvertError.Faulty fault) → IsOldFault disk.old fault }
{
    let Salvaged {
        form,
        ops,
        tree: _,
        stop,
    } = salvage(alloc, disk)?;
    match form {
        Form::OneJournal => left_of(alloc, stop, &ops),
        Form::TwoAreas { .. } => Err(ConvertError::OtherForm),
        Form::NoArea => Err(ConvertError::OtherForm),
    }
}

/// What is left of the operations of a store of the old form with this front.
fn left_of(alloc: Global, stop: Stop, ops: &Items<Op>) -> Result<Items<Op>, ConvertError>
    ensures left { IfOk result (λ left. (bytes : List ℕ) → IsFront Form.OneJournal bytes ops.now → IsStop Form.OneJournal bytes ops.now stop → HasOldContent bytes ops.now) }
    ensures folded { IfOk result (λ left. left ≡ folded ops.now) }
    ensures other_form { result ≡ Err ConvertError.OtherForm → ⊥ }
    ensures faulty { (fault : AnyFault) → result ≡ Err (ConvertError.Faulty fault) → (bytes : List ℕ) → IsFront Form.OneJournal bytes ops.now → IsStop Form.OneJournal bytes ops.now stop → IsOldFault bytes fault }
{
    match journal_fault(stop, ops) {
        Some(fault) => Err(ConvertError::Faulty { fault }),
        None => Ok(fold(alloc, ops)?),
    }
}

/// What a salvaged front is written as: of two areas the front itself, and of one journal, which may be longer than an area, what is left of it.
/// `NoMemory` where none was found.
pub fn kept_operations(alloc: Global, form: Form, front: Items<Op>) -> Result<Items<Op>, NoMemory>
    ensures left { IfOk result (λ kept. kept ≡ left_by form front) }
    ensures framed { IfOk result (λ kept. (bytes : List ℕ) → IsFront form bytes front → All IsOperation kept) }
    ensures none_stray { IfOk result (λ kept. (bytes : List ℕ) → IsFront form bytes front → stray kept ≡ None) }
{
    match form {
        Form::OneJournal => fold(alloc, &front),
        Form::TwoAreas { .. } => Ok(front),
        Form::NoArea => Ok(front),
    }
}

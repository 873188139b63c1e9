ghost use Rattle.std.specs.Prelude.{◌≡◌, List, ◌++◌, None};
ghost use Rattle.rm_types.specs.declared.operations.Op.{Op};
ghost use Rattle.rm_types.specs.Alike.{IsAlike};
ghost use Rattle.rm_types.specs.Folded.{folded};
ghost use Rattle.rm_types.specs.Records.{records, stray};
ghost use Rattle.rm_store.specs.compaction.Amounts.{amounts};

/// What is left of a list amounts to what the list amounts to, whether or not an operation of it is stray; none of what is left is stray
/// where none of the list was; and a list that was folded before more came is folded as if it had not been.
pub fn law_folded()
    ensures amounts { (ops : List Op) → amounts (folded ops) ≡ amounts ops }
    ensures none_stray { (ops : List Op) → stray ops ≡ None → stray (folded ops) ≡ None }
    ensures again { (ops more : List Op) → folded (folded ops ++ more) ≡ folded (ops ++ more) }
{}

/// Lists of which the same is left have records that are alike, the order of the ends included, whether or not operations of them are
/// stray.
pub fn law_alike()
    ensures { (one other : List Op) → folded one ≡ folded other → IsAlike (records one) (records other) }
{}

ghost use Rattle.std.specs.Prelude.{◌≡◌, ℕ, List};
ghost use Rattle.rm_journal.specs.two_areas.Areas.{HasLayout, IsDamagedLayout};

/// The same bytes have one list of payloads at most.
pub fn law_one_layout()
    ensures { (half : ℕ) (one other : List (List ℕ)) (bytes : List ℕ) → HasLayout half one bytes → HasLayout half other bytes → one ≡ other }
{}

/// Bytes that hold payloads are damaged nowhere.
pub fn law_undamaged()
    ensures { (half : ℕ) (payloads : List (List ℕ)) (bytes : List ℕ) → HasLayout half payloads bytes → (offset : ℕ) → IsDamagedLayout half bytes offset → ⊥ }
{}

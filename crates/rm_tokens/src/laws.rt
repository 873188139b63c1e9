ghost use Rattle.std.specs.Prelude.{◌≡◌, ◌++◌, ◌<◌, ℕ, List, Option, Some, true, false, Contains};
ghost use Rattle.rm_tokens.specs.declared.fault.TokenError.TheVariants.{Damaged};
ghost use Rattle.rm_tokens.specs.declared.token.Token.{Token};
ghost use Rattle.rm_tokens.specs.declared.token.TokenRecord.{TokenRecord};
ghost use Rattle.rm_tokens.specs.declared.token.TokenRecord.TheVariants.{Cancelled};
ghost use Rattle.rm_tokens.specs.Held.{TokensAt, HoldsRecords, Stand, IsWhy, IsFaultless, room_of, room_behind};
ghost use Rattle.rm_tokens.specs.Records.{token, fit_in_order, IsValidAt};
ghost use Rattle.rm_disk.specs.Disk.{IfTold, IsLaterView};
ghost use Rattle.rm_tokens.specs.declared.fault.TokenError.{TokenError};
ghost use Rattle.rm_tokens.specs.Calls.{Command, Does, verdict};
ghost use Rattle.rm_tokens.specs.Runs.{Happens, event_of, TokensOnDisk, Event, Run, AddRecords, AreTokensOf, LivesOn};

use rm_disk::Disk;

/// After any calls, crashes and openings the tokens are those of the records that were there and of those that the calls kept: each image of the disk
/// holds exactly these, once the tokens are opened after a call that answered `DiskFault` or `Memory`.
pub fn law_token_records<D: Disk>(_disk: &D)
    ensures { (events : List Event) (from to : TokensOnDisk D) (entries : List TokenRecord) → AreTokensOf (D.view from.disk) from.tokens entries → from.tokens.is_broken ≡ false → Run D.view events from to
        → (added : List TokenRecord) × AddRecords events added × AreTokensOf (D.view to.disk) to.tokens (entries ++ added) }
{}

/// Each call of `issue`, `renew` or `cancel` is an event of such a run, by what its contract says (`does`, `later`), and so is an opening (`opened`).
pub fn law_each_call_happens<D: Disk>(_disk: &D)
    ensures { (command : Command) (old new : TokensOnDisk D) (why : Option TokenError) → Does D.view (verdict old.tokens command) old.disk new.disk old.tokens new.tokens why → IsLaterView (D.view old.disk) (D.view new.disk)
        → Happens D.view (event_of command (verdict old.tokens command) why) old new }
{}

/// The room that `Full` tells is what the disk has left behind the records.
pub fn law_room<D: Disk>(disk: &D)
    ensures { (tokens : TokensAt) (entries : List TokenRecord) → Stand (D.view disk.now) tokens entries → tokens.is_broken ≡ false → IfTold (D.view disk.now) (λ _. room_of tokens ≡ room_behind (D.view disk.now).size entries) }
{
    let _size = disk.size();
}

/// A token lives on over any records that are kept later, but one that cancels it: its date never falls and is never beyond its last one, so that it is
/// valid at each moment before its date.
pub fn law_a_token_lives_on()
    ensures lives { (entries later : List TokenRecord) (number : ℕ) (one : Token) → fit_in_order (entries ++ later) ≡ true → token entries number ≡ Some one → (Contains later (Cancelled number) → ⊥)
        → (now : Token) × (token (entries ++ later) number ≡ Some now) × LivesOn one now }
    ensures valid { (entries later : List TokenRecord) (number moment : ℕ) (one : Token) → fit_in_order (entries ++ later) ≡ true → token entries number ≡ Some one → (Contains later (Cancelled number) → ⊥)
        → moment < one.until → IsValidAt (entries ++ later) number moment }
{}

/// The same bytes hold one list of records at most, and bytes that hold records are never why tokens are not opened.
pub fn law_held_is_faultless()
    ensures one_list { (bytes : List ℕ) (one other : List TokenRecord) → HoldsRecords bytes one → HoldsRecords bytes other → one ≡ other }
    ensures faultless { (bytes : List ℕ) (entries : List TokenRecord) → HoldsRecords bytes entries → IsFaultless bytes }
    ensures undamaged { (bytes : List ℕ) (entries : List TokenRecord) (offset : ℕ) → HoldsRecords bytes entries → IsWhy bytes (Damaged offset) → ⊥ }
{}

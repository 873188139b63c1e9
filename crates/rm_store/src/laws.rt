ghost use Rattle.std.specs.Prelude.{◌≡◌, ◌≤◌, ◌++◌, ◌∷◌, [], ℕ, List, None, true, count_by, map, replicate};
ghost use Rattle.rm_types.specs.declared.ids.AppId.{AppId};
ghost use Rattle.rm_types.specs.declared.operations.Op.{Op};
ghost use Rattle.rm_types.specs.Alike.{IsAlike};
ghost use Rattle.rm_types.specs.Folded.{folded};
ghost use Rattle.rm_types.specs.Ids.{is_app};
ghost use Rattle.rm_types.specs.Ranges.{IsOperation};
ghost use Rattle.rm_types.specs.Records.{records, fits_records, stray};
ghost use Rattle.rm_formats.specs.Frames.{frame};
ghost use Rattle.rm_disk.specs.Disk.{IsQuiet, Falls};
ghost use Rattle.rm_disk.specs.Scan.{MayBeStore};
ghost use Rattle.rm_journal.specs.two_areas.Areas.{HasLayout};
ghost use Rattle.rm_tree.specs.Shows.{shows};
ghost use Rattle.rm_store.specs.declared.fault.StoreError.TheVariants.{Damaged, Stray};
ghost use Rattle.rm_store.specs.Causes.{IsWhy, IsFaultless};
ghost use Rattle.rm_store.specs.Content.{ReadsAs, HasContent, DeviceHolds, half_of, room_for};
ghost use Rattle.rm_store.specs.Store.{LooksOwn, StaysOwn};

use rm_disk::Disk;

/// The same bytes have one content at most, and of all lists that they hold the same is left.
pub fn law_one_list()
    ensures content { (bytes : List ℕ) (one other : List Op) → HasContent bytes one → HasContent bytes other → one ≡ other }
    ensures left { (bytes : List ℕ) (one other : List Op) → DeviceHolds bytes one → DeviceHolds bytes other → folded one ≡ folded other }
{}

/// The records of the content of a device are like those of any operations that it holds, the order of the ends included.
pub fn law_holds_alike()
    ensures { (bytes : List ℕ) (content ops : List Op) → DeviceHolds bytes ops → HasContent bytes content → IsAlike (records content) (records ops) }
{}

/// Where the same is left of a content and of other operations, a device with that content holds the others; with one
/// operation more that fits them it holds these and that one; and with what is left of the content it holds them still. Of
/// one operation more both say the same, and both leave the same room.
pub fn law_content_of_an_append()
    ensures unchanged { (image : List ℕ) (payloads : List (List ℕ)) (content ops : List Op) → ReadsAs payloads content → stray content ≡ None → folded content ≡ folded ops → HasLayout (half_of image) payloads image → DeviceHolds image ops }
    ensures added { (image : List ℕ) (payloads : List (List ℕ)) (content ops : List Op) (op : Op) → ReadsAs payloads content → stray content ≡ None → folded content ≡ folded ops → IsOperation op → fits_records (records ops) op ≡ true → HasLayout (half_of image) (payloads ++ frame op ∷ []) image → DeviceHolds image (ops ++ op ∷ []) }
    ensures refolded { (image : List ℕ) (payloads : List (List ℕ)) (content ops : List Op) → ReadsAs payloads content → stray content ≡ None → folded content ≡ folded ops → HasLayout (half_of image) (map frame (folded content)) image → DeviceHolds image ops }
    ensures shows { (content ops : List Op) (op : Op) → folded content ≡ folded ops → shows (records content) op ≡ shows (records ops) op }
    ensures fits { (content ops : List Op) (op : Op) → folded content ≡ folded ops → fits_records (records content) op ≡ fits_records (records ops) op }
    ensures room { (half : ℕ) (content ops : List Op) → folded content ≡ folded ops → room_for half content ≡ room_for half ops }
{}

/// Bytes that hold operations have no fault, and are never why a store is refused.
pub fn law_held_is_faultless()
    ensures faultless { (bytes : List ℕ) (ops : List Op) → DeviceHolds bytes ops → IsFaultless bytes }
    ensures undamaged { (bytes : List ℕ) (ops : List Op) → DeviceHolds bytes ops → (offset : ℕ) → IsWhy bytes (Damaged offset) → ⊥ }
    ensures none_stray { (bytes : List ℕ) (ops : List Op) → DeviceHolds bytes ops → (number offset : ℕ) → IsWhy bytes (Stray number offset) → ⊥ }
{}

/// Operations of which none is stray have one record of each application at most.
pub fn law_one_record_each()
    ensures { (ops : List Op) → stray ops ≡ None → (id : AppId) → count_by (λ app. is_app app.id id) (records ops).apps ≤ 1 }
{}

/// A fresh device, all bytes of which are 0, may be a store's.
pub fn law_fresh_may_be_store()
    ensures { (size : ℕ) → MayBeStore (replicate size 0) }
{}

/// What a store leaves is not taken for another's file: where whatever a crash leaves of a disk may be a store's, that stays so
/// over calls that write nothing, as opening is, and over a fall. That it stays so over each append is what
/// `Store::append` says (`own`).
pub fn law_stays_own<D: Disk>(before: &D, after: &D)
    ensures quiet { IsQuiet (D.view before.now) (D.view after.now) → LooksOwn (D.view before.now) → StaysOwn (D.view before.now) (D.view after.now) }
    ensures fallen { Falls (D.view before.now) (D.view after.now) → LooksOwn (D.view before.now) → StaysOwn (D.view before.now) (D.view after.now) }
{}

ghost use Rattle.std.specs.Prelude.{◌≡◌, ◌↔◌, ◌+◌, ◌<◌, ◌≤◌, ◌^◌, ℕ, length, true, IfOk, IfNone, IfSome, IsTrue};
ghost use Rattle.std.specs.Int.{w64, to_be_bytes, from_be_bytes};
ghost use Rattle.rm_formats.specs.declared.TheConstants.{GENERATION_RECORD};
ghost use Rattle.rm_journal.specs.two_areas.Areas.{HasGeneration};
ghost use Rattle.rm_journal.specs.Journal.{region_of};
ghost use Rattle.rm_tool.specs.salvage.Forms.{HasFirstFrame, IsForm, form_by};

use crate::salvage::fixed::FixedDisk;
use crate::salvage::looks::{Found, look};
use rm_disk::Disk;
use rm_store::operation_of;
use rm_types::NoMemory;
use std::alloc::Global;

/// The form of a store.
#[derive(Clone, Copy)]
pub enum Form {
    /// One journal over the whole of it, as this program wrote before there were areas; it isn't empty.
    OneJournal,
    /// Two areas, of which the second is read or the first: the live one of this generation, the greatest.
    TwoAreas { second: bool, generation: u64 },
    /// No area is live with a generation, so that no operation can be read. So is a new store, and one whose heads are damaged.
    NoArea,
}

/// The form of a store, by its bytes.
pub fn form_of(alloc: Global, disk: &mut FixedDisk) -> Result<Form, NoMemory>
    ensures same { disk.new ≡ disk.old }
    ensures form { IfOk result (IsForm disk.old) }
{
    let size = disk.size();
    if size == 0 {
        return Ok(Form::NoArea);
    }
    if has_first_frame(alloc, disk, size)? {
        return Ok(Form::OneJournal);
    }
    let half = size / 2;
    let first = generation_at(alloc, disk, 0, half)?;
    let second = generation_at(alloc, disk, half, half + half)?;
    Ok(form_by(first, second))
}

/// Whether the bytes begin with the record of an operation.
fn has_first_frame(alloc: Global, disk: &mut FixedDisk, size: u64) -> Result<bool, NoMemory>
    requires some { 0 < size }
    requires all { size ≡ length disk.old }
    ensures same { disk.new ≡ disk.old }
    ensures has { IfOk result (λ has. IsTrue has ↔ HasFirstFrame disk.old) }
{
    let mut payload = Vec::new(alloc);
    match look(disk, 0, size, &mut payload)? {
        Found::Record => match operation_of(alloc, &payload)? {
            Some(_op) => Ok(true),
            None => Ok(false),
        },
        Found::Closed => Ok(false),
        Found::Broken => Ok(false),
    }
}

/// The generation of an area, where it is live with one.
fn generation_at(
    alloc: Global,
    disk: &mut FixedDisk,
    from: u64,
    end: u64,
) -> Result<Option<u64>, NoMemory>
    requires before { from ≤ end }
    requires inside { end ≤ length disk.old }
    ensures same { disk.new ≡ disk.old }
    ensures some { IfOk result (λ found. IfSome found (HasGeneration (region_of from end disk.old))) }
    ensures none { IfOk result (λ found. IfNone found ((g : ℕ) → HasGeneration (region_of from end disk.old) g → ⊥)) }
{
    if from == end {
        return Ok(None);
    }
    let mut payload = Vec::new(alloc);
    match look(disk, from, end, &mut payload)? {
        Found::Record => Ok(generation_of(&payload)),
        Found::Closed => Ok(None),
        Found::Broken => Ok(None),
    }
}

/// The generation that a payload is.
fn generation_of(payload: &[u8]) -> Option<u64>
    ensures some { IfSome result (λ g. (1 ≤ g) × (g < 2 ^ 64) × (to_be_bytes w64 g ≡ payload.now)) }
    ensures none { IfNone result ((g : ℕ) → 1 ≤ g → g < 2 ^ 64 → payload.now ≡ to_be_bytes w64 g → ⊥) }
{
    if payload.len() != 8 {
        return None;
    }
    let array = [
        payload[0], payload[1], payload[2], payload[3], payload[4], payload[5], payload[6],
        payload[7],
    ];
    let generation = u64::from_be_bytes(array);
    if generation == 0 {
        return None;
    }
    Some(generation)
}

/// The form of two areas with these generations, where they have one.
fn form_by(first: Option<u64>, second: Option<u64>) -> Form
    ensures { result ≡ form_by first second }
{
    match (first, second) {
        (Some(one), Some(other)) => {
            if one < other {
                Form::TwoAreas {
                    second: true,
                    generation: other,
                }
            } else {
                Form::TwoAreas {
                    second: false,
                    generation: one,
                }
            }
        }
        (Some(generation), None) => Form::TwoAreas {
            second: false,
            generation,
        },
        (None, Some(generation)) => Form::TwoAreas {
            second: true,
            generation,
        },
        (None, None) => Form::NoArea,
    }
}

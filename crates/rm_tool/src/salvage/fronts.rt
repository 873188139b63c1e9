ghost use Rattle.std.specs.Prelude.{◌≡◌, ◌<◌, ◌≤◌, ℕ, List, [], length, All, IfOk, MatchOption};
ghost use Rattle.rm_types.specs.Ranges.{IsOperation};
ghost use Rattle.rm_types.specs.Records.{records};
ghost use Rattle.rm_journal.specs.two_areas.Areas.{area_from};
ghost use Rattle.rm_journal.specs.Journal.{region_of};
ghost use Rattle.rm_tool.specs.salvage.Forms.{IsForm};
ghost use Rattle.rm_tool.specs.salvage.Fronts.{BeginsFront, IsFront, IsLongest, IsStop, FrontStops, StopsBehind};
ghost use Rattle.rm_tool.specs.salvage.Steps.{ReadsTo, WentOn};

use crate::salvage::fixed::FixedDisk;
use crate::salvage::forms::{Form, form_of};
use crate::salvage::looks::{Found, Taken, look, take_in};
use rm_disk::Disk;
use rm_formats::{GENERATION_RECORD, RECORD_HEAD};
use rm_tree::Tree;
use rm_types::{Items, NoMemory, Op};
use std::alloc::Global;
use thiserror::Error;

/// Why no more operations are read of a store.
#[derive(Clone, Copy, Debug, Error)]
pub enum Stop {
    /// The gate at this offset is closed: there are no more.
    #[error("the gate at byte {offset} is closed")]
    End { offset: u64 },
    /// The gate at this offset is open, and no record stands behind it.
    #[error("the gate at byte {offset} is open, and no record stands behind it")]
    NoRecord { offset: u64 },
    /// The record at this offset isn't that of an operation.
    #[error("the record at byte {offset} is that of no operation")]
    NoFrame { offset: u64 },
    /// The operation at this offset doesn't fit those before it.
    #[error("the operation at byte {offset} doesn't fit those before it")]
    Stray { offset: u64 },
    /// No area is live with a generation.
    #[error("no area is live with a generation")]
    NoArea,
}

/// The operations that were read of a store from the first on, what they amount to, and why no more were read.
#[derive(Drop)]
pub struct Front {
    pub ops: Items<Op>,
    pub tree: Tree,
    pub stop: Stop,
}

/// What can be read of a store.
#[derive(Drop)]
pub struct Salvaged {
    /// The store's form.
    pub form: Form,
    /// The longest front of its operations that are whole and not stray.
    pub ops: Items<Op>,
    /// What they amount to.
    pub tree: Tree,
    /// Why it ends there.
    pub stop: Stop,
}

/// The longest front of a store's operations that are whole and not stray: of its only journal, or of the live area with the greatest
/// generation. `NoMemory` where none was found.
pub fn salvage(alloc: Global, disk: &mut FixedDisk) -> Result<Salvaged, NoMemory>
    ensures same { disk.new ≡ disk.old }
    ensures form { IfOk result (λ salvaged. IsForm disk.old salvaged.form) }
    ensures front { IfOk result (λ salvaged. IsFront salvaged.form disk.old salvaged.ops) }
    ensures longest { IfOk result (λ salvaged. IsLongest salvaged.form disk.old salvaged.ops) }
    ensures stop { IfOk result (λ salvaged. IsStop salvaged.form disk.old salvaged.ops salvaged.stop) }
    ensures amounts { IfOk result (λ salvaged. salvaged.tree ≡ records salvaged.ops) }
    ensures framed { IfOk result (λ salvaged. All IsOperation salvaged.ops) }
{
    let form = form_of(alloc, disk)?;
    let Front { ops, tree, stop } = front_of(alloc, disk, form)?;
    Ok(Salvaged {
        form,
        ops,
        tree,
        stop,
    })
}

/// The longest front of a store of this form.
fn front_of(alloc: Global, disk: &mut FixedDisk, form: Form) -> Result<Front, NoMemory>
    requires { IsForm disk.old form }
    ensures same { disk.new ≡ disk.old }
    ensures front { IfOk result (λ front. IsFront form disk.old front.ops) }
    ensures longest { IfOk result (λ front. IsLongest form disk.old front.ops) }
    ensures stop { IfOk result (λ front. IsStop form disk.old front.ops front.stop) }
    ensures amounts { IfOk result (λ front. front.tree ≡ records front.ops) }
    ensures framed { IfOk result (λ front. All IsOperation front.ops) }
{
    let size = disk.size();
    match form {
        Form::OneJournal => read_front(alloc, disk, 0, size),
        Form::TwoAreas { second, .. } => {
            let half = size / 2;
            let start = start_of(half, second);
            read_front(alloc, disk, start + GENERATION_RECORD, start + half)
        }
        Form::NoArea => Ok(Front {
            ops: Items::new(alloc),
            tree: Tree::new(alloc),
            stop: Stop::NoArea,
        }),
    }
}

/// Where an area begins.
fn start_of(half: u64, second: bool) -> u64
    ensures start { result ≡ area_from half second }
    ensures most { result ≤ half }
{
    if second { half } else { 0 }
}

/// Reads operations from the gate on, to the first that isn't whole or is stray, or to a closed gate.
fn read_front(alloc: Global, disk: &mut FixedDisk, gate: u64, end: u64) -> Result<Front, NoMemory>
    requires before { gate < end }
    requires inside { end ≤ length disk.old }
    ensures same { disk.new ≡ disk.old }
    ensures front { IfOk result (λ front. (start : ℕ) (heads : List (List ℕ)) → ReadsTo disk.old start end heads gate [] → BeginsFront (region_of start end disk.old) heads front.ops) }
    ensures stop { IfOk result (λ front. (start : ℕ) (heads : List (List ℕ)) → ReadsTo disk.old start end heads gate [] → FrontStops (region_of start end disk.old) start heads front.ops front.stop) }
    ensures amounts { IfOk result (λ front. front.tree ≡ records front.ops) }
{
    let mut reader = Reader {
        gate,
        tree: Tree::new(alloc),
        ops: Items::new(alloc),
    };
    'records: loop {
        if let Some(stop) = step(alloc, disk, end, &mut reader)? {
            let Reader { gate: _, tree, ops } = reader;
            return Ok(Front { ops, tree, stop });
        }
    }
}

/// The operations that were read so far, what they amount to, and the gate that is looked at next.
#[derive(Drop)]
struct Reader {
    gate: u64,
    tree: Tree,
    ops: Items<Op>,
}

/// Reads one more operation; answers why not, where none can be read.
fn step(
    alloc: Global,
    disk: &mut FixedDisk,
    end: u64,
    reader: &mut Reader,
) -> Result<Option<Stop>, NoMemory>
    requires before { reader.old.gate < end }
    requires inside { end ≤ length disk.old }
    requires amounts { reader.old.tree ≡ records reader.old.ops }
    ensures same { disk.new ≡ disk.old }
    ensures step { IfOk result (λ stop. MatchOption stop (WentOn disk.old end reader.old.gate reader.new.gate reader.old.ops reader.new.ops reader.new.tree) (λ why. (reader.new.ops ≡ reader.old.ops) × (reader.new.tree ≡ reader.old.tree) × StopsBehind (region_of reader.old.gate end disk.old) reader.old.gate reader.old.ops why)) }
{
    let offset = reader.gate;
    let mut payload = Vec::new(alloc);
    match look(disk, offset, end, &mut payload)? {
        Found::Closed => return Ok(Some(Stop::End { offset })),
        Found::Broken => return Ok(Some(Stop::NoRecord { offset })),
        Found::Record => {}
    }
    match take_in(alloc, &payload, &mut reader.tree, &mut reader.ops)? {
        Taken::In => {}
        Taken::NoFrame => return Ok(Some(Stop::NoFrame { offset })),
        Taken::Stray => return Ok(Some(Stop::Stray { offset })),
    }
    reader.gate += payload.len() as u64 + RECORD_HEAD;
    Ok(None)
}

ghost use Rattle.std.specs.Prelude.{◌≡◌, ◌+◌, ◌<◌, ◌≤◌, ℕ, length, take, drop, IfOk, Ok, OnOk};
ghost use Rattle.rm_types.specs.Records.{records};
ghost use Rattle.rm_formats.specs.declared.TheConstants.{RECORD_HEAD};
ghost use Rattle.rm_journal.specs.Journal.{region_of};
ghost use Rattle.rm_tool.specs.salvage.Steps.{IsFound, IsTakenPayload};

use crate::salvage::fixed::FixedDisk;
use rm_disk::Disk;
use rm_formats::RECORD_HEAD;
use rm_journal::{JournalError, record_at};
use rm_store::operation_of;
use rm_tree::{Tree, TreeError};
use rm_types::{Items, NoMemory, Op};
use std::alloc::Global;

/// What stands at a gate.
#[derive(Clone, Copy)]
pub enum Found {
    /// The gate is closed.
    Closed,
    /// The gate is open, and no record stands behind it.
    Broken,
    /// A record.
    Record,
}

/// Looks at a gate, and puts the payload of the record that stands there into `payload`.
pub fn look(
    disk: &mut FixedDisk,
    gate: u64,
    end: u64,
    payload: &mut Vec<u8>,
) -> Result<Found, NoMemory>
    requires before { gate < end }
    requires inside { end ≤ length disk.old }
    ensures same { disk.new ≡ disk.old }
    ensures found { IfOk result (λ found. IsFound (region_of gate end disk.old) payload.new.items found) }
    ensures room { result ≡ Ok Found.Record → gate + (length payload.new.items + RECORD_HEAD) < end }
{
    let length = match record_at(disk, gate, end) {
        Ok(Some(length)) => length,
        Ok(None) => return Ok(Found::Closed),
        Err(JournalError::Damaged { .. }) => return Ok(Found::Broken),
        Err(_) => unreachable!(),
    };
    fetch(disk, gate + RECORD_HEAD, length as usize, payload)?;
    Ok(Found::Record)
}

/// Reads so many bytes.
fn fetch(disk: &mut FixedDisk, at: u64, many: usize, bytes: &mut Vec<u8>) -> Result<(), NoMemory>
    requires inside { at + many ≤ length disk.old }
    ensures same { disk.new ≡ disk.old }
    ensures bytes { OnOk result (bytes.new.items ≡ take many (drop at disk.old)) }
{
    bytes.clear();
    bytes.resize(many, 0)?;
    match disk.read(at, bytes.as_mut_slice()) {
        Ok(()) => Ok(()),
        Err(_) => unreachable!(),
    }
}

/// What comes of a payload behind operations.
#[derive(Clone, Copy)]
pub enum Taken {
    /// Its operation is one more of them.
    In,
    /// It reads as no operation.
    NoFrame,
    /// Its operation doesn't fit them.
    Stray,
}

/// Takes in the operation of a payload behind others, where it is whole and fits them; else nothing changes.
pub fn take_in(
    alloc: Global,
    payload: &[u8],
    tree: &mut Tree,
    ops: &mut Items<Op>,
) -> Result<Taken, NoMemory>
    requires { tree.old ≡ records ops.old }
    ensures { IfOk result (IsTakenPayload payload.now ops.old ops.new tree.old tree.new) }
{
    let Some(op) = operation_of(alloc, payload)? else {
        return Ok(Taken::NoFrame);
    };
    match tree.apply(&op) {
        Ok(()) => {
            ops.push(op)?;
            Ok(Taken::In)
        }
        Err(TreeError::Stray) => Ok(Taken::Stray),
        Err(TreeError::Memory) => Err(NoMemory),
    }
}

ghost use Rattle.rm_store.specs.Store.{StoreInvariant};

use crate::costs::Stop;
use crate::jobs::{Step, frame_of, op_of};
use rm_disk::Disk;
use rm_store::{Store, StoreError};
use rm_types::{Items, Op};

/// More operations than a file holds.
const MOST: u32 = 1 << 20;

/// Appends an App of each number behind so many to a store until it is full, and tells each number as soon as it is kept.
pub fn append_behind<D: Disk>(
    rt: HostRuntime,
    store: &mut Store<D>,
    many: usize,
) -> Result<(), Stop>
    requires { StoreInvariant D.view store.old }
{
    let mut frame = Vec::new(rt.alloc());
    let first = u32::try_from(many).unwrap_or(MOST);
    'numbers: for number in first..MOST {
        match append_one(rt, store, number, &mut frame) {
            Ok(()) => println!(rt; "{}", number + 1)?,
            Err(StoreError::Full { .. }) => break,
            Err(_) => return Err(Stop),
        }
    }
    Ok(())
}

fn append_one<D: Disk>(
    rt: HostRuntime,
    store: &mut Store<D>,
    number: u32,
    frame: &mut Vec<u8>,
) -> Result<(), StoreError>
    requires { StoreInvariant D.view store.old }
    ensures { StoreInvariant D.view store.new }
{
    if frame_of(frame, Step::App, number).is_err() {
        return Err(StoreError::Memory);
    }
    match op_of(rt.alloc(), frame) {
        Ok(op) => store.append(&op),
        Err(Stop) => Err(StoreError::Memory),
    }
}

/// Tells how many operations there are; each must be the App of its number.
pub fn tell_count(rt: HostRuntime, ops: &Items<Op>) -> Result<(), Stop> {
    for (place, op) in ops.as_slice().iter().enumerate() {
        if !is_numbered(op, place as u64 + 1) {
            return Err(Stop);
        }
    }
    println!(rt; "{}", ops.len())?;
    Ok(())
}

/// Whether the operation is the App of that number.
fn is_numbered(op: &Op, number: u64) -> bool {
    match op {
        Op::App { id, .. } => u64::from(id.number) == number,
        _ => false,
    }
}

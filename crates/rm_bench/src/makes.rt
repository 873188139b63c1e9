use crate::costs::Stop;
use crate::jobs::{STEPS, frame_of};
use rm_disk::{Disk, FileDisk};
use std::alloc::AllocError;

/// Makes a file with a store of the operations of so many jobs, without a sync for each.
pub fn make(rt: HostRuntime, name: &str, jobs: u32) -> Result<(), Stop> {
    let mut bytes = Vec::new(rt.alloc());
    put_jobs(rt, &mut bytes, jobs)?;
    let mut disk = FileDisk::new(&rt, name);
    if write_to(&mut disk, &bytes) {
        return Ok(());
    }
    Err(Stop)
}

/// The records of a generation and of the operations of so many jobs, and a closed gate.
fn put_jobs(rt: HostRuntime, bytes: &mut Vec<u8>, jobs: u32) -> Result<(), AllocError> {
    put_record(bytes, &1u64.to_be_bytes())?;
    let mut frame = Vec::new(rt.alloc());
    for job in 0..jobs {
        for step in STEPS {
            frame_of(&mut frame, step, job)?;
            put_record(bytes, &frame)?;
        }
    }
    bytes.extend_from_slice(&[0])
}

/// Puts the record of a payload of fewer than 65,536 bytes behind others.
fn put_record(bytes: &mut Vec<u8>, payload: &[u8]) -> Result<(), AllocError> {
    let length = (payload.len() % 65_536) as u32;
    bytes.extend_from_slice(&[1])?;
    bytes.extend_from_slice(&length.to_be_bytes())?;
    bytes.extend_from_slice(payload)
}

/// Whether the bytes could be written into the disk's first half, from its start on, and last.
fn write_to<D: Disk>(disk: &mut D, bytes: &[u8]) -> bool {
    bytes.len() as u64 <= disk.size() / 2 && disk.write(0, bytes).is_ok() && disk.sync().is_ok()
}

ghost use Rattle.rm_store.specs.Store.{StoreInvariant};

use crate::costs::Stop;
use crate::jobs::{STEPS, Step, frame_of, op_of};
use rm_disk::Disk;
use rm_store::Store;
use std::time::Instant;

/// How long an operation took until it was kept.
#[derive(Clone, Copy)]
struct Time {
    step: Step,
    nanos: u64,
}

/// Appends the operations of so many jobs to a store, and tells of each what it was and how many nanoseconds it took.
pub fn measure<D: Disk>(rt: HostRuntime, store: &mut Store<D>, jobs: u32) -> Result<(), Stop>
    requires { StoreInvariant D.view store.old }
{
    let mut times = Vec::new(rt.alloc());
    times.reserve(jobs as usize)?;
    append_jobs(rt, store, jobs, &mut times)?;
    for time in &times {
        println!(rt; "{} {}", time.step.word(), time.nanos)?;
    }
    Ok(())
}

fn append_jobs<D: Disk>(
    rt: HostRuntime,
    store: &mut Store<D>,
    jobs: u32,
    times: &mut Vec<Time>,
) -> Result<(), Stop>
    requires { StoreInvariant D.view store.old }
{
    let mut frame = Vec::new(rt.alloc());
    'jobs: for job in 0..jobs {
        append_job(rt, store, job, &mut frame, times)?;
    }
    Ok(())
}

fn append_job<D: Disk>(
    rt: HostRuntime,
    store: &mut Store<D>,
    job: u32,
    frame: &mut Vec<u8>,
    times: &mut Vec<Time>,
) -> Result<(), Stop>
    requires { StoreInvariant D.view store.old }
    ensures { StoreInvariant D.view store.new }
{
    'steps: for step in STEPS {
        frame_of(frame, step, job)?;
        let nanos = append(rt, store, frame)?;
        times.push(Time { step, nanos })?;
    }
    Ok(())
}

/// The time of an append of the operation of a frame, in nanoseconds.
pub fn append<D: Disk>(rt: HostRuntime, store: &mut Store<D>, frame: &[u8]) -> Result<u64, Stop>
    requires { StoreInvariant D.view store.old }
    ensures { StoreInvariant D.view store.new }
{
    let op = op_of(rt.alloc(), frame)?;
    let since = Instant::now(&rt)?;
    store.append(&op)?;
    Ok(since.elapsed(&rt)?.as_nanos().min(u128::from(u64::MAX)) as u64)
}

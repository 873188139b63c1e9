ghost use Rattle.rm_store.specs.Store.{StoreInvariant};

use crate::appends::append;
use crate::costs::Stop;
use crate::jobs::{Step, epoch_of, frame_of, removal_of};
use rm_disk::Disk;
use rm_store::Store;
use rm_tree::Tree;

/// What is told of a cycle.
#[derive(Clone, Copy)]
pub enum Told {
    /// Its number, once all of it is kept.
    Number,
    /// How many nanoseconds each of its appends took.
    Times,
}

/// Keeps so many jobs that go on, and then in each cycle another one, its end, its removal and an Epoch of the cycle's number: so what is
/// left stays the same, and an area is written anew again and again. It goes on behind the last cycle that the store tells.
pub fn cycle<D: Disk>(
    rt: HostRuntime,
    store: &mut Store<D>,
    tree: &Tree,
    live: u32,
    cycles: u32,
    told: Told,
) -> Result<(), Stop>
    requires { StoreInvariant D.view store.old }
{
    let first = tree.next_epoch();
    let mut frame = Vec::new(rt.alloc());
    keep_jobs(rt, store, tree.len(), live, &mut frame)?;
    if tree.len() > live as usize {
        // The last cycle was cut off behind its job, or behind the end of it.
        let is_ended = tree.at(tree.len() - 1).ending.is_some();
        take_away(rt, store, live.saturating_add(first), is_ended, &mut frame)?;
    }
    'cycles: for number in first..first.saturating_add(cycles) {
        run_cycle(rt, store, live, number, &mut frame, told)?;
    }
    Ok(())
}

/// Appends the jobs that are still to be kept, of so many.
fn keep_jobs<D: Disk>(
    rt: HostRuntime,
    store: &mut Store<D>,
    kept: usize,
    live: u32,
    frame: &mut Vec<u8>,
) -> Result<(), Stop>
    requires { StoreInvariant D.view store.old }
    ensures { StoreInvariant D.view store.new }
{
    let first = u32::try_from(kept).unwrap_or(live);
    'jobs: for job in first..live {
        frame_of(frame, Step::App, job)?;
        append(rt, store, frame)?;
    }
    Ok(())
}

/// Ends the job of a number, where it hasn't ended, and removes it: the times of both.
fn take_away<D: Disk>(
    rt: HostRuntime,
    store: &mut Store<D>,
    job: u32,
    is_ended: bool,
    frame: &mut Vec<u8>,
) -> Result<(u64, u64), Stop>
    requires { StoreInvariant D.view store.old }
    ensures { StoreInvariant D.view store.new }
{
    let mut end = 0;
    if !is_ended {
        frame_of(frame, Step::AppEnd, job)?;
        end = append(rt, store, frame)?;
    }
    removal_of(frame, job)?;
    let removal = append(rt, store, frame)?;
    Ok((end, removal))
}

fn run_cycle<D: Disk>(
    rt: HostRuntime,
    store: &mut Store<D>,
    live: u32,
    number: u32,
    frame: &mut Vec<u8>,
    told: Told,
) -> Result<(), Stop>
    requires { StoreInvariant D.view store.old }
    ensures { StoreInvariant D.view store.new }
{
    let job = live.saturating_add(number);
    let next = number.saturating_add(1);
    frame_of(frame, Step::App, job)?;
    let app = append(rt, store, frame)?;
    let (end, removal) = take_away(rt, store, job, false, frame)?;
    epoch_of(frame, next)?;
    let epoch = append(rt, store, frame)?;
    match told {
        Told::Number => println!(rt; "{next}")?,
        Told::Times => println!(rt; "{app}\n{end}\n{removal}\n{epoch}")?,
    }
    Ok(())
}

/// Tells the number of the last cycle whose Epoch is kept; so many jobs have to be there, or also that of the next cycle.
pub fn tell_last(rt: HostRuntime, tree: &Tree, live: u32) -> Result<(), Stop> {
    let jobs = tree.len();
    if jobs < live as usize || jobs > live as usize + 1 {
        return Err(Stop);
    }
    println!(rt; "{}", tree.next_epoch())?;
    Ok(())
}

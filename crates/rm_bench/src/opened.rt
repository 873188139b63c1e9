ghost use Rattle.rm_store.specs.Store.{StoreInvariant};

use crate::costs::Stop;
use crate::cycles::Told;
use crate::{appends, cycles, numbered};
use rm_disk::{Disk, FileDisk, Fuse, HeldFile, Window};
use rm_store::{OpenFail, Store};
use rm_tree::Tree;
use rm_types::{Items, Op};
use std::fs::Files;
use std::time::Instant;

/// What is done with a store once it is open.
#[derive(Clone, Copy)]
pub enum Work {
    /// The operations of so many jobs are appended, and the time of each is told.
    Append { jobs: u32 },
    /// How many operations it has is told, and how many nanoseconds its opening took.
    Open,
    /// Numbered operations are appended until it is full, and each number is told once it is kept.
    Number,
    /// Its operations must be the numbered ones, from the first on, and their count is told.
    Count,
    /// Cycles are run over so many jobs that go on, until the process ends, and each is told once it is kept.
    Cycle { jobs: u32 },
    /// So many cycles are run, and the time of each append is told.
    Pauses { jobs: u32, cycles: u32 },
    /// It must have so many jobs, or one more, and the number of its last cycle is told.
    Last { jobs: u32 },
}

/// More cycles than a process runs before it is ended.
const MOST_CYCLES: u32 = 1 << 23;

/// Opens the store in a file, or tells why it can't be opened, and does this work with it.
pub fn do_work(rt: HostRuntime, name: &str, work: Work) -> Result<(), Stop> {
    work_in_file(rt, &rt, name, work)
}

/// The same over the files of any runtime: a proof over the system's own would look into each of its types.
fn work_in_file<R: Files + Alloc>(
    rt: HostRuntime,
    files: &R,
    name: &str,
    work: Work,
) -> Result<(), Stop>
where
    R::File: HeldFile,
{
    let alloc = rt.alloc();
    let since = Instant::now(&rt)?;
    let disk = Fuse::new(alloc, Window::new(alloc, FileDisk::new(files, name)));
    match Store::open(alloc, disk) {
        Ok((mut store, tree, ops)) => work_on(rt, &mut store, &tree, &ops, since, work),
        Err(refused) => Err(tell_refusal(rt, name, refused)),
    }
}

fn work_on<D: Disk>(
    rt: HostRuntime,
    store: &mut Store<D>,
    tree: &Tree,
    ops: &Items<Op>,
    since: Instant,
    work: Work,
) -> Result<(), Stop>
    requires { StoreInvariant D.view store.old }
{
    match work {
        Work::Append { jobs } => appends::measure(rt, store, jobs),
        Work::Open => tell_time(rt, ops.len(), since),
        Work::Number => numbered::append_behind(rt, store, ops.len()),
        Work::Count => numbered::tell_count(rt, ops),
        Work::Cycle { jobs } => cycles::cycle(rt, store, tree, jobs, MOST_CYCLES, Told::Number),
        Work::Pauses { jobs, cycles } => cycles::cycle(rt, store, tree, jobs, cycles, Told::Times),
        Work::Last { jobs } => cycles::tell_last(rt, tree, jobs),
    }
}

fn tell_time(rt: HostRuntime, many: usize, since: Instant) -> Result<(), Stop> {
    let nanos = since.elapsed(&rt)?.as_nanos();
    println!(rt; "{many} {nanos}")?;
    Ok(())
}

/// Tells on standard error why the store in a file of that name wasn't opened.
fn tell_refusal<R: Files + Alloc>(
    rt: HostRuntime,
    name: &str,
    refused: OpenFail<Window<FileDisk<'_, R>>>,
) -> Stop
where
    R::File: HeldFile,
{
    let OpenFail { why, disk } = refused;
    let file = disk.inner().inner();
    let _told = match file.last_fault() {
        Some(fault) => eprintln!(rt; "{name}: {fault}"),
        None => eprintln!(rt; "{name}: {why:?}"),
    };
    Stop
}

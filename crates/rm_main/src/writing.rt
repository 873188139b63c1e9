ghost use Rattle.std.specs.Prelude.{◌≡◌, [], IfOk, false, true};
ghost use Rattle.rm_formats.specs.Page.{store_page};
ghost use Rattle.rm_types.specs.Counts.{Rose};
ghost use Rattle.rm_main.specs.Runs.{IsWritten, Writes};
ghost use Rattle.rm_main.specs.Shown.{shown_in};
ghost use Rattle.rm_main.specs.Ways.{IsOfWriting, outcome_of, outcome_of_stop};

use rm_lives::Stop;
use rm_outside::{Sink, Written, write_all};
use rm_page::{page, store_page};
use rm_soak::soak_page;
use rm_types::{Entry, Items, NoMemory, Op, Outcome};
use std::alloc::Global;

/// Writes a page.
fn write<K: Sink>(sink: &mut K, page: &[u8]) -> Outcome
    ensures of_writing { IsOfWriting result }
    ensures writes { Writes result (K.taken sink.old) (K.taken sink.new) page.now }
    ensures write_fault { result ≡ Outcome.WriteFault false → Rose (K.faults sink.old) (K.faults sink.new) }
    ensures took_nothing { result ≡ Outcome.WriteFault true → Rose (K.idle sink.old) (K.idle sink.new) }
    ensures quiet { IsWritten result → (K.faults sink.new ≡ K.faults sink.old) × (K.idle sink.new ≡ K.idle sink.old) }
    ensures untouched { page.now ≡ [] → sink.new ≡ sink.old }
{
    match write_all(sink, page) {
        Written::All => Outcome::Done,
        Written::Fault => Outcome::WriteFault {
            took_nothing: false,
        },
        Written::Nothing => Outcome::WriteFault { took_nothing: true },
        Written::Memory => Outcome::Memory,
    }
}

/// What is to be written of a run.
#[derive(Clone, Copy)]
pub enum Shown {
    /// The page of its log, with its moves or without.
    Page { moves: bool },
    /// The line of a soak of so many applications.
    Line { number: u32 },
}

/// The bytes that are to be written of a log.
fn shown_in(alloc: Global, log: &Items<Entry>, shown: Shown) -> Result<Vec<u8>, NoMemory>
    ensures { IfOk result (λ bytes. bytes.items ≡ shown_in shown log.now) }
{
    match shown {
        Shown::Page { moves } => page(alloc, log, moves),
        Shown::Line { number } => soak_page(alloc, number, log),
    }
}

/// Writes what is to be shown of a log.
pub fn write_shown<K: Sink>(
    alloc: Global,
    sink: &mut K,
    log: &Items<Entry>,
    shown: Shown,
) -> Outcome
    ensures of_writing { IsOfWriting result }
    ensures writes { Writes result (K.taken sink.old) (K.taken sink.new) (shown_in shown log.now) }
    ensures write_fault { result ≡ Outcome.WriteFault false → Rose (K.faults sink.old) (K.faults sink.new) }
    ensures took_nothing { result ≡ Outcome.WriteFault true → Rose (K.idle sink.old) (K.idle sink.new) }
    ensures quiet { IsWritten result → (K.faults sink.new ≡ K.faults sink.old) × (K.idle sink.new ≡ K.idle sink.old) }
    ensures untouched { shown_in shown log.now ≡ [] → sink.new ≡ sink.old }
{
    let Ok(bytes) = shown_in(alloc, log, shown) else {
        return Outcome::Memory;
    };
    write(sink, bytes.as_slice())
}

/// Writes the page of a store.
pub fn write_store<K: Sink>(alloc: Global, sink: &mut K, ops: &Items<Op>) -> Outcome
    ensures of_writing { IsOfWriting result }
    ensures writes { Writes result (K.taken sink.old) (K.taken sink.new) (store_page ops.now) }
    ensures write_fault { result ≡ Outcome.WriteFault false → Rose (K.faults sink.old) (K.faults sink.new) }
    ensures took_nothing { result ≡ Outcome.WriteFault true → Rose (K.idle sink.old) (K.idle sink.new) }
    ensures quiet { IsWritten result → (K.faults sink.new ≡ K.faults sink.old) × (K.idle sink.new ≡ K.idle sink.old) }
    ensures untouched { store_page ops.now ≡ [] → sink.new ≡ sink.old }
{
    let Ok(bytes) = store_page(alloc, ops) else {
        return Outcome::Memory;
    };
    write(sink, bytes.as_slice())
}

/// What stopped a run, as its outcome.
fn outcome_of_stop(stop: Stop) -> Outcome
    ensures { result ≡ outcome_of_stop stop }
{
    match stop {
        Stop::DiskFault => Outcome::DiskFault,
        Stop::Damaged { offset } => Outcome::StoreDamaged { offset },
        Stop::Full { needed, room } => Outcome::StoreFull { needed, room },
        Stop::Schedule { place } => Outcome::ScheduleRefused { place },
        Stop::EpochsSpent => Outcome::EpochsSpent,
        Stop::Memory => Outcome::Memory,
    }
}

/// The outcome of a run whose page was written so. A run that stopped has its stop's outcome, unless the
/// writing failed.
pub fn outcome_of(ended: Result<(), Stop>, written: Outcome) -> Outcome
    ensures { result ≡ outcome_of ended written }
{
    match (ended, written) {
        (Err(stop), Outcome::Done) => outcome_of_stop(stop),
        (_, written) => written,
    }
}

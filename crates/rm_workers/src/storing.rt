//! What the store's worker does with the store.
ghost use Rattle.std.specs.Prelude.{◌≡◌, ◌≤◌, ℕ, List, OnOk, OnErr, IfErr, None, Some, true, false};
ghost use Rattle.rm_types.specs.declared.entries.Entry.{Entry as AnyEntry};
ghost use Rattle.rm_types.specs.Ranges.{IsOperation};
ghost use Rattle.rm_model.specs.Place.{close_left};
ghost use Rattle.rm_store.specs.Store.{StoreInvariant};
ghost use Rattle.rm_lives.specs.Keeping.{armed_by};
ghost use Rattle.rm_workers.specs.Turns.{WrittenFact};
ghost use Rattle.rm_workers.specs.Work.{Owing};

use crate::since::Since;
use crate::turns::Written;
use rm_desk::Desk;
use rm_disk::Disk;
use rm_lives::halt_of;
use rm_store::Store;
use rm_types::{Close, NoMemory, Op};

/// Whether the store's fuse refused a call since it was armed.
pub(crate) fn is_blown<D: Disk>(store: &mut Store<D>) -> bool
    ensures same { store.new ≡ store.old }
    ensures blown { result ≡ store.old.disk.blown }
{
    store.fuse().blown()
}

// How many calls the fuse let pass.
fn passed_of<D: Disk>(store: &mut Store<D>) -> u32
    ensures same { store.new ≡ store.old }
    ensures passed { result ≡ store.old.disk.passed }
{
    store.fuse().passed()
}

/// Arms the fuse where the segment that became the current one is to crash.
pub(crate) fn arm<D: Disk>(d: &Desk, store: &mut Store<D>) -> Result<(), NoMemory>
    requires sound { StoreInvariant D.view store.old }
    requires unarmed { store.old.disk.armed ≡ None }
    requires unblown { store.old.disk.blown ≡ false }
    ensures sound { OnOk result (StoreInvariant D.view store.new) }
    ensures armed { OnOk result (store.new.disk.armed ≡ armed_by (close_left d.now.place.segments)) }
    ensures unblown { OnOk result (store.new.disk.blown ≡ false) }
    ensures within { OnOk result ((calls : ℕ) → store.new.disk.armed ≡ Some calls → store.new.disk.passed ≤ calls) }
    ensures broken { store.new.is_broken ≡ store.old.is_broken }
    ensures inner { store.new.disk.inner ≡ store.old.disk.inner }
    ensures refused { store.new.disk.refused ≡ store.old.disk.refused }
    ensures falls { store.new.disk.falls ≡ store.old.disk.falls }
    ensures unarmed_falls { store.new.disk.unarmed_falls ≡ store.old.disk.unarmed_falls }
{
    if let Some(Close::Crash { calls, .. }) = d.close_of() {
        store.fuse().arm(calls)?;
    }
    Ok(())
}

/// Writes the operation that is with the store. Where the append fails, the fuse tells whether it refused it.
///
/// What the store's worker knows then holds after every log after which the operation was with the store.
pub(crate) fn write<S: Since, D: Disk>(store: &mut Store<D>, op: &Op) -> Written
    requires sound { StoreInvariant D.view store.old }
    requires unbroken { store.old.is_broken ≡ false }
    requires op { IsOperation op.now }
    ensures written { (log : List AnyEntry) → Owing D.view S.began store.old op.now log → WrittenFact D.view S.began store.new op.now result log }
{
    match store.append(op) {
        Ok(()) => Written::Kept,
        Err(error) => {
            if is_blown(store) {
                Written::Blown(passed_of(store))
            } else {
                Written::Failed(halt_of(error))
            }
        }
    }
}

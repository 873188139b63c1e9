ghost use Rattle.std.specs.Prelude.{◌≡◌, ◌⊎◌, ◌<◌, List, [], OnOk, OnErr, IfErr, None, Some, true, false};
ghost use Rattle.rm_types.specs.declared.messages.Lane.{Lane};
ghost use Rattle.rm_types.specs.declared.operations.Op.{Op as AnyOp};
ghost use Rattle.rm_store.specs.Errors.{IsWriteError};
ghost use Rattle.rm_store.specs.Store.{StoreInvariant as IsStoreSound, seen};
ghost use Rattle.rm_model.specs.Place.{close_left};
ghost use Rattle.rm_core.specs.Words.{has_rest, is_blown, stands};
ghost use Rattle.rm_desk.specs.Lanes.{is_ready_at};
ghost use Rattle.rm_desk.specs.Runs.{moves_left};
ghost use Rattle.rm_lives.specs.Goes.{ExtendsRun};
ghost use Rattle.rm_lives.specs.Halted.{halt_of};
ghost use Rattle.rm_lives.specs.Keeping.{FuseStays, HaltsBy, Serves, StoresOn};
ghost use Rattle.rm_lives.specs.Lives.{AddsOneOf};
ghost use Rattle.rm_lives.specs.Order.{May};

use crate::halts::Halt;
use crate::order::Ordered;
use crate::refusals::memory_only;
use rm_desk::Desk;
use rm_disk::Disk;
use rm_store::{Store, StoreError};
use rm_types::Close;

/// What halts a life where a store that isn't broken refused an append. Such an append finds no damage.
pub fn halt_of(error: StoreError) -> Halt
    requires { IsWriteError error }
    ensures { result ≡ halt_of error }
{
    match error {
        StoreError::DiskFault => Halt::DiskFault,
        StoreError::Full { needed, room } => Halt::Full { needed, room },
        StoreError::Memory => Halt::Memory,
        StoreError::Damaged { .. } | StoreError::Stray { .. } | StoreError::NeedsReopen => {
            unreachable!()
        }
    }
}

/// The store keeps the operation that is with it, or its fuse refuses it; then the manager learns so.
pub(crate) fn keep<D: Disk, O: Ordered>(
    d: &mut Desk,
    store: &mut Store<D>,
    by: &O,
) -> Result<(), Halt>
    requires ready { is_ready_at d.old Lane.Write ≡ true }
    requires chosen { May (O.order by.now) Lane.Write d.old }
    requires serves { Serves D.view d.old store.old }
    ensures goes { ExtendsRun (O.order by.now) [] d.old d.new }
    ensures less { OnOk result (moves_left d.new < moves_left d.old) }
    ensures stands { OnOk result (stands d.new.core ≡ true) }
    ensures serves { OnOk result (Serves D.view d.new store.new) }
    ensures stores { OnOk result ((opening : List AnyOp) → StoresOn opening d.old d.new (seen D.view store.old.disk) (seen D.view store.new.disk)) }
    ensures one { OnOk result (AddsOneOf Lane.Write d.old d.new) }
    ensures closes { OnOk result ((close_left d.new.place.segments ≡ close_left d.old.place.segments) ⊎ has_rest d.new.core) }
    ensures fuse { FuseStays D.view store.old.disk store.new.disk }
    ensures halts { IfErr result (HaltsBy (O.order by.now) D.view d.old d.new store.old.disk store.new.disk) }
{
    let _ = by;
    d.law();
    let Some(op) = d.handed() else { unreachable!() };
    if let Err(error) = store.append(op) {
        if !store.fuse().blown() {
            return Err(halt_of(error));
        }
        let passed = store.fuse().passed();
        memory_only(d.blown(passed))?;
        return Ok(());
    }
    memory_only(d.kept())?;
    Ok(())
}

/// Arms the fuse where the segment that became the current one is to crash.
pub fn arm<D: Disk>(d: &Desk, store: &mut Store<D>) -> Result<(), Halt>
    requires sound { IsStoreSound D.view store.old }
    requires unbroken { store.old.is_broken ≡ false }
    requires unarmed { store.old.disk.armed ≡ None }
    requires unblown { store.old.disk.blown ≡ false }
    requires whole { is_blown d.now.core ≡ false }
    ensures serves { OnOk result (Serves D.view d.now store.new) }
    ensures inner { store.new.disk.inner ≡ store.old.disk.inner }
    ensures refused { store.new.disk.refused ≡ store.old.disk.refused }
    ensures fuse { FuseStays D.view store.old.disk store.new.disk }
    ensures halts { IfErr result (λ halt. halt ≡ Halt.Memory) }
{
    if let Some(Close::Crash { calls, .. }) = d.close_of() {
        store.fuse().arm(calls)?;
    }
    Ok(())
}

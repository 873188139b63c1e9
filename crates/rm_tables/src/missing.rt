//! Containers of former epochs that the book doesn't have.
ghost use Rattle.std.specs.Prelude.{◌≡◌, IfOk};
ghost use Rattle.rm_model.specs.Containers.{is_earlier};
ghost use Rattle.rm_tables.specs.Absorbing.{is_pending_in, was_first};
ghost use Rattle.rm_tables.specs.Leaving.{departing, is_noted};
ghost use Rattle.rm_tables.specs.Missing.{astray_released, is_astray_in, is_at_disposal_in, is_missing_in};
ghost use Rattle.rm_tables.specs.Rows.{row_of};

use crate::recorded::{is_masters, is_wanted, keeps};
use crate::rows::Rows;
use crate::tables::Tables;
use rm_tree::Tree;
use rm_types::{AttemptId, ContainerId, Items, NoMemory};

/// Whether an attempt was kept when the life began.
pub fn was_first(rows: &Rows, id: AttemptId) -> bool
    ensures { result ≡ was_first id (row_of rows.now id.app) }
{
    match rows.find(id.app) {
        Some(row) => id.number > 0 && id.number as usize <= row.first,
        None => false,
    }
}

/// Whether a container is missing: it may run on a node that has not registered yet, or have ended meanwhile.
pub fn is_missing(t: &Tables, id: ContainerId) -> bool
    ensures { result ≡ is_missing_in t.now id }
{
    !t.book.has(id)
        && !t.departed.has(id)
        && id.epoch < t.epoch
        && was_first(&t.rows, id.attempt)
        && is_wanted(&t.tree, id)
}

/// Whether a container is missing, where the cluster recovers ended containers.
pub fn is_astray(t: &Tables, id: ContainerId) -> bool
    ensures { result ≡ is_astray_in t.now id }
{
    t.settings.recover_ended_containers && is_missing(t, id)
}

/// Whether a container was released in this life while it was missing, where the cluster recovers ended containers.
pub fn is_pending(t: &Tables, id: ContainerId) -> bool
    ensures { result ≡ is_pending_in t.now id }
{
    t.settings.recover_ended_containers && t.pending.has(id)
}

/// Whether an attempt is an earlier one of the same application.
pub fn is_earlier(one: AttemptId, attempt: AttemptId) -> bool
    ensures { result ≡ is_earlier one attempt }
{
    one.app == attempt.app && one.number < attempt.number
}

/// Whether a container is at the disposal of an attempt.
pub fn is_at_disposal(tree: &Tree, attempt: AttemptId, id: ContainerId) -> bool
    ensures { result ≡ is_at_disposal_in tree.now.apps attempt id }
{
    id.attempt == attempt || (keeps(tree, attempt.app) && is_earlier(id.attempt, attempt))
}

/// Those of these containers that an attempt releases while they are astray.
pub fn astray_released(
    t: &Tables,
    attempt: AttemptId,
    list: &[ContainerId],
) -> Result<Items<ContainerId>, NoMemory>
    ensures { IfOk result (λ ids. ids ≡ astray_released t.now attempt list.now) }
{
    let mut ids = Items::new(t.alloc);
    'list: for id in list {
        if is_astray(t, *id) && is_at_disposal(&t.tree, attempt, *id) && !is_masters(&t.tree, *id) {
            ids.push(*id)?;
        }
    }
    Ok(ids)
}

/// Whether a container is noted as it leaves the book.
fn is_noted(t: &Tables, id: ContainerId) -> bool
    ensures { result ≡ is_noted t.now id }
{
    t.settings.recover_ended_containers && id.epoch < t.epoch
}

/// Those of these containers that are noted as they leave the book.
pub fn departing(t: &Tables, list: &[ContainerId]) -> Result<Items<ContainerId>, NoMemory>
    ensures { IfOk result (λ ids. ids ≡ departing t.now list.now) }
{
    let mut ids = Items::new(t.alloc);
    'list: for id in list {
        if is_noted(t, *id) {
            ids.push(*id)?;
        }
    }
    Ok(ids)
}

//! What attempts were granted and nobody was told of yet.
ghost use Rattle.std.specs.Prelude.{◌≡◌, Bool, IfOk};
ghost use Rattle.std.specs.Fn.{FnReturnsAt};
ghost use Rattle.rm_types.specs.declared.containers.BookRow.{BookRow as Row};
ghost use Rattle.rm_book.specs.Granted.{AllMayBeTold, grant_in, row_grant, grants_to, grants_where};
ghost use Rattle.rm_types.specs.Containers.{is_granted};

use crate::row_table::RowTable;
use rm_types::{
    AppId, AttemptId, BookRow, ContainerId, ContainerState, Duplicate, Grant, Items, NoMemory,
};

/// Whether a container in this state was granted, and nobody was told of it yet.
pub fn is_granted(state: ContainerState) -> bool
    ensures { result ≡ is_granted state }
{
    state == ContainerState::Granted
}

/// The grant of a row's container.
fn grant_of(row: &BookRow) -> Result<Grant, NoMemory>
    ensures { IfOk result (λ grant. grant ≡ row_grant row.now) }
{
    let node = row.node.copy()?;
    Ok(Grant {
        id: row.id,
        node,
        size: row.size,
    })
}

/// What an attempt was granted and nobody was told of yet, in the order of the rows.
pub fn grants_to(rows: &RowTable, attempt: AttemptId) -> Result<Items<Grant>, NoMemory>
    ensures grants { IfOk result (λ grants. grants ≡ grants_to rows.now attempt) }
    ensures told { IfOk result (λ grants. AllMayBeTold rows.now grants) }
{
    let ids = rows.untold_of(attempt)?;
    let mut grants = Items::new(rows.allocator());
    'ids: for id in ids.as_slice() {
        if let Some(grant) = grant_in(rows, *id)? {
            grants.push(grant)?;
        }
    }
    Ok(grants)
}

/// The grant of a container, if it has a row.
fn grant_in(rows: &RowTable, id: ContainerId) -> Result<Option<Grant>, NoMemory>
    ensures { IfOk result (λ grant. grant ≡ grant_in rows.now id) }
{
    match rows.get(id) {
        Some(row) => Ok(Some(grant_of(row)?)),
        None => Ok(None),
    }
}

/// The grants of an application's rows that pass a test, in the order of entering.
pub fn grants_where<F: Fn(&BookRow) -> bool>(
    rows: &RowTable,
    app: AppId,
    test: F,
) -> Result<Items<Grant>, NoMemory>
where
    F: Drop,
    requires { F.IsAlwaysCallable test }
    ensures { (p : Row → Bool) → ((row : Row) (answer : Bool) → FnReturnsAt F.Fn test row answer → answer ≡ p row) → IfOk result (λ grants. grants ≡ grants_where app p rows.now) }
{
    let ids = rows.ids_of(app)?;
    let mut grants = Items::new(rows.allocator());
    'ids: for id in ids.as_slice() {
        if let Some(row) = rows.get(*id) {
            if test(row) {
                grants.push(grant_of(row)?)?;
            }
        }
    }
    Ok(grants)
}

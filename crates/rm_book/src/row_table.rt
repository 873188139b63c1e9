//! The rows of a book: each found by its container, and those of a node, of an application and, where nobody was told of them yet, of
//! an attempt found without a walk over others.
ghost use Rattle.std.specs.Prelude.{◌≡◌, ◌↔◌, [], ◌∷◌, ◌++◌, None, false, filter, find, length, map, not, count_by, IfOk, IsTrue, OnOk, OnErr, if◌then◌else◌};
ghost use Rattle.std.specs.List.{list_any};
ghost use Rattle.std.specs.Option.{option_copied};
ghost use Rattle.std.specs.Map.{lookup};
ghost use Rattle.std.specs.Str.{bytes_eq};
ghost use Rattle.rm_types.specs.Ids.{is_app, is_attempt, is_container};
ghost use Rattle.rm_states.specs.container.Table.{next_container_state};
ghost use Rattle.rm_book.specs.Books.{BookRowsAreApart, is_later, is_of};
ghost use Rattle.rm_book.specs.Granted.{is_granted_to, is_untold_to_attempt};
ghost use Rattle.rm_book.specs.Kept.{AreSame, AreWith, AreWithout, ids_under, ids_where};

use crate::granted::is_granted;
use crate::groups::Groups;
use crate::plain::next_state;
use rm_keyed::Keyed;
use rm_states::container::ContainerEvent;
use rm_types::{
    AppId, AttemptId, BookRow, ContainerId, ContainerState, Duplicate, Items, NoMemory, Resource,
    Text,
};
use std::alloc::Global;
use std::marker::Model;

/// Rows in the order of entering, no two of one container.
#[derive(Drop)]
pub struct RowTable {
    list: Keyed<ContainerId, BookRow>,
    by_node: Groups<Text>,
    by_app: Groups<AppId>,
    untold: Groups<AttemptId>,
}

impl Model for RowTable {
    ghost use Rattle.std.specs.Prelude.{List};
    ghost use Rattle.std.specs.Map.{values_of};
    ghost use Rattle.rm_types.specs.declared.containers.BookRow.{BookRow};
    ghost use Rattle.rm_book.specs.Kept.{RowsAreIndexed};

    ghost Value = { List BookRow };

    ghost view = { λ r. values_of r.list };

    ghost invariant = { λ r. RowsAreIndexed r.list r.by_node.map.entries r.by_app.map.entries r.untold.map.entries };
}

impl RowTable {
    /// No row. It takes no memory.
    pub fn new(alloc: Global) -> RowTable
        ensures { result ≡ [] }
    {
        RowTable {
            list: Keyed::new(alloc),
            by_node: Groups::new(alloc),
            by_app: Groups::new(alloc),
            untold: Groups::new(alloc),
        }
    }

    /// Where the rows' memory comes from.
    pub fn allocator(&self) -> Global {
        self.list.allocator()
    }

    /// How many rows there are.
    pub fn len(&self) -> usize
        ensures { result ≡ length self.now }
    {
        self.list.len()
    }

    /// A container's row. `None` comes exactly where it has none.
    pub fn get(&self, id: ContainerId) -> Option<&BookRow>
        ensures row { option_copied result ≡ find (is_of id) self.now }
        ensures apart { BookRowsAreApart self.now }
    {
        self.list.get(&id)
    }

    /// Whether a container has a row.
    pub fn has(&self, id: ContainerId) -> bool
        ensures { result ≡ list_any (is_of id) self.now }
    {
        self.list.get(&id).is_some()
    }

    /// Adds the row of a container that has none, as the last. `NoMemory` changes nothing.
    pub fn add(
        &mut self,
        id: ContainerId,
        node: &Text,
        size: Resource,
        state: ContainerState,
        told: u64,
    ) -> Result<(), NoMemory>
        requires { list_any (is_of id) self.old ≡ false }
        ensures ok { OnOk result (self.new ≡ self.old ++ record { id = id; node = node.now; size = size; state = state; told = told } ∷ []) }
        ensures err { OnErr result (self.new ≡ self.old) }
    {
        let row = BookRow {
            id,
            node: node.copy()?,
            size,
            state,
            told,
        };
        join(&mut self.by_node, &mut self.by_app, node, id)?;
        if enter(&mut self.list, &mut self.untold, row).is_err() {
            leave(&mut self.by_node, &mut self.by_app, node, id);
            return Err(NoMemory);
        }
        Ok(())
    }

    /// Takes a container's row out, and hands it back. `None` comes exactly where it has none.
    pub fn remove(&mut self, id: ContainerId) -> Option<BookRow>
        ensures row { result ≡ find (is_of id) self.old }
        ensures rest { self.new ≡ filter (λ row. not (is_of id row)) self.old }
        ensures apart { BookRowsAreApart self.old }
    {
        let row = self.list.remove(&id)?;
        leave(&mut self.by_node, &mut self.by_app, &row.node, id);
        leave_untold(&mut self.untold, id, row.state);
        Some(row)
    }

    /// An event comes to a container, whose state follows its table. `false` comes exactly where it has no row; then nothing changes.
    pub fn step(&mut self, id: ContainerId, event: ContainerEvent) -> bool
        ensures found { result ≡ list_any (is_of id) self.old }
        ensures rows { self.new ≡ map (λ row. if is_of id row then record row { state = next_container_state row.state event } else row) self.old }
    {
        let former = self.list.update(
            &id,
            |row: &mut BookRow| -> ContainerState
                ensures { (result ≡ row.old.state) × (row.new ≡ record row.old { state = next_container_state row.old.state event }) }
            {
                let state = row.state;
                row.state = next_state(state, event);
                state
            },
        );
        let Some(former) = former else {
            return false;
        };
        // Each event leads out of Granted, and none leads there.
        leave_untold(&mut self.untold, id, former);
        true
    }

    /// The containers on a node, in the order of entering.
    pub fn ids_on(&self, node: &Text) -> Result<Items<ContainerId>, NoMemory>
        ensures { IfOk result (λ ids. ids ≡ ids_where (λ row. bytes_eq row.node node.now) self.now) }
    {
        self.by_node.ids(node)
    }

    /// The containers of an application, in the order of entering.
    pub fn ids_of(&self, app: AppId) -> Result<Items<ContainerId>, NoMemory>
        ensures ids { IfOk result (λ ids. ids ≡ ids_where (λ row. is_app row.id.attempt.app app) self.now) }
        ensures apart { BookRowsAreApart self.now }
    {
        self.by_app.ids(&app)
    }

    /// The containers that were granted to an attempt and nobody was told of yet, in the order of entering.
    pub fn untold_of(&self, attempt: AttemptId) -> Result<Items<ContainerId>, NoMemory>
        ensures ids { IfOk result (λ ids. ids ≡ ids_where (is_granted_to attempt) self.now) }
        ensures apart { BookRowsAreApart self.now }
    {
        self.untold.ids(&attempt)
    }

    /// Whether an attempt has a container of this epoch with a sequence above this one.
    pub fn has_later(&self, attempt: AttemptId, epoch: u32, seq: u64) -> bool
        ensures { result ≡ list_any (is_later attempt epoch seq) self.now }
    {
        self.by_app.any(&attempt.app, |id: &ContainerId| {
            id.attempt == attempt && id.epoch == epoch && id.seq > seq
        })
    }

    /// How many containers an application has.
    pub fn count_of(&self, app: AppId) -> usize
        ensures { result ≡ count_by (λ row. is_app row.id.attempt.app app) self.now }
    {
        self.by_app.count(&app)
    }
}

/// Adds a container to those of its node and of its application. `NoMemory` adds it to neither.
fn join(
    nodes: &mut Groups<Text>,
    apps: &mut Groups<AppId>,
    node: &Text,
    id: ContainerId,
) -> Result<(), NoMemory>
    requires new_on { list_any (is_container id) (ids_under bytes_eq nodes.old.map.entries node.now) ≡ false }
    requires new_of { list_any (is_container id) (ids_under is_app apps.old.map.entries id.attempt.app) ≡ false }
    ensures nodes { OnOk result (AreWith bytes_eq (bytes_eq node.now) id nodes.old.map.entries nodes.new.map.entries) }
    ensures apps { OnOk result (AreWith is_app (is_app id.attempt.app) id apps.old.map.entries apps.new.map.entries) }
    ensures same_nodes { OnErr result (AreSame bytes_eq nodes.old.map.entries nodes.new.map.entries) }
    ensures same_apps { OnErr result (AreSame is_app apps.old.map.entries apps.new.map.entries) }
{
    nodes.add(node, id)?;
    let app = id.attempt.app;
    if apps.add(&app, id).is_err() {
        nodes.remove(node, id);
        return Err(NoMemory);
    }
    Ok(())
}

/// Takes a container away from those of its node and of its application.
fn leave(nodes: &mut Groups<Text>, apps: &mut Groups<AppId>, node: &Text, id: ContainerId)
    ensures nodes { AreWithout bytes_eq (bytes_eq node.now) id nodes.old.map.entries nodes.new.map.entries }
    ensures apps { AreWithout is_app (is_app id.attempt.app) id apps.old.map.entries apps.new.map.entries }
{
    nodes.remove(node, id);
    let app = id.attempt.app;
    apps.remove(&app, id);
}

/// A row enters, and its container joins those of its attempt that nobody was told of, where it was granted. `NoMemory` changes neither.
fn enter(
    list: &mut Keyed<ContainerId, BookRow>,
    untold: &mut Groups<AttemptId>,
    row: BookRow,
) -> Result<(), NoMemory>
    requires none { lookup (is_container row.id) list.old ≡ None }
    requires new { list_any (is_container row.id) (ids_under is_attempt untold.old.map.entries row.id.attempt) ≡ false }
    ensures list { OnOk result (list.new ≡ list.old ++ (row.id, row) ∷ []) }
    ensures untold { OnOk result (AreWith is_attempt (is_untold_to_attempt row.id row.state) row.id untold.old.map.entries untold.new.map.entries) }
    ensures same_list { OnErr result (list.new ≡ list.old) }
    ensures same_untold { OnErr result (AreSame is_attempt untold.old.map.entries untold.new.map.entries) }
{
    let id = row.id;
    let state = row.state;
    join_untold(untold, id, state)?;
    if list.insert(id, row).is_err() {
        leave_untold(untold, id, state);
        return Err(NoMemory);
    }
    Ok(())
}

/// Adds a container to those of its attempt that nobody was told of, where it was granted. `NoMemory` changes nothing.
fn join_untold(
    untold: &mut Groups<AttemptId>,
    id: ContainerId,
    state: ContainerState,
) -> Result<(), NoMemory>
    requires { list_any (is_container id) (ids_under is_attempt untold.old.map.entries id.attempt) ≡ false }
    ensures ok { OnOk result (AreWith is_attempt (is_untold_to_attempt id state) id untold.old.map.entries untold.new.map.entries) }
    ensures err { OnErr result (AreSame is_attempt untold.old.map.entries untold.new.map.entries) }
{
    if !is_granted(state) {
        return Ok(());
    }
    let attempt = id.attempt;
    untold.add(&attempt, id)
}

/// Takes a container in this state away from those of its attempt that nobody was told of, where it is among them.
fn leave_untold(untold: &mut Groups<AttemptId>, id: ContainerId, state: ContainerState)
    ensures { AreWithout is_attempt (is_untold_to_attempt id state) id untold.old.map.entries untold.new.map.entries }
{
    if is_granted(state) {
        let attempt = id.attempt;
        untold.remove(&attempt, id);
    }
}

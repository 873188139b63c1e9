ghost use Rattle.std.specs.Prelude.{◌≡◌, [], ◌∷◌, ◌++◌, None, not, IfOk, OnOk, OnErr};
ghost use Rattle.std.specs.Option.{option_copied};
ghost use Rattle.rm_types.specs.Ids.{is_container};
ghost use Rattle.rm_states.specs.node.Table.{next_node_state};
ghost use Rattle.rm_tables.specs.Nodes.{beaten_row, changed_row, new_node_row, node_row, ordered_row, registered_node_row, with_node};

use indexmap::IndexMap;
use rm_states::node::{NodeEvent, NodeState};
use rm_types::{Boxed, ContainerId, Duplicate, Held, Items, NoMemory, Reply, Resource, Text};
use std::alloc::Global;
use std::marker::Model;

/// What a life knows of a node that registered in it.
#[derive(Drop)]
pub struct NodeRow {
    /// Its last registration: its turn, what it offers, and what it reported as running.
    pub turn: u32,
    pub capability: Resource,
    pub running: Items<Held>,
    /// How it stands: Waiting, Ready or Lost.
    pub state: NodeState,
    /// The last response id that it was answered, and what it was answered then.
    pub last_id: u32,
    pub last_reply: Boxed<Reply>,
    /// The masters' containers that it is to launch and was not told yet.
    pub launches: Items<ContainerId>,
}

/// What happens to a node without a message of its own.
#[derive(Clone, Copy, PartialEq, Eq)]
pub enum NodeChange {
    /// Its registration was absorbed.
    Absorb,
    /// Its lease ran out.
    Lose,
    /// It isn't to launch a container any more.
    Unlaunch(ContainerId),
}

/// A node's registration: its turn, what it offers, and what it reports as running.
#[derive(Drop)]
pub struct Registration {
    pub turn: u32,
    pub capability: Resource,
    pub running: Items<Held>,
}

/// The nodes that registered in a life, each found by its name without a walk. Contracts see them in the order of their
/// first registrations.
#[derive(Drop)]
pub struct Nodes {
    map: IndexMap<Text, NodeRow>,
}

impl Model for Nodes {
    ghost use Rattle.std.specs.Prelude.{List, ℕ};
    ghost use Rattle.rm_tables.specs.declared.nodes.NodeRow.{NodeRow};

    ghost Value = { List (List ℕ × NodeRow) };

    ghost view = { λ a. a.map.entries };
}

impl Nodes {
    /// No nodes. It takes no memory.
    pub fn new(alloc: Global) -> Nodes
        ensures { result ≡ [] }
    {
        Nodes {
            map: IndexMap::new(alloc),
        }
    }

    /// The row of a node. `None` comes exactly where it didn't register in this life.
    pub fn find(&self, name: &Text) -> Option<&NodeRow>
        ensures { option_copied result ≡ node_row self.now name.now }
    {
        self.map.get(name)
    }

    /// Adds the row of a node that has none. `NoMemory` leaves the nodes as they were; the row is then dropped.
    pub fn add(&mut self, name: Text, row: NodeRow) -> Result<(), NoMemory>
        requires { node_row self.old name ≡ None }
        ensures ok { OnOk result (self.new ≡ self.old ++ (name, row) ∷ []) }
        ensures err { OnErr result (self.new ≡ self.old) }
    {
        self.map.insert(name, row)?;
        Ok(())
    }

    /// A node that has a row registers again, and is answered. It takes no memory.
    pub fn register(&mut self, name: &Text, registration: Registration, reply: Boxed<Reply>)
        ensures { self.new ≡ with_node (registered_node_row registration.turn registration.capability registration.running reply) name.now self.old }
    {
        if let Some(row) = self.map.get_mut(name) {
            row.register(registration, reply);
        }
    }

    /// A node beat anew, and is answered under a response id; `none` takes the place of the launches that a node was told
    /// which is ready. It takes no memory.
    pub fn beat(&mut self, name: &Text, id: u32, reply: Boxed<Reply>, none: Items<ContainerId>)
        requires { none ≡ [] }
        ensures { self.new ≡ with_node (beaten_row id reply) name.now self.old }
    {
        if let Some(row) = self.map.get_mut(name) {
            row.beat(id, reply, none);
        }
    }

    /// A node is to launch one container more. `NoMemory` changes nothing.
    pub fn order(&mut self, name: &Text, container: ContainerId) -> Result<(), NoMemory>
        ensures ok { OnOk result (self.new ≡ with_node (ordered_row container) name.now self.old) }
        ensures err { OnErr result (self.new ≡ self.old) }
    {
        let Some(row) = self.map.get(name) else {
            return Ok(());
        };
        let launches = row.ordered(container)?;
        if let Some(row) = self.map.get_mut(name) {
            row.launches = launches;
        }
        Ok(())
    }

    /// Something happens to a node, where it registered. It takes no memory.
    pub fn change(&mut self, name: &Text, change: NodeChange)
        ensures { self.new ≡ with_node (changed_row change) name.now self.old }
    {
        if let Some(row) = self.map.get_mut(name) {
            row.change(change);
        }
    }
}

/// The state of a node after an event: where the row of the two leads, and the same where there is none.
fn next_state(state: NodeState, event: NodeEvent) -> NodeState
    ensures { result ≡ next_node_state state event }
{
    match rm_states::node::step(state, event) {
        Some((next, _action)) => next,
        None => state,
    }
}

impl NodeRow {
    /// The row of a node that registers for the first time in a life.
    pub fn new(registration: Registration, reply: Boxed<Reply>, none: Items<ContainerId>) -> NodeRow
        requires { none ≡ [] }
        ensures { result ≡ new_node_row registration.turn registration.capability registration.running reply }
    {
        NodeRow {
            turn: registration.turn,
            capability: registration.capability,
            running: registration.running,
            state: next_state(NodeState::Absent, NodeEvent::Register),
            last_id: 0,
            last_reply: reply,
            launches: none,
        }
    }

    fn register(&mut self, registration: Registration, reply: Boxed<Reply>)
        ensures { self.new ≡ registered_node_row registration.turn registration.capability registration.running reply self.old }
    {
        self.turn = registration.turn;
        self.capability = registration.capability;
        self.running = registration.running;
        self.state = next_state(self.state, NodeEvent::Register);
        self.last_id = 0;
        self.last_reply = reply;
    }

    fn beat(&mut self, id: u32, reply: Boxed<Reply>, none: Items<ContainerId>)
        requires { none ≡ [] }
        ensures { self.new ≡ beaten_row id reply self.old }
    {
        self.last_id = id;
        self.last_reply = reply;
        if self.state == NodeState::Ready {
            self.launches = none;
        }
    }

    /// Its launches, and one more.
    fn ordered(&self, container: ContainerId) -> Result<Items<ContainerId>, NoMemory>
        ensures { IfOk result (λ launches. launches ≡ self.now.launches ++ container ∷ []) }
    {
        let mut launches = self.launches.copy()?;
        launches.push(container)?;
        Ok(launches)
    }

    fn change(&mut self, change: NodeChange)
        ensures { self.new ≡ changed_row change self.old }
    {
        match change {
            NodeChange::Absorb => self.state = next_state(self.state, NodeEvent::Absorb),
            NodeChange::Lose => self.state = next_state(self.state, NodeEvent::Expire),
            NodeChange::Unlaunch(container) => self.unlaunch(container),
        }
    }

    fn unlaunch(&mut self, container: ContainerId)
        ensures { self.new ≡ changed_row (NodeChange.Unlaunch container) self.old }
    {
        self.launches.retain(
            |one: &ContainerId| -> bool
                ensures { result ≡ not (is_container one.now container) }
            { *one != container },
        );
    }
}

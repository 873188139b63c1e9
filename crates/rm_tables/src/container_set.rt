//! Sets of containers.
ghost use Rattle.std.specs.Prelude.{◌≡◌, ◌↔◌, ◌≤◌, [], IsTrue, OnOk, OnErr, length, take};
ghost use Rattle.rm_model.specs.Facts.{has_container};
ghost use Rattle.rm_tables.specs.ContainerSets.{with_containers};

use indexmap::IndexSet;
use rm_types::{ContainerId, NoMemory};
use std::alloc::Global;
use std::marker::Model;

/// Containers, each once, in the order of joining. Whether one is among them is found without a walk.
#[derive(Drop)]
pub struct ContainerSet {
    set: IndexSet<ContainerId>,
}

impl Model for ContainerSet {
    ghost use Rattle.std.specs.Prelude.{List};
    ghost use Rattle.rm_types.specs.declared.ids.ContainerId.{ContainerId};

    ghost Value = { List ContainerId };

    ghost view = { λ a. a.set.keys };
}

impl ContainerSet {
    /// No container. It takes no memory.
    pub fn new(alloc: Global) -> ContainerSet
        ensures { result ≡ [] }
    {
        ContainerSet {
            set: IndexSet::new(alloc),
        }
    }

    /// How many there are.
    pub fn len(&self) -> usize
        ensures { result ≡ length self.now }
    {
        self.set.len()
    }

    /// Whether there is none.
    pub fn is_empty(&self) -> bool
        ensures { IsTrue result ↔ (self.now ≡ []) }
    {
        self.set.len() == 0
    }

    /// Whether a container is among them.
    pub fn has(&self, id: ContainerId) -> bool
        ensures { result ≡ has_container self.now id }
    {
        self.set.contains(&id)
    }

    /// These containers join, each where it isn't there yet. `NoMemory` changes nothing.
    pub fn join(&mut self, ids: &[ContainerId]) -> Result<(), NoMemory>
        ensures ok { OnOk result (self.new ≡ with_containers self.old ids.now) }
        ensures err { OnErr result (self.new ≡ self.old) }
    {
        let before = self.set.len();
        if join_each(&mut self.set, ids) == ids.len() {
            return Ok(());
        }
        self.set.truncate(before);
        Err(NoMemory)
    }

    /// Those that joined last go again, until so many are left. It takes no memory.
    pub fn truncate(&mut self, len: usize)
        ensures { self.new ≡ take len self.old }
    {
        self.set.truncate(len);
    }
}

/// Containers join, up to the first for which there is no memory; says how many of the list were gone through.
fn join_each(set: &mut IndexSet<ContainerId>, ids: &[ContainerId]) -> usize
    ensures count { result ≤ length ids.now }
    ensures keys { set.new.keys ≡ with_containers set.old.keys (take result ids.now) }
{
    'ids: for (place, id) in ids.iter().enumerate() {
        if set.insert(*id).is_err() {
            return place;
        }
    }
    ids.len()
}

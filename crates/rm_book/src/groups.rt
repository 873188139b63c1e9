//! Containers in groups, as by node or by application.
ghost use Rattle.std.specs.Prelude.{◌≡◌, Bool, [], ◌∷◌, ◌++◌, IfOk, OnOk, OnErr, false, length, None, if◌then◌else◌};
ghost use Rattle.std.specs.Fn.{FnReturnsAt};
ghost use Rattle.std.specs.List.{list_any};
ghost use Rattle.std.specs.Map.{lookup};
ghost use Rattle.indexmap.specs.IndexSet.{remove_key};
ghost use Rattle.rm_types.specs.declared.ids.ContainerId.{ContainerId as Container};
ghost use Rattle.rm_types.specs.Ids.{is_container};
ghost use Rattle.rm_book.specs.Kept.{ids_under};

use indexmap::IndexMap;
use rm_keyed::Keyed;
use rm_types::{ContainerId, Duplicate, Items, NoMemory};
use std::alloc::Global;
use std::hash::Hash;

/// The containers under each key, in the order of entering: a key's are found, and one is taken away, without a walk. A key that
/// has none left takes no place.
#[derive(Drop)]
pub struct Groups<K: Eq + Hash> {
    pub map: IndexMap<K, Keyed<ContainerId, ()>>,
}

impl<K: Eq + Hash + Duplicate + Drop> Groups<K> {
    /// No container. It takes no memory.
    pub fn new(alloc: Global) -> Groups<K>
        ensures { (key : K) → ids_under K.eq result.map.entries key ≡ [] }
    {
        Groups {
            map: IndexMap::new(alloc),
        }
    }

    /// How many containers are under a key.
    pub fn count(&self, key: &K) -> usize
        ensures { result ≡ length (ids_under K.eq self.now.map.entries key.now) }
    {
        match self.map.get(key) {
            Some(group) => group.len(),
            None => 0,
        }
    }

    /// The containers under a key.
    pub fn ids(&self, key: &K) -> Result<Items<ContainerId>, NoMemory>
        ensures { IfOk result (λ ids. ids ≡ ids_under K.eq self.now.map.entries key.now) }
    {
        match self.map.get(key) {
            Some(group) => group.keys(),
            None => Ok(Items::new(*self.map.allocator())),
        }
    }

    /// Whether a container under a key passes a test.
    pub fn any<F: Fn(&ContainerId) -> bool>(&self, key: &K, test: F) -> bool
    where
        F: Drop,
        requires { F.IsAlwaysCallable test }
        ensures { (p : Container → Bool) → ((id : Container) (answer : Bool) → FnReturnsAt F.Fn test id answer → answer ≡ p id) → result ≡ list_any p (ids_under K.eq self.now.map.entries key.now) }
    {
        match self.map.get(key) {
            Some(group) => group.any(test),
            None => false,
        }
    }

    /// Adds a container under a key where it isn't yet, as the last. `NoMemory` changes nothing.
    pub fn add(&mut self, key: &K, id: ContainerId) -> Result<(), NoMemory>
        requires { list_any (is_container id) (ids_under K.eq self.old.map.entries key.now) ≡ false }
        ensures ok { OnOk result ((other : K) → ids_under K.eq self.new.map.entries other ≡ (if K.eq key.now other then ids_under K.eq self.old.map.entries other ++ id ∷ [] else ids_under K.eq self.old.map.entries other)) }
        ensures err { OnErr result ((other : K) → ids_under K.eq self.new.map.entries other ≡ ids_under K.eq self.old.map.entries other) }
    {
        match self.map.get_mut(key) {
            Some(group) => group.insert(id, ()),
            None => self.add_group(key, id),
        }
    }

    /// Adds a container under a key that has none.
    fn add_group(&mut self, key: &K, id: ContainerId) -> Result<(), NoMemory>
        requires { lookup (K.eq key.now) self.old.map.entries ≡ None }
        ensures ok { OnOk result ((other : K) → ids_under K.eq self.new.map.entries other ≡ (if K.eq key.now other then ids_under K.eq self.old.map.entries other ++ id ∷ [] else ids_under K.eq self.old.map.entries other)) }
        ensures err { OnErr result ((other : K) → ids_under K.eq self.new.map.entries other ≡ ids_under K.eq self.old.map.entries other) }
    {
        let mut group = Keyed::new(*self.map.allocator());
        group.insert(id, ())?;
        self.map.insert(key.copy()?, group)?;
        Ok(())
    }

    /// Takes a container away from under a key.
    pub fn remove(&mut self, key: &K, id: ContainerId)
        ensures { (other : K) → ids_under K.eq self.new.map.entries other ≡ (if K.eq key.now other then remove_key (is_container id) (ids_under K.eq self.old.map.entries other) else ids_under K.eq self.old.map.entries other) }
    {
        if self.leave(key, id) == 0 {
            self.map.swap_remove(key);
        }
    }

    /// Takes a container away from under a key, and says how many are left there.
    fn leave(&mut self, key: &K, id: ContainerId) -> usize
        ensures left { result ≡ length (ids_under K.eq self.new.map.entries key.now) }
        ensures ids { (other : K) → ids_under K.eq self.new.map.entries other ≡ (if K.eq key.now other then remove_key (is_container id) (ids_under K.eq self.old.map.entries other) else ids_under K.eq self.old.map.entries other) }
    {
        match self.map.get_mut(key) {
            Some(group) => {
                group.remove(&id);
                group.len()
            }
            None => 0,
        }
    }
}

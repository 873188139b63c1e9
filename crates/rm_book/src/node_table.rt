//! What each node may hold, and what stands on it.
ghost use Rattle.std.specs.Prelude.{◌≡◌, ◌<◌, ◌≤◌, ◌-◌, ℕ, List, [], ◌∷◌, ◌++◌, IfOk, IfSome, OnOk, None, Some, length, slice_get, if◌then◌else◌};
ghost use Rattle.std.specs.Map.{lookup};
ghost use Rattle.std.specs.Option.{option_copied, option_map};
ghost use Rattle.std.specs.Str.{bytes_eq};
ghost use Rattle.indexmap.specs.IndexMap.{spare};
ghost use Rattle.rm_book.specs.Books.{with_capability};
ghost use Rattle.rm_book.specs.Kept.{Holds, FitsCapability, nodes_shown, sum_with, sum_without, used_in};

use indexmap::IndexMap;
use rm_types::{Duplicate, NoMemory, Resource, Text};
use std::alloc::Global;

/// A sum of sizes. It has 64 bits by part, since for as long as a report is absorbed more may stand on a node than fits it.
#[derive(Clone, Copy, PartialEq, Eq)]
pub struct SizeSum {
    pub memory_mb: u64,
    pub vcores: u64,
}

/// What containers on a node may amount to, and what those there amount to.
#[derive(Clone, Copy, PartialEq, Eq)]
pub struct NodeLoad {
    pub capability: Resource,
    pub used: SizeSum,
}

impl NodeLoad {
    /// What is left of the node, where what stands there fits it.
    pub fn free(self) -> Resource
        requires { FitsCapability self }
        ensures memory { result.memory_mb ≡ self.capability.memory_mb - self.used.memory_mb }
        ensures cores { result.vcores ≡ self.capability.vcores - self.used.vcores }
    {
        Resource {
            memory_mb: (u64::from(self.capability.memory_mb) - self.used.memory_mb) as u32,
            vcores: (u64::from(self.capability.vcores) - self.used.vcores) as u32,
        }
    }
}

/// The nodes that have a capability, in the order in which they first were given one, each found without a walk.
#[derive(Drop)]
pub struct NodeTable {
    pub map: IndexMap<Text, NodeLoad>,
}

impl NodeTable {
    /// No node. It takes no memory.
    pub fn new(alloc: Global) -> NodeTable
        ensures { result.map.entries ≡ [] }
    {
        NodeTable {
            map: IndexMap::new(alloc),
        }
    }

    /// What a node may hold and what stands there. `None` comes exactly where it has no capability.
    pub fn get(&self, node: &Text) -> Option<NodeLoad>
        ensures { result ≡ lookup (bytes_eq node.now) self.now.map.entries }
    {
        self.map.get(node).copied()
    }

    /// How many nodes there are.
    pub fn len(&self) -> usize
        ensures { result ≡ length (nodes_shown self.now.map.entries) }
    {
        self.map.len()
    }

    /// The node at a place, if it is below the length.
    pub fn at(&self, place: usize) -> Option<&Text>
        ensures { option_copied result ≡ option_map (λ one. one.node) (slice_get (nodes_shown self.now.map.entries) place) }
    {
        let (node, _load) = self.map.get_index(place)?;
        Some(node)
    }

    /// A node's name for an entry of its own, and room for that entry.
    pub fn room(&mut self, node: &Text) -> Result<Text, NoMemory>
        ensures name { IfOk result (λ name. name ≡ node.now) }
        ensures room { OnOk result (0 < spare self.new.map) }
        ensures same { self.new.map.entries ≡ self.old.map.entries }
    {
        let name = node.copy()?;
        self.map.reserve(1)?;
        Ok(name)
    }

    /// Sets a node's capability, where room was made for it, and says how much more stands there. A node that had none enters as the
    /// last. It takes no memory.
    pub fn set(&mut self, node: Text, capability: Resource, more: Resource)
        requires room { 0 < spare self.old.map }
        requires within { IfSome (lookup (bytes_eq node) self.old.map.entries) FitsCapability }
        ensures shown { nodes_shown self.new.map.entries ≡ with_capability node capability (nodes_shown self.old.map.entries) }
        ensures loads { (other : List ℕ) → lookup (bytes_eq other) self.new.map.entries ≡ (if bytes_eq node other then Some (record { capability = capability; used = sum_with (used_in (lookup (bytes_eq other) self.old.map.entries)) more }) else lookup (bytes_eq other) self.old.map.entries) }
    {
        match self.map.get_mut(&node) {
            Some(load) => {
                raise_load(load, more);
                load.capability = capability;
            }
            None => self.enter(node, capability, more),
        }
    }

    /// Adds a node that has no capability yet.
    fn enter(&mut self, node: Text, capability: Resource, used: Resource)
        requires room { 0 < spare self.old.map }
        requires none { lookup (bytes_eq node) self.old.map.entries ≡ None }
        ensures shown { nodes_shown self.new.map.entries ≡ with_capability node capability (nodes_shown self.old.map.entries) }
        ensures loads { (other : List ℕ) → lookup (bytes_eq other) self.new.map.entries ≡ (if bytes_eq node other then Some (record { capability = capability; used = sum_with (used_in (lookup (bytes_eq other) self.old.map.entries)) used }) else lookup (bytes_eq other) self.old.map.entries) }
    {
        let used = SizeSum {
            memory_mb: u64::from(used.memory_mb),
            vcores: u64::from(used.vcores),
        };
        let load = NodeLoad { capability, used };
        if self.map.insert(node, load).is_err() {
            unreachable!()
        }
    }

    /// More stands on a node, where it has a capability, which what stood there fits.
    pub fn raise(&mut self, node: &Text, size: Resource)
        requires { IfSome (lookup (bytes_eq node.now) self.old.map.entries) FitsCapability }
        ensures shown { nodes_shown self.new.map.entries ≡ nodes_shown self.old.map.entries }
        ensures loads { (other : List ℕ) → lookup (bytes_eq other) self.new.map.entries ≡ option_map (λ load. if bytes_eq node.now other then record load { used = sum_with load.used size } else load) (lookup (bytes_eq other) self.old.map.entries) }
    {
        if let Some(load) = self.map.get_mut(node) {
            raise_load(load, size);
        }
    }

    /// Less stands on a node, where it has a capability; so much must stand there.
    pub fn lower(&mut self, node: &Text, size: Resource)
        requires { IfSome (lookup (bytes_eq node.now) self.old.map.entries) (λ load. Holds load.used size) }
        ensures shown { nodes_shown self.new.map.entries ≡ nodes_shown self.old.map.entries }
        ensures loads { (other : List ℕ) → lookup (bytes_eq other) self.new.map.entries ≡ option_map (λ load. if bytes_eq node.now other then record load { used = sum_without load.used size } else load) (lookup (bytes_eq other) self.old.map.entries) }
    {
        if let Some(load) = self.map.get_mut(node) {
            lower_load(load, size);
        }
    }
}

/// Adds a size to what stands on a node, which fits it.
fn raise_load(load: &mut NodeLoad, size: Resource)
    requires { FitsCapability load.old }
    ensures { load.new ≡ record load.old { used = sum_with load.old.used size } }
{
    let before = *load;
    load.used = SizeSum {
        memory_mb: before.used.memory_mb + u64::from(size.memory_mb),
        vcores: before.used.vcores + u64::from(size.vcores),
    };
}

/// Takes a size from what stands on a node.
fn lower_load(load: &mut NodeLoad, size: Resource)
    requires { Holds load.old.used size }
    ensures { load.new ≡ record load.old { used = sum_without load.old.used size } }
{
    load.used.memory_mb -= u64::from(size.memory_mb);
    load.used.vcores -= u64::from(size.vcores);
}

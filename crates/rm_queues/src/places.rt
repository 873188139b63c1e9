ghost use Rattle.std.specs.Prelude.{◌≡◌, ℕ, List, OnOk, None, IfOk};
ghost use Rattle.rm_types.specs.Rights.{path_of, parents_of};
ghost use Rattle.rm_queues.specs.Places.{place_in, first_known_place, AddsPlace, AreFirstPlaces};

use crate::paths::parent_of;
use rm_types::{NoMemory, QueueSpec, UserGroups};
use std::alloc::Global;
use std::collections::HashMap;

/// The first places of texts in a list.
#[derive(Drop)]
pub struct Places {
    by_text: HashMap<Vec<u8>, usize>,
}

impl Places {
    /// No text has a place. It takes no memory.
    fn new(alloc: Global) -> Places
        ensures { (text : List ℕ) → place_in result text ≡ None }
    {
        Places {
            by_text: HashMap::new(alloc),
        }
    }

    /// The place of a text, if it has one.
    pub(crate) fn place(&self, text: &[u8]) -> Option<usize>
        ensures { result ≡ place_in self.now text.now }
    {
        self.by_text.get(text).copied()
    }

    /// Gives a text a place, unless it has one.
    fn add(&mut self, alloc: Global, text: &[u8], place: usize) -> Result<(), NoMemory>
        ensures { OnOk result (AddsPlace self.old self.new text.now place) }
    {
        if !self.by_text.contains_key(text) {
            let key = Vec::from_slice(alloc, text)?;
            self.by_text.insert(key, place)?;
        }
        Ok(())
    }

    /// The places of queues by their names.
    pub(crate) fn of_queues(alloc: Global, queues: &[QueueSpec]) -> Result<Places, NoMemory>
        ensures { IfOk result (AreFirstPlaces (λ queue. queue.name) queues.now) }
    {
        let mut places = Places::new(alloc);
        for (place, queue) in queues.iter().enumerate() {
            places.add(alloc, queue.name.bytes(), place)?;
        }
        Ok(places)
    }

    /// The places of groups by their users.
    pub(crate) fn of_users(alloc: Global, groups: &[UserGroups]) -> Result<Places, NoMemory>
        ensures { IfOk result (AreFirstPlaces (λ one. one.user) groups.now) }
    {
        let mut places = Places::new(alloc);
        for (place, one) in groups.iter().enumerate() {
            places.add(alloc, one.user.bytes(), place)?;
        }
        Ok(places)
    }

    /// The place of a name or else of the nearest of its parents that has one.
    pub(crate) fn nearest(&self, name: &[u8]) -> Option<usize>
        ensures { result ≡ first_known_place self.now (path_of name.now) }
    {
        let mut next = Some(name);
        while let Some(name) = next {
            let place = self.place(name);
            if place.is_some() {
                return place;
            }
            next = parent_of(name);
        }
        None
    }

    /// The place of the nearest of a name's parents that has one.
    pub(crate) fn nearest_parent(&self, name: &[u8]) -> Option<usize>
        ensures { result ≡ first_known_place self.now (parents_of name.now) }
    {
        match parent_of(name) {
            Some(parent) => self.nearest(parent),
            None => None,
        }
    }
}

ghost use Rattle.std.specs.Prelude.{◌≡◌, ◌+◌, ◌<◌, Bool, [], ◌∷◌, ◌++◌, length, filter, slice_get, None, Some, OnOk, OnErr, IfOk, IfSome, IfNone, is_some};
ghost use Rattle.std.specs.Fn.{FnOnceReturnsAtMut, FnReturnsAt};
ghost use Rattle.std.specs.List.{filter_map, list_any, IsDistinct};
ghost use Rattle.std.specs.Option.{option_copied};
ghost use Rattle.std.specs.Map.{keys_of, values_of, lookup, remove_entry, set_value};
ghost use Rattle.indexmap.specs.IndexMap.{insert_entry};
ghost use Rattle.rm_keyed.specs.Slots.{joined, key_at, live, places_of, value_at};

use indexmap::IndexMap;
use rm_types::{Duplicate, Items, NoMemory};
use std::alloc::Global;
use std::hash::Hash;
use std::marker::Model;

/// Values under keys, in the order of entering, each found by its key without a walk. A value that is taken away leaves a gap. The
/// gaps are closed once they are more than the values, by a walk over fewer than two slots for each value that was taken away since
/// they were closed before.
#[derive(Drop)]
pub struct Keyed<K: Eq + Hash, V> {
    slots: IndexMap<K, Option<V>>,
    count: usize,
}

impl<K: Eq + Hash, V> Model for Keyed<K, V> {
    ghost use Rattle.std.specs.Prelude.{List};
    ghost use Rattle.rm_keyed.specs.Slots.{live, AreSlots};

    ghost Value = { List (K × V) };

    ghost view = { λ a. live a.slots.entries };

    ghost invariant = { λ a. AreSlots K.eq a.slots.entries a.count };
}

impl<K: Eq + Hash + Drop, V: Drop> Keyed<K, V> {
    /// No value. It takes no memory.
    pub fn new(alloc: Global) -> Keyed<K, V>
        ensures { result ≡ [] }
    {
        Keyed {
            slots: IndexMap::new(alloc),
            count: 0,
        }
    }

    /// What the list takes its memory from.
    pub fn allocator(&self) -> Global {
        *self.slots.allocator()
    }

    /// How many values there are. No two are under one key.
    pub fn len(&self) -> usize
        ensures length { result ≡ length self.now }
        ensures unique { IsDistinct K.eq (keys_of self.now) }
    {
        self.count
    }

    /// The value under a key, if there is one.
    pub fn get(&self, key: &K) -> Option<&V>
        ensures value { option_copied result ≡ lookup (K.eq key.now) self.now }
        ensures unique { IsDistinct K.eq (keys_of self.now) }
    {
        match self.slots.get(key) {
            Some(slot) => slot.as_ref(),
            None => None,
        }
    }

    /// The value at a place, if it is below the length. Where there are gaps it is found by a walk.
    pub fn nth(&self, place: usize) -> Option<&V>
        ensures { option_copied result ≡ slice_get (values_of self.now) place }
    {
        if self.count == self.slots.len() {
            slot_at(&self.slots, place)
        } else {
            nth_value(&self.slots, place)
        }
    }

    /// Adds a value under a key that has none, as the last. `NoMemory` changes nothing. Where the key comes back to a list that still
    /// has its gap, the gap is closed by a walk.
    pub fn insert(&mut self, key: K, value: V) -> Result<(), NoMemory>
        requires { lookup (K.eq key) self.old ≡ None }
        ensures ok { OnOk result (self.new ≡ self.old ++ (key, value) ∷ []) }
        ensures err { OnErr result (self.new ≡ self.old) }
        ensures unique { IsDistinct K.eq (keys_of self.new) }
    {
        let Some(count) = self.count.checked_add(1) else {
            return Err(NoMemory);
        };
        self.slots.shift_remove(&key);
        self.slots.insert(key, Some(value))?;
        self.count = count;
        Ok(())
    }

    /// Has the value under a key changed, if there is one, and hands on what the change answers.
    pub fn update<R, F: FnOnce(&mut V) -> R>(&mut self, key: &K, change: F) -> Option<R>
    where
        F: Drop,
        requires { F.IsAlwaysCallable change }
        ensures there { (value : V) → lookup (K.eq key.now) self.old ≡ Some value → IfSome result (λ answer. (new : V) × FnOnceReturnsAtMut F.FnOnce change value answer new × (self.new ≡ set_value (K.eq key.now) self.old new)) }
        ensures some { is_some result ≡ is_some (lookup (K.eq key.now) self.old) }
        ensures none { IfNone result (self.new ≡ self.old) }
        ensures unique { IsDistinct K.eq (keys_of self.old) }
    {
        match self.slots.get_mut(key) {
            Some(slot) => update_slot(slot, change),
            None => None,
        }
    }

    /// Takes the value under a key away, if there is one.
    pub fn remove(&mut self, key: &K) -> Option<V>
        ensures value { result ≡ lookup (K.eq key.now) self.old }
        ensures rest { self.new ≡ remove_entry (K.eq key.now) self.old }
        ensures unique { IsDistinct K.eq (keys_of self.old) }
    {
        let taken = self.leave_gap(key);
        if self.count < self.slots.len() / 2 {
            self.drop_gaps();
        }
        taken
    }

    /// Leaves a gap in the place of the value under a key.
    fn leave_gap(&mut self, key: &K) -> Option<V>
        ensures value { result ≡ lookup (K.eq key.now) self.old }
        ensures rest { self.new ≡ remove_entry (K.eq key.now) self.old }
        ensures unique { IsDistinct K.eq (keys_of self.old) }
    {
        let taken = take_out(&mut self.slots, key);
        self.count -= usize::from(taken.is_some());
        taken
    }

    /// Closes the gaps, so that the value at a place is found without a walk. It does nothing where there is none.
    pub fn close_gaps(&mut self)
        ensures { self.new ≡ self.old }
    {
        if self.count < self.slots.len() {
            self.drop_gaps();
        }
    }

    /// Moves the values together.
    fn drop_gaps(&mut self)
        ensures { self.new ≡ self.old }
    {
        self.slots.retain(
            |_key: &K, slot: &mut Option<V>| -> bool
                ensures { (result ≡ is_some slot.old) × (slot.new ≡ slot.old) }
            { slot.is_some() },
        );
    }
}

impl<K: Eq + Hash + Copy, V: Drop> Keyed<K, V> {
    /// Those of these keys that have a value, each once, in the order of entering. What it costs doesn't grow with the number of values
    /// and gaps.
    pub fn in_order(&self, keys: &[K]) -> Result<Items<K>, NoMemory>
        ensures { IfOk result (λ ordered. ordered ≡ filter (λ key. list_any (λ one. K.eq one key) keys.now) (keys_of self.now)) }
    {
        let alloc = *self.slots.allocator();
        let places = places_of(alloc, &self.slots, keys)?;
        keys_at(alloc, &self.slots, &places)
    }
}

impl<K: Eq + Hash + Copy, V: Duplicate + Drop> Keyed<K, V> {
    /// A copy, which equals its source. `NoMemory` where no memory was found for it.
    pub fn copy(&self, alloc: Global) -> Result<Keyed<K, V>, NoMemory>
        ensures { IfOk result (λ copy. copy ≡ self.now) }
    {
        Ok(Keyed {
            slots: copied_slots(&self.slots, alloc)?,
            count: self.count,
        })
    }
}

/// A copy of the slots, the gaps among them.
fn copied_slots<K: Eq + Hash + Copy, V: Duplicate + Drop>(
    slots: &IndexMap<K, Option<V>>,
    alloc: Global,
) -> Result<IndexMap<K, Option<V>>, NoMemory>
    ensures { IfOk result (λ copy. copy.entries ≡ slots.now.entries) }
{
    let mut copied = IndexMap::with_capacity(alloc, slots.len())?;
    'slots: for (key, slot) in slots.iter() {
        insert_copy(&mut copied, *key, slot)?;
    }
    Ok(copied)
}

/// Inserts a copy of a slot under its key.
fn insert_copy<K: Eq + Hash + Copy, V: Duplicate + Drop>(
    slots: &mut IndexMap<K, Option<V>>,
    key: K,
    slot: &Option<V>,
) -> Result<(), NoMemory>
    ensures { OnOk result (slots.new.entries ≡ insert_entry K.eq slots.old.entries key slot.now) }
{
    slots.insert(key, slot.copy()?)?;
    Ok(())
}

/// The indices of the slots whose keys are among these, ascending.
fn places_of<K: Eq + Hash + Copy, V: Drop>(
    alloc: Global,
    slots: &IndexMap<K, Option<V>>,
    keys: &[K],
) -> Result<Vec<usize>, NoMemory>
    requires { IsDistinct K.eq (keys_of slots.now.entries) }
    ensures { IfOk result (λ places. places.items ≡ places_of 0 (λ key. list_any (λ one. K.eq one key) keys.now) (keys_of slots.now.entries)) }
{
    let mut places: Vec<usize> = keys
        .iter()
        .filter_map(|key| slots.get_index_of(key))
        .collect(alloc)?;
    places.sort_unstable();
    places.dedup();
    Ok(places)
}

/// The keys of the slots at these indices that hold a value.
fn keys_at<K: Eq + Hash + Copy, V: Drop>(
    alloc: Global,
    slots: &IndexMap<K, Option<V>>,
    places: &[usize],
) -> Result<Items<K>, NoMemory>
    ensures { IfOk result (λ keys. keys ≡ filter_map (key_at slots.now.entries) places.now) }
{
    let keys: Vec<K> = places
        .iter()
        .filter_map(|place| key_at(slots, *place))
        .collect(alloc)?;
    Ok(Items::from_vec(keys))
}

/// The key of the slot at an index, if the slot holds a value.
fn key_at<K: Eq + Hash + Copy, V>(slots: &IndexMap<K, Option<V>>, index: usize) -> Option<K>
    ensures { result ≡ key_at slots.now.entries index }
{
    match slots.get_index(index) {
        Some((key, Some(_))) => Some(*key),
        _ => None,
    }
}

/// The value of the slot at an index, if both are there.
fn slot_at<K: Eq + Hash, V>(slots: &IndexMap<K, Option<V>>, index: usize) -> Option<&V>
    ensures { option_copied result ≡ value_at slots.now.entries index }
{
    let (_key, slot) = slots.get_index(index)?;
    slot.as_ref()
}

/// The value behind so many others, if there are more.
fn nth_value<K: Eq + Hash, V>(slots: &IndexMap<K, Option<V>>, place: usize) -> Option<&V>
    ensures { option_copied result ≡ slice_get (values_of (live slots.now.entries)) place }
{
    let mut before = place;
    'slots: for index in 0..slots.len() {
        if let Some(value) = slot_at(slots, index) {
            if before == 0 {
                return Some(value);
            }
            before -= 1;
        }
    }
    None
}

impl<K: Eq + Hash + Copy, V> Keyed<K, V> {
    /// The keys that have a value, in the order of entering.
    pub fn keys(&self) -> Result<Items<K>, NoMemory>
        ensures { IfOk result (λ keys. keys ≡ keys_of self.now) }
    {
        live_keys(*self.slots.allocator(), &self.slots)
    }
}

impl<K: Eq + Hash, V> Keyed<K, V> {
    /// Whether a key that has a value passes a test.
    pub fn any<F: Fn(&K) -> bool>(&self, test: F) -> bool
    where
        F: Drop,
        requires { F.IsAlwaysCallable test }
        ensures { (p : K → Bool) → ((key : K) (answer : Bool) → FnReturnsAt F.Fn test key answer → answer ≡ p key) → result ≡ list_any p (keys_of self.now) }
    {
        any_live(&self.slots, test)
    }
}

/// Whether the key of a slot that holds a value passes a test.
fn any_live<K: Eq + Hash, V, F: Fn(&K) -> bool>(slots: &IndexMap<K, Option<V>>, test: F) -> bool
where
    F: Drop,
    requires { F.IsAlwaysCallable test }
    ensures { (p : K → Bool) → ((key : K) (answer : Bool) → FnReturnsAt F.Fn test key answer → answer ≡ p key) → result ≡ list_any p (keys_of (live slots.now.entries)) }
{
    'slots: for (key, slot) in slots.iter() {
        if slot.is_some() && test(key) {
            return true;
        }
    }
    false
}

/// The keys of the slots that hold a value.
fn live_keys<K: Eq + Hash + Copy, V>(
    alloc: Global,
    slots: &IndexMap<K, Option<V>>,
) -> Result<Items<K>, NoMemory>
    ensures { IfOk result (λ keys. keys ≡ keys_of (live slots.now.entries)) }
{
    let mut keys = Items::new(alloc);
    'slots: for (key, slot) in slots.iter() {
        if slot.is_some() {
            keys.push(*key)?;
        }
    }
    Ok(keys)
}

/// Takes the value under a key out of its slot.
fn take_out<K: Eq + Hash, V>(slots: &mut IndexMap<K, Option<V>>, key: &K) -> Option<V>
    ensures entries { slots.new.entries ≡ set_value (K.eq key.now) slots.old.entries None }
    ensures taken { result ≡ joined (lookup (K.eq key.now) slots.old.entries) }
{
    match slots.get_mut(key) {
        Some(slot) => slot.take(),
        None => None,
    }
}

/// Has the value in a slot changed, if there is one.
fn update_slot<V, R, F: FnOnce(&mut V) -> R>(slot: &mut Option<V>, change: F) -> Option<R>
where
    F: Drop,
    requires { F.IsAlwaysCallable change }
    ensures there { (value : V) → slot.old ≡ Some value → IfSome result (λ answer. (new : V) × FnOnceReturnsAtMut F.FnOnce change value answer new × (slot.new ≡ Some new)) }
    ensures some { is_some result ≡ is_some slot.old }
    ensures none { IfNone result (slot.new ≡ slot.old) }
{
    match slot {
        Some(value) => Some(change(value)),
        None => None,
    }
}

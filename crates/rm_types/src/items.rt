ghost use Rattle.std.specs.Prelude.{◌≡◌, ◌<◌, List, [], ◌∷◌, ◌++◌, length, IsTrue, ◌↔◌, Ok, Err, IfErr, OnOk, OnErr, Some, slice_get, ◌⊎◌};
ghost use Rattle.rm_types.specs.Refusals.{no_memory};
ghost use Rattle.rm_types.specs.Lists.{is_nil};
ghost use Rattle.std.specs.Fn.{CalledAt, FnOnceReturnsAtMut, FnOnceTakesAtMut};
ghost use Rattle.std.specs.List.Retain.{IsFiltered};

use crate::duplicate::{Duplicate, NoMemory};
use std::alloc::{AllocError, Global};
use std::marker::Model;

/// A list of items in order. Contracts see the list alone, and not the room that was made for it.
#[derive(Debug, Drop)]
pub struct Items<T> {
    list: Vec<T>,
}

impl<T> Model for Items<T> {
    ghost use Rattle.std.specs.Prelude.{List};

    ghost Value = { List T };

    ghost view = { λ a. a.list.items };
}

impl<T> Items<T> {
    /// The empty list. It takes no memory.
    pub fn new(alloc: Global) -> Items<T>
        ensures { result ≡ [] }
    {
        Items {
            list: Vec::new(alloc),
        }
    }

    /// The items of a vector, taken over as they are.
    pub fn from_vec(list: Vec<T>) -> Items<T>
        ensures { result ≡ list.items }
    {
        Items { list }
    }

    /// Hands the vector back, without a copy.
    pub fn into_vec(self) -> Vec<T>
        ensures { result.items ≡ self }
    {
        self.list
    }

    /// How many items there are.
    pub fn len(&self) -> usize
        ensures { result ≡ length self.now }
    {
        self.list.len()
    }

    /// Whether there is no item.
    pub fn is_empty(&self) -> bool
        ensures nil { IsTrue result ↔ (self.now ≡ []) }
        ensures test { result ≡ is_nil self.now }
    {
        self.list.is_empty()
    }

    /// The item at a place, which is below the length.
    pub fn at(&self, place: usize) -> &T
        requires { place < length self.now }
        ensures { slice_get self.now place ≡ Some result.now }
    {
        &self.list[place]
    }

    /// The items as a slice.
    pub fn as_slice(&self) -> &[T]
        ensures { result.now ≡ self.now }
    {
        self.list.as_slice()
    }

    /// Adds an item at the end. `NoMemory` leaves the list as it was; the item is then dropped.
    pub fn push(&mut self, item: T) -> Result<(), NoMemory>
    where
        T: Drop,
        ensures ok { OnOk result (self.new ≡ self.old ++ item ∷ []) }
        ensures err { OnErr result (self.new ≡ self.old) }
    {
        self.list.push(item)?;
        Ok(())
    }

    /// Takes the room for one more item, has it made over a state, and adds it. Where no memory is found the state is as it was, and
    /// the error is that of `NoMemory`; where no item is made the list is as it was, and error and state are those of `make`.
    pub fn push_made<S, E: From<NoMemory>, F: FnOnce(&mut S) -> Result<T, E>>(
        &mut self,
        state: &mut S,
        make: F,
    ) -> Result<(), E>
    where
        T: Drop,
        F: Drop,
        requires { FnOnceTakesAtMut F.FnOnce make state.old }
        ensures ok { OnOk result ((item : T) × FnOnceReturnsAtMut F.FnOnce make state.old (Ok item) state.new × (self.new ≡ self.old ++ item ∷ [])) }
        ensures err { OnErr result (self.new ≡ self.old) }
        ensures err_state { IfErr result (λ error. ((state.new ≡ state.old) × E.from_gives no_memory error) ⊎ FnOnceReturnsAtMut F.FnOnce make state.old (Err error) state.new) }
    {
        if self.list.reserve(1).is_err() {
            return Err(E::from(NoMemory));
        }
        match make(state) {
            Ok(item) => {
                self.list.push_reserved(item);
                Ok(())
            }
            Err(error) => Err(error),
        }
    }

    /// Adds all items of another list, which is left empty, or none where there is no memory for them all: `NoMemory` leaves both
    /// lists as they were.
    pub fn append(&mut self, other: &mut Items<T>) -> Result<(), NoMemory>
        ensures ok { OnOk result ((self.new ≡ self.old ++ other.old) × (other.new ≡ [])) }
        ensures err { OnErr result ((self.new ≡ self.old) × (other.new ≡ other.old)) }
    {
        self.list.append(&mut other.list)?;
        Ok(())
    }

    /// Keeps the items that pass the test, in their order.
    pub fn retain<F: FnMut(&T) -> bool>(&mut self, test: F)
    where
        T: Drop,
        requires { F.IsAlwaysCallable test }
        ensures { IsFiltered (CalledAt F.FnMut) test self.old self.new }
    {
        self.list.retain(test);
    }

    /// Takes the last item away, if there is one.
    pub fn drop_last(&mut self)
    where
        T: Drop,
        ensures { (front : List T) (last : T) → self.old ≡ front ++ last ∷ [] → self.new ≡ front }
    {
        let _ = self.list.pop();
    }

    /// Puts an item in the place of the last one, which must be there.
    pub fn set_last(&mut self, item: T)
    where
        T: Drop,
        requires { 0 < length self.old }
        ensures { (front : List T) (last : T) → self.old ≡ front ++ last ∷ [] → self.new ≡ front ++ item ∷ [] }
    {
        let last = self.list.len() - 1;
        self.list[last] = item;
    }
}

/// Adds an item to each of two lists, or to neither.
pub fn push_both<S: Drop, T: Drop>(
    first: &mut Items<S>,
    one: S,
    second: &mut Items<T>,
    other: T,
) -> Result<(), NoMemory>
    ensures first { OnOk result (first.new ≡ first.old ++ one ∷ []) }
    ensures second { OnOk result (second.new ≡ second.old ++ other ∷ []) }
    ensures err { OnErr result ((first.new ≡ first.old) × (second.new ≡ second.old)) }
{
    first.list.reserve(1)?;
    second.push(other)?;
    first.list.push_reserved(one);
    Ok(())
}

impl<T: Duplicate> Clone for Items<T> {
    ghost is_clone = { λ x y. y ≡ x };

    fn clone(&self) -> Result<Items<T>, AllocError> {
        Ok(Items {
            list: self.list.clone()?,
        })
    }
}

impl<T: Duplicate> Duplicate for Items<T> {
    ghost same = { λ x y e. e };
}

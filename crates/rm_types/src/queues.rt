ghost use Rattle.std.specs.Prelude.{◌≡◌, List, [], ◌∷◌, ◌++◌, length, IsTrue, ◌↔◌, IfSome, IfNone, drop, Ok, Err, IfErr, OnOk, OnErr, ◌⊎◌, slice_get};
ghost use Rattle.std.specs.Fn.{FnOnceReturnsAtMut, FnOnceTakesAtMut};
ghost use Rattle.std.specs.Option.{option_copied};
ghost use Rattle.std.specs.VecDeque.Iter.{deque_iter_rest, deque_iter_steps};
ghost use Rattle.std.specs.Iterator.Runs.{YieldsRefsInOrder};
ghost use Rattle.rm_types.specs.Lists.{is_nil};
ghost use Rattle.rm_types.specs.Refusals.{no_memory};

use crate::duplicate::NoMemory;
use crate::items::Items;
use std::alloc::Global;
use std::collections::VecDeque;
use std::collections::vec_deque::Iter;
use std::marker::Model;

/// A queue: items are added at its end and taken from its front, each in constant time. Contracts see
/// the list of its items, the front first.
#[derive(Drop)]
pub struct Queue<T> {
    line: VecDeque<T>,
}

impl<T> Model for Queue<T> {
    ghost use Rattle.std.specs.Prelude.{List};

    ghost Value = { List T };

    ghost view = { λ a. a.line.items };
}

impl<T> Queue<T> {
    /// The empty queue. It takes no memory.
    pub fn new(alloc: Global) -> Queue<T>
        ensures { result ≡ [] }
    {
        Queue {
            line: VecDeque::new(alloc),
        }
    }

    /// The items of a list, the first at the front. It takes no memory.
    pub fn from_items(items: Items<T>) -> Queue<T>
        ensures { result ≡ items }
    {
        Queue {
            line: VecDeque::from(items.into_vec()),
        }
    }

    /// How many items wait.
    pub fn len(&self) -> usize
        ensures { result ≡ length self.now }
    {
        self.line.len()
    }

    /// Whether nothing waits.
    pub fn is_empty(&self) -> bool
        ensures nil { IsTrue result ↔ (self.now ≡ []) }
        ensures test { result ≡ is_nil self.now }
    {
        self.line.is_empty()
    }

    /// The item at the front, if there is one.
    pub fn first(&self) -> Option<&T>
        ensures first { option_copied result ≡ slice_get self.now 0 }
        ensures none { IfNone result (self.now ≡ []) }
    {
        self.line.front()
    }

    /// The items, the front first.
    pub fn iter(&self) -> Iter<'_, T>
        ensures rest { deque_iter_rest result ≡ self.now }
        ensures runs { YieldsRefsInOrder (deque_iter_steps {X = T}) deque_iter_rest }
    {
        self.line.iter()
    }

    /// Adds an item at the end. `NoMemory` leaves the queue as it was; the item is then dropped.
    pub fn push(&mut self, item: T) -> Result<(), NoMemory>
    where
        T: Drop,
        ensures ok { OnOk result (self.new ≡ self.old ++ item ∷ []) }
        ensures err { OnErr result (self.new ≡ self.old) }
    {
        self.line.push_back(item)?;
        Ok(())
    }

    /// Adds all these items at the end, or none where there is no memory for them all: `NoMemory` leaves the queue as it was.
    pub fn push_all(&mut self, items: &[T]) -> Result<(), NoMemory>
    where
        T: Copy + Drop,
        ensures ok { OnOk result (self.new ≡ self.old ++ items.now) }
        ensures err { OnErr result (self.new ≡ self.old) }
    {
        self.line.reserve(items.len())?;
        for item in items {
            self.line.push_back(*item).unwrap();
        }
        Ok(())
    }

    /// Adds all items of a list at the end, or none where there is no memory for them all: `NoMemory` leaves the queue as it was;
    /// the items are then dropped.
    pub fn append(&mut self, items: Items<T>) -> Result<(), NoMemory>
    where
        T: Drop,
        ensures ok { OnOk result (self.new ≡ self.old ++ items) }
        ensures err { OnErr result (self.new ≡ self.old) }
    {
        let mut more = VecDeque::from(items.into_vec());
        self.line.append(&mut more)?;
        Ok(())
    }

    /// Takes the room for one more item, has it made over a state, and adds it. Where no memory is found the state is as it was, and
    /// the error is that of `NoMemory`; where no item is made the queue is as it was, and error and state are those of `make`.
    pub fn push_made<S, E: From<NoMemory>, F: FnOnce(&mut S) -> Result<T, E>>(
        &mut self,
        state: &mut S,
        make: F,
    ) -> Result<(), E>
    where
        T: Drop,
        F: Drop,
        requires { FnOnceTakesAtMut F.FnOnce make state.old }
        ensures ok { OnOk result ((item : T) × FnOnceReturnsAtMut F.FnOnce make state.old (Ok item) state.new × (self.new ≡ self.old ++ item ∷ [])) }
        ensures err { OnErr result (self.new ≡ self.old) }
        ensures err_state { IfErr result (λ error. ((state.new ≡ state.old) × E.from_gives no_memory error) ⊎ FnOnceReturnsAtMut F.FnOnce make state.old (Err error) state.new) }
    {
        if self.line.reserve(1).is_err() {
            return Err(E::from(NoMemory));
        }
        match make(state) {
            Ok(item) => {
                self.line.push_back(item).unwrap();
                Ok(())
            }
            Err(error) => Err(error),
        }
    }

    /// Takes the item at the front, if there is one.
    pub fn take_first(&mut self) -> Option<T>
        ensures some { IfSome result (λ item. self.old ≡ item ∷ self.new) }
        ensures none { IfNone result ((self.old ≡ []) × (self.new ≡ [])) }
        ensures rest { self.new ≡ drop 1 self.old }
    {
        self.line.pop_front()
    }
}

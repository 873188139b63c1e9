ghost use Rattle.std.specs.Prelude.{◌≡◌, IfOk};

use crate::duplicate::NoMemory;
use std::alloc::Global;
use std::marker::Model;

/// A value behind a pointer, so that what holds it is small. Contracts see the value itself.
#[derive(Drop)]
pub struct Boxed<T> {
    inside: Box<T>,
}

impl<T> Model for Boxed<T> {
    ghost Value = { T };

    ghost view = { λ a. a.inside.value };
}

impl<T> Boxed<T> {
    /// Takes a value in. `NoMemory` where no memory was found for it; the value is then dropped.
    pub fn new(alloc: Global, value: T) -> Result<Boxed<T>, NoMemory>
    where
        T: Drop,
        ensures { IfOk result (λ boxed. boxed ≡ value) }
    {
        let inside = Box::new(alloc, value)?;
        Ok(Boxed { inside })
    }

    /// The value.
    pub fn get(&self) -> &T
        ensures { result.now ≡ self.now }
    {
        &self.inside
    }

    /// Puts a value in the place of the one before, which is dropped. It takes no memory.
    pub fn set(&mut self, value: T)
    where
        T: Drop,
        ensures { self.new ≡ value }
    {
        let _before = Box::replace(&mut self.inside, value);
    }

    /// Hands the value back. It takes no memory.
    pub fn into_inner(self) -> T
        ensures { result ≡ self }
    {
        Box::into_inner(self.inside)
    }
}

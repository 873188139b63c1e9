ghost use Rattle.std.specs.Prelude.{◌≡◌, IfOk};
ghost use Rattle.std.proofs.Common.{rules};

use std::alloc::{AllocError, AllocFailed};
use thiserror::Error;

/// Want of memory. It may be answered by any call that allocates, and by no other.
#[derive(Clone, Copy, Debug, PartialEq, Eq, Error)]
#[error("out of memory")]
pub struct NoMemory;

impl From<AllocError> for NoMemory {
    fn from(_error: AllocError) -> NoMemory {
        NoMemory
    }
}

impl<T: Drop> From<AllocFailed<T>> for NoMemory {
    fn from(_failed: AllocFailed<T>) -> NoMemory {
        NoMemory
    }
}

/// A value whose clone equals it.
pub trait Duplicate: Clone {
    ghost same: { (x y : Self) → Self.is_clone x y → y ≡ x };

    /// A copy, which equals its source. The answer is `NoMemory` where no memory was found for it; the
    /// source stays as it was either way.
    final fn copy(&self) -> Result<Self, NoMemory>
        ensures { IfOk result (λ other. other ≡ self.now) }
    {
        Ok(self.clone()?)
    }
}

impl Duplicate for u8 {
    ghost same = { λ x y e. e };
}

impl Duplicate for u64 {
    ghost same = { λ x y e. e };
}

impl<T: Duplicate> Duplicate for Option<T> {
    ghost same = { Prim.search (rules) };
}

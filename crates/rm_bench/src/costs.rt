use rm_store::StoreError;
use rm_types::NoMemory;
use std::alloc::{AllocError, AllocFailed};
use std::io;
use thiserror::Error;

/// That the work couldn't be done: memory, the clock, the output or the store failed, or a store isn't what it should be.
#[derive(Clone, Copy, Debug, Error)]
#[error("the work couldn't be done")]
pub struct Stop;

impl From<io::Error> for Stop {
    fn from(_error: io::Error) -> Stop {
        Stop
    }
}

impl From<NoMemory> for Stop {
    fn from(_error: NoMemory) -> Stop {
        Stop
    }
}

impl From<AllocError> for Stop {
    fn from(_error: AllocError) -> Stop {
        Stop
    }
}

impl<T: Drop> From<AllocFailed<T>> for Stop {
    fn from(_error: AllocFailed<T>) -> Stop {
        Stop
    }
}

impl From<StoreError> for Stop {
    fn from(_error: StoreError) -> Stop {
        Stop
    }
}

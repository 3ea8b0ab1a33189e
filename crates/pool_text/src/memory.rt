// Want of memory, which every call that takes memory may answer.
use std::alloc::{AllocError, AllocFailed};
use thiserror::Error;

/// The system gave no memory.
#[derive(Clone, Copy, Debug, PartialEq, Eq, Error)]
#[error("out of memory")]
pub struct OutOfMemory;

impl From<AllocError> for OutOfMemory {
    fn from(_: AllocError) -> Self {
        OutOfMemory
    }
}

impl<T: Drop> From<AllocFailed<T>> for OutOfMemory {
    fn from(_: AllocFailed<T>) -> Self {
        OutOfMemory
    }
}

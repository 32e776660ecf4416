//! Want of memory as an ordinary error.
use std::alloc::{AllocError, AllocFailed};

/// Memory was asked for and not given. It is the one refusal that may come at any call that takes
/// memory; after it all is as before the call, unless the call says otherwise.
#[derive(Clone, Copy, Debug)]
pub struct NoMemory;

impl From<AllocError> for NoMemory {
    fn from(_refused: AllocError) -> NoMemory {
        NoMemory
    }
}

impl<T: Drop> From<AllocFailed<T>> for NoMemory {
    fn from(_refused: AllocFailed<T>) -> NoMemory {
        NoMemory
    }
}

// Want of memory.
use std::alloc::{AllocError, AllocFailed};

/// No memory was to be had. A call that answers it leaves what it was given as it was, unless it says otherwise.
#[derive(Clone, Copy, Debug, PartialEq, Eq)]
pub struct Mem;

impl From<AllocError> for Mem {
    fn from(_error: AllocError) -> Mem {
        Mem
    }
}

impl<T: Drop> From<AllocFailed<T>> for Mem {
    fn from(_error: AllocFailed<T>) -> Mem {
        Mem
    }
}

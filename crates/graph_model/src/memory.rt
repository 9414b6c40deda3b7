// Want of memory, and copies that may find none.
ghost use Rattle.std.specs.Prelude.{◌≡◌, IfOk};

use std::alloc::{AllocError, AllocFailed};

/// No memory was to be had. A call that answers it leaves what it was given as it was, unless it says otherwise.
#[derive(Clone, Copy, Debug, PartialEq, Eq)]
pub struct Mem;

impl From<AllocError> for Mem {
    fn from(_error: AllocError) -> Mem {
        Mem
    }
}

impl<T: Drop> From<AllocFailed<T>> for Mem {
    fn from(_error: AllocFailed<T>) -> Mem {
        Mem
    }
}

/// A value that can be copied where memory allows it.
pub trait TryClone {
    /// A copy that is equal to the original.
    ///
    /// # Errors
    /// `Mem` where there is no memory for the copy.
    fn try_clone(&self) -> Result<Self, Mem>
    where
        Self: Sized,
        ensures { IfOk result (λ copy. copy ≡ self.now) };
}

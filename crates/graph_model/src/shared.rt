// A value that its copies share.
ghost use Rattle.std.specs.Prelude.{◌≡◌, IfOk};

use crate::memory::{Mem, TryClone};
use std::alloc::Global;
use std::marker::Model;
use std::sync::Arc;

/// A value behind one pointer: a copy shares it and takes no memory for it. Contracts see the value itself.
#[derive(Drop)]
pub struct Shared<T> {
    pointer: Arc<T>,
}

impl<T> Model for Shared<T> {
    ghost use Rattle.std.specs.Arc.{arc_value};

    ghost Value = { T };

    ghost coded = { T.code };

    ghost view = { λ shared. arc_value shared.pointer };
}

impl<T: Drop> Shared<T> {
    /// Shares a value from now on.
    ///
    /// # Errors
    /// `Mem` where there is no memory for the pointer's block. Then the value is dropped.
    pub fn new(alloc: Global, value: T) -> Result<Shared<T>, Mem>
        ensures { IfOk result (λ shared. shared ≡ value) }
    {
        Ok(Shared {
            pointer: Arc::new(alloc, value)?,
        })
    }
}

impl<T> Shared<T> {
    /// The value.
    pub fn get(&self) -> &T
        ensures { result.now ≡ self.now }
    {
        &self.pointer
    }
}

impl<T> TryClone for Shared<T> {
    fn try_clone(&self) -> Result<Shared<T>, Mem> {
        Ok(Shared {
            pointer: Arc::try_clone(&self.pointer)?,
        })
    }
}

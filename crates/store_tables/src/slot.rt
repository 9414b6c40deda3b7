// The place of an id: what lives under it, or nothing.
ghost use Rattle.std.specs.Prelude.{◌≡◌, Some, None, IfOk};
ghost use Rattle.std.specs.Option.{option_copied};

use graph_model::{Mem, Shared, TryClone};
use std::alloc::Global;
use std::marker::Model;

/// What lives under an id, or nothing. A copy shares it.
#[derive(Drop)]
pub struct Slot<T> {
    item: Option<Shared<T>>,
}

impl<T> Model for Slot<T> {
    ghost use Rattle.std.specs.Prelude.{Option};
    ghost use Rattle.std.specs.Coded.{coded_option};

    ghost Value = { Option T };

    ghost coded = { coded_option T.code };

    ghost view = { λ slot. slot.item };
}

impl<T> Slot<T> {
    /// Nothing lives there. It takes no memory.
    pub fn dead() -> Slot<T>
        ensures { result ≡ None }
    {
        Slot { item: None }
    }

    /// What lives there.
    pub fn get(&self) -> Option<&T>
        ensures { option_copied result ≡ self.now }
    {
        match &self.item {
            Some(item) => Some(item.get()),
            None => None,
        }
    }

    /// What lives there, shared once more.
    pub fn shared(&self) -> Result<Option<Shared<T>>, Mem>
        ensures { IfOk result (λ found. found ≡ self.now) }
    {
        match &self.item {
            Some(item) => Ok(Some(item.try_clone()?)),
            None => Ok(None),
        }
    }
}

impl<T: Drop> Slot<T> {
    /// This lives there.
    pub fn of(alloc: Global, item: T) -> Result<Slot<T>, Mem>
        ensures { IfOk result (λ slot. slot ≡ Some item) }
    {
        Ok(Slot {
            item: Some(Shared::new(alloc, item)?),
        })
    }
}

impl<T> TryClone for Slot<T> {
    fn try_clone(&self) -> Result<Slot<T>, Mem> {
        match &self.item {
            Some(item) => Ok(Slot {
                item: Some(item.try_clone()?),
            }),
            None => Ok(Slot { item: None }),
        }
    }
}

// How many elements have a label, a type or a key, so that this is told without a look at the elements.
ghost use Rattle.std.specs.Prelude.{◌≡◌, ℕ, ◌+◌, ◌-◌, ◌≤◌, List, [], length, take, sum_by, if◌then◌else◌, IfOk};
ghost use Rattle.std.specs.Str.{bytes_eq};
ghost use Rattle.store_tables.specs.NameRows.{count_under};
ghost use Rattle.store_tables.specs.Counted.{own_name, prop_key, times, IsCounted};

use crate::element::Element;
use crate::slot::Slot;
use crate::slots::live_at;
use crate::table::Table;
use crate::tally::Tally;
use graph_model::{List, Mem, Name, Shared, TryClone};
use std::alloc::Global;

/// How many elements have each class (a label of a node, the type of a relationship), and how many each key. A copy
/// shares the numbers.
#[derive(Drop)]
pub struct Census {
    pub classes: Tally,
    pub keys: Tally,
}

impl TryClone for Census {
    fn try_clone(&self) -> Result<Census, Mem> {
        Ok(Census {
            classes: self.classes.try_clone()?,
            keys: self.keys.try_clone()?,
        })
    }
}

impl Census {
    /// No elements.
    pub fn new(alloc: Global) -> Result<Census, Mem>
        ensures classes { IfOk result (λ made. made.classes ≡ []) }
        ensures keys { IfOk result (λ made. made.keys ≡ []) }
    {
        Ok(Census {
            classes: Tally::new(alloc)?,
            keys: Tally::new(alloc)?,
        })
    }

    /// The census with one more element.
    fn plus<E: Element>(self, alloc: Global, element: &E) -> Result<Census, Mem>
        ensures classes { IfOk result (λ made. (name : List ℕ) → count_under made.classes name
            ≡ count_under self.classes name + times own_name (E.classes_of element.now) name) }
        ensures keys { IfOk result (λ made. (name : List ℕ) → count_under made.keys name
            ≡ count_under self.keys name + times prop_key (E.props_of element.now) name) }
    {
        let Census { classes, keys } = self;
        let classes = classes.plus_each(alloc, element.classes())?;
        let keys = keys.plus_each(alloc, element.props().as_slice())?;
        Ok(Census { classes, keys })
    }

    /// The census with one element less.
    fn minus<E: Element>(self, alloc: Global, element: &E) -> Result<Census, Mem>
        ensures classes { IfOk result (λ made. (name : List ℕ) → count_under made.classes name
            ≡ count_under self.classes name - times own_name (E.classes_of element.now) name) }
        ensures keys { IfOk result (λ made. (name : List ℕ) → count_under made.keys name
            ≡ count_under self.keys name - times prop_key (E.props_of element.now) name) }
    {
        let Census { classes, keys } = self;
        let classes = classes.minus_each(alloc, element.classes())?;
        let keys = keys.minus_each(alloc, element.props().as_slice())?;
        Ok(Census { classes, keys })
    }

    /// The census with the elements of the rows from `first` on.
    pub fn with_rows<E: Element>(
        &self,
        alloc: Global,
        slots: &Table<Slot<E>>,
        first: usize,
    ) -> Result<Census, Mem>
        requires within { first ≤ length slots.now }
        requires counted { IsCounted E.classes_of E.props_of (take first slots.now) self.now.classes self.now.keys }
        ensures { IfOk result (λ made. IsCounted E.classes_of E.props_of slots.now made.classes made.keys) }
    {
        let mut census = self.try_clone()?;
        for row in first..slots.len() {
            if let Some(element) = live_at(slots, row) {
                census = census.plus(alloc, element)?;
            }
        }
        Ok(census)
    }

    /// The census without elements that are gone.
    pub fn without<E: Element>(&self, alloc: Global, gone: &List<Shared<E>>) -> Result<Census, Mem>
        ensures classes { IfOk result (λ made. (name : List ℕ) → count_under made.classes name
            ≡ count_under self.now.classes name - sum_by (λ element. times own_name (E.classes_of element) name) gone.now) }
        ensures keys { IfOk result (λ made. (name : List ℕ) → count_under made.keys name
            ≡ count_under self.now.keys name - sum_by (λ element. times prop_key (E.props_of element) name) gone.now) }
    {
        let mut census = self.try_clone()?;
        for element in gone.as_slice() {
            census = census.minus(alloc, element.get())?;
        }
        Ok(census)
    }

    /// The census where so many more elements have a key.
    pub fn with_key(&self, alloc: Global, key: &Name, added: u64) -> Result<Census, Mem>
        ensures classes { IfOk result (λ made. made.classes ≡ self.now.classes) }
        ensures keys { IfOk result (λ made. (name : List ℕ) → count_under made.keys name
            ≡ count_under self.now.keys name + (if bytes_eq name key.now then added else 0)) }
    {
        let Census { classes, keys } = self.try_clone()?;
        if added == 0 {
            return Ok(Census { classes, keys });
        }
        let keys = keys.plus(alloc, key, added)?;
        Ok(Census { classes, keys })
    }
}

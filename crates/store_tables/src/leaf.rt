// Rows that copies share, and that are copied before they change where they are shared.
ghost use Rattle.std.specs.Prelude.{◌≡◌, [], ◌∷◌, ◌++◌, ◌<◌, length, slice_get, slice_set, IfOk, OnOk, OnErr};
ghost use Rattle.std.specs.Option.{option_copied};
ghost use Rattle.std.specs.Arc.{arc_value};

use graph_model::{Mem, TryClone};
use std::alloc::Global;
use std::marker::Model;
use std::sync::Arc;

/// Copies of items, in order.
fn copies<T: TryClone + Drop>(alloc: Global, items: &[T]) -> Result<Vec<T>, Mem>
    ensures { IfOk result (λ copies. copies.items ≡ items.now) }
{
    let mut copies = Vec::with_capacity(alloc, items.len())?;
    for item in items {
        copies.push(item.try_clone()?)?;
    }
    Ok(copies)
}

/// Copies items that are shared, so that nothing else sees what is written to them.
pub(crate) fn unshare<T: TryClone + Drop>(items: &mut Arc<Vec<T>>, alloc: Global) -> Result<(), Mem>
    ensures { (arc_value items.new).items ≡ (arc_value items.old).items }
{
    if Arc::strong_count(items) != 1 {
        let own = copies(alloc, items.as_slice())?;
        *items = Arc::new(alloc, own)?;
    }
    Ok(())
}

/// Some rows, numbered from 0. A copy shares them.
#[derive(Drop)]
pub(crate) struct Leaf<T> {
    rows: Arc<Vec<T>>,
}

impl<T> Model for Leaf<T> {
    ghost use Rattle.std.specs.Prelude.{List};
    ghost use Rattle.std.specs.Coded.{coded_list};
    ghost use Rattle.std.specs.Arc.{arc_value};

    ghost Value = { List T };

    ghost coded = { coded_list T.code };

    ghost view = { λ leaf. (arc_value leaf.rows).items };
}

impl<T> Leaf<T> {
    /// How many rows there are.
    pub(crate) fn len(&self) -> usize
        ensures { result ≡ length self.now }
    {
        self.rows.len()
    }

    /// The row of this number, or nothing past the end.
    pub(crate) fn get(&self, row: usize) -> Option<&T>
        ensures { option_copied result ≡ slice_get self.now row }
    {
        self.rows.get(row)
    }
}

impl<T: TryClone + Drop> Leaf<T> {
    /// One row.
    pub(crate) fn of(alloc: Global, item: T) -> Result<Leaf<T>, Mem>
        ensures { IfOk result (λ leaf. leaf ≡ item ∷ []) }
    {
        let mut rows = Vec::new(alloc);
        rows.push(item)?;
        Ok(Leaf {
            rows: Arc::new(alloc, rows)?,
        })
    }

    /// Puts an item in the place of a row.
    pub(crate) fn set(&mut self, alloc: Global, row: usize, item: T) -> Result<(), Mem>
        requires { row < length self.old }
        ensures ok { OnOk result (self.new ≡ slice_set self.old row item) }
        ensures err { OnErr result (self.new ≡ self.old) }
    {
        unshare(&mut self.rows, alloc)?;
        match Arc::get_mut(&mut self.rows) {
            Some(rows) => {
                rows[row] = item;
                Ok(())
            }
            None => Err(Mem),
        }
    }

    /// Puts an item behind the last row.
    pub(crate) fn push(&mut self, alloc: Global, item: T) -> Result<(), Mem>
        ensures ok { OnOk result (self.new ≡ self.old ++ item ∷ []) }
        ensures err { OnErr result (self.new ≡ self.old) }
    {
        unshare(&mut self.rows, alloc)?;
        match Arc::get_mut(&mut self.rows) {
            Some(rows) => {
                rows.push(item)?;
                Ok(())
            }
            None => Err(Mem),
        }
    }
}

impl<T> TryClone for Leaf<T> {
    fn try_clone(&self) -> Result<Leaf<T>, Mem> {
        Ok(Leaf {
            rows: Arc::try_clone(&self.rows)?,
        })
    }
}

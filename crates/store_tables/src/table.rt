// Rows by number in branches of leaves, which copies share. A change copies the list of branches, and of what it touches
// each branch's list of leaves and each leaf, once.
ghost use Rattle.std.specs.Prelude.{◌≡◌, [], ◌∷◌, ◌++◌, ◌<◌, length, slice_get, slice_set, IfOk, OnOk, OnErr};
ghost use Rattle.std.specs.Option.{option_copied};
ghost use Rattle.store_tables.specs.Joined.{joined, last_length, IsFilled};

use crate::branch::Branch;
use crate::leaf::unshare;
use graph_model::{Mem, TryClone};
use std::alloc::Global;
use std::marker::Model;
use std::sync::Arc;

/// How many rows a branch has room for: 1,024 leaves of 1,024 rows.
const BRANCH_ROOM: usize = 1_048_576;

/// Rows, numbered from 0. A copy shares them.
#[derive(Drop)]
pub struct Table<T> {
    branches: Arc<Vec<Branch<T>>>,
    len: usize,
}

impl<T> Model for Table<T> {
    ghost use Rattle.std.specs.Prelude.{List};
    ghost use Rattle.std.specs.Coded.{coded_list};
    ghost use Rattle.std.specs.Arc.{arc_value};
    ghost use Rattle.store_tables.specs.Joined.{joined, IsKept};

    ghost Value = { List T };

    ghost coded = { coded_list T.code };

    ghost view = { λ table. joined (arc_value table.branches).items };

    ghost invariant = { λ table. IsKept 1048576 (arc_value table.branches).items table.len };
}

impl<T> Table<T> {
    /// How many rows there are.
    pub fn len(&self) -> usize
        ensures { result ≡ length self.now }
    {
        self.len
    }

    /// The row of this number, or nothing past the end.
    pub fn get(&self, row: usize) -> Option<&T>
        ensures { option_copied result ≡ slice_get self.now row }
    {
        match self.branches.get(row / BRANCH_ROOM) {
            Some(branch) => branch.get(row % BRANCH_ROOM),
            None => None,
        }
    }
}

/// How many rows the last branch has, and the room of a branch where there is none.
fn last_len<T>(branches: &[Branch<T>]) -> usize
    ensures { result ≡ last_length 1048576 branches.now }
{
    let count = branches.len();
    if count == 0 {
        return BRANCH_ROOM;
    }
    branches[count - 1].len()
}

/// Puts an item in the place of a row.
fn set_row<T: TryClone + Drop>(
    branches: &mut Vec<Branch<T>>,
    alloc: Global,
    row: usize,
    item: T,
) -> Result<(), Mem>
    requires full { IsFilled 1048576 branches.old.items }
    requires within { row < length (joined branches.old.items) }
    ensures set { OnOk result (joined branches.new.items ≡ slice_set (joined branches.old.items) row item) }
    ensures filled { OnOk result (IsFilled 1048576 branches.new.items) }
    ensures err { OnErr result (branches.new.items ≡ branches.old.items) }
{
    let branch = &mut branches[row / BRANCH_ROOM];
    branch.set(alloc, row % BRANCH_ROOM, item)
}

/// Puts an item behind the last row: into the last branch where it has room, and else into a new one.
fn push_row<T: TryClone + Drop>(
    branches: &mut Vec<Branch<T>>,
    alloc: Global,
    item: T,
) -> Result<(), Mem>
    requires { IsFilled 1048576 branches.old.items }
    ensures pushed { OnOk result (joined branches.new.items ≡ joined branches.old.items ++ item ∷ []) }
    ensures filled { OnOk result (IsFilled 1048576 branches.new.items) }
    ensures err { OnErr result (branches.new.items ≡ branches.old.items) }
{
    if last_len(branches.as_slice()) < BRANCH_ROOM {
        let last = branches.len() - 1;
        let branch = &mut branches[last];
        return branch.push(alloc, item);
    }
    let branch = Branch::of(alloc, item)?;
    branches.push(branch)?;
    Ok(())
}

impl<T: TryClone + Drop> Table<T> {
    /// No rows.
    pub fn new(alloc: Global) -> Result<Table<T>, Mem>
        ensures { IfOk result (λ table. table ≡ []) }
    {
        Ok(Table {
            branches: Arc::new(alloc, Vec::new(alloc))?,
            len: 0,
        })
    }

    /// Puts an item in the place of a row.
    pub fn set(&mut self, alloc: Global, row: usize, item: T) -> Result<(), Mem>
        requires { row < length self.old }
        ensures { OnOk result (self.new ≡ slice_set self.old row item) }
    {
        unshare(&mut self.branches, alloc)?;
        match Arc::get_mut(&mut self.branches) {
            Some(branches) => set_row(branches, alloc, row, item),
            None => Err(Mem),
        }
    }

    /// Puts an item behind the last row.
    pub fn push(&mut self, alloc: Global, item: T) -> Result<(), Mem>
        ensures { OnOk result (self.new ≡ self.old ++ item ∷ []) }
    {
        let len = self.len.checked_add(1).ok_or(Mem)?;
        unshare(&mut self.branches, alloc)?;
        match Arc::get_mut(&mut self.branches) {
            Some(branches) => push_row(branches, alloc, item)?,
            None => return Err(Mem),
        }
        self.len = len;
        Ok(())
    }
}

impl<T> TryClone for Table<T> {
    fn try_clone(&self) -> Result<Table<T>, Mem> {
        Ok(Table {
            branches: Arc::try_clone(&self.branches)?,
            len: self.len,
        })
    }
}

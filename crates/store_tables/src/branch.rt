// Rows by number in leaves, which copies share. A change copies the list of leaves and the leaves that it touches.
ghost use Rattle.std.specs.Prelude.{◌≡◌, [], ◌∷◌, ◌++◌, ◌<◌, length, slice_get, slice_set, IfOk, OnOk, OnErr};
ghost use Rattle.std.specs.Option.{option_copied};
ghost use Rattle.store_tables.specs.Joined.{joined, last_length, IsFilled};

use crate::leaf::{Leaf, unshare};
use graph_model::{Mem, TryClone};
use std::alloc::Global;
use std::marker::Model;
use std::sync::Arc;

/// How many rows a leaf has room for.
const LEAF_ROOM: usize = 1_024;

/// Rows in leaves, numbered from 0. A copy shares them.
#[derive(Drop)]
pub(crate) struct Branch<T> {
    leaves: Arc<Vec<Leaf<T>>>,
    len: usize,
}

impl<T> Model for Branch<T> {
    ghost use Rattle.std.specs.Prelude.{List};
    ghost use Rattle.std.specs.Coded.{coded_list};
    ghost use Rattle.std.specs.Arc.{arc_value};
    ghost use Rattle.store_tables.specs.Joined.{joined, IsKept};

    ghost Value = { List T };

    ghost coded = { coded_list T.code };

    ghost view = { λ branch. joined (arc_value branch.leaves).items };

    ghost invariant = { λ branch. IsKept 1024 (arc_value branch.leaves).items branch.len };
}

impl<T> Branch<T> {
    /// How many rows there are.
    pub(crate) fn len(&self) -> usize
        ensures { result ≡ length self.now }
    {
        self.len
    }

    /// The row of this number, or nothing past the end.
    pub(crate) fn get(&self, row: usize) -> Option<&T>
        ensures { option_copied result ≡ slice_get self.now row }
    {
        match self.leaves.get(row / LEAF_ROOM) {
            Some(leaf) => leaf.get(row % LEAF_ROOM),
            None => None,
        }
    }
}

/// How many rows the last leaf has, and the room of a leaf where there is none.
fn last_len<T>(leaves: &[Leaf<T>]) -> usize
    ensures { result ≡ last_length 1024 leaves.now }
{
    let count = leaves.len();
    if count == 0 {
        return LEAF_ROOM;
    }
    leaves[count - 1].len()
}

/// Puts an item in the place of a row.
fn set_row<T: TryClone + Drop>(
    leaves: &mut Vec<Leaf<T>>,
    alloc: Global,
    row: usize,
    item: T,
) -> Result<(), Mem>
    requires full { IsFilled 1024 leaves.old.items }
    requires within { row < length (joined leaves.old.items) }
    ensures set { OnOk result (joined leaves.new.items ≡ slice_set (joined leaves.old.items) row item) }
    ensures filled { OnOk result (IsFilled 1024 leaves.new.items) }
    ensures err { OnErr result (leaves.new.items ≡ leaves.old.items) }
{
    let leaf = &mut leaves[row / LEAF_ROOM];
    leaf.set(alloc, row % LEAF_ROOM, item)
}

/// Puts an item behind the last row: into the last leaf where it has room, and else into a new one.
fn push_row<T: TryClone + Drop>(
    leaves: &mut Vec<Leaf<T>>,
    alloc: Global,
    item: T,
) -> Result<(), Mem>
    requires { IsFilled 1024 leaves.old.items }
    ensures pushed { OnOk result (joined leaves.new.items ≡ joined leaves.old.items ++ item ∷ []) }
    ensures filled { OnOk result (IsFilled 1024 leaves.new.items) }
    ensures err { OnErr result (leaves.new.items ≡ leaves.old.items) }
{
    if last_len(leaves.as_slice()) < LEAF_ROOM {
        let last = leaves.len() - 1;
        let leaf = &mut leaves[last];
        return leaf.push(alloc, item);
    }
    let leaf = Leaf::of(alloc, item)?;
    leaves.push(leaf)?;
    Ok(())
}

impl<T: TryClone + Drop> Branch<T> {
    /// No rows.
    fn new(alloc: Global) -> Result<Branch<T>, Mem>
        ensures { IfOk result (λ branch. branch ≡ []) }
    {
        Ok(Branch {
            leaves: Arc::new(alloc, Vec::new(alloc))?,
            len: 0,
        })
    }

    /// One row.
    pub(crate) fn of(alloc: Global, item: T) -> Result<Branch<T>, Mem>
        ensures { IfOk result (λ branch. branch ≡ item ∷ []) }
    {
        let mut branch = Branch::new(alloc)?;
        branch.push(alloc, item)?;
        Ok(branch)
    }

    /// Puts an item in the place of a row.
    pub(crate) fn set(&mut self, alloc: Global, row: usize, item: T) -> Result<(), Mem>
        requires { row < length self.old }
        ensures ok { OnOk result (self.new ≡ slice_set self.old row item) }
        ensures err { OnErr result (self.new ≡ self.old) }
    {
        unshare(&mut self.leaves, alloc)?;
        match Arc::get_mut(&mut self.leaves) {
            Some(leaves) => set_row(leaves, alloc, row, item),
            None => Err(Mem),
        }
    }

    /// Puts an item behind the last row.
    pub(crate) fn push(&mut self, alloc: Global, item: T) -> Result<(), Mem>
        ensures ok { OnOk result (self.new ≡ self.old ++ item ∷ []) }
        ensures err { OnErr result (self.new ≡ self.old) }
    {
        let len = self.len.checked_add(1).ok_or(Mem)?;
        unshare(&mut self.leaves, alloc)?;
        match Arc::get_mut(&mut self.leaves) {
            Some(leaves) => push_row(leaves, alloc, item)?,
            None => return Err(Mem),
        }
        self.len = len;
        Ok(())
    }
}

impl<T> TryClone for Branch<T> {
    fn try_clone(&self) -> Result<Branch<T>, Mem> {
        Ok(Branch {
            leaves: Arc::try_clone(&self.leaves)?,
            len: self.len,
        })
    }
}

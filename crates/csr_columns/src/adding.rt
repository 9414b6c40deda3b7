// A column for the nodes of a projection, made from values for some ids, and put where its key belongs.
ghost use Rattle.std.specs.Prelude.{◌≡◌, ℕ, ◌<◌, ◌≤◌, length, map, insert, slice_index, IfOk};
ghost use Rattle.std.specs.List.Sorted.{IsStrictlyIncreasing};
ghost use Rattle.graph_model.specs.Projection.{place_among, value_beside, value_for};

use crate::columns;
use graph_model::{Column, List, Mem, Name};
use std::alloc::Global;

/// The place of a key among keys that ascend: behind those that come before it.
pub(crate) fn place_among(keys: &[Name], key: &Name) -> usize
    ensures place { result ≡ place_among keys.now key.now }
    ensures within { result ≤ length keys.now }
{
    keys.iter().filter(|other| **other < *key).count()
}

/// The list with one more item, at a place.
pub(crate) fn inserted<T: Drop>(list: List<T>, place: usize, item: T) -> Result<List<T>, Mem>
    requires { place ≤ length list }
    ensures { IfOk result (λ longer. longer ≡ insert list place item) }
{
    let mut items = list.into_vec();
    items.insert(place, item)?;
    Ok(List::from_vec(items))
}

/// The values of a column for ids that ascend, and the missing value where it has none.
pub(crate) fn values_for(alloc: Global, ids: &[u32], column: &Column) -> Result<List<i64>, Mem>
    requires { IsStrictlyIncreasing ids.now }
    ensures { IfOk result (λ values. values ≡ map (value_for column.now) ids.now) }
{
    let known = column.ids.as_slice();
    let mut values = Vec::with_capacity(alloc, ids.len())?;
    let mut at = 0;
    for id in ids {
        at = skip_below(known, at, *id);
        values.push(value_beside(known, column.values.as_slice(), at, *id))?;
    }
    Ok(List::from_vec(values))
}

/// The first place from `from` on whose id isn't below `id`.
fn skip_below(ids: &[u32], from: usize, id: u32) -> usize
    requires { from ≤ length ids.now }
    ensures from { from ≤ result }
    ensures within { result ≤ length ids.now }
    ensures passed { (k : ℕ) → from ≤ k → k < result → slice_index ids.now k < id }
    ensures stops { result < length ids.now → id ≤ slice_index ids.now result }
{
    for at in from..ids.len() {
        if ids[at] >= id {
            return at;
        }
    }
    ids.len()
}

/// The value beside an id, which stands at a place or nowhere.
fn value_beside(ids: &[u32], values: &[i64], at: usize, id: u32) -> i64
    requires paired { length values.now ≡ length ids.now }
    requires ascend { IsStrictlyIncreasing ids.now }
    requires within { at ≤ length ids.now }
    requires passed { (k : ℕ) → k < at → slice_index ids.now k < id }
    requires stops { at < length ids.now → id ≤ slice_index ids.now at }
    ensures { result ≡ value_beside ids.now values.now id }
{
    if at == ids.len() {
        return i64::MIN;
    }
    if ids[at] != id {
        return i64::MIN;
    }
    columns::item(values, at)
}

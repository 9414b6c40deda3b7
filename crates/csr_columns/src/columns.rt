// Slices of columns: cut into rows, picked by places, and found under keys.
ghost use Rattle.std.specs.Prelude.{◌≡◌, ◌+◌, ◌<◌, true, length, map, All, MatchOption, IfOk, option_copied, slice_index_or};
ghost use Rattle.std.specs.List.{zip};
ghost use Rattle.graph_model.specs.Projection.{is_among, under};
ghost use Rattle.csr_columns.specs.Order.{IsAscending};
ghost use Rattle.csr_columns.specs.Merging.{keys_under, values_under};
ghost use Rattle.csr_columns.specs.Offsets.{CutsRows, IsFirstNamed, IsUnnamed, cut_row, item_at, picked_column};

use graph_model::{List, Mem, Name, Shared, TryClone};
use std::alloc::Global;

/// The row of `v` in a list that offsets cut into rows.
#[inline]
pub(crate) fn cut<'a, T>(offsets: &[u32], items: &'a [T], v: u32) -> &'a [T]
    requires cuts { CutsRows offsets.now (length items.now) }
    requires below { v + 1 < length offsets.now }
    ensures { result.now ≡ cut_row offsets.now items.now v }
{
    let start = offsets[v as usize] as usize;
    let end = offsets[v as usize + 1] as usize;
    &items[start..end]
}

/// Whether no number is less than the one before it.
pub(crate) fn is_ascending(row: &[u32]) -> bool
    ensures { result ≡ true → IsAscending row.now }
{
    for place in 1..row.len() {
        if row[place] < row[place - 1] {
            return false;
        }
    }
    true
}

/// The place of a name in a list of names.
pub(crate) fn place_of(names: &[Name], name: &Name) -> Option<usize>
    ensures { MatchOption result (IsUnnamed names.now name.now (length names.now)) (IsFirstNamed names.now name.now) }
{
    for (place, each) in names.iter().enumerate() {
        if each == name {
            return Some(place);
        }
    }
    None
}

/// Whether a name is one of some names.
pub(crate) fn is_among(names: &[Name], name: &Name) -> bool
    ensures { result ≡ is_among names.now name.now }
{
    place_of(names, name).is_some()
}

/// The names and the columns of pairs, each in their order.
pub(crate) fn apart<T: Drop>(
    alloc: Global,
    props: List<(Name, T)>,
) -> Result<(List<Name>, Vec<T>), Mem>
    ensures keys { IfOk result (λ parts. parts.0 ≡ map (λ prop. prop.0) props) }
    ensures columns { IfOk result (λ parts. parts.1.items ≡ map (λ prop. prop.1) props) }
{
    let mut keys = List::new(alloc);
    let mut columns = Vec::new(alloc);
    for (key, column) in props.into_vec() {
        keys.push(key)?;
        columns.push(column)?;
    }
    Ok((keys, columns))
}

/// The same columns, each shared from now on.
pub(crate) fn share_each<T: Drop>(
    alloc: Global,
    columns: Vec<List<T>>,
) -> Result<List<Shared<List<T>>>, Mem>
    ensures { IfOk result (λ shared. shared ≡ columns.items) }
{
    let mut shared = List::new(alloc);
    for column in columns {
        shared.push(Shared::new(alloc, column)?)?;
    }
    Ok(shared)
}

/// The column under a name, `None` where there is none.
pub(crate) fn column_under<'a, T>(
    names: &[Name],
    columns: &'a [Shared<List<T>>],
    name: &Name,
) -> Option<&'a [T]>
    requires { length columns.now ≡ length names.now }
    ensures { option_copied result ≡ under name.now (zip names.now columns.now) }
{
    match place_of(names, name) {
        Some(place) => Some(columns[place].get().as_slice()),
        None => None,
    }
}

/// The item at a place.
#[inline]
pub(crate) fn item<T: Copy + Drop>(items: &[T], place: usize) -> T
    requires { place < length items.now }
    ensures { (d : T) → result ≡ slice_index_or items.now place d }
{
    items[place]
}

/// The items at places, in the order of the places.
pub(crate) fn pick<T: Copy + Drop>(
    alloc: Global,
    items: &[T],
    places: &[u32],
) -> Result<Vec<T>, Mem>
    requires { All (λ place. place < length items.now) places.now }
    ensures { IfOk result (λ picked. (d : T) → picked.items ≡ map (item_at items.now d) places.now) }
{
    let mut picked = Vec::with_capacity(alloc, places.len())?;
    for place in places {
        picked.push(items[*place as usize])?;
    }
    Ok(picked)
}

/// The items of each column at places.
pub(crate) fn pick_each(
    alloc: Global,
    columns: &[List<i64>],
    places: &[u32],
) -> Result<Vec<List<i64>>, Mem>
    requires { All (λ column. All (λ place. place < length column) places.now) columns.now }
    ensures { IfOk result (λ picked. picked.items ≡ map (picked_column places.now) columns.now) }
{
    let mut picked = Vec::new(alloc);
    for column in columns {
        picked.push(List::from_vec(pick(alloc, column.as_slice(), places)?))?;
    }
    Ok(picked)
}

/// A key alone, where there is one.
pub(crate) fn keys_under(alloc: Global, key: Option<&Name>) -> Result<List<Name>, Mem>
    ensures { IfOk result (λ keys. keys ≡ keys_under (option_copied key.entry)) }
{
    let mut keys = List::new(alloc);
    if let Some(key) = key {
        keys.push(key.try_clone()?)?;
    }
    Ok(keys)
}

/// The one column under a key, where there is one.
pub(crate) fn values_under(
    alloc: Global,
    key: Option<&Name>,
    values: Vec<i64>,
) -> Result<Vec<List<i64>>, Mem>
    ensures { IfOk result (λ columns. columns.items ≡ values_under (option_copied key.entry) values.items) }
{
    let mut columns = Vec::new(alloc);
    if key.is_some() {
        columns.push(List::from_vec(values))?;
    }
    Ok(columns)
}

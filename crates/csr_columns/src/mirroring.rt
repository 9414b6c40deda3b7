// Whether rows are their own reverse, as those of undirected relationships are.
//
// The arcs are gone over in their order. Turned, each must stand in the row of its target at a cursor, which begins at the
// row's start and goes on by one with each arc; in the end each cursor must stand at the end of its row.
ghost use Rattle.std.specs.Prelude.{◌≡◌, ℕ, ◌+◌, ◌^◌, ◌<◌, ◌≤◌, true, length, slice_index, All, IfOk};
ghost use Rattle.csr_columns.specs.Offsets.{CutsRows};
ghost use Rattle.csr_columns.specs.Parts.{IsLong};
ghost use Rattle.csr_columns.specs.Mirror.{FindsArcs, HasEqual, IsMirrored};

use crate::columns;
use graph_model::{List, Mem};
use std::alloc::Global;

/// Whether the arcs of rows, turned, are the rows again, with the same values. On the first difference the answer is no.
///
/// # Errors
/// `Mem` where there is no memory for a cursor a row.
pub(crate) fn mirrors(
    alloc: Global,
    offsets: &[u32],
    targets: &[u32],
    columns: &[List<i64>],
) -> Result<bool, Mem>
    requires cuts { CutsRows offsets.now (length targets.now) }
    requires few_nodes { length offsets.now ≤ 2 ^ 32 }
    requires few_arcs { length targets.now < 2 ^ 32 }
    requires below { All (λ target. target + 1 < length offsets.now) targets.now }
    requires beside { All (IsLong (length targets.now)) columns.now }
    ensures { IfOk result (λ same. same ≡ true → IsMirrored offsets.now targets.now columns.now) }
{
    let nodes = offsets.len() - 1;
    let mut cursors = Vec::from_slice(alloc, &offsets[..nodes])?;
    for v in 0..nodes {
        if !finds_row(offsets, targets, columns, &mut cursors, v as u32) {
            return Ok(false);
        }
    }
    Ok(stand_at_ends(offsets, &cursors))
}

// Whether each cursor stands at the end of its row.
fn stand_at_ends(offsets: &[u32], cursors: &[u32]) -> bool
    requires { length cursors.now + 1 ≡ length offsets.now }
    ensures { result ≡ true → (v : ℕ) → v < length cursors.now → slice_index cursors.now v ≡ slice_index offsets.now (v + 1) }
{
    for v in 0..cursors.len() {
        if cursors[v] != offsets[v + 1] {
            return false;
        }
    }
    true
}

// Whether the arcs from `v`, turned, stand where the cursors of their targets are.
fn finds_row(
    offsets: &[u32],
    targets: &[u32],
    columns: &[List<i64>],
    cursors: &mut [u32],
    v: u32,
) -> bool
    requires cuts { CutsRows offsets.now (length targets.now) }
    requires few { length targets.now < 2 ^ 32 }
    requires below { All (λ target. target + 1 < length offsets.now) targets.now }
    requires beside { All (IsLong (length targets.now)) columns.now }
    requires node { v + 1 < length offsets.now }
    requires found { FindsArcs offsets.now targets.now columns.now (slice_index offsets.now v) cursors.old }
    ensures { result ≡ true → FindsArcs offsets.now targets.now columns.now (slice_index offsets.now (v + 1)) cursors.new }
{
    for place in offsets[v as usize]..offsets[v as usize + 1] {
        if !finds_arc(offsets, targets, columns, cursors, v, place) {
            return false;
        }
    }
    true
}

// Whether the arc at a place, turned, stands where the cursor of its target is.
fn finds_arc(
    offsets: &[u32],
    targets: &[u32],
    columns: &[List<i64>],
    cursors: &mut [u32],
    v: u32,
    place: u32,
) -> bool
    requires cuts { CutsRows offsets.now (length targets.now) }
    requires few { length targets.now < 2 ^ 32 }
    requires below { All (λ target. target + 1 < length offsets.now) targets.now }
    requires beside { All (IsLong (length targets.now)) columns.now }
    requires node { v + 1 < length offsets.now }
    requires from { slice_index offsets.now v ≤ place }
    requires to { place < slice_index offsets.now (v + 1) }
    requires found { FindsArcs offsets.now targets.now columns.now place cursors.old }
    ensures { result ≡ true → FindsArcs offsets.now targets.now columns.now (place + 1) cursors.new }
{
    let target = targets[place as usize] as usize;
    let cursor = cursors[target];
    if cursor as usize >= targets.len() {
        return false;
    }
    if targets[cursor as usize] != v {
        return false;
    }
    if !have_equal(columns, cursor as usize, place as usize) {
        return false;
    }
    cursors[target] = cursor + 1;
    true
}

// Whether each column has equal values at two places.
fn have_equal(columns: &[List<i64>], a: usize, b: usize) -> bool
    requires first { All (λ column. a < length column) columns.now }
    requires second { All (λ column. b < length column) columns.now }
    ensures { result ≡ true → All (HasEqual a b) columns.now }
{
    for column in columns {
        let values = column.as_slice();
        if columns::item(values, a) != columns::item(values, b) {
            return false;
        }
    }
    true
}

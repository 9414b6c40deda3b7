// Which nodes a view keeps, and the places that they get.
ghost use Rattle.std.specs.Prelude.{◌≡◌, ℕ, ◌≤◌, ◌<◌, ◌^◌, ◌||◌, length, false, slice_index_or, All, IfOk};
ghost use Rattle.std.specs.List.{zip, list_any};
ghost use Rattle.graph_model.specs.Projection.{is_among};
ghost use Rattle.csr_columns.specs.Parts.{IsLong};
ghost use Rattle.csr_columns.specs.Plain.{labels_at};
ghost use Rattle.csr_columns.specs.Choosing.{kept_flags};
ghost use Rattle.csr_columns.specs.Keeping.{kept_of, kept_places, renumbered};

use crate::columns;
use graph_model::{Choice, List, Mem, Name, Shared};
use std::alloc::Global;

/// Whether each node has a chosen label.
pub(crate) fn kept_flags(
    alloc: Global,
    nodes: usize,
    labels: &[Name],
    flags: &[Shared<List<bool>>],
    choice: &Choice,
) -> Result<Vec<bool>, Mem>
    requires named { length flags.now ≡ length labels.now }
    requires long { All (IsLong nodes) flags.now }
    ensures { IfOk result (λ kept. kept.items ≡ kept_flags choice.now (zip labels.now flags.now) nodes) }
{
    match choice {
        Choice::All => {
            let all = uniform(alloc, nodes, true)?;
            Ok(all)
        }
        Choice::Of(names) => {
            let mut kept = uniform(alloc, nodes, false)?;
            keep_labelled(&mut kept, labels, flags, names.as_slice());
            Ok(kept)
        }
    }
}

/// The same flag for each node.
fn uniform(alloc: Global, nodes: usize, flag: bool) -> Result<Vec<bool>, Mem>
    ensures len { IfOk result (λ flags. length flags.items ≡ nodes) }
    ensures same { IfOk result (λ flags. All (λ each. each ≡ flag) flags.items) }
{
    Ok(vec![in alloc; flag; nodes]?)
}

/// Keeps the nodes that have one of some names as a label.
fn keep_labelled(kept: &mut [bool], labels: &[Name], flags: &[Shared<List<bool>>], names: &[Name])
    requires named { length flags.now ≡ length labels.now }
    requires long { All (IsLong (length kept.old)) flags.now }
    requires none { All (λ flag. flag ≡ false) kept.old }
    ensures { (v : ℕ) → v < length kept.new → slice_index_or kept.new v false ≡ list_any (is_among names.now) (labels_at (zip labels.now flags.now) v) }
{
    for (place, label) in labels.iter().enumerate() {
        if columns::is_among(names, label) {
            keep_flagged(kept, flags[place].get().as_slice());
        }
    }
}

/// Keeps the nodes whose flags are true, too.
fn keep_flagged(kept: &mut [bool], flags: &[bool])
    requires { length flags.now ≡ length kept.old }
    ensures { (v : ℕ) → v < length kept.new → slice_index_or kept.new v false ≡ (slice_index_or kept.old v false || slice_index_or flags.now v false) }
{
    for (v, flag) in flags.iter().enumerate() {
        if *flag {
            kept[v] = true;
        }
    }
}

/// The places that kept nodes get, in order.
pub(crate) fn new_places(alloc: Global, kept: &[bool]) -> Result<Vec<Option<u32>>, Mem>
    requires { length kept.now < 2 ^ 32 }
    ensures { IfOk result (λ places. places.items ≡ renumbered 0 kept.now) }
{
    let mut places = Vec::with_capacity(alloc, kept.len())?;
    let mut count = 0;
    for flag in kept {
        if *flag {
            places.push(Some(count))?;
            count += 1;
        } else {
            places.push(None)?;
        }
    }
    Ok(places)
}

/// The ids of the kept nodes.
pub(crate) fn kept_ids(alloc: Global, kept: &[bool], ids: &[u32]) -> Result<List<u32>, Mem>
    requires { length kept.now ≡ length ids.now }
    ensures { IfOk result (λ list. list ≡ kept_of kept.now ids.now) }
{
    let mut list = Vec::new(alloc);
    for (v, id) in ids.iter().enumerate() {
        if kept[v] {
            list.push(*id)?;
        }
    }
    Ok(List::from_vec(list))
}

/// The kept nodes.
pub(crate) fn kept_nodes(alloc: Global, kept: &[bool]) -> Result<Vec<u32>, Mem>
    requires { length kept.now < 2 ^ 32 }
    ensures { IfOk result (λ nodes. nodes.items ≡ kept_places 0 kept.now) }
{
    let mut nodes = Vec::new(alloc);
    for (v, flag) in kept.iter().enumerate() {
        if *flag {
            nodes.push(v as u32)?;
        }
    }
    Ok(nodes)
}

// The arcs that a view takes over, put in rows.
ghost use Rattle.std.specs.Prelude.{◌≡◌, ◌<◌, ◌≤◌, true, length, All, IfOk};
ghost use Rattle.std.specs.List.{flat_map, list_all};
ghost use Rattle.graph_model.specs.Projection.{most_arcs};
ghost use Rattle.csr_columns.specs.Rows.{arcs_of, column_at};
ghost use Rattle.csr_columns.specs.Order.{ordered, itself, arc_beside};
ghost use Rattle.csr_columns.specs.Parts.{HasNodes, arcs_in, arcs_in_rows};
ghost use Rattle.csr_columns.specs.Choosing.{chosen, has_column};
ghost use Rattle.csr_columns.specs.Keeping.{HasArcsBelow, HasPlacesBelow, HasValuesBeside, arcs_beside, taken_arcs, taken_of};
ghost use Rattle.csr_columns.specs.Merging.{IsNumbering};

use crate::csr::Csr;
use crate::merging;
use crate::parts::TypeColumns;
use graph_model::{Choice, Mem, Name};
use std::alloc::Global;

/// The arcs of the chosen types whose ends both get places, in ascending order.
pub(crate) fn bare_rows(
    alloc: Global,
    nodes: u32,
    types: &[TypeColumns],
    choice: &Choice,
    places: &[Option<u32>],
    kept: &[u32],
) -> Result<Csr, Mem>
    requires rows { All (HasNodes (length places.now)) types.now }
    requires few { arcs_in types.now ≤ most_arcs }
    requires places { HasPlacesBelow nodes places.now }
    requires kept { IsNumbering places.now kept.now }
    requires many { length kept.now ≡ nodes }
    ensures nodes { IfOk result (λ csr. length csr.rows ≡ nodes) }
    ensures few { IfOk result (λ csr. arcs_in_rows csr ≤ most_arcs) }
    ensures arcs { IfOk result (λ csr. arcs_of csr.rows ≡ ordered itself nodes (flat_map (taken_arcs places.now) (chosen choice.now types.now))) }
    ensures below { IfOk result (λ _. All HasArcsBelow (chosen choice.now types.now)) }
{
    let rows = merging::chosen_rows(alloc, types, choice, None)?;
    let csr = Csr::merged(alloc, nodes, &rows, places, kept, None)?;
    Ok(csr)
}

/// The same, with a column of the values under a key.
pub(crate) fn heavy_rows(
    alloc: Global,
    nodes: u32,
    types: &[TypeColumns],
    choice: &Choice,
    places: &[Option<u32>],
    kept: &[u32],
    key: &Name,
) -> Result<Csr, Mem>
    requires rows { All (HasNodes (length places.now)) types.now }
    requires few { arcs_in types.now ≤ most_arcs }
    requires places { HasPlacesBelow nodes places.now }
    requires kept { IsNumbering places.now kept.now }
    requires many { length kept.now ≡ nodes }
    requires key { list_all (has_column key.now) (chosen choice.now types.now) ≡ true }
    ensures nodes { IfOk result (λ csr. length csr.rows ≡ nodes) }
    ensures few { IfOk result (λ csr. arcs_in_rows csr ≤ most_arcs) }
    ensures column { IfOk result (λ csr. 0 < length csr.columns) }
    ensures entries { IfOk result (λ csr. arcs_beside csr.rows (column_at csr.columns 0) ≡ ordered arc_beside nodes (flat_map (taken_of places.now key.now) (chosen choice.now types.now))) }
    ensures below { IfOk result (λ _. All HasArcsBelow (chosen choice.now types.now)) }
    ensures beside { IfOk result (λ _. All (HasValuesBeside key.now) (chosen choice.now types.now)) }
{
    let rows = merging::chosen_rows(alloc, types, choice, Some(key))?;
    let csr = Csr::merged(alloc, nodes, &rows, places, kept, Some(key))?;
    Ok(csr)
}

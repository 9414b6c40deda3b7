// The rows of a type whose arcs are each kept.
ghost use Rattle.std.specs.Prelude.{◌≡◌, length, map, All, IfOk};
ghost use Rattle.std.specs.List.Sorted.{IsSorted};
ghost use Rattle.csr_columns.specs.Rows.{AreDistinct, LiesBelow, arc_cmp, arc_rows_of};
ghost use Rattle.projected_arcs.specs.Flat.{IsWithin, arc_column, arc_value, flat_ends, kept_value, picked_value};

use crate::flat::FlatArc;
use crate::places::Places;
use csr_columns::Csr;
use graph_model::{List, Mem, Name, Prop, Rel, TryClone};
use projection_spec::{RelProp, stored_cell};
use std::alloc::Global;

/// The places of the ends of arcs.
fn ends_of(alloc: Global, places: &Places, arcs: &[FlatArc]) -> Result<Vec<(u32, u32)>, Mem>
    ensures { IfOk result (λ ends. ends.items ≡ map (flat_ends places.now) arcs.now) }
{
    let mut ends = Vec::with_capacity(alloc, arcs.len())?;
    for arc in arcs {
        ends.push(places.ends(arc.source, arc.target))?;
    }
    Ok(ends)
}

/// The value of a relationship for a property: the stored one, else the default, else the missing one.
fn kept_value(props: &[Prop], prop: &RelProp) -> i64
    ensures { result ≡ kept_value props.now prop.now }
{
    match stored_cell(props, &prop.store) {
        Some(value) => value,
        None => prop.default.unwrap_or(i64::MIN),
    }
}

/// The values of relationships for a property.
fn values_of(alloc: Global, rels: &[&Rel], prop: &RelProp) -> Result<Vec<i64>, Mem>
    ensures { IfOk result (λ values. values.items ≡ map (λ rel. kept_value rel.now.props prop.now) rels.now) }
{
    let mut values = Vec::with_capacity(alloc, rels.len())?;
    for rel in rels {
        values.push(kept_value(rel.props.as_slice(), prop))?;
    }
    Ok(values)
}

/// The values at the places of arcs.
fn picked(alloc: Global, values: &[i64], arcs: &[FlatArc]) -> Result<List<i64>, Mem>
    requires { All (IsWithin (length values.now)) arcs.now }
    ensures { IfOk result (λ picked. picked ≡ map (picked_value values.now) arcs.now) }
{
    let mut picked = Vec::with_capacity(alloc, arcs.len())?;
    for arc in arcs {
        picked.push(values[arc.place as usize])?;
    }
    Ok(List::from_vec(picked))
}

/// The values of arcs for a property.
fn column_of(
    alloc: Global,
    rels: &[&Rel],
    arcs: &[FlatArc],
    prop: &RelProp,
) -> Result<List<i64>, Mem>
    requires { All (IsWithin (length rels.now)) arcs.now }
    ensures { IfOk result (λ column. column ≡ map (arc_value (map (λ rel. rel.now) rels.now) prop.now) arcs.now) }
{
    let values = values_of(alloc, rels, prop)?;
    picked(alloc, values.as_slice(), arcs)
}

/// The keys, each with a value for every arc.
fn columns_of(
    alloc: Global,
    rels: &[&Rel],
    arcs: &[FlatArc],
    props: &[RelProp],
) -> Result<List<(Name, List<i64>)>, Mem>
    requires { All (IsWithin (length rels.now)) arcs.now }
    ensures { IfOk result (λ columns. columns ≡ map (arc_column (map (λ rel. rel.now) rels.now) arcs.now) props.now) }
{
    let mut columns = Vec::with_capacity(alloc, props.len())?;
    for prop in props {
        columns.push((prop.key.try_clone()?, column_of(alloc, rels, arcs, prop)?))?;
    }
    Ok(List::from_vec(columns))
}

/// The rows of arcs that are each kept, among so many nodes.
///
/// # Errors
/// `Mem` where there is no memory for them.
pub(crate) fn single_rows(
    alloc: Global,
    nodes: u32,
    places: &Places,
    rels: &[&Rel],
    arcs: &[FlatArc],
    props: &[RelProp],
) -> Result<Csr, Mem>
    requires within { All (IsWithin (length rels.now)) arcs.now }
    requires below { All (LiesBelow nodes) (map (flat_ends places.now) arcs.now) }
    requires ascend { IsSorted arc_cmp (map (flat_ends places.now) arcs.now) }
    requires distinct { AreDistinct (map (λ prop. prop.key) props.now) }
    ensures { IfOk result (λ csr. csr ≡ arc_rows_of nodes (map (flat_ends places.now) arcs.now) (map (arc_column (map (λ rel. rel.now) rels.now) arcs.now) props.now)) }
{
    let columns = columns_of(alloc, rels, arcs, props)?;
    let ends = ends_of(alloc, places, arcs)?;
    Csr::build(alloc, nodes, ends.as_slice(), columns)
}

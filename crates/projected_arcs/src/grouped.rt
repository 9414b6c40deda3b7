// The rows of a type whose arcs are grouped.
ghost use Rattle.std.specs.Prelude.{◌≡◌, length, map, All, Ok, Err, IfOk, IfErr};
ghost use Rattle.std.specs.List.{AllByRecursion};
ghost use Rattle.std.specs.List.Sorted.{IsSorted};
ghost use Rattle.graph_model.specs.Lists.{Pairwise};
ghost use Rattle.graph_model.specs.Refusals.{UnlessMem};
ghost use Rattle.projection_spec.specs.RawArcs.{ArcInOrder, cells_of};
ghost use Rattle.projection_spec.specs.KeptArcs.{kept_arcs};
ghost use Rattle.projection_spec.specs.NativeProjection.{type_of};
ghost use Rattle.csr_columns.specs.Rows.{AreDistinct, LiesBelow, arc_cmp, arc_rows_of};
ghost use Rattle.projected_arcs.specs.Flat.{IsWithin, raw_of};
ghost use Rattle.projected_arcs.specs.Types.{grouped_columns, grouped_ends, value_at};

use crate::flat::FlatArc;
use crate::places::Places;
use csr_columns::Csr;
use graph_model::{List, Mem, Name, Prop, Refusal, Rel, TryClone};
use projection_spec::{RelEntry, RelProp, stored_cell};
use rel_aggregate::{GroupRefusal, Grouped, RawArc, group};
use std::alloc::Global;

/// A cell for each property.
fn cells_of(alloc: Global, stored: &[Prop], props: &[RelProp]) -> Result<List<Option<i64>>, Mem>
    ensures { IfOk result (λ cells. cells ≡ cells_of stored.now props.now) }
{
    let mut cells = Vec::with_capacity(alloc, props.len())?;
    for prop in props {
        cells.push(stored_cell(stored, &prop.store))?;
    }
    Ok(List::from_vec(cells))
}

/// Raw arcs, read from their relationships.
fn raw_arcs(
    alloc: Global,
    rels: &[&Rel],
    arcs: &[FlatArc],
    props: &[RelProp],
) -> Result<Vec<RawArc>, Mem>
    requires { All (IsWithin (length rels.now)) arcs.now }
    ensures { IfOk result (λ raws. raws.items ≡ map (raw_of (map (λ rel. rel.now) rels.now) props.now) arcs.now) }
{
    let mut raws = Vec::with_capacity(alloc, arcs.len())?;
    for arc in arcs {
        let rel = rels[arc.place as usize];
        raws.push(RawArc {
            source: arc.source,
            target: arc.target,
            rel: rel.id,
            cells: cells_of(alloc, rel.props.as_slice(), props)?,
        })?;
    }
    Ok(raws)
}

/// The arcs that are kept for the groups of an entry.
///
/// # Errors
/// `SumOutOfRange` for the first group, and then its first key, whose sum leaves i64, or `Mem`.
pub(crate) fn grouped_arcs(
    alloc: Global,
    rels: &[&Rel],
    arcs: &[FlatArc],
    entry: &RelEntry,
) -> Result<List<Grouped>, Refusal>
    requires within { All (IsWithin (length rels.now)) arcs.now }
    requires ascending { Pairwise ArcInOrder (map (raw_of (map (λ rel. rel.now) rels.now) entry.now.props) arcs.now) }
    ensures ok { IfOk result (λ kept. kept_arcs entry.now (map (raw_of (map (λ rel. rel.now) rels.now) entry.now.props) arcs.now) ≡ Ok kept) }
    ensures refused { IfErr result (λ why. UnlessMem why (type_of entry.now (kept_arcs entry.now (map (raw_of (map (λ rel. rel.now) rels.now) entry.now.props) arcs.now)) ≡ Err why)) }
{
    let raws = raw_arcs(alloc, rels, arcs, entry.props.as_slice())?;
    match group(alloc, raws.as_slice(), entry) {
        Ok(kept) => Ok(kept),
        Err(GroupRefusal::Mem) => Err(Refusal::Mem),
        Err(
            GroupRefusal::Sum {
                source,
                target,
                key,
            },
        ) => Err(Refusal::SumOutOfRange {
            rel_type: entry.kind.try_clone()?,
            key,
            source,
            target,
        }),
    }
}

/// The places of the ends of arcs.
fn ends_of(alloc: Global, places: &Places, arcs: &[Grouped]) -> Result<Vec<(u32, u32)>, Mem>
    ensures { IfOk result (λ ends. ends.items ≡ map (grouped_ends places.now) arcs.now) }
{
    let mut ends = Vec::with_capacity(alloc, arcs.len())?;
    for arc in arcs {
        ends.push(places.ends(arc.source, arc.target))?;
    }
    Ok(ends)
}

/// The value of an arc at a place.
fn value_at(arc: &Grouped, place: usize) -> i64
    ensures { result ≡ value_at place arc.now }
{
    match arc.values.as_slice().get(place) {
        Some(value) => *value,
        None => i64::MIN,
    }
}

/// The values of arcs at a place.
fn column_at(alloc: Global, arcs: &[Grouped], place: usize) -> Result<List<i64>, Mem>
    ensures { IfOk result (λ column. column ≡ map (value_at place) arcs.now) }
{
    let mut column = Vec::with_capacity(alloc, arcs.len())?;
    for arc in arcs {
        column.push(value_at(arc, place))?;
    }
    Ok(List::from_vec(column))
}

/// The keys, each with a value for every arc.
fn columns_of(
    alloc: Global,
    arcs: &[Grouped],
    props: &[RelProp],
) -> Result<List<(Name, List<i64>)>, Mem>
    ensures { IfOk result (λ columns. columns ≡ grouped_columns arcs.now 0 props.now) }
{
    let mut columns = Vec::with_capacity(alloc, props.len())?;
    for (place, prop) in props.iter().enumerate() {
        columns.push((prop.key.try_clone()?, column_at(alloc, arcs, place)?))?;
    }
    Ok(List::from_vec(columns))
}

/// The rows of arcs that are kept for groups, among so many nodes.
///
/// # Errors
/// `Mem` where there is no memory for them.
pub(crate) fn grouped_rows(
    alloc: Global,
    nodes: u32,
    places: &Places,
    kept: &[Grouped],
    props: &[RelProp],
) -> Result<Csr, Mem>
    requires below { All (LiesBelow nodes) (map (grouped_ends places.now) kept.now) }
    requires ascend { IsSorted arc_cmp (map (grouped_ends places.now) kept.now) }
    requires distinct { AreDistinct (map (λ prop. prop.key) props.now) }
    ensures { IfOk result (λ csr. csr ≡ arc_rows_of nodes (map (grouped_ends places.now) kept.now) (grouped_columns kept.now 0 props.now)) }
{
    let columns = columns_of(alloc, kept, props)?;
    let ends = ends_of(alloc, places, kept)?;
    Csr::build(alloc, nodes, ends.as_slice(), columns)
}

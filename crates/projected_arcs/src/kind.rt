// A projected type in rows.
ghost use Rattle.std.specs.Prelude.{◌≡◌, ◌<◌, ◌^◌, true, length, map, Ok, Err, IfOk, IfErr};
ghost use Rattle.std.specs.List.{AllByRecursion};
ghost use Rattle.std.specs.List.Sorted.{IsStrictlyIncreasing};
ghost use Rattle.graph_model.specs.Graph.{RelBefore};
ghost use Rattle.graph_model.specs.Lists.{Pairwise, in_order};
ghost use Rattle.graph_model.specs.Refusals.{UnlessMem};
ghost use Rattle.projection_spec.specs.Fields.{HasAscendingRelKeys};
ghost use Rattle.projection_spec.specs.KeptArcs.{kept_arcs};
ghost use Rattle.projection_spec.specs.NativeProjection.{type_of};
ghost use Rattle.csr_columns.specs.Parts.{HasNodes};
ghost use Rattle.csr_columns.specs.Plain.{plain_type};
ghost use Rattle.projected_arcs.specs.Flat.{flat_arcs, flat_before, joins_placed, raw_of};
ghost use Rattle.projected_arcs.specs.Places.{AreSlots};
ghost use Rattle.projected_arcs.specs.Types.{RowsGive, type_among};

use crate::flat::{FlatArc, sorted_arcs};
use crate::grouped::{grouped_arcs, grouped_rows};
use crate::matching::matching_rels;
use crate::places::Places;
use crate::rows::single_rows;
use csr_columns::{Csr, TypeColumns};
use graph_model::{Refusal, Rel, Shared, TryClone};
use graph_store::Snapshot;
use projection_spec::RelEntry;
use std::alloc::Global;

/// The rows of the arcs that an entry keeps, among the nodes of these ids.
fn rows_of(
    alloc: Global,
    ids: &[u32],
    places: &Places,
    rels: &[&Rel],
    arcs: &[FlatArc],
    entry: &RelEntry,
) -> Result<Csr, Refusal>
    requires slots { AreSlots ids.now places.now }
    requires ascend { IsStrictlyIncreasing ids.now }
    requires few { length ids.now < 2 ^ 32 }
    requires keys { HasAscendingRelKeys entry.now }
    requires rels_ascend { Pairwise RelBefore (map (λ rel. rel.now) rels.now) }
    requires joined { AllByRecursion (λ rel. joins_placed places.now entry.now rel ≡ true) (map (λ rel. rel.now) rels.now) }
    requires arcs { arcs.now ≡ in_order flat_before (flat_arcs entry.now.orientation 0 (map (λ rel. rel.now) rels.now)) }
    ensures ok { IfOk result (λ rows. RowsGive ids.now entry.now (map (raw_of (map (λ rel. rel.now) rels.now) entry.now.props) arcs.now) rows) }
    ensures nodes { IfOk result (λ rows. length rows.rows ≡ length ids.now) }
    ensures refused { IfErr result (λ why. UnlessMem why (type_of entry.now (kept_arcs entry.now (map (raw_of (map (λ rel. rel.now) rels.now) entry.now.props) arcs.now)) ≡ Err why)) }
{
    let nodes = ids.len() as u32;
    let props = entry.props.as_slice();
    if entry.grouped {
        let kept = grouped_arcs(alloc, rels, arcs, entry)?;
        Ok(grouped_rows(alloc, nodes, places, kept.as_slice(), props)?)
    } else {
        Ok(single_rows(alloc, nodes, places, rels, arcs, props)?)
    }
}

/// The type that an entry gives, among the nodes of these ids, which have these places: the relationships that it asks
/// for between such nodes, turned by its orientation, in ascending order of source, target and relationship id, each
/// kept or one for each group.
///
/// # Errors
/// `SumOutOfRange` for the first group, and then its first key, whose sum leaves i64, or `Mem`.
pub fn project_type(
    alloc: Global,
    from: &Snapshot,
    ids: &[u32],
    places: &Places,
    entry: &RelEntry,
) -> Result<TypeColumns, Refusal>
    requires slots { AreSlots ids.now places.now }
    requires ascend { IsStrictlyIncreasing ids.now }
    requires few { length ids.now < 2 ^ 32 }
    requires keys { HasAscendingRelKeys entry.now }
    ensures ok { IfOk result (λ type. type_among ids.now from.now entry.now ≡ Ok (plain_type ids.now type)) }
    ensures nodes { IfOk result (HasNodes (length ids.now)) }
    ensures refused { IfErr result (λ why. UnlessMem why (type_among ids.now from.now entry.now ≡ Err why)) }
{
    from.next_node();
    let rels = matching_rels(alloc, from, places, entry)?;
    let arcs = sorted_arcs(alloc, entry.orientation, rels.as_slice())?;
    let rows = match rows_of(alloc, ids, places, rels.as_slice(), arcs.as_slice(), entry) {
        Ok(rows) => rows,
        Err(why) => return Err(why),
    };
    Ok(TypeColumns {
        kind: entry.kind.try_clone()?,
        orientation: entry.orientation,
        arcs: Shared::new(alloc, rows)?,
    })
}

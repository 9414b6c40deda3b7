// The relationships that become arcs of an entry.
ghost use Rattle.std.specs.Prelude.{◌≡◌, ◌≤◌, length, map, filter, IfOk};
ghost use Rattle.graph_model.specs.Graph.{most_rels};
ghost use Rattle.projection_spec.specs.RawArcs.{is_asked_for};
ghost use Rattle.projected_arcs.specs.Flat.{joins_placed};

use crate::places::Places;
use graph_model::laws::elements_come_by_id;
use graph_model::{Mem, Name, Rel};
use graph_store::Snapshot;
use projection_spec::RelEntry;
use std::alloc::Global;

/// Whether a type is the one that is asked for.
fn is_asked_for(asked: &Option<Name>, kind: &Name) -> bool
    ensures { result ≡ is_asked_for asked.now kind.now }
{
    match asked {
        None => true,
        Some(asked) => asked == kind,
    }
}

/// Whether a relationship becomes arcs of an entry.
fn joins_placed(places: &Places, entry: &RelEntry, rel: &Rel) -> bool
    ensures { result ≡ joins_placed places.now entry.now rel.now }
{
    is_asked_for(&entry.store, &rel.kind)
        && places.place(rel.source).is_some()
        && places.place(rel.target).is_some()
}

/// The relationships that become arcs of an entry, by ascending id.
///
/// # Errors
/// `Mem` where there is no memory for the list.
pub(crate) fn matching_rels<'a>(
    alloc: Global,
    from: &'a Snapshot,
    places: &Places,
    entry: &RelEntry,
) -> Result<Vec<&'a Rel>, Mem>
    ensures rels { IfOk result (λ rels. map (λ rel. rel.now) rels.items ≡ filter (joins_placed places.now entry.now) from.now.rels) }
    ensures few { IfOk result (λ rels. length rels.items ≤ most_rels) }
{
    elements_come_by_id();
    from.next_node();
    let mut rels = Vec::with_capacity(alloc, from.next_rel() as usize)?;
    for id in 0..from.next_rel() {
        if let Some(rel) = from.rel(id) {
            if joins_placed(places, entry, rel) {
                rels.push(rel)?;
            }
        }
    }
    Ok(rels)
}

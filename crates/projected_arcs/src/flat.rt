// Arcs in one flat list, in order.
ghost use Rattle.std.specs.Prelude.{◌≡◌, ◌<◌, ◌^◌, ◌*◌, ◌++◌, length, map, IfOk, OnOk};
ghost use Rattle.graph_model.specs.Lists.{in_order};
ghost use Rattle.projected_arcs.specs.Flat.{flat_arcs, flat_before, turned_flat, ways};

use graph_model::{Mem, Orientation, Rel};
use std::alloc::Global;

/// An arc of a relationship: the ids of its ends, and the place of the relationship among those of its type. Arcs are
/// ordered by source, by target, and by the place.
#[derive(Clone, Copy, Debug, PartialEq, Eq, PartialOrd, Ord)]
pub(crate) struct FlatArc {
    pub(crate) source: u32,
    pub(crate) target: u32,
    pub(crate) place: u32,
}

/// Puts the arcs of the relationship at a place behind others.
fn push_turned(
    arcs: &mut Vec<FlatArc>,
    orientation: Orientation,
    place: u32,
    rel: &Rel,
) -> Result<(), Mem>
    ensures { OnOk result (arcs.new.items ≡ arcs.old.items ++ turned_flat orientation place rel.now) }
{
    let (source, target) = (rel.source, rel.target);
    let forth = FlatArc {
        source,
        target,
        place,
    };
    let back = FlatArc {
        source: target,
        target: source,
        place,
    };
    match orientation {
        Orientation::Natural => arcs.push(forth)?,
        Orientation::Reverse => arcs.push(back)?,
        Orientation::Undirected => {
            arcs.push(forth)?;
            arcs.push(back)?;
        }
    }
    Ok(())
}

/// How many arcs so many relationships become.
fn arc_count(orientation: Orientation, rels: usize) -> usize
    requires { rels < 2 ^ 32 }
    ensures { result ≡ ways orientation * rels }
{
    match orientation {
        Orientation::Natural | Orientation::Reverse => rels,
        Orientation::Undirected => 2 * rels,
    }
}

/// The arcs of relationships, one relationship after another.
fn flat_arcs(alloc: Global, orientation: Orientation, rels: &[&Rel]) -> Result<Vec<FlatArc>, Mem>
    requires { length rels.now < 2 ^ 32 }
    ensures { IfOk result (λ arcs. arcs.items ≡ flat_arcs orientation 0 (map (λ rel. rel.now) rels.now)) }
{
    let mut arcs = Vec::with_capacity(alloc, arc_count(orientation, rels.len()))?;
    for (place, rel) in rels.iter().enumerate() {
        push_turned(&mut arcs, orientation, place as u32, rel)?;
    }
    Ok(arcs)
}

/// The arcs of relationships, in order.
///
/// # Errors
/// `Mem` where there is no memory for them.
pub(crate) fn sorted_arcs(
    alloc: Global,
    orientation: Orientation,
    rels: &[&Rel],
) -> Result<Vec<FlatArc>, Mem>
    requires { length rels.now < 2 ^ 32 }
    ensures { IfOk result (λ arcs. arcs.items ≡ in_order flat_before (flat_arcs orientation 0 (map (λ rel. rel.now) rels.now))) }
{
    let mut arcs = flat_arcs(alloc, orientation, rels)?;
    arcs.sort_unstable();
    Ok(arcs)
}

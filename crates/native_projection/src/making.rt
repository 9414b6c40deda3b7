// The types of a projection.
ghost use Rattle.std.specs.Prelude.{◌≡◌, ◌<◌, ◌^◌, nat_le, length, map, All, Ok, Err, IfOk, IfErr};
ghost use Rattle.std.specs.List.{AllByRecursion};
ghost use Rattle.std.specs.List.Sorted.{IsStrictlyIncreasing};
ghost use Rattle.graph_model.specs.Projection.{most_arcs};
ghost use Rattle.graph_model.specs.Refusals.{UnlessMem};
ghost use Rattle.projection_spec.specs.Fields.{HasAscendingRelKeys};
ghost use Rattle.csr_columns.specs.Parts.{HasNodes, arcs_in, kind_of};
ghost use Rattle.csr_columns.specs.Plain.{plain_type};
ghost use Rattle.projected_arcs.specs.Places.{AreSlots};
ghost use Rattle.native_projection.specs.Making.{types_among};

use csr_columns::TypeColumns;
use graph_model::{List, Refusal};
use graph_store::Snapshot;
use projected_arcs::{Places, project_type};
use projection_spec::RelEntry;
use std::alloc::Global;

// The most arcs that a projection has.
const MOST_ARCS: u64 = 67_108_864;

/// The types that entries give, among the nodes of these ids.
///
/// # Errors
/// `SumOutOfRange` for the first type, and its first group and key, whose sum leaves i64, or `Mem`.
pub(crate) fn project_types(
    alloc: Global,
    from: &Snapshot,
    ids: &[u32],
    places: &Places,
    entries: &[RelEntry],
) -> Result<List<TypeColumns>, Refusal>
    requires slots { AreSlots ids.now places.now }
    requires ascend { IsStrictlyIncreasing ids.now }
    requires few { length ids.now < 2 ^ 32 }
    requires keys { AllByRecursion HasAscendingRelKeys entries.now }
    ensures ok { IfOk result (λ types. types_among ids.now from.now entries.now ≡ Ok (map (plain_type ids.now) types)) }
    ensures nodes { IfOk result (All (HasNodes (length ids.now))) }
    ensures refused { IfErr result (λ why. UnlessMem why (types_among ids.now from.now entries.now ≡ Err why)) }
{
    let mut types = List::new(alloc);
    for entry in entries {
        match project_type(alloc, from, ids, places, entry) {
            Ok(made) => types.push(made)?,
            Err(why) => return Err(why),
        }
    }
    Ok(types)
}

/// Whether types have no more arcs than a projection may.
pub(crate) fn arcs_fit(types: &[TypeColumns]) -> bool
    ensures { result ≡ nat_le (arcs_in types.now) most_arcs }
{
    let mut left = MOST_ARCS;
    for kind in types {
        let count = u64::from(kind.arcs.get().arc_count());
        if count > left {
            return false;
        }
        left -= count;
    }
    true
}

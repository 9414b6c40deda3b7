// A projection of a snapshot.
ghost use Rattle.std.specs.Prelude.{◌≡◌, ◌≤◌, None, Ok, Err, IfOk, IfErr};
ghost use Rattle.graph_model.specs.Refusals.{UnlessMem};
ghost use Rattle.projection_spec.specs.NativeProjection.{projected, refused_names};
ghost use Rattle.csr_columns.specs.Plain.{plain};
ghost use Rattle.csr_columns.specs.Parts.{FitTogether};

use crate::known::names_known;
use crate::making::{arcs_fit, project_types};
use csr_columns::{Parts, Projection};
use graph_model::{Quantity, Refusal};
use graph_store::Snapshot;
use projected_arcs::Places;
use projected_nodes::project_nodes;
use projection_spec::ProjectSpec;
use std::alloc::Global;

/// The columns of a projection whose names are known.
fn parts_of(alloc: Global, from: &Snapshot, spec: &ProjectSpec) -> Result<Parts, Refusal>
    requires { refused_names spec.now from.now ≡ None }
    ensures fit { IfOk result FitTogether }
    ensures ok { IfOk result (λ parts. projected spec.now from.now ≡ Ok (plain parts)) }
    ensures refused { IfErr result (λ why. UnlessMem why (projected spec.now from.now ≡ Err why)) }
{
    let nodes = project_nodes(alloc, from, spec.nodes.as_slice())?;
    let ids = nodes.ids.as_slice();
    let places = Places::of(alloc, from.next_node(), ids)?;
    let types = match project_types(alloc, from, ids, &places, spec.rels.as_slice()) {
        Ok(types) => types,
        Err(why) => return Err(why),
    };
    if !arcs_fit(types.as_slice()) {
        return Err(Refusal::Full {
            which: Quantity::Arcs,
            limit: 67_108_864,
            batches: 0,
        });
    }
    Ok(Parts {
        ids: nodes.ids,
        labels: nodes.labels,
        columns: nodes.columns,
        types,
    })
}

/// What a specification projects a snapshot to, on so many workers: the nodes that its entries take, with their labels and a
/// value for each key, and for each relationship entry a type with the arcs that it keeps. The result is the same for each
/// number of workers.
///
/// # Errors
/// `NoSuchLabel`, `NoSuchType` or `NoSuchProperty` for the first name that nothing has; else `SumOutOfRange` for the first
/// type, and its first group and key, whose sum leaves i64; else `Full` where all types together have more than 67,108,864
/// arcs; or `Mem`.
pub fn project(
    alloc: Global,
    from: &Snapshot,
    spec: &ProjectSpec,
    workers: u32,
) -> Result<Projection, Refusal>
    requires some { 1 ≤ workers }
    requires few { workers ≤ 64 }
    ensures ok { IfOk result (λ projection. projected spec.now from.now ≡ Ok (plain projection)) }
    ensures refused { IfErr result (λ why. UnlessMem why (projected spec.now from.now ≡ Err why)) }
{
    let _ = workers;
    match names_known(from, spec) {
        Ok(()) => {}
        Err(why) => return Err(why),
    }
    match parts_of(alloc, from, spec) {
        Ok(parts) => Ok(Projection::of(alloc, parts)?),
        Err(why) => Err(why),
    }
}

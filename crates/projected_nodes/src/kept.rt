// The nodes that the entries take.
ghost use Rattle.std.specs.Prelude.{◌≡◌, map, IfOk};
ghost use Rattle.projection_spec.specs.NativeProjection.{kept_nodes};

use crate::taking::is_projected;
use graph_model::laws::elements_come_by_id;
use graph_model::{Mem, Node};
use graph_store::Snapshot;
use projection_spec::NodeEntry;
use std::alloc::Global;

/// The nodes that some entry takes, by ascending id.
///
/// # Errors
/// `Mem` where there is no memory for the list.
pub(crate) fn kept_nodes<'a>(
    alloc: Global,
    from: &'a Snapshot,
    entries: &[NodeEntry],
) -> Result<Vec<&'a Node>, Mem>
    ensures { IfOk result (λ kept. map (λ node. node.now) kept.items ≡ kept_nodes from.now entries.now) }
{
    elements_come_by_id();
    let mut kept = Vec::new(alloc);
    for id in 0..from.next_node() {
        if let Some(node) = from.node(id) {
            if is_projected(entries, node) {
                kept.push(node)?;
            }
        }
    }
    Ok(kept)
}

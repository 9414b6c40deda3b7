// Projected nodes in columns.
ghost use Rattle.std.specs.Prelude.{◌≡◌, map, IfOk};
ghost use Rattle.projection_spec.specs.NativeProjection.{kept_nodes};
ghost use Rattle.projected_nodes.specs.Columns.{id_of, is_taken_by, value_under, label_column, key_column, node_columns};

use crate::kept::kept_nodes;
use crate::keys::node_keys;
use crate::taking::{node_value, takes};
use graph_model::{List, Mem, Name, Node, TryClone};
use graph_store::Snapshot;
use projection_spec::NodeEntry;
use std::alloc::Global;

/// Nodes in columns. A node is told by its place in `ids`.
#[derive(Drop)]
pub struct NodeColumns {
    /// The node ids, ascending.
    pub ids: List<u32>,
    /// The projected labels, ascending, each with a flag for every node.
    pub labels: List<(Name, List<bool>)>,
    /// The node keys, ascending, each with a value for every node.
    pub columns: List<(Name, List<i64>)>,
}

/// The ids of nodes.
fn ids_of(alloc: Global, nodes: &[&Node]) -> Result<List<u32>, Mem>
    ensures { IfOk result (λ ids. ids ≡ map (λ node. id_of node.now) nodes.now) }
{
    let mut ids = Vec::with_capacity(alloc, nodes.len())?;
    for node in nodes {
        ids.push(node.id)?;
    }
    Ok(List::from_vec(ids))
}

/// A flag for each node: whether an entry takes it.
fn flags_of(alloc: Global, entry: &NodeEntry, nodes: &[&Node]) -> Result<List<bool>, Mem>
    ensures { IfOk result (λ flags. flags ≡ map (λ node. is_taken_by entry.now node.now) nodes.now) }
{
    let mut flags = Vec::with_capacity(alloc, nodes.len())?;
    for node in nodes {
        flags.push(takes(entry, node))?;
    }
    Ok(List::from_vec(flags))
}

/// A value for each node under a key.
fn values_of(
    alloc: Global,
    entries: &[NodeEntry],
    key: &Name,
    nodes: &[&Node],
) -> Result<List<i64>, Mem>
    ensures { IfOk result (λ values. values ≡ map (λ node. value_under entries.now key.now node.now) nodes.now) }
{
    let mut values = Vec::with_capacity(alloc, nodes.len())?;
    for node in nodes {
        values.push(node_value(entries, node, key))?;
    }
    Ok(List::from_vec(values))
}

/// The labels of entries, each with a flag for every node.
fn labels_of(
    alloc: Global,
    entries: &[NodeEntry],
    nodes: &[&Node],
) -> Result<List<(Name, List<bool>)>, Mem>
    ensures { IfOk result (λ labels. labels ≡ map (label_column (map (λ node. node.now) nodes.now)) entries.now) }
{
    let mut labels = Vec::with_capacity(alloc, entries.len())?;
    for entry in entries {
        labels.push((entry.label.try_clone()?, flags_of(alloc, entry, nodes)?))?;
    }
    Ok(List::from_vec(labels))
}

/// Keys, each with a value for every node.
fn columns_of(
    alloc: Global,
    entries: &[NodeEntry],
    keys: &[Name],
    nodes: &[&Node],
) -> Result<List<(Name, List<i64>)>, Mem>
    ensures { IfOk result (λ columns. columns ≡ map (key_column entries.now (map (λ node. node.now) nodes.now)) keys.now) }
{
    let mut columns = Vec::with_capacity(alloc, keys.len())?;
    for key in keys {
        columns.push((key.try_clone()?, values_of(alloc, entries, key, nodes)?))?;
    }
    Ok(List::from_vec(columns))
}

/// Nodes in columns.
fn in_columns(alloc: Global, entries: &[NodeEntry], nodes: &[&Node]) -> Result<NodeColumns, Mem>
    ensures { IfOk result (λ made. made ≡ node_columns entries.now (map (λ node. node.now) nodes.now)) }
{
    let keys = node_keys(alloc, entries)?;
    Ok(NodeColumns {
        ids: ids_of(alloc, nodes)?,
        labels: labels_of(alloc, entries, nodes)?,
        columns: columns_of(alloc, entries, keys.as_slice(), nodes)?,
    })
}

/// The nodes that some entry takes, in columns: by ascending id, with the labels of the entries and the keys of all of them.
///
/// # Errors
/// `Mem` where there is no memory for them.
pub fn project_nodes(
    alloc: Global,
    from: &Snapshot,
    entries: &[NodeEntry],
) -> Result<NodeColumns, Mem>
    ensures { IfOk result (λ made. made ≡ node_columns entries.now (kept_nodes from.now entries.now)) }
{
    let nodes = kept_nodes(alloc, from, entries)?;
    in_columns(alloc, entries, nodes.as_slice())
}

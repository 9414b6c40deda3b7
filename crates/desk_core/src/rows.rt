// Rows of the store, and of a named graph.
ghost use Rattle.std.specs.Prelude.{◌≡◌, length, IfOk, IfErr, OnOk, option_copied, None, Some};
ghost use Rattle.std.specs.Option.{option_map};
ghost use Rattle.std.specs.List.{list_any};
ghost use Rattle.std.specs.List.Sorted.{IsStrictlyIncreasing};
ghost use Rattle.graph_model.specs.Projection.{is_among};
ghost use Rattle.graph_model.specs.declared.refusal.Refusal.TheVariants.{NoSuchLabel};
ghost use Rattle.graph_model.specs.Refusals.{UnlessMem};
ghost use Rattle.graph_model.specs.View.{unknown_choice};
ghost use Rattle.csr_columns.specs.Rows.{names_of};
ghost use Rattle.csr_columns.specs.Choosing.{kept_flags};
ghost use Rattle.csr_columns.specs.Plain.{plain};
ghost use Rattle.desk_model.specs.Step.{chooses, chosen_row, stored_rows};
ghost use Rattle.desk_model.specs.Graphs.{refused_under, rows_under};
ghost use Rattle.desk_model.specs.Replies.{rows_of};
ghost use Rattle.desk_core.specs.Rows.{value_of_row, row_at, kept_below};

use csr_columns::Projection;
use graph_model::laws::elements_come_by_id;
use graph_model::{Choice, Column, Mem, Name, Node, Refusal, TryClone};
use graph_store::Store;
use projection_spec::stored_value;
use std::alloc::Global;

/// Whether a label is one of some names.
fn is_named(names: &[Name], label: &Name) -> bool
    ensures { result ≡ is_among names.now label.now }
{
    names.iter().any(|name| label == name)
}

/// Whether one of some labels is among names.
fn has_named(names: &[Name], labels: &[Name]) -> bool
    ensures { result ≡ list_any (is_among names.now) labels.now }
{
    labels.iter().any(|label| is_named(names, label))
}

/// Whether a node has a chosen label.
fn is_chosen(labels: &Choice, node: &Node) -> bool
    ensures { result ≡ chooses labels.now node.now }
{
    match labels {
        Choice::All => true,
        Choice::Of(names) => has_named(names.as_slice(), node.labels.as_slice()),
    }
}

/// The value of the node of an id, where it lives, is chosen and stores the key.
fn chosen_value(store: &Store, id: u32, key: &Name, labels: &Choice) -> Option<i64>
    ensures { result ≡ value_of_row (row_at key.now labels.now store.now id) }
{
    let Some(node) = store.node(id) else {
        return None;
    };
    if is_chosen(labels, node) {
        stored_value(node.props.as_slice(), key)
    } else {
        None
    }
}

/// The rows of the chosen nodes that store a key, by ascending id.
///
/// # Errors
/// `Mem` where there is no memory for them.
pub(crate) fn stored_rows(
    alloc: Global,
    store: &Store,
    key: &Name,
    labels: &Choice,
) -> Result<Column, Mem>
    ensures { IfOk result (λ column. rows_of column ≡ stored_rows key.now labels.now store.now) }
{
    elements_come_by_id();
    let mut column = Column::new(alloc);
    for id in 0..store.next_node() {
        if let Some(value) = chosen_value(store, id, key, labels) {
            column = column.with_row(id, value)?;
        }
    }
    Ok(column)
}

/// The rows of the chosen nodes of a projection under a key, by ascending id.
///
/// # Errors
/// `NoSuchLabel` exactly where a chosen label isn't projected, for the first one, then `NoSuchProperty` exactly where there
/// is no such key, or `Mem`.
pub(crate) fn projected_rows(
    alloc: Global,
    graph: &Projection,
    key: Name,
    labels: &Choice,
) -> Result<Column, Refusal>
    ensures ok { IfOk result (λ column. rows_of column ≡ rows_under key labels.now (plain graph.now)) }
    ensures allowed { OnOk result (refused_under key labels.now (plain graph.now) ≡ None) }
    ensures refused { IfErr result (λ why. UnlessMem why (refused_under key labels.now (plain graph.now) ≡ Some why)) }
{
    match labels_known(graph, labels) {
        Ok(()) => {}
        Err(why) => return Err(why),
    }
    let Some(values) = graph.values(&key) else {
        return Err(Refusal::NoSuchProperty { key });
    };
    Ok(chosen_rows(alloc, graph, values, labels)?)
}

// The rows of the chosen nodes, with these values.
fn chosen_rows(
    alloc: Global,
    graph: &Projection,
    values: &[i64],
    labels: &Choice,
) -> Result<Column, Mem>
    requires { length values.now ≡ length graph.now.ids }
    ensures { IfOk result (λ column. rows_of column ≡ kept_below graph.now.ids (kept_flags labels.now graph.now.labels (length graph.now.ids)) values.now (length graph.now.ids)) }
{
    let kept = graph.kept_flags(alloc, labels)?;
    kept_rows(alloc, graph.ids(), kept.as_slice(), values)
}

// Whether all chosen labels are projected.
fn labels_known(graph: &Projection, labels: &Choice) -> Result<(), Refusal>
    ensures ok { OnOk result (unknown_choice (names_of graph.now.labels) labels.now ≡ None) }
    ensures refused { IfErr result (λ why. UnlessMem why (option_map NoSuchLabel (unknown_choice (names_of graph.now.labels) labels.now) ≡ Some why)) }
{
    if let Choice::Of(names) = labels {
        for name in names.as_slice() {
            if !is_named(graph.labels(), name) {
                return Err(Refusal::NoSuchLabel {
                    label: name.try_clone()?,
                });
            }
        }
    }
    Ok(())
}

// The rows of the ids that are kept.
fn kept_rows(alloc: Global, ids: &[u32], kept: &[bool], values: &[i64]) -> Result<Column, Mem>
    requires ascend { IsStrictlyIncreasing ids.now }
    requires flags { length kept.now ≡ length ids.now }
    requires values { length values.now ≡ length ids.now }
    ensures { IfOk result (λ column. rows_of column ≡ kept_below ids.now kept.now values.now (length ids.now)) }
{
    let mut column = Column::new(alloc);
    for v in 0..ids.len() {
        if kept[v] {
            column = column.with_row(ids[v], values[v])?;
        }
    }
    Ok(column)
}

// What a configuration adds to entries.
ghost use Rattle.std.specs.Prelude.{◌≡◌, ◌++◌, Some, None, IfOk, IfErr, option_and_then};
ghost use Rattle.serde_json.specs.View.{view};
ghost use Rattle.json_forms.specs.Faults.{IfWrong};
ghost use Rattle.projection_spec.specs.Given.{has_name, further, joined, within_limit};
ghost use Rattle.projection_spec.specs.Projected.{full_node_entry, full_node_entries, full_written_entry, full_written_entries, all_nodes, all_rels};

use crate::entries::{NodeEntry, NodeProp};
use crate::part::{LIMIT, Part, in_order};
use crate::rels::with_sources;
use crate::settings::parts_or_none;
use crate::written::{WrittenEntry, WrittenProp};
use graph_model::{List, Mem, Name, TryClone};
use json_forms::Fault;
use serde_json::Value;
use std::alloc::Global;

// Whether some part has this name.
fn has_name<T: Part>(parts: &[T], name: &Name) -> bool
    ensures { result ≡ has_name T.called parts.now name.now }
{
    for part in parts {
        if part.name() == name {
            return true;
        }
    }
    false
}

// Copies of those parts whose names are further ones.
fn further<T: Part + TryClone>(alloc: Global, own: &[T], added: &[T]) -> Result<List<T>, Mem>
    ensures { IfOk result (λ parts. parts ≡ further T.called own.now added.now) }
{
    let mut parts = List::new(alloc);
    for part in added {
        if !has_name(own, part.name()) {
            parts.push(part.try_clone()?)?;
        }
    }
    Ok(parts)
}

// One list behind another, where both are no longer than parts may be.
fn append<T: Drop>(first: List<T>, second: List<T>) -> Result<List<T>, Fault>
    ensures ok { IfOk result (λ both. within_limit (first ++ second) ≡ Some both) }
    ensures refused { IfErr result (λ why. IfWrong why (within_limit (first ++ second) ≡ None)) }
{
    let mut both = first.into_vec();
    let mut more = second.into_vec();
    if both.len() > LIMIT || more.len() > LIMIT - both.len() {
        return Err(Fault::Wrong);
    }
    match both.append(&mut more) {
        Ok(()) => Ok(List::from_vec(both)),
        Err(_) => Err(Fault::Mem),
    }
}

// Parts, and those of others that have further names, in ascending order of their names.
fn joined<T: Part + TryClone>(alloc: Global, own: List<T>, added: &[T]) -> Result<List<T>, Fault>
    ensures ok { IfOk result (λ parts. joined T.called own added.now ≡ Some parts) }
    ensures refused { IfErr result (λ why. IfWrong why (joined T.called own added.now ≡ None)) }
{
    let more = further(alloc, own.as_slice(), added)?;
    let both = append(own, more)?;
    in_order(alloc, both)
}

// An entry with the keys of the configuration that it doesn't have itself.
fn full_node_entry(alloc: Global, added: &[NodeProp], entry: NodeEntry) -> Result<NodeEntry, Fault>
    ensures ok { IfOk result (λ full. full_node_entry added.now entry ≡ Some full) }
    ensures refused { IfErr result (λ why. IfWrong why (full_node_entry added.now entry ≡ None)) }
{
    let props = joined(alloc, entry.props, added)?;
    Ok(NodeEntry {
        label: entry.label,
        store: entry.store,
        props,
    })
}

fn full_node_entries(
    alloc: Global,
    added: &[NodeProp],
    own: List<NodeEntry>,
) -> Result<List<NodeEntry>, Fault>
    ensures ok { IfOk result (λ entries. full_node_entries added.now own ≡ Some entries) }
    ensures refused { IfErr result (λ why. IfWrong why (full_node_entries added.now own ≡ None)) }
{
    let mut entries = List::new(alloc);
    for entry in own.into_vec() {
        let full = full_node_entry(alloc, added, entry)?;
        entries.push(full)?;
    }
    Ok(entries)
}

// The same of relationships; each added key needs a key of the store, or has to count.
fn full_written_entry(
    alloc: Global,
    added: &[WrittenProp],
    entry: WrittenEntry,
) -> Result<WrittenEntry, Fault>
    ensures ok { IfOk result (λ full. full_written_entry added.now entry ≡ Some full) }
    ensures refused { IfErr result (λ why. IfWrong why (full_written_entry added.now entry ≡ None)) }
{
    let props = joined(alloc, entry.props, added)?;
    with_sources(WrittenEntry {
        kind: entry.kind,
        store: entry.store,
        orientation: entry.orientation,
        aggregation: entry.aggregation,
        props,
    })
}

fn full_written_entries(
    alloc: Global,
    added: &[WrittenProp],
    own: List<WrittenEntry>,
) -> Result<List<WrittenEntry>, Fault>
    ensures ok { IfOk result (λ entries. full_written_entries added.now own ≡ Some entries) }
    ensures refused { IfErr result (λ why. IfWrong why (full_written_entries added.now own ≡ None)) }
{
    let mut entries = List::new(alloc);
    for entry in own.into_vec() {
        let full = full_written_entry(alloc, added, entry)?;
        entries.push(full)?;
    }
    Ok(entries)
}

/// The entries of the nodes, with what the configuration adds.
///
/// # Errors
/// `Wrong` exactly where what it adds is of a wrong form or makes an entry wrong, or `Mem`.
pub(crate) fn all_nodes(
    alloc: Global,
    own: List<NodeEntry>,
    config: &Value,
) -> Result<List<NodeEntry>, Fault>
    ensures ok { IfOk result (λ entries. all_nodes own (view config.now) ≡ Some entries) }
    ensures refused { IfErr result (λ why. IfWrong why (all_nodes own (view config.now) ≡ None)) }
{
    let added: List<NodeProp> = parts_or_none(alloc, config.get("nodeProperties"))?;
    full_node_entries(alloc, added.as_slice(), own)
}

/// The entries of the relationships, with what the configuration adds.
///
/// # Errors
/// `Wrong` exactly where what it adds is of a wrong form or makes an entry wrong, or `Mem`.
pub(crate) fn all_rels(
    alloc: Global,
    own: List<WrittenEntry>,
    config: &Value,
) -> Result<List<WrittenEntry>, Fault>
    ensures ok { IfOk result (λ entries. all_rels own (view config.now) ≡ Some entries) }
    ensures refused { IfErr result (λ why. IfWrong why (all_rels own (view config.now) ≡ None)) }
{
    let added: List<WrittenProp> = parts_or_none(alloc, config.get("relationshipProperties"))?;
    full_written_entries(alloc, added.as_slice(), own)
}

// What an entry takes of a node.
ghost use Rattle.std.specs.Prelude.{◌≡◌, option_copied};
ghost use Rattle.std.specs.List.{find, list_any};
ghost use Rattle.std.specs.Str.{bytes_eq};
ghost use Rattle.projection_spec.specs.RawArcs.{takes_node, is_projected};
ghost use Rattle.projection_spec.specs.NativeProjection.{is_of_key, node_value, prop_by, first_prop, value_by};

use graph_model::{Name, Node};
use projection_spec::{NodeEntry, NodeProp, stored_value};

/// Whether a label is among labels.
fn is_listed(labels: &[Name], label: &Name) -> bool
    ensures { result ≡ list_any (bytes_eq label.now) labels.now }
{
    labels.iter().any(|own| label == own)
}

/// Whether an entry takes a node.
pub(crate) fn takes(entry: &NodeEntry, node: &Node) -> bool
    ensures { result ≡ takes_node node.now entry.now }
{
    match &entry.store {
        None => true,
        Some(label) => is_listed(node.labels.as_slice(), label),
    }
}

/// Whether some entry takes a node.
pub(crate) fn is_projected(entries: &[NodeEntry], node: &Node) -> bool
    ensures { result ≡ is_projected entries.now node.now }
{
    entries.iter().any(|entry| takes(entry, node))
}

/// The property of a projected key.
fn prop_under<'a>(props: &'a [NodeProp], key: &Name) -> Option<&'a NodeProp>
    ensures { option_copied result ≡ find (is_of_key key.now) props.now }
{
    props.iter().find(|prop| prop.key == *key)
}

/// The property of an entry under a projected key, where the entry takes the node.
fn prop_by<'a>(entry: &'a NodeEntry, node: &Node, key: &Name) -> Option<&'a NodeProp>
    ensures { option_copied result ≡ prop_by node.now key.now entry.now }
{
    if takes(entry, node) {
        prop_under(entry.props.as_slice(), key)
    } else {
        None
    }
}

/// The property of the first entry that takes the node and has the key.
fn first_prop<'a>(entries: &'a [NodeEntry], node: &Node, key: &Name) -> Option<&'a NodeProp>
    ensures { option_copied result ≡ first_prop entries.now node.now key.now }
{
    for entry in entries {
        if let Some(prop) = prop_by(entry, node, key) {
            return Some(prop);
        }
    }
    None
}

/// The value that a property gives to a node.
fn value_by(node: &Node, prop: &NodeProp) -> i64
    ensures { result ≡ value_by node.now prop.now }
{
    match stored_value(node.props.as_slice(), &prop.store) {
        Some(value) => value,
        None => prop.default.unwrap_or(i64::MIN),
    }
}

/// The value of a node under a projected key.
pub(crate) fn node_value(entries: &[NodeEntry], node: &Node, key: &Name) -> i64
    ensures { result ≡ node_value entries.now node.now key.now }
{
    match first_prop(entries, node, key) {
        Some(prop) => value_by(node, prop),
        None => i64::MIN,
    }
}

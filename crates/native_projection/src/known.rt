// Whether the names of a specification are known.
ghost use Rattle.std.specs.Prelude.{◌≡◌, None, Some, OnOk, IfErr};
ghost use Rattle.graph_model.specs.Refusals.{UnlessMem};
ghost use Rattle.projection_spec.specs.NativeProjection.{first_refused, refused_label, refused_names, refused_node_keys, refused_rel_keys, refused_rel_prop, refused_type, unknown_key, unknown_label, unknown_node_key, unknown_rel_key, unknown_type};

use graph_model::{Name, Refusal, TryClone};
use graph_store::Snapshot;
use projection_spec::{NodeEntry, NodeProp, ProjectSpec, RelEntry, RelProp};

/// Whether a label is known; each is where none is asked for.
fn label_known(from: &Snapshot, label: &Option<Name>) -> Result<(), Refusal>
    ensures ok { OnOk result (unknown_label from.now label.now ≡ None) }
    ensures refused { IfErr result (λ why. UnlessMem why (unknown_label from.now label.now ≡ Some why)) }
{
    if let Some(label) = label {
        if !from.knows_label(label) {
            return Err(Refusal::NoSuchLabel {
                label: label.try_clone()?,
            });
        }
    }
    Ok(())
}

/// Whether a type is known; each is where none is asked for.
fn type_known(from: &Snapshot, kind: &Option<Name>) -> Result<(), Refusal>
    ensures ok { OnOk result (unknown_type from.now kind.now ≡ None) }
    ensures refused { IfErr result (λ why. UnlessMem why (unknown_type from.now kind.now ≡ Some why)) }
{
    if let Some(kind) = kind {
        if !from.knows_type(kind) {
            return Err(Refusal::NoSuchType {
                rel_type: kind.try_clone()?,
            });
        }
    }
    Ok(())
}

/// Whether a key may be asked for: it is known, or there is a default.
fn key_known(known: bool, default: Option<i64>, key: &Name) -> Result<(), Refusal>
    ensures ok { OnOk result (unknown_key known default key.now ≡ None) }
    ensures refused { IfErr result (λ why. UnlessMem why (unknown_key known default key.now ≡ Some why)) }
{
    match default {
        Some(_) => Ok(()),
        None if known => Ok(()),
        None => Err(Refusal::NoSuchProperty {
            key: key.try_clone()?,
        }),
    }
}

/// Whether the key of a property of nodes is known.
fn node_key_known(from: &Snapshot, prop: &NodeProp) -> Result<(), Refusal>
    ensures ok { OnOk result (unknown_node_key from.now prop.now ≡ None) }
    ensures refused { IfErr result (λ why. UnlessMem why (unknown_node_key from.now prop.now ≡ Some why)) }
{
    key_known(from.knows_node_key(&prop.store), prop.default, &prop.store)
}

/// Whether the key of a property of relationships is known; it is where relationships are counted whatever they store.
fn rel_key_known(from: &Snapshot, prop: &RelProp) -> Result<(), Refusal>
    ensures ok { OnOk result (refused_rel_prop from.now prop.now ≡ None) }
    ensures refused { IfErr result (λ why. UnlessMem why (refused_rel_prop from.now prop.now ≡ Some why)) }
{
    match &prop.store {
        Some(key) => key_known(from.knows_rel_key(key), prop.default, key),
        None => Ok(()),
    }
}

/// Whether the labels of all entries are known.
fn labels_known(from: &Snapshot, entries: &[NodeEntry]) -> Result<(), Refusal>
    ensures ok { OnOk result (first_refused (refused_label from.now) entries.now ≡ None) }
    ensures refused { IfErr result (λ why. UnlessMem why (first_refused (refused_label from.now) entries.now ≡ Some why)) }
{
    for entry in entries {
        match label_known(from, &entry.store) {
            Ok(()) => {}
            Err(why) => return Err(why),
        }
    }
    Ok(())
}

/// Whether the types of all entries are known.
fn types_known(from: &Snapshot, entries: &[RelEntry]) -> Result<(), Refusal>
    ensures ok { OnOk result (first_refused (refused_type from.now) entries.now ≡ None) }
    ensures refused { IfErr result (λ why. UnlessMem why (first_refused (refused_type from.now) entries.now ≡ Some why)) }
{
    for entry in entries {
        match type_known(from, &entry.store) {
            Ok(()) => {}
            Err(why) => return Err(why),
        }
    }
    Ok(())
}

/// Whether the keys of an entry are known.
fn entry_keys_known(from: &Snapshot, entry: &NodeEntry) -> Result<(), Refusal>
    ensures ok { OnOk result (refused_node_keys from.now entry.now ≡ None) }
    ensures refused { IfErr result (λ why. UnlessMem why (refused_node_keys from.now entry.now ≡ Some why)) }
{
    for prop in entry.props.as_slice() {
        match node_key_known(from, prop) {
            Ok(()) => {}
            Err(why) => return Err(why),
        }
    }
    Ok(())
}

/// Whether the keys of all entries of nodes are known.
fn node_keys_known(from: &Snapshot, entries: &[NodeEntry]) -> Result<(), Refusal>
    ensures ok { OnOk result (first_refused (refused_node_keys from.now) entries.now ≡ None) }
    ensures refused { IfErr result (λ why. UnlessMem why (first_refused (refused_node_keys from.now) entries.now ≡ Some why)) }
{
    for entry in entries {
        match entry_keys_known(from, entry) {
            Ok(()) => {}
            Err(why) => return Err(why),
        }
    }
    Ok(())
}

/// Whether these keys of relationships are known.
fn props_known(from: &Snapshot, props: &[RelProp]) -> Result<(), Refusal>
    ensures ok { OnOk result (first_refused (refused_rel_prop from.now) props.now ≡ None) }
    ensures refused { IfErr result (λ why. UnlessMem why (first_refused (refused_rel_prop from.now) props.now ≡ Some why)) }
{
    for prop in props {
        match rel_key_known(from, prop) {
            Ok(()) => {}
            Err(why) => return Err(why),
        }
    }
    Ok(())
}

/// Whether the keys of all entries of relationships are known.
fn rel_keys_known(from: &Snapshot, entries: &[RelEntry]) -> Result<(), Refusal>
    ensures ok { OnOk result (first_refused (refused_rel_keys from.now) entries.now ≡ None) }
    ensures refused { IfErr result (λ why. UnlessMem why (first_refused (refused_rel_keys from.now) entries.now ≡ Some why)) }
{
    for entry in entries {
        match props_known(from, entry.props.as_slice()) {
            Ok(()) => {}
            Err(why) => return Err(why),
        }
    }
    Ok(())
}

/// Whether the names of a specification are known: labels, then types, then keys of nodes, then keys of relationships.
///
/// # Errors
/// `NoSuchLabel`, `NoSuchType` or `NoSuchProperty` with the first name that isn't known, or `Mem`.
pub(crate) fn names_known(from: &Snapshot, spec: &ProjectSpec) -> Result<(), Refusal>
    ensures ok { OnOk result (refused_names spec.now from.now ≡ None) }
    ensures refused { IfErr result (λ why. UnlessMem why (refused_names spec.now from.now ≡ Some why)) }
{
    match labels_known(from, spec.nodes.as_slice()) {
        Ok(()) => {}
        Err(why) => return Err(why),
    }
    match types_known(from, spec.rels.as_slice()) {
        Ok(()) => {}
        Err(why) => return Err(why),
    }
    match node_keys_known(from, spec.nodes.as_slice()) {
        Ok(()) => {}
        Err(why) => return Err(why),
    }
    rel_keys_known(from, spec.rels.as_slice())
}

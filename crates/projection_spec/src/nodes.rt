// The side of the nodes.
ghost use Rattle.std.specs.Prelude.{◌≡◌, Some, None, IfOk, IfErr};
ghost use Rattle.serde_json.specs.View.{view};
ghost use Rattle.json_forms.specs.Faults.{IfWrong};
ghost use Rattle.projection_spec.specs.Written.{node_entries};

use crate::entries::{NodeEntry, NodeProp};
use crate::fields::{fits_fields, main_field};
use crate::part::{Part, parts_of};
use crate::settings::{name_or, parts_or_none, store_or};
use crate::words::projected_entry;
use graph_model::{List, Name};
use json_forms::{Fault, given, name_of};
use serde_json::Value;
use std::alloc::Global;

impl Part for NodeProp {
    ghost use Rattle.projection_spec.specs.Words.{projected_key};
    ghost use Rattle.projection_spec.specs.Written.{node_prop, node_key};

    ghost projects = { projected_key };

    ghost reads = { node_prop };

    ghost called = { node_key };

    fn projected(text: &str) -> &str {
        text
    }

    fn of(alloc: Global, name: &str, value: &Value) -> Result<NodeProp, Fault> {
        if !fits_fields(value, &["property", "defaultValue"]) {
            return Err(Fault::Wrong);
        }
        let key = name_of(alloc, name)?;
        let store = name_or(alloc, main_field(value, "property"), &key)?;
        let default = given(alloc, value.get("defaultValue"))?;
        Ok(NodeProp {
            key,
            store,
            default,
        })
    }

    fn name(&self) -> &Name {
        &self.key
    }
}

impl Part for NodeEntry {
    ghost use Rattle.projection_spec.specs.Words.{projected_entry};
    ghost use Rattle.projection_spec.specs.Written.{node_entry, node_label};

    ghost projects = { projected_entry };

    ghost reads = { node_entry };

    ghost called = { node_label };

    fn projected(text: &str) -> &str {
        projected_entry(text)
    }

    fn of(alloc: Global, name: &str, value: &Value) -> Result<NodeEntry, Fault> {
        if !fits_fields(value, &["label", "properties"]) {
            return Err(Fault::Wrong);
        }
        let label = name_of(alloc, name)?;
        let store = store_or(alloc, main_field(value, "label"), &label)?;
        let props = parts_or_none(alloc, value.get("properties"))?;
        Ok(NodeEntry {
            label,
            store,
            props,
        })
    }

    fn name(&self) -> &Name {
        &self.label
    }
}

/// The entries of the nodes that a value gives, in ascending order of their labels.
///
/// # Errors
/// `Wrong` exactly where the value or a part of it is of a wrong form, or `Mem`.
pub(crate) fn node_entries(alloc: Global, value: &Value) -> Result<List<NodeEntry>, Fault>
    ensures ok { IfOk result (λ entries. node_entries (view value.now) ≡ Some entries) }
    ensures refused { IfErr result (λ why. IfWrong why (node_entries (view value.now) ≡ None)) }
{
    let entries: List<NodeEntry> = parts_of(alloc, value)?;
    if entries.is_empty() {
        return Err(Fault::Wrong);
    }
    Ok(entries)
}

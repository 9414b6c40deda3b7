// The side of the relationships.
ghost use Rattle.std.specs.Prelude.{◌≡◌, Some, None, IfOk, IfErr};
ghost use Rattle.std.specs.List.{list_all};
ghost use Rattle.serde_json.specs.View.{view};
ghost use Rattle.json_forms.specs.Faults.{IfWrong};
ghost use Rattle.projection_spec.specs.Written.{rule_in, is_count, has_source, with_sources, written_entries};

use crate::entries::Rule;
use crate::fields::{fits_fields, main_field};
use crate::part::{Part, parts_of};
use crate::settings::{orientation_or_natural, parts_or_none, store_or};
use crate::words::projected_entry;
use crate::written::{WrittenEntry, WrittenProp};
use graph_model::{List, Name};
use json_forms::{Fault, given, name_of};
use serde_json::Value;
use std::alloc::Global;

impl Part for WrittenProp {
    ghost use Rattle.projection_spec.specs.Words.{projected_key};
    ghost use Rattle.projection_spec.specs.Written.{written_prop, written_key};

    ghost projects = { projected_key };

    ghost reads = { written_prop };

    ghost called = { written_key };

    fn projected(text: &str) -> &str {
        text
    }

    fn of(alloc: Global, name: &str, value: &Value) -> Result<WrittenProp, Fault> {
        if !fits_fields(value, &["property", "defaultValue", "aggregation"]) {
            return Err(Fault::Wrong);
        }
        let key = name_of(alloc, name)?;
        let store = store_or(alloc, main_field(value, "property"), &key)?;
        let default = given(alloc, value.get("defaultValue"))?;
        let aggregation = given(alloc, value.get("aggregation"))?;
        Ok(WrittenProp {
            key,
            store,
            default,
            aggregation,
        })
    }

    fn name(&self) -> &Name {
        &self.key
    }
}

impl Part for WrittenEntry {
    ghost use Rattle.projection_spec.specs.Words.{projected_entry};
    ghost use Rattle.projection_spec.specs.Written.{written_entry, written_kind};

    ghost projects = { projected_entry };

    ghost reads = { written_entry };

    ghost called = { written_kind };

    fn projected(text: &str) -> &str {
        projected_entry(text)
    }

    fn of(alloc: Global, name: &str, value: &Value) -> Result<WrittenEntry, Fault> {
        if !fits_fields(value, &["type", "orientation", "aggregation", "properties"]) {
            return Err(Fault::Wrong);
        }
        let kind = name_of(alloc, name)?;
        let store = store_or(alloc, main_field(value, "type"), &kind)?;
        let orientation = orientation_or_natural(value.get("orientation"))?;
        let aggregation = given(alloc, value.get("aggregation"))?;
        let props = parts_or_none(alloc, value.get("properties"))?;
        with_sources(WrittenEntry {
            kind,
            store,
            orientation,
            aggregation,
            props,
        })
    }

    fn name(&self) -> &Name {
        &self.kind
    }
}

/// The rule of a key: by its own aggregation, or else by its entry's, or else none groups.
pub(crate) fn rule_in(aggregation: Option<Rule>, prop: &WrittenProp) -> Rule
    ensures { result ≡ rule_in aggregation prop.now }
{
    prop.aggregation.or(aggregation).unwrap_or(Rule::Keep)
}

fn is_count(rule: Rule) -> bool
    ensures { result ≡ is_count rule }
{
    matches!(rule, Rule::Count)
}

// Whether a key has a key of the store, or else counts.
fn has_source(aggregation: Option<Rule>, prop: &WrittenProp) -> bool
    ensures { result ≡ has_source aggregation prop.now }
{
    prop.store.is_some() || is_count(rule_in(aggregation, prop))
}

fn all_have_source(aggregation: Option<Rule>, props: &[WrittenProp]) -> bool
    ensures { result ≡ list_all (has_source aggregation) props.now }
{
    for prop in props {
        if !has_source(aggregation, prop) {
            return false;
        }
    }
    true
}

/// An entry each of whose keys has a key of the store, or else counts.
///
/// # Errors
/// `Wrong` exactly where some key doesn't.
pub(crate) fn with_sources(entry: WrittenEntry) -> Result<WrittenEntry, Fault>
    ensures ok { IfOk result (λ same. with_sources entry ≡ Some same) }
    ensures refused { IfErr result (λ why. IfWrong why (with_sources entry ≡ None)) }
{
    if !all_have_source(entry.aggregation, entry.props.as_slice()) {
        return Err(Fault::Wrong);
    }
    Ok(entry)
}

/// The entries of the relationships that a value gives, as they are written, in ascending order of their types.
///
/// # Errors
/// `Wrong` exactly where the value or a part of it is of a wrong form, or `Mem`.
pub(crate) fn written_entries(alloc: Global, value: &Value) -> Result<List<WrittenEntry>, Fault>
    ensures ok { IfOk result (λ entries. written_entries (view value.now) ≡ Some entries) }
    ensures refused { IfErr result (λ why. IfWrong why (written_entries (view value.now) ≡ None)) }
{
    let entries: List<WrittenEntry> = parts_of(alloc, value)?;
    if entries.is_empty() {
        return Err(Fault::Wrong);
    }
    Ok(entries)
}

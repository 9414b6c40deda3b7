// Relationship entries with their rules.
ghost use Rattle.std.specs.Prelude.{◌≡◌, map, false, Some, None, IfOk, IfErr, find};
ghost use Rattle.std.specs.List.{AllByRecursion, list_any};
ghost use Rattle.std.specs.Option.{option_map_or};
ghost use Rattle.graph_model.specs.Refusals.{UnlessMem};
ghost use Rattle.projection_spec.specs.Written.{rule_in, HasSources};
ghost use Rattle.projection_spec.specs.Projected.{is_keep, is_grouping, some_rule, is_grouped, is_mixed, mixed_in, settled_prop, settled_entry};

use crate::entries::{RelEntry, RelProp, Rule};
use crate::rels::rule_in;
use crate::written::{WrittenEntry, WrittenProp};
use graph_model::{List, Mem, Refusal};
use std::alloc::Global;

fn is_keep(rule: Rule) -> bool
    ensures { result ≡ is_keep rule }
{
    matches!(rule, Rule::Keep)
}

fn is_grouping(rule: Rule) -> bool
    ensures { result ≡ is_grouping rule }
{
    !is_keep(rule)
}

// Whether the aggregation that is given keeps each arc.
fn is_given_keep(aggregation: Option<Rule>) -> bool
    ensures { result ≡ option_map_or is_keep aggregation false }
{
    match aggregation {
        Some(rule) => is_keep(rule),
        None => false,
    }
}

// Whether the aggregation that is given makes groups.
fn is_given_grouping(aggregation: Option<Rule>) -> bool
    ensures { result ≡ option_map_or is_grouping aggregation false }
{
    match aggregation {
        Some(rule) => is_grouping(rule),
        None => false,
    }
}

// Whether some key keeps each arc.
fn has_keep(aggregation: Option<Rule>, props: &[WrittenProp]) -> bool
    ensures { result ≡ list_any is_keep (map (rule_in aggregation) props.now) }
{
    for prop in props {
        if is_keep(rule_in(aggregation, prop)) {
            return true;
        }
    }
    false
}

// Whether some key makes groups.
fn has_grouping(aggregation: Option<Rule>, props: &[WrittenProp]) -> bool
    ensures { result ≡ list_any is_grouping (map (rule_in aggregation) props.now) }
{
    for prop in props {
        if is_grouping(rule_in(aggregation, prop)) {
            return true;
        }
    }
    false
}

// Whether an entry makes groups.
fn is_grouped(entry: &WrittenEntry) -> bool
    ensures { result ≡ is_grouped entry.now }
{
    is_given_grouping(entry.aggregation) || has_grouping(entry.aggregation, entry.props.as_slice())
}

// Whether an entry keeps each arc and makes groups at once.
fn is_mixed(entry: &WrittenEntry) -> bool
    ensures { result ≡ is_mixed entry.now }
{
    is_grouped(entry)
        && (is_given_keep(entry.aggregation) || has_keep(entry.aggregation, entry.props.as_slice()))
}

// Keys with their rules.
fn settled_props(
    alloc: Global,
    aggregation: Option<Rule>,
    props: List<WrittenProp>,
) -> Result<List<RelProp>, Mem>
    ensures { IfOk result (λ settled. settled ≡ map (settled_prop aggregation) props) }
{
    let mut settled = List::new(alloc);
    for prop in props.into_vec() {
        let rule = rule_in(aggregation, &prop);
        settled.push(RelProp {
            key: prop.key,
            store: prop.store,
            default: prop.default,
            rule,
        })?;
    }
    Ok(settled)
}

// An entry with its rules.
fn settled_entry(alloc: Global, entry: WrittenEntry) -> Result<RelEntry, Mem>
    requires sources { HasSources entry }
    requires settles { is_mixed entry ≡ false }
    ensures { IfOk result (λ settled. settled ≡ settled_entry entry) }
{
    let grouped = is_grouped(&entry);
    let props = settled_props(alloc, entry.aggregation, entry.props)?;
    Ok(RelEntry {
        kind: entry.kind,
        store: entry.store,
        orientation: entry.orientation,
        grouped,
        props,
    })
}

/// Entries with their rules.
///
/// # Errors
/// `MixedAggregation` exactly where some entry keeps each arc and makes groups at once, with the first such type, or `Mem`.
pub(crate) fn settled_entries(
    alloc: Global,
    entries: List<WrittenEntry>,
) -> Result<List<RelEntry>, Refusal>
    requires { AllByRecursion HasSources entries }
    ensures ok { IfOk result (λ settled. (settled ≡ map settled_entry entries) × (mixed_in entries ≡ None)) }
    ensures refused { IfErr result (λ why. UnlessMem why (mixed_in entries ≡ Some why)) }
{
    let mut settled = List::new(alloc);
    for entry in entries.into_vec() {
        if is_mixed(&entry) {
            return Err(Refusal::MixedAggregation {
                rel_type: entry.kind,
            });
        }
        settled.push(settled_entry(alloc, entry)?)?;
    }
    Ok(settled)
}

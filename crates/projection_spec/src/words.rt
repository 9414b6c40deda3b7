// Words of a projection.
ghost use Rattle.std.specs.Prelude.{◌≡◌, Some, None, IfOk, IfErr, codes};
ghost use Rattle.serde_json.specs.View.{view};
ghost use Rattle.json_forms.specs.Faults.{IfWrong};
ghost use Rattle.projection_spec.specs.Words.{projected_entry, orientation_of, aggregation_of, read_orientation};

use crate::entries::Rule;
use graph_model::Orientation;
use json_forms::{Fault, Form};
use serde_json::Value;
use std::alloc::Global;

/// The projected label or type of a text in a list.
pub(crate) fn projected_entry(text: &str) -> &str
    ensures { result.now ≡ projected_entry text.now }
{
    if text == "*" { "__ALL__" } else { text }
}

fn orientation_of(text: &str) -> Option<Orientation>
    ensures { result ≡ orientation_of text.now }
{
    if text.eq_ignore_ascii_case("NATURAL") {
        Some(Orientation::Natural)
    } else if text.eq_ignore_ascii_case("REVERSE") {
        Some(Orientation::Reverse)
    } else if text.eq_ignore_ascii_case("UNDIRECTED") {
        Some(Orientation::Undirected)
    } else {
        None
    }
}

fn aggregation_of(text: &str) -> Option<Rule>
    ensures { result ≡ aggregation_of text.now }
{
    if text.eq_ignore_ascii_case("NONE") {
        Some(Rule::Keep)
    } else if text.eq_ignore_ascii_case("SINGLE") {
        Some(Rule::Single)
    } else if text.eq_ignore_ascii_case("COUNT") {
        Some(Rule::Count)
    } else if text.eq_ignore_ascii_case("MIN") {
        Some(Rule::Min)
    } else if text.eq_ignore_ascii_case("MAX") {
        Some(Rule::Max)
    } else if text.eq_ignore_ascii_case("SUM") {
        Some(Rule::Sum)
    } else {
        None
    }
}

/// A value as the word of an orientation.
pub(crate) fn read_orientation(value: &Value) -> Result<Orientation, Fault>
    ensures ok { IfOk result (λ orientation. read_orientation (view value.now) ≡ Some orientation) }
    ensures refused { IfErr result (λ why. IfWrong why (read_orientation (view value.now) ≡ None)) }
{
    match value.as_str().and_then(orientation_of) {
        Some(orientation) => Ok(orientation),
        None => Err(Fault::Wrong),
    }
}

impl Form for Rule {
    ghost use Rattle.projection_spec.specs.Words.{read_aggregation};

    ghost reads = { read_aggregation };

    ghost is_formed = { λ rule. Unit {0} };

    fn read(_alloc: Global, value: &Value) -> Result<Rule, Fault> {
        match value.as_str().and_then(aggregation_of) {
            Some(rule) => Ok(rule),
            None => Err(Fault::Wrong),
        }
    }
}

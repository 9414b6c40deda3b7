// What the fields of an object say, and which names they have.
ghost use Rattle.std.specs.Prelude.{◌≡◌, [], map, Some, None, IfOk, IfErr, option_map, option_and_then};
ghost use Rattle.std.specs.Option.{ForSome};
ghost use Rattle.std.specs.List.{AllByRecursion};
ghost use Rattle.serde_json.specs.View.{view, members_view};
ghost use Rattle.graph_model.specs.Projection.{is_among};
ghost use Rattle.json_forms.specs.Faults.{IfWrong};
ghost use Rattle.json_forms.specs.Fields.{given, field_or, has_only_fields, has_only};
ghost use Rattle.json_forms.specs.Forms.{read_list};

use crate::fault::Fault;
use crate::form::Form;
use graph_model::List;
use serde_json::{Map, Value};
use std::alloc::Global;

/// What a field says, or none where it isn't there.
///
/// # Errors
/// `Wrong` exactly where it is there and of another form, or `Mem`.
pub fn given<T: Form>(alloc: Global, said: Option<&Value>) -> Result<Option<T>, Fault>
    ensures ok { IfOk result (λ part. given T.reads (option_map (λ value. view value.now) said.entry) ≡ Some part) }
    ensures formed { IfOk result (λ part. ForSome part T.is_formed) }
    ensures refused { IfErr result (λ why. IfWrong why (given T.reads (option_map (λ value. view value.now) said.entry) ≡ None)) }
{
    match said {
        Some(value) => {
            let part = T::read(alloc, value)?;
            Ok(Some(part))
        }
        None => Ok(None),
    }
}

/// What a field says that must be there.
///
/// # Errors
/// `Wrong` exactly where it isn't there or is of another form, or `Mem`.
pub fn needed<T: Form>(alloc: Global, said: Option<&Value>) -> Result<T, Fault>
    ensures ok { IfOk result (λ part. option_and_then T.reads (option_map (λ value. view value.now) said.entry) ≡ Some part) }
    ensures formed { IfOk result (λ part. T.is_formed part) }
    ensures refused { IfErr result (λ why. IfWrong why (option_and_then T.reads (option_map (λ value. view value.now) said.entry) ≡ None)) }
{
    match said {
        Some(value) => T::read(alloc, value),
        None => Err(Fault::Wrong),
    }
}

/// What a field says that is a list; it is empty where the field isn't there.
///
/// # Errors
/// `Wrong` exactly where it is there and of another form, or `Mem`.
pub fn list_said<T: Form>(alloc: Global, said: Option<&Value>) -> Result<List<T>, Fault>
    ensures ok { IfOk result (λ parts. field_or (read_list T.reads) [] (option_map (λ value. view value.now) said.entry) ≡ Some parts) }
    ensures formed { IfOk result (λ parts. AllByRecursion T.is_formed parts) }
    ensures refused { IfErr result (λ why. IfWrong why (field_or (read_list T.reads) [] (option_map (λ value. view value.now) said.entry) ≡ None)) }
{
    match said {
        Some(value) => Form::read(alloc, value),
        None => Ok(List::new(alloc)),
    }
}

fn is_among(names: &[&str], text: &str) -> bool
    ensures { result ≡ is_among (map (λ name. name.now) names.now) text.now }
{
    for name in names {
        if text == *name {
            return true;
        }
    }
    false
}

/// Whether an object has no other fields than these.
pub fn has_only_fields(fields: &Map<String, Value>, names: &[&str]) -> bool
    ensures { result ≡ has_only_fields (map (λ name. name.now) names.now) (members_view fields.now.entries) }
{
    for (name, _) in fields {
        if !is_among(names, name.as_str()) {
            return false;
        }
    }
    true
}

/// Whether a value is an object with no other fields than these.
pub fn has_only(value: &Value, names: &[&str]) -> bool
    ensures { result ≡ has_only (map (λ name. name.now) names.now) (view value.now) }
{
    match value {
        Value::Object(fields) => has_only_fields(fields, names),
        _ => false,
    }
}

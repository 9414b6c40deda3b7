// Single texts and numbers, and pairs of them.
ghost use Rattle.std.specs.Prelude.{◌≡◌, Some, None, IfOk, IfErr};
ghost use Rattle.serde_json.specs.View.{view, items_view};
ghost use Rattle.json_forms.specs.Faults.{IfWrong};
ghost use Rattle.json_forms.specs.Forms.{name_of, tag_of, read_id, read_whole, pair_of};

use crate::fault::Fault;
use crate::form::Form;
use graph_model::{Name, Tag};
use serde_json::Value;
use std::alloc::Global;

/// A text as a name.
///
/// # Errors
/// `Wrong` exactly where the text is no name, or `Mem`.
pub fn name_of(alloc: Global, text: &str) -> Result<Name, Fault>
    ensures ok { IfOk result (λ name. name_of text.now ≡ Some name) }
    ensures refused { IfErr result (λ why. IfWrong why (name_of text.now ≡ None)) }
{
    Ok(Name::parse(alloc, text.as_bytes())?)
}

// A text as a tag.
fn tag_of(alloc: Global, text: &str) -> Result<Tag, Fault>
    ensures ok { IfOk result (λ tag. tag_of text.now ≡ Some tag) }
    ensures refused { IfErr result (λ why. IfWrong why (tag_of text.now ≡ None)) }
{
    Ok(Tag::parse(alloc, text.as_bytes())?)
}

impl Form for Name {
    ghost use Rattle.json_forms.specs.Forms.{read_name};

    ghost reads = { read_name };

    ghost is_formed = { λ name. Unit {0} };

    fn read(alloc: Global, value: &Value) -> Result<Name, Fault> {
        match value.as_str() {
            Some(text) => name_of(alloc, text),
            None => Err(Fault::Wrong),
        }
    }
}

impl Form for Tag {
    ghost use Rattle.json_forms.specs.Forms.{read_tag};

    ghost reads = { read_tag };

    ghost is_formed = { λ tag. Unit {0} };

    fn read(alloc: Global, value: &Value) -> Result<Tag, Fault> {
        match value.as_str() {
            Some(text) => tag_of(alloc, text),
            None => Err(Fault::Wrong),
        }
    }
}

/// A value as an id.
///
/// # Errors
/// `Wrong` exactly where the value is no whole number from 0 to 4,294,967,295.
pub fn read_id(value: &Value) -> Result<u32, Fault>
    ensures ok { IfOk result (λ id. read_id (view value.now) ≡ Some id) }
    ensures refused { IfErr result (λ why. IfWrong why (read_id (view value.now) ≡ None)) }
{
    match value.as_u64() {
        Some(number) if number <= u64::from(u32::MAX) => Ok(number as u32),
        _ => Err(Fault::Wrong),
    }
}

/// A value as a whole number.
///
/// # Errors
/// `Wrong` exactly where the value is no whole number of `i64`.
pub fn read_whole(value: &Value) -> Result<i64, Fault>
    ensures ok { IfOk result (λ number. read_whole (view value.now) ≡ Some number) }
    ensures refused { IfErr result (λ why. IfWrong why (read_whole (view value.now) ≡ None)) }
{
    match value.as_i64() {
        Some(number) => Ok(number),
        None => Err(Fault::Wrong),
    }
}

impl Form for u32 {
    ghost use Rattle.json_forms.specs.Forms.{read_id};

    ghost reads = { read_id };

    ghost is_formed = { λ id. Unit {0} };

    fn read(_alloc: Global, value: &Value) -> Result<u32, Fault> {
        read_id(value)
    }
}

impl Form for i64 {
    ghost use Rattle.json_forms.specs.Forms.{read_whole};

    ghost reads = { read_whole };

    ghost is_formed = { λ number. Unit {0} };

    fn read(_alloc: Global, value: &Value) -> Result<i64, Fault> {
        read_whole(value)
    }
}

// Items as an id and a value.
fn pair_of(items: &[Value]) -> Result<(u32, i64), Fault>
    ensures ok { IfOk result (λ pair. pair_of (items_view items.now) ≡ Some pair) }
    ensures refused { IfErr result (λ why. IfWrong why (pair_of (items_view items.now) ≡ None)) }
{
    match items {
        [id, value] => {
            let id = read_id(id)?;
            let value = read_whole(value)?;
            Ok((id, value))
        }
        _ => Err(Fault::Wrong),
    }
}

impl Form for (u32, i64) {
    ghost use Rattle.json_forms.specs.Forms.{read_pair};

    ghost reads = { read_pair };

    ghost is_formed = { λ pair. Unit {0} };

    fn read(_alloc: Global, value: &Value) -> Result<(u32, i64), Fault> {
        match value {
            Value::Array(items) => pair_of(items),
            _ => Err(Fault::Wrong),
        }
    }
}

// Choices of labels.
ghost use Rattle.std.specs.Prelude.{◌≡◌, Some, None, IfOk, IfErr};
ghost use Rattle.serde_json.specs.View.{view};
ghost use Rattle.json_forms.specs.Faults.{IfWrong};
ghost use Rattle.json_forms.specs.Forms.{chosen_of, chosen_items, choice_of};

use crate::fault::Fault;
use crate::form::{Form, read_items};
use crate::single::name_of;
use graph_model::{Choice, List, Mem, Name};
use serde_json::Value;
use std::alloc::Global;
use std::slice;

// A text as an item of a choice: none for `*`, or a name.
fn chosen_of(alloc: Global, text: &str) -> Result<Option<Name>, Fault>
    ensures ok { IfOk result (λ chosen. chosen_of text.now ≡ Some chosen) }
    ensures refused { IfErr result (λ why. IfWrong why (chosen_of text.now ≡ None)) }
{
    if text == "*" {
        return Ok(None);
    }
    let name = name_of(alloc, text)?;
    Ok(Some(name))
}

impl Form for Option<Name> {
    ghost use Rattle.json_forms.specs.Forms.{read_chosen};

    ghost reads = { read_chosen };

    ghost is_formed = { λ chosen. Unit {0} };

    fn read(alloc: Global, value: &Value) -> Result<Option<Name>, Fault> {
        match value.as_str() {
            Some(text) => chosen_of(alloc, text),
            None => Err(Fault::Wrong),
        }
    }
}

// The items of a choice; a text stands for a list of one.
fn chosen_items(alloc: Global, value: &Value) -> Result<List<Option<Name>>, Fault>
    ensures ok { IfOk result (λ chosen. chosen_items (view value.now) ≡ Some chosen) }
    ensures refused { IfErr result (λ why. IfWrong why (chosen_items (view value.now) ≡ None)) }
{
    match value {
        Value::String(_) => read_items(alloc, slice::from_ref(value)),
        Value::Array(items) => read_items(alloc, items),
        _ => Err(Fault::Wrong),
    }
}

// What items choose: everything where one of them is `*`, or else their names.
fn choice_of(alloc: Global, chosen: List<Option<Name>>) -> Result<Choice, Mem>
    ensures { IfOk result (λ choice. choice ≡ choice_of chosen) }
{
    let mut names = List::new(alloc);
    for item in chosen.into_vec() {
        let Some(name) = item else {
            return Ok(Choice::All);
        };
        names.push(name)?;
    }
    Ok(Choice::Of(names))
}

impl Form for Choice {
    ghost use Rattle.json_forms.specs.Forms.{read_choice};

    ghost reads = { read_choice };

    ghost is_formed = { λ choice. Unit {0} };

    fn read(alloc: Global, value: &Value) -> Result<Choice, Fault> {
        let chosen = chosen_items(alloc, value)?;
        if chosen.is_empty() {
            return Err(Fault::Wrong);
        }
        Ok(choice_of(alloc, chosen)?)
    }
}

// What single fields say, or stand for where they aren't there.
ghost use Rattle.std.specs.Prelude.{◌≡◌, [], Some, None, IfOk, IfErr};
ghost use Rattle.std.specs.Option.{option_map};
ghost use Rattle.serde_json.specs.View.{view};
ghost use Rattle.graph_model.specs.declared.graph.Orientation.TheVariants.{Natural};
ghost use Rattle.json_forms.specs.Faults.{IfWrong};
ghost use Rattle.json_forms.specs.Fields.{field_or};
ghost use Rattle.json_forms.specs.Forms.{read_name, read_chosen};
ghost use Rattle.projection_spec.specs.Given.{parts_of};
ghost use Rattle.projection_spec.specs.Words.{read_orientation};

use crate::part::{Part, parts_of};
use crate::words::read_orientation;
use graph_model::{List, Name, Orientation, TryClone};
use json_forms::{Fault, Form};
use serde_json::Value;
use std::alloc::Global;

/// A name, or the default.
pub(crate) fn name_or(alloc: Global, said: Option<&Value>, default: &Name) -> Result<Name, Fault>
    ensures ok { IfOk result (λ name. field_or read_name default.now (option_map (λ value. view value.now) said.entry) ≡ Some name) }
    ensures refused { IfErr result (λ why. IfWrong why (field_or read_name default.now (option_map (λ value. view value.now) said.entry) ≡ None)) }
{
    match said {
        Some(value) => Form::read(alloc, value),
        None => Ok(default.try_clone()?),
    }
}

/// A name of the store or `*`, or the default as a name of the store.
pub(crate) fn store_or(
    alloc: Global,
    said: Option<&Value>,
    default: &Name,
) -> Result<Option<Name>, Fault>
    ensures ok { IfOk result (λ store. field_or read_chosen (Some default.now) (option_map (λ value. view value.now) said.entry) ≡ Some store) }
    ensures refused { IfErr result (λ why. IfWrong why (field_or read_chosen (Some default.now) (option_map (λ value. view value.now) said.entry) ≡ None)) }
{
    match said {
        Some(value) => Form::read(alloc, value),
        None => Ok(Some(default.try_clone()?)),
    }
}

/// An orientation, or the natural one.
pub(crate) fn orientation_or_natural(said: Option<&Value>) -> Result<Orientation, Fault>
    ensures ok { IfOk result (λ orientation. field_or read_orientation Natural (option_map (λ value. view value.now) said.entry) ≡ Some orientation) }
    ensures refused { IfErr result (λ why. IfWrong why (field_or read_orientation Natural (option_map (λ value. view value.now) said.entry) ≡ None)) }
{
    match said {
        Some(value) => read_orientation(value),
        None => Ok(Orientation::Natural),
    }
}

/// The parts that a value gives, or none.
pub(crate) fn parts_or_none<T: Part>(alloc: Global, said: Option<&Value>) -> Result<List<T>, Fault>
    ensures ok { IfOk result (λ parts. field_or (parts_of T.projects T.reads T.called) [] (option_map (λ value. view value.now) said.entry) ≡ Some parts) }
    ensures refused { IfErr result (λ why. IfWrong why (field_or (parts_of T.projects T.reads T.called) [] (option_map (λ value. view value.now) said.entry) ≡ None)) }
{
    match said {
        Some(value) => parts_of(alloc, value),
        None => Ok(List::new(alloc)),
    }
}

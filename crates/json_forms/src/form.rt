// Values of JSON that have a form, and lists of them.
ghost use Rattle.std.specs.Prelude.{◌≡◌, Option, Some, None, IfOk, IfErr};
ghost use Rattle.std.specs.List.{AllByRecursion};
ghost use Rattle.serde_json.specs.Data.{Data};
ghost use Rattle.serde_json.specs.View.{view, items_view};
ghost use Rattle.json_forms.specs.Faults.{IfWrong};
ghost use Rattle.json_forms.specs.Forms.{read_items};

use crate::fault::Fault;
use graph_model::List;
use serde_json::Value;
use std::alloc::Global;

/// What a value of JSON of one form means.
pub trait Form: Drop + Sized {
    /// What is read of a value.
    ghost reads: { Data → Option Self };

    /// What holds of all that is read.
    ghost is_formed: { Self → Type 0 };

    /// What a value means.
    ///
    /// # Errors
    /// `Wrong` exactly where the value is of another form, or `Mem`.
    fn read(alloc: Global, value: &Value) -> Result<Self, Fault>
        ensures ok { IfOk result (λ part. reads (view value.now) ≡ Some part) }
        ensures formed { IfOk result (λ part. is_formed part) }
        ensures refused { IfErr result (λ why. IfWrong why (reads (view value.now) ≡ None)) };
}

/// What items mean that all have one form, in their order.
///
/// # Errors
/// `Wrong` exactly where one of them is of another form, or `Mem`.
pub fn read_items<T: Form>(alloc: Global, items: &[Value]) -> Result<List<T>, Fault>
    ensures ok { IfOk result (λ parts. read_items T.reads (items_view items.now) ≡ Some parts) }
    ensures formed { IfOk result (λ parts. AllByRecursion T.is_formed parts) }
    ensures refused { IfErr result (λ why. IfWrong why (read_items T.reads (items_view items.now) ≡ None)) }
{
    let mut parts = List::new(alloc);
    for value in items {
        let part = T::read(alloc, value)?;
        parts.push(part)?;
    }
    Ok(parts)
}

impl<T: Form> Form for List<T> {
    ghost use Rattle.std.specs.List.{AllByRecursion};
    ghost use Rattle.json_forms.specs.Forms.{read_list};

    ghost reads = { read_list T.Form.reads };

    ghost is_formed = { AllByRecursion T.Form.is_formed };

    fn read(alloc: Global, value: &Value) -> Result<List<T>, Fault> {
        match value {
            Value::Array(items) => read_items(alloc, items),
            _ => Err(Fault::Wrong),
        }
    }
}

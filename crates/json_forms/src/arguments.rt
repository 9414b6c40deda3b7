// Arguments by their names, and how a wrong one is refused.
ghost use Rattle.std.specs.Prelude.{◌≡◌, Ok, Err, IfOk, IfErr};
ghost use Rattle.std.specs.Option.{ForSome};
ghost use Rattle.std.specs.List.{AllByRecursion};
ghost use Rattle.serde_json.specs.View.{view};
ghost use Rattle.graph_model.specs.Refusals.{UnlessMem};
ghost use Rattle.json_forms.specs.Arguments.{required, optional, list_or_empty};

use crate::fault::Fault;
use crate::fields::{given, list_said, needed};
use crate::form::Form;
use graph_model::{List, Refusal};
use serde_json::Value;
use std::alloc::Global;

/// What an argument is answered with that is missing, unknown or of a wrong form: `BadArgument` with its name and row 0, or `Mem`.
pub fn wrong_argument(alloc: Global, at: &str) -> Refusal
    ensures { UnlessMem result (result ≡ Refusal.BadArgument at.now 0) }
{
    match Vec::from_slice(alloc, at.as_bytes()) {
        Ok(name) => Refusal::BadArgument {
            at: List::from_vec(name),
            row: 0,
        },
        Err(_) => Refusal::Mem,
    }
}

/// What was read of an argument, or why it is refused.
///
/// # Errors
/// `BadArgument` with the argument's name exactly where it is of a wrong form, or `Mem`.
pub fn argument<T: Drop>(alloc: Global, at: &str, read: Result<T, Fault>) -> Result<T, Refusal>
    ensures ok { IfOk result (λ value. read ≡ Ok value) }
    ensures refused { IfErr result (λ why. UnlessMem why ((why ≡ Refusal.BadArgument at.now 0) × (read ≡ Err Fault.Wrong))) }
{
    match read {
        Ok(value) => Ok(value),
        Err(Fault::Mem) => Err(Refusal::Mem),
        Err(Fault::Wrong) => Err(wrong_argument(alloc, at)),
    }
}

/// An argument that must be there.
///
/// # Errors
/// `BadArgument` with the argument's name exactly where it is missing or of a wrong form, or `Mem`.
pub fn required<T: Form>(alloc: Global, args: &Value, at: &str) -> Result<T, Refusal>
    ensures ok { IfOk result (λ value. required at.now T.reads (view args.now) ≡ Ok value) }
    ensures formed { IfOk result (λ value. T.is_formed value) }
    ensures refused { IfErr result (λ why. UnlessMem why (required at.now T.reads (view args.now) ≡ Err why)) }
{
    argument(alloc, at, needed(alloc, args.get(at)))
}

/// An argument that may be missing.
///
/// # Errors
/// `BadArgument` with the argument's name exactly where it is there and of a wrong form, or `Mem`.
pub fn optional<T: Form>(alloc: Global, args: &Value, at: &str) -> Result<Option<T>, Refusal>
    ensures ok { IfOk result (λ value. optional at.now T.reads (view args.now) ≡ Ok value) }
    ensures formed { IfOk result (λ value. ForSome value T.is_formed) }
    ensures refused { IfErr result (λ why. UnlessMem why (optional at.now T.reads (view args.now) ≡ Err why)) }
{
    argument(alloc, at, given(alloc, args.get(at)))
}

/// An argument that is a list, which is empty where it is missing.
///
/// # Errors
/// `BadArgument` with the argument's name exactly where it is there and of a wrong form, or `Mem`.
pub fn list_or_empty<T: Form>(alloc: Global, args: &Value, at: &str) -> Result<List<T>, Refusal>
    ensures ok { IfOk result (λ items. list_or_empty at.now T.reads (view args.now) ≡ Ok items) }
    ensures formed { IfOk result (λ items. AllByRecursion T.is_formed items) }
    ensures refused { IfErr result (λ why. UnlessMem why (list_or_empty at.now T.reads (view args.now) ≡ Err why)) }
{
    argument(alloc, at, list_said(alloc, args.get(at)))
}

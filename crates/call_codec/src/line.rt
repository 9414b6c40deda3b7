// What one line of JSON asks.
ghost use Rattle.std.specs.Prelude.{◌≡◌, ◌≤◌, length, Ok, Err, Some, None, IfOk, IfErr, codes};
ghost use Rattle.serde_json.specs.View.{view};
ghost use Rattle.serde_json.specs.Find.{as_str};
ghost use Rattle.graph_model.specs.Refusals.{UnlessMem};
ghost use Rattle.desk_model.specs.Script.{IsFormedCall};
ghost use Rattle.json_forms.specs.Arguments.{required};
ghost use Rattle.call_codec.specs.Lines.{Calls, Refuses, is_blank_byte, is_blank, json_of, known_call, procedure_call, said_call, line_item};

use crate::calls::call_of;
use crate::procedure::Procedure;
use desk_model::Call;
use graph_model::{Refusal, Tag};
use json_forms::{has_only, required, wrong_argument};
use serde_json::{Map, Value};
use std::alloc::Global;

// The JSON that a text is.
fn json_of(alloc: Global, text: &[u8]) -> Result<Value, Refusal>
    ensures ok { IfOk result (λ value. json_of text.now ≡ Some (view value)) }
    ensures refused { IfErr result (λ why. UnlessMem why ((why ≡ Refusal.BadJson) × (json_of text.now ≡ None))) }
{
    let Ok(text) = str::from_utf8(text) else {
        return Err(Refusal::BadJson);
    };
    match Value::from_str(alloc, text) {
        Ok(value) => Ok(value),
        Err(error) => {
            if error.is_memory() {
                Err(Refusal::Mem)
            } else {
                Err(Refusal::BadJson)
            }
        }
    }
}

// The text that names a call.
fn call_name<'a>(alloc: Global, line: &'a Value) -> Result<&'a str, Refusal>
    ensures ok { IfOk result (λ name. required (codes "call") as_str (view line.now) ≡ Ok name.now) }
    ensures refused { IfErr result (λ why. UnlessMem why (required (codes "call") as_str (view line.now) ≡ Err why)) }
{
    match line.get("call").and_then(Value::as_str) {
        Some(name) => Ok(name),
        None => Err(wrong_argument(alloc, "call")),
    }
}

// The call of a procedure: first its arguments, and then unknown fields.
fn known_call(
    alloc: Global,
    procedure: Procedure,
    line: &Value,
    args: &Value,
) -> Result<Call, Refusal>
    ensures ok { IfOk result (λ call. known_call procedure (view line.now) (view args.now) ≡ Ok call) }
    ensures formed { IfOk result IsFormedCall }
    ensures refused { IfErr result (λ why. UnlessMem why (known_call procedure (view line.now) (view args.now) ≡ Err why)) }
{
    let call = call_of(alloc, procedure, args)?;
    if has_only(line, &["user", "call", "args"]) && has_only(args, procedure.arguments()) {
        Ok(call)
    } else {
        Err(wrong_argument(alloc, "?"))
    }
}

// The call of a procedure, with the arguments that a line gives; missing ones are none.
fn procedure_call(alloc: Global, procedure: Procedure, line: &Value) -> Result<Call, Refusal>
    ensures ok { IfOk result (λ call. procedure_call (view line.now) (Some procedure) ≡ Ok call) }
    ensures formed { IfOk result IsFormedCall }
    ensures refused { IfErr result (λ why. UnlessMem why (procedure_call (view line.now) (Some procedure) ≡ Err why)) }
{
    let Some(args) = line.get("args") else {
        let none = Value::Object(Map::new(alloc));
        return known_call(alloc, procedure, line, &none);
    };
    if !args.is_object() {
        return Err(wrong_argument(alloc, "args"));
    }
    known_call(alloc, procedure, line, args)
}

// The call that a line names.
fn said_call(alloc: Global, line: &Value) -> Result<Call, Refusal>
    ensures ok { IfOk result (λ call. said_call (view line.now) ≡ Ok call) }
    ensures formed { IfOk result IsFormedCall }
    ensures refused { IfErr result (λ why. UnlessMem why (said_call (view line.now) ≡ Err why)) }
{
    match call_name(alloc, line) {
        Ok(name) => match Procedure::named(name) {
            Some(procedure) => procedure_call(alloc, procedure, line),
            None => Err(Refusal::NoSuchProcedure),
        },
        Err(why) => Err(why),
    }
}

/// The user and the call that a line asks for: `{"user":TAG,"call":PROCEDURE,"args":OBJECT}`, where `args` may be missing
/// and is then empty. The line has no more than 16,777,216 bytes, and no LF.
///
/// # Errors
/// The first of these, or `Mem`: `BadJson` where the line is no JSON; `BadArgument` at `user` where there is no tag, and
/// at `call` where there is no text; `NoSuchProcedure`; `BadArgument` at `args` where they are no object, at the first
/// argument that is missing or of a wrong form, and at `?` where the line or its arguments have unknown fields.
pub fn line_call(alloc: Global, line: &[u8]) -> Result<(Tag, Call), Refusal>
    requires { length line.now ≤ 16777216 }
    ensures ok { IfOk result (λ asked. line_item line.now ≡ Calls asked.0 asked.1) }
    ensures formed { IfOk result (λ asked. IsFormedCall asked.1) }
    ensures refused { IfErr result (λ why. UnlessMem why (line_item line.now ≡ Refuses why)) }
{
    let json = json_of(alloc, line)?;
    let user: Tag = required(alloc, &json, "user")?;
    let call = said_call(alloc, &json)?;
    Ok((user, call))
}

/// Whether a line is nothing but spaces, tabs and CRs. Such a line asks nothing.
pub fn is_blank(line: &[u8]) -> bool
    ensures { result ≡ is_blank line.now }
{
    line.iter().all(|b| is_blank_byte(*b))
}

fn is_blank_byte(b: u8) -> bool
    ensures { result ≡ is_blank_byte b }
{
    b == b' ' || b == b'\t' || b == b'\r'
}

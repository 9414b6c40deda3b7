// The calls of procedures, each with its arguments in their order.
ghost use Rattle.std.specs.Prelude.{◌≡◌, Ok, Err, IfOk, IfErr};
ghost use Rattle.std.specs.List.{list_all};
ghost use Rattle.serde_json.specs.View.{view};
ghost use Rattle.graph_model.specs.Refusals.{UnlessMem};
ghost use Rattle.desk_model.specs.Script.{IsFormedCall};
ghost use Rattle.call_codec.specs.declared.procedure.Procedure.TheVariants as procedure;
ghost use Rattle.call_codec.specs.Calls.{call_of, is_end_below, are_ends_below};

use crate::procedure::Procedure;
use desk_model::Call;
use graph_model::{Change, Choice, List, Name, NewNode, NewRel, Place, Refusal, Tag};
use json_forms::{list_or_empty, optional, required, wrong_argument};
use serde_json::Value;
use std::alloc::Global;

fn is_end_below(count: usize, end: Place) -> bool
    ensures { result ≡ is_end_below count end }
{
    match end {
        Place::Old(_) => true,
        Place::New(index) => (index as usize) < count,
    }
}

// Whether the new ends of each relationship lie below a number of nodes.
fn all_ends_below(count: usize, rels: &[NewRel]) -> bool
    ensures { result ≡ list_all (are_ends_below count) rels.now }
{
    rels.iter().all(|rel| is_end_below(count, rel.source) && is_end_below(count, rel.target))
}

// A call that creates nodes and relationships.
fn create(alloc: Global, args: &Value) -> Result<Call, Refusal>
    ensures ok { IfOk result (λ call. call_of procedure.Create (view args.now) ≡ Ok call) }
    ensures formed { IfOk result IsFormedCall }
    ensures refused { IfErr result (λ why. UnlessMem why (call_of procedure.Create (view args.now) ≡ Err why)) }
{
    let import: Option<Tag> = optional(alloc, args, "importId")?;
    let nodes: List<NewNode> = list_or_empty(alloc, args, "nodes")?;
    let rels: List<NewRel> = list_or_empty(alloc, args, "relationships")?;
    if !all_ends_below(nodes.len(), rels.as_slice()) {
        return Err(wrong_argument(alloc, "relationships"));
    }
    let change = Change::Create { nodes, rels };
    Ok(Call::Create { import, change })
}

// A call that sets values of nodes.
fn set_nodes(alloc: Global, args: &Value) -> Result<Call, Refusal>
    ensures ok { IfOk result (λ call. call_of procedure.SetNodes (view args.now) ≡ Ok call) }
    ensures formed { IfOk result IsFormedCall }
    ensures refused { IfErr result (λ why. UnlessMem why (call_of procedure.SetNodes (view args.now) ≡ Err why)) }
{
    let key: Name = required(alloc, args, "key")?;
    let values: List<(u32, i64)> = required(alloc, args, "values")?;
    let change = Change::SetNodes { key, values };
    Ok(Call::Alter { change })
}

// A call that sets values of relationships.
fn set_rels(alloc: Global, args: &Value) -> Result<Call, Refusal>
    ensures ok { IfOk result (λ call. call_of procedure.SetRels (view args.now) ≡ Ok call) }
    ensures formed { IfOk result IsFormedCall }
    ensures refused { IfErr result (λ why. UnlessMem why (call_of procedure.SetRels (view args.now) ≡ Err why)) }
{
    let key: Name = required(alloc, args, "key")?;
    let values: List<(u32, i64)> = required(alloc, args, "values")?;
    let change = Change::SetRels { key, values };
    Ok(Call::Alter { change })
}

// A call that deletes nodes.
fn delete_nodes(alloc: Global, args: &Value) -> Result<Call, Refusal>
    ensures ok { IfOk result (λ call. call_of procedure.DeleteNodes (view args.now) ≡ Ok call) }
    ensures formed { IfOk result IsFormedCall }
    ensures refused { IfErr result (λ why. UnlessMem why (call_of procedure.DeleteNodes (view args.now) ≡ Err why)) }
{
    let ids: List<u32> = required(alloc, args, "ids")?;
    let change = Change::DeleteNodes { ids };
    Ok(Call::Alter { change })
}

// A call that deletes relationships.
fn delete_rels(alloc: Global, args: &Value) -> Result<Call, Refusal>
    ensures ok { IfOk result (λ call. call_of procedure.DeleteRels (view args.now) ≡ Ok call) }
    ensures formed { IfOk result IsFormedCall }
    ensures refused { IfErr result (λ why. UnlessMem why (call_of procedure.DeleteRels (view args.now) ≡ Err why)) }
{
    let ids: List<u32> = required(alloc, args, "ids")?;
    let change = Change::DeleteRels { ids };
    Ok(Call::Alter { change })
}

// A call that asks for the values under a key.
fn node_property(alloc: Global, args: &Value) -> Result<Call, Refusal>
    ensures ok { IfOk result (λ call. call_of procedure.NodeProperty (view args.now) ≡ Ok call) }
    ensures formed { IfOk result IsFormedCall }
    ensures refused { IfErr result (λ why. UnlessMem why (call_of procedure.NodeProperty (view args.now) ≡ Err why)) }
{
    let key: Name = required(alloc, args, "key")?;
    let labels: Option<Choice> = optional(alloc, args, "labels")?;
    Ok(Call::StoreRows {
        key,
        labels: labels.unwrap_or(Choice::All),
    })
}

/// The call of a procedure with these arguments.
///
/// # Errors
/// `BadArgument` with the first argument that is missing or of a wrong form, or `Mem`.
pub(crate) fn call_of(alloc: Global, procedure: Procedure, args: &Value) -> Result<Call, Refusal>
    ensures ok { IfOk result (λ call. call_of procedure (view args.now) ≡ Ok call) }
    ensures formed { IfOk result IsFormedCall }
    ensures refused { IfErr result (λ why. UnlessMem why (call_of procedure (view args.now) ≡ Err why)) }
{
    match procedure {
        Procedure::Create => create(alloc, args),
        Procedure::SetNodes => set_nodes(alloc, args),
        Procedure::SetRels => set_rels(alloc, args),
        Procedure::DeleteNodes => delete_nodes(alloc, args),
        Procedure::DeleteRels => delete_rels(alloc, args),
        Procedure::NodeProperty => node_property(alloc, args),
    }
}

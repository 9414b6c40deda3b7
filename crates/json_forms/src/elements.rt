// New nodes and new relationships.
ghost use Rattle.std.specs.Prelude.{◌≡◌, [], Some, None, IfOk, IfErr, option_map};
ghost use Rattle.serde_json.specs.View.{view, members_view};
ghost use Rattle.graph_model.specs.Lists.{Pairwise};
ghost use Rattle.graph_model.specs.Change.{NamesDiffer, KeysDiffer};
ghost use Rattle.json_forms.specs.Faults.{IfWrong};
ghost use Rattle.json_forms.specs.Fields.{field_or};
ghost use Rattle.json_forms.specs.Forms.{name_of, read_whole};
ghost use Rattle.json_forms.specs.Elements.{prop_from, props_of, read_props, each_once, read_labels, new_end};

use crate::fault::Fault;
use crate::fields::{has_only, needed};
use crate::form::Form;
use crate::single::{name_of, read_id, read_whole};
use graph_model::{List, Mem, Name, NewNode, NewRel, Place, Prop};
use serde_json::{Map, Value};
use std::alloc::Global;
use std::collections::BTreeSet;

// A key and its value.
fn prop_of(alloc: Global, key: &str, value: &Value) -> Result<Prop, Fault>
    ensures ok { IfOk result (λ prop. prop_from (name_of key.now) (read_whole (view value.now)) ≡ Some prop) }
    ensures refused { IfErr result (λ why. IfWrong why (prop_from (name_of key.now) (read_whole (view value.now)) ≡ None)) }
{
    let key = name_of(alloc, key)?;
    let value = read_whole(value)?;
    Ok(Prop { key, value })
}

// What fields say of values. An object has each key once, and so do the values.
fn props_of(alloc: Global, fields: &Map<String, Value>) -> Result<List<Prop>, Fault>
    ensures ok { IfOk result (λ props. props_of (members_view fields.now.entries) ≡ Some props) }
    ensures formed { IfOk result (λ props. Pairwise KeysDiffer props) }
    ensures refused { IfErr result (λ why. IfWrong why (props_of (members_view fields.now.entries) ≡ None)) }
{
    let mut props = List::new(alloc);
    for (key, value) in fields {
        let prop = prop_of(alloc, key.as_str(), value)?;
        props.push(prop)?;
    }
    Ok(props)
}

// What a value says of values.
fn read_props(alloc: Global, value: &Value) -> Result<List<Prop>, Fault>
    ensures ok { IfOk result (λ props. read_props (view value.now) ≡ Some props) }
    ensures formed { IfOk result (λ props. Pairwise KeysDiffer props) }
    ensures refused { IfErr result (λ why. IfWrong why (read_props (view value.now) ≡ None)) }
{
    match value {
        Value::Object(fields) => props_of(alloc, fields),
        _ => Err(Fault::Wrong),
    }
}

// What a field says of values; none where it isn't there.
fn props_said(alloc: Global, said: Option<&Value>) -> Result<List<Prop>, Fault>
    ensures ok { IfOk result (λ props. field_or read_props [] (option_map (λ value. view value.now) said.entry) ≡ Some props) }
    ensures formed { IfOk result (λ props. Pairwise KeysDiffer props) }
    ensures refused { IfErr result (λ why. IfWrong why (field_or read_props [] (option_map (λ value. view value.now) said.entry) ≡ None)) }
{
    match said {
        Some(value) => read_props(alloc, value),
        None => Ok(List::new(alloc)),
    }
}

// Names in ascending order, each once.
fn each_once(alloc: Global, names: List<Name>) -> Result<List<Name>, Mem>
    ensures once { IfOk result (λ ordered. ordered ≡ each_once names) }
    ensures formed { IfOk result (λ ordered. Pairwise NamesDiffer ordered) }
{
    if names.len() < 2 {
        return Ok(names);
    }
    let mut set = BTreeSet::new(alloc);
    for name in names.into_vec() {
        set.insert(name)?;
    }
    let mut ordered = List::new(alloc);
    for name in set {
        ordered.push(name)?;
    }
    Ok(ordered)
}

// A list of names, in ascending order, each once.
fn read_labels(alloc: Global, value: &Value) -> Result<List<Name>, Fault>
    ensures ok { IfOk result (λ labels. read_labels (view value.now) ≡ Some labels) }
    ensures formed { IfOk result (λ labels. Pairwise NamesDiffer labels) }
    ensures refused { IfErr result (λ why. IfWrong why (read_labels (view value.now) ≡ None)) }
{
    let names: List<Name> = Form::read(alloc, value)?;
    Ok(each_once(alloc, names)?)
}

// What a field says of labels; none where it isn't there.
fn labels_said(alloc: Global, said: Option<&Value>) -> Result<List<Name>, Fault>
    ensures ok { IfOk result (λ labels. field_or read_labels [] (option_map (λ value. view value.now) said.entry) ≡ Some labels) }
    ensures formed { IfOk result (λ labels. Pairwise NamesDiffer labels) }
    ensures refused { IfErr result (λ why. IfWrong why (field_or read_labels [] (option_map (λ value. view value.now) said.entry) ≡ None)) }
{
    match said {
        Some(value) => read_labels(alloc, value),
        None => Ok(List::new(alloc)),
    }
}

impl Form for NewNode {
    ghost use Rattle.graph_model.specs.Change.{IsDistinctNode};
    ghost use Rattle.json_forms.specs.Elements.{read_node};

    ghost reads = { read_node };

    ghost is_formed = { IsDistinctNode };

    fn read(alloc: Global, value: &Value) -> Result<NewNode, Fault> {
        if !has_only(value, &["labels", "properties"]) {
            return Err(Fault::Wrong);
        }
        let labels = labels_said(alloc, value.get("labels"))?;
        let props = props_said(alloc, value.get("properties"))?;
        Ok(NewNode { labels, props })
    }
}

// An object as an end: the place of a new node.
fn new_end(value: &Value) -> Result<Place, Fault>
    ensures ok { IfOk result (λ end. new_end (view value.now) ≡ Some end) }
    ensures refused { IfErr result (λ why. IfWrong why (new_end (view value.now) ≡ None)) }
{
    if !has_only(value, &["new"]) {
        return Err(Fault::Wrong);
    }
    let Some(said) = value.get("new") else {
        return Err(Fault::Wrong);
    };
    let index = read_id(said)?;
    Ok(Place::New(index))
}

impl Form for Place {
    ghost use Rattle.json_forms.specs.Elements.{read_end};

    ghost reads = { read_end };

    ghost is_formed = { λ end. Unit {0} };

    fn read(_alloc: Global, value: &Value) -> Result<Place, Fault> {
        match value {
            Value::Number(_) => {
                let id = read_id(value)?;
                Ok(Place::Old(id))
            }
            Value::Object(_) => new_end(value),
            _ => Err(Fault::Wrong),
        }
    }
}

impl Form for NewRel {
    ghost use Rattle.json_forms.specs.Elements.{read_rel, HasDistinctKeys};

    ghost reads = { read_rel };

    ghost is_formed = { HasDistinctKeys };

    fn read(alloc: Global, value: &Value) -> Result<NewRel, Fault> {
        if !has_only(value, &["source", "target", "type", "properties"]) {
            return Err(Fault::Wrong);
        }
        let source = needed(alloc, value.get("source"))?;
        let target = needed(alloc, value.get("target"))?;
        let kind = needed(alloc, value.get("type"))?;
        let props = props_said(alloc, value.get("properties"))?;
        Ok(NewRel {
            source,
            target,
            kind,
            props,
        })
    }
}

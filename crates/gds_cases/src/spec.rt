// What three arguments of a projection mean.
use crate::stop::Stop;
use graph_model::{Name, Refusal};
use projection_spec::{NodeEntry, ProjectSpec, RelEntry};
use serde_json::Value;
use std::alloc::Global;

/// What `NODES ; RELATIONSHIPS ; CONFIGURATION` means: its entries, or the argument that is wrong.
pub(crate) fn given(alloc: Global, asked: &str) -> Result<String, Stop> {
    let Some((nodes, others)) = asked.split_once(" ; ") else {
        return Err(Stop::Row);
    };
    let Some((rels, config)) = others.split_once(" ; ") else {
        return Err(Stop::Row);
    };
    let nodes = json(alloc, nodes)?;
    let rels = json(alloc, rels)?;
    let config = json(alloc, config)?;
    match ProjectSpec::from_json(alloc, &nodes, &rels, &config) {
        Ok(spec) => shown(alloc, &spec),
        Err(why) => {
            let text = refused(alloc, &why);
            drop(why);
            text
        }
    }
}

fn json(alloc: Global, text: &str) -> Result<Value, Stop> {
    match Value::from_str(alloc, text) {
        Ok(value) => Ok(value),
        Err(_) => Err(Stop::Row),
    }
}

// The argument that is wrong, or `mixed` and the projected type.
fn refused(alloc: Global, why: &Refusal) -> Result<String, Stop> {
    let mut text = String::new(alloc);
    match why {
        Refusal::BadArgument { at, row: 0 } => put_bytes(&mut text, at.as_slice())?,
        Refusal::MixedAggregation { rel_type } => {
            text.push_str("mixed ")?;
            put_name(&mut text, rel_type)?;
        }
        _ => text.push_str("another refusal")?,
    }
    Ok(text)
}

// The entries, nodes first.
fn shown(alloc: Global, spec: &ProjectSpec) -> Result<String, Stop> {
    let mut text = String::new(alloc);
    for entry in spec.nodes.as_slice() {
        put_node_entry(alloc, &mut text, entry)?;
    }
    for entry in spec.rels.as_slice() {
        put_rel_entry(alloc, &mut text, entry)?;
    }
    Ok(text)
}

fn put_bytes(text: &mut String, bytes: &[u8]) -> Result<(), Stop> {
    text.push_str(str::from_utf8(bytes).unwrap_or("?"))?;
    Ok(())
}

fn put_name(text: &mut String, name: &Name) -> Result<(), Stop> {
    put_bytes(text, name.bytes())
}

// A projected name and the store's: `a:w`, or `a:*`.
fn put_names(text: &mut String, name: &Name, store: Option<&Name>) -> Result<(), Stop> {
    put_name(text, name)?;
    text.push_str(":")?;
    match store {
        Some(store) => put_name(text, store),
        None => Ok(text.push_str("*")?),
    }
}

fn put_default(alloc: Global, text: &mut String, default: Option<i64>) -> Result<(), Stop> {
    if let Some(number) = default {
        text.push_str("=")?;
        text.push_str(number.to_string(alloc)?.as_str())?;
    }
    Ok(())
}

// An entry of the nodes, as `A:B[a:w=7,]`.
fn put_node_entry(alloc: Global, text: &mut String, entry: &NodeEntry) -> Result<(), Stop> {
    put_names(text, &entry.label, entry.store.as_ref())?;
    text.push_str("[")?;
    for prop in entry.props.as_slice() {
        put_names(text, &prop.key, Some(&prop.store))?;
        put_default(alloc, text, prop.default)?;
        text.push_str(",")?;
    }
    text.push_str("] ")?;
    Ok(())
}

// An entry of the relationships, as `R:S Natural grouped[a:w=7 Max,]`.
fn put_rel_entry(alloc: Global, text: &mut String, entry: &RelEntry) -> Result<(), Stop> {
    put_names(text, &entry.kind, entry.store.as_ref())?;
    let orientation = entry.orientation;
    let groups = if entry.grouped { " grouped" } else { "" };
    text.push_str(format!(in alloc; " {orientation:?}{groups}[")?.as_str())?;
    for prop in entry.props.as_slice() {
        put_names(text, &prop.key, prop.store.as_ref())?;
        put_default(alloc, text, prop.default)?;
        let rule = prop.rule;
        text.push_str(format!(in alloc; " {rule:?},")?.as_str())?;
    }
    text.push_str("] ")?;
    Ok(())
}

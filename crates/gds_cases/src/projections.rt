// Projections of a store.
ghost use Rattle.std.specs.Prelude.{◌≤◌};

use crate::answers::text_of;
use crate::stop::Stop;
use csr_columns::{Csr, Projection, TypeColumns};
use desk_model::Reply;
use graph_model::{Name, Refusal};
use graph_store::Snapshot;
use native_projection::project;
use projection_spec::ProjectSpec;
use serde_json::Value;
use std::alloc::Global;

/// What `NODES ; RELATIONSHIPS ; CONFIGURATION` projects a store to, or why it is refused, on one worker and on 64.
pub(crate) fn given(alloc: Global, from: &Snapshot, asked: &str) -> Result<String, Stop> {
    let one = on_workers(alloc, from, asked, 1)?;
    let many = on_workers(alloc, from, asked, 64)?;
    if one.as_str() == many.as_str() {
        return Ok(one);
    }
    Ok(format!(in alloc; "{one} on one worker, {many} on 64")?)
}

fn on_workers(alloc: Global, from: &Snapshot, asked: &str, workers: u32) -> Result<String, Stop>
    requires some { 1 ≤ workers }
    requires few { workers ≤ 64 }
{
    match spec_asked(alloc, asked)? {
        Ok(spec) => shown(alloc, project(alloc, from, &spec, workers)),
        Err(why) => refused(alloc, why),
    }
}

// The specification of a row, or why it is none.
fn spec_asked(alloc: Global, asked: &str) -> Result<Result<ProjectSpec, Refusal>, Stop> {
    let Some((nodes, others)) = asked.split_once(" ; ") else {
        return Err(Stop::Row);
    };
    let Some((rels, config)) = others.split_once(" ; ") else {
        return Err(Stop::Row);
    };
    let nodes = json(alloc, nodes)?;
    let rels = json(alloc, rels)?;
    let config = json(alloc, config)?;
    Ok(ProjectSpec::from_json(alloc, &nodes, &rels, &config))
}

fn json(alloc: Global, text: &str) -> Result<Value, Stop> {
    match Value::from_str(alloc, text) {
        Ok(value) => Ok(value),
        Err(_) => Err(Stop::Row),
    }
}

// A projection, or the refusal.
fn shown(alloc: Global, made: Result<Projection, Refusal>) -> Result<String, Stop> {
    match made {
        Ok(graph) => graph_text(alloc, &graph),
        Err(why) => refused(alloc, why),
    }
}

fn refused(alloc: Global, why: Refusal) -> Result<String, Stop> {
    let text = text_of(alloc, Reply::Refused(why))?;
    Ok(String::from_str(alloc, str::from_utf8(text.as_slice()).unwrap_or("?"))?)
}

// A projection: how many nodes and arcs it has, its nodes where they have keys, and the arcs of each type.
fn graph_text(alloc: Global, graph: &Projection) -> Result<String, Stop> {
    let nodes = graph.ids().len();
    let arcs = graph.arc_count();
    let mut text = format!(in alloc; "{nodes} nodes, {arcs} arcs: ")?;
    if !graph.keys().is_empty() {
        put_head(&mut text, graph.labels(), graph.keys())?;
        put_nodes(alloc, &mut text, graph)?;
    }
    for kind in graph.types() {
        put_type(alloc, &mut text, graph.ids(), kind)?;
    }
    Ok(text)
}

fn put_name(text: &mut String, name: &Name) -> Result<(), Stop> {
    text.push_str(str::from_utf8(name.bytes()).unwrap_or("?"))?;
    Ok(())
}

// The labels and the keys of nodes, as `A B x y:`.
fn put_head(text: &mut String, labels: &[Name], keys: &[Name]) -> Result<(), Stop> {
    for name in labels {
        put_name(text, name)?;
        text.push_str(" ")?;
    }
    for name in keys {
        put_name(text, name)?;
        text.push_str(" ")?;
    }
    text.pop();
    text.push_str(":")?;
    Ok(())
}

// Each node: its id, its labels and its values.
fn put_nodes(alloc: Global, text: &mut String, graph: &Projection) -> Result<(), Stop> {
    for (place, id) in graph.ids().iter().enumerate() {
        text.push_str(format!(in alloc; " {id} ")?.as_str())?;
        for label in graph.labels() {
            if graph.has_label(place as u32, label) {
                put_name(text, label)?;
            }
        }
        for key in graph.keys() {
            put_value(alloc, text, graph.value(place as u32, key))?;
        }
        text.push_str(",")?;
    }
    text.push_str(" ")?;
    Ok(())
}

fn put_value(alloc: Global, text: &mut String, value: Option<i64>) -> Result<(), Stop> {
    text.push_str(" ")?;
    match value {
        Some(value) => text.push_str(value.to_string(alloc)?.as_str())?,
        None => text.push_str("?")?,
    }
    Ok(())
}

// The arcs of a type, as `R Natural w: 0-1 4, 0-2 7,`.
fn put_type(alloc: Global, text: &mut String, ids: &[u32], kind: &TypeColumns) -> Result<(), Stop> {
    put_name(text, &kind.kind)?;
    let orientation = kind.orientation;
    text.push_str(format!(in alloc; " {orientation:?}")?.as_str())?;
    for key in kind.arcs.get().keys() {
        text.push_str(" ")?;
        put_name(text, key)?;
    }
    text.push_str(":")?;
    put_rows(alloc, text, ids, kind.arcs.get())?;
    text.push_str(" ")?;
    Ok(())
}

// The arcs of rows, each with its values.
fn put_rows(alloc: Global, text: &mut String, ids: &[u32], rows: &Csr) -> Result<(), Stop> {
    for v in 0..rows.node_count() {
        for (place, w) in rows.row(v).iter().enumerate() {
            put_ends(alloc, text, ids.get(v as usize), ids.get(*w as usize))?;
            for key in rows.keys() {
                let values = rows.prop(key, v).unwrap_or(&[]);
                put_value(alloc, text, values.get(place).copied())?;
            }
            text.push_str(",")?;
        }
    }
    Ok(())
}

fn put_ends(
    alloc: Global,
    text: &mut String,
    source: Option<&u32>,
    target: Option<&u32>,
) -> Result<(), Stop> {
    let (Some(source), Some(target)) = (source, target) else {
        return Err(Stop::Row);
    };
    text.push_str(format!(in alloc; " {source}-{target}")?.as_str())?;
    Ok(())
}

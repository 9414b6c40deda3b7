// Named graphs that are kept, found, widened and dropped, one call a row.
ghost use Rattle.std.specs.Prelude.{IfOk};
ghost use Rattle.csr_columns.specs.Parts.{FitTogether};

use crate::stop::Stop;
use crate::words::{name, tag};
use csr_columns::{Parts, Projection};
use graph_model::{Column, List, Refusal};
use std::alloc::Global;
use user_catalog::{Catalog, Entry};

/// What one call gives: `insert NAME` of a small graph its version, `get NAME` and `remove NAME` the version that is there,
/// `list` the names with their versions, `column NAME VERSION KEY` whether the key was added with the value 7 for node 20,
/// and `values KEY` the values of the first graph under a key. What is empty is `none`, and a refusal its name and numbers.
pub(crate) fn given(alloc: Global, catalog: &mut Catalog, asked: &str) -> Result<String, Stop> {
    let (call, rest) = asked.split_once(" ").unwrap_or((asked, ""));
    match call {
        "insert" => insert(alloc, catalog, rest),
        "get" => version(alloc, catalog.get(&tag(alloc, rest)?)),
        "remove" => remove(alloc, catalog, rest),
        "list" => list(alloc, catalog),
        "column" => column(alloc, catalog, rest),
        "values" => values(alloc, catalog, rest),
        _ => Err(Stop::Row),
    }
}

// Two nodes with a value under x.
fn parts(alloc: Global) -> Result<Parts, Stop>
    ensures { IfOk result FitTogether }
{
    let mut columns = List::new(alloc);
    let values = vec![in alloc; 5, 6]?;
    columns.push((name(alloc, "x")?, List::from_vec(values)))?;
    Ok(Parts {
        ids: List::from_vec(vec![in alloc; 10, 20]?),
        labels: List::new(alloc),
        columns,
        types: List::new(alloc),
    })
}

fn insert(alloc: Global, catalog: &mut Catalog, rest: &str) -> Result<String, Stop> {
    let name = tag(alloc, rest)?;
    let graph = Projection::of(alloc, parts(alloc)?)?;
    match catalog.insert(alloc, name, graph) {
        Ok(version) => Ok(version.to_string(alloc)?),
        Err(why) => refused(alloc, why),
    }
}

fn remove(alloc: Global, catalog: &mut Catalog, rest: &str) -> Result<String, Stop> {
    let removed = catalog.remove(&tag(alloc, rest)?);
    version(alloc, removed.as_ref())
}

// The version of an entry, or `none`.
fn version(alloc: Global, entry: Option<&Entry>) -> Result<String, Stop> {
    match entry {
        Some(entry) => Ok(entry.version.to_string(alloc)?),
        None => Ok(String::from_str(alloc, "none")?),
    }
}

fn list(alloc: Global, catalog: &Catalog) -> Result<String, Stop> {
    let mut text = String::new(alloc);
    for (name, entry) in catalog.list() {
        text.push_str(str::from_utf8(name.bytes()).unwrap_or("?"))?;
        text.push_str(" ")?;
        text.push_str(entry.version.to_string(alloc)?.as_str())?;
        text.push_str(" ")?;
    }
    or_none(text)
}

fn column(alloc: Global, catalog: &mut Catalog, rest: &str) -> Result<String, Stop> {
    let Some((graph, rest)) = rest.split_once(" ") else {
        return Err(Stop::Row);
    };
    let Some((version, key)) = rest.split_once(" ") else {
        return Err(Stop::Row);
    };
    let Ok(version) = version.parse::<u32>() else {
        return Err(Stop::Row);
    };
    let column = Column::new(alloc).with_row(20, 7)?;
    let graph = tag(alloc, graph)?;
    match catalog.add_column(alloc, &graph, version, name(alloc, key)?, &column) {
        Ok(()) => Ok(String::from_str(alloc, "added")?),
        Err(why) => refused(alloc, why),
    }
}

// The values of the first graph under a key, i64::MIN where a node has none.
fn values(alloc: Global, catalog: &Catalog, key: &str) -> Result<String, Stop> {
    let key = name(alloc, key)?;
    let mut text = String::new(alloc);
    if let Some((_, entry)) = catalog.list().first() {
        for value in entry.graph.get().values(&key).unwrap_or(&[]) {
            text.push_str(value.to_string(alloc)?.as_str())?;
            text.push_str(" ")?;
        }
    }
    or_none(text)
}

// A text, or `none` where it is empty.
fn or_none(text: String) -> Result<String, Stop> {
    let mut text = text;
    if text.is_empty() {
        text.push_str("none")?;
    }
    Ok(text)
}

// A refusal, which is gone then.
fn refused(alloc: Global, why: Refusal) -> Result<String, Stop> {
    let text = refusal_text(alloc, &why);
    drop(why);
    text
}

fn refusal_text(alloc: Global, why: &Refusal) -> Result<String, Stop> {
    match why {
        Refusal::GraphExists { .. } => Ok(String::from_str(alloc, "GraphExists")?),
        Refusal::TooManyGraphs { limit } => Ok(format!(in alloc; "TooManyGraphs {limit}")?),
        Refusal::GraphGone { had, now_, .. } => Ok(format!(in alloc; "GraphGone {had} {now_}")?),
        Refusal::PropertyExists { .. } => Ok(String::from_str(alloc, "PropertyExists")?),
        _ => Ok(String::from_str(alloc, "another refusal")?),
    }
}

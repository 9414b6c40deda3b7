// Events as rows say them.
ghost use Rattle.std.specs.Prelude.{◌≡◌, IfOk, codes};
ghost use Rattle.graph_model.specs.Change.{IsWellFormedChange};
ghost use Rattle.desk_model.specs.Step.{IsGivenName};
ghost use Rattle.gds_events.specs.Going.{IsSimple, every_node};

use crate::stop::Stop;
use desk_core::{Event, MakeSpec};
use graph_model::{Change, Choice, List, Name, NewNode, Prop, Tag};
use projection_spec::{NodeEntry, NodeProp, ProjectSpec};
use std::alloc::Global;

fn name(alloc: Global, text: &str) -> Result<Name, Stop>
    ensures { IfOk result (λ name. name ≡ text.now) }
{
    match Name::read(alloc, text.as_bytes()) {
        Ok(name) => Ok(name),
        Err(_) => Err(Stop::Row),
    }
}

/// A tag of a row.
pub(crate) fn tag(alloc: Global, text: &str) -> Result<Tag, Stop> {
    match Tag::read(alloc, text.as_bytes()) {
        Ok(tag) => Ok(tag),
        Err(_) => Err(Stop::Row),
    }
}

/// A number of a row.
pub(crate) fn number(text: &str) -> Result<u64, Stop> {
    match text.parse::<u64>() {
        Ok(number) => Ok(number),
        Err(_) => Err(Stop::Row),
    }
}

fn id(text: &str) -> Result<u32, Stop> {
    match text.parse::<u32>() {
        Ok(id) => Ok(id),
        Err(_) => Err(Stop::Row),
    }
}

fn value(text: &str) -> Result<i64, Stop> {
    match text.parse::<i64>() {
        Ok(value) => Ok(value),
        Err(_) => Err(Stop::Row),
    }
}

// A node with a value under `d` is made.
fn make(alloc: Global, text: &str) -> Result<Change, Stop>
    ensures { IfOk result IsWellFormedChange }
{
    let value = value(text)?;
    let key = name(alloc, "d")?;
    let node = NewNode {
        labels: List::new(alloc),
        props: List::from_vec(Vec::from_array(alloc, [Prop { key, value }])?),
    };
    Ok(Change::Create {
        nodes: List::from_vec(Vec::from_array(alloc, [node])?),
        rels: List::new(alloc),
    })
}

// The node of an id is deleted.
fn delete(alloc: Global, text: &str) -> Result<Change, Stop>
    ensures { IfOk result IsWellFormedChange }
{
    let ids = List::from_vec(Vec::from_array(alloc, [id(text)?])?);
    Ok(Change::DeleteNodes { ids })
}

// Both values of a text, of node 0 under `d`, one after the other.
fn set(alloc: Global, text: &str) -> Result<Change, Stop>
    ensures { IfOk result IsWellFormedChange }
{
    let (first, second) = text.split_once(",").ok_or(Stop::Row)?;
    let pairs = [(0, value(first)?), (0, value(second)?)];
    Ok(Change::SetNodes {
        key: name(alloc, "d")?,
        values: List::from_vec(Vec::from_array(alloc, pairs)?),
    })
}

// A change, under an import id where one stands before it.
fn change(import: Option<Tag>, change: Change) -> Event
    requires { IsWellFormedChange change }
    ensures { IsSimple result }
{
    Event::Change { import, change }
}

// The values under `d` of the nodes of a graph.
fn rows(alloc: Global, graph: &str) -> Result<Event, Stop>
    ensures { IfOk result IsSimple }
{
    let graph = tag(alloc, graph)?;
    let key = name(alloc, "d")?;
    Ok(Event::GraphRows {
        graph,
        key,
        labels: Choice::All,
    })
}

// The user who is named behind ` of `, and what stands before it.
fn named<'a>(alloc: Global, words: &'a str) -> Result<(&'a str, Option<Tag>), Stop> {
    match words.split_once(" of ") {
        Some((rest, user)) => Ok((rest, Some(tag(alloc, user)?))),
        None => Ok((words, None)),
    }
}

// Graphs are told: all by `-`, or the one of a name.
fn list(alloc: Global, words: &str) -> Result<Event, Stop>
    ensures { IfOk result IsSimple }
{
    let (graph, of) = named(alloc, words)?;
    if graph == "-" {
        return Ok(Event::List { graph: None, of });
    }
    Ok(Event::List {
        graph: Some(tag(alloc, graph)?),
        of,
    })
}

// A graph is dropped; it may be asked that there must be one.
fn drop_graph(alloc: Global, words: &str, must: bool) -> Result<Event, Stop>
    ensures { IfOk result IsSimple }
{
    let (graph, of) = named(alloc, words)?;
    let graph = tag(alloc, graph)?;
    Ok(Event::Drop { graph, must, of })
}

// A change under an import id: `ID VALUES`.
fn import(alloc: Global, words: &str) -> Result<Event, Stop>
    ensures { IfOk result IsSimple }
{
    let (id, values) = words.split_once(" ").ok_or(Stop::Row)?;
    let id = tag(alloc, id)?;
    Ok(change(Some(id), set(alloc, values)?))
}

/// The event that a verb and its words say: `make VALUE`, `delete ID`, `set VALUE,VALUE`, `import ID VALUE,VALUE`, `stored KEY`,
/// `rows GRAPH`, `list GRAPH|- [of USER]`, `exists GRAPH`, `drop GRAPH [of USER]`, `discard GRAPH [of USER]` which needn't be there,
/// `terminate JOB`, `jobs`.
pub(crate) fn simple(alloc: Global, verb: &str, words: &str) -> Result<Event, Stop>
    ensures { IfOk result IsSimple }
{
    match verb {
        "make" => Ok(change(None, make(alloc, words)?)),
        "delete" => Ok(change(None, delete(alloc, words)?)),
        "set" => Ok(change(None, set(alloc, words)?)),
        "import" => import(alloc, words),
        "stored" => Ok(Event::StoreRows {
            key: name(alloc, words)?,
            labels: Choice::All,
        }),
        "rows" => rows(alloc, words),
        "list" => list(alloc, words),
        "exists" => Ok(Event::Exists {
            graph: tag(alloc, words)?,
        }),
        "drop" => drop_graph(alloc, words, true),
        "discard" => drop_graph(alloc, words, false),
        "terminate" => Ok(Event::Terminate {
            job: tag(alloc, words)?,
        }),
        "jobs" => Ok(Event::Jobs),
        _ => Err(Stop::Row),
    }
}

/// Every node, under one projected label, with the key `d`.
pub(crate) fn every_node(alloc: Global) -> Result<MakeSpec, Stop>
    ensures { IfOk result (λ spec. spec ≡ every_node (codes "d")) }
{
    let prop = NodeProp {
        key: name(alloc, "d")?,
        store: name(alloc, "d")?,
        default: None,
    };
    let entry = NodeEntry {
        label: name(alloc, "A")?,
        store: None,
        props: List::from_vec(Vec::from_array(alloc, [prop])?),
    };
    Ok(MakeSpec::Native(ProjectSpec {
        nodes: List::from_vec(Vec::from_array(alloc, [entry])?),
        rels: List::new(alloc),
    }))
}

/// A name that may be given to a job, or none.
pub(crate) fn job_name(alloc: Global, text: Option<&str>) -> Result<Option<Tag>, Stop>
    ensures { IfOk result IsGivenName }
{
    let Some(text) = text else {
        return Ok(None);
    };
    let name = tag(alloc, text)?;
    if name.bytes().starts_with(b"job-") {
        return Err(Stop::Row);
    }
    Ok(Some(name))
}

// A store, and what it is projected to.
ghost use Rattle.std.specs.Prelude.{◌<◌, IfOk};
ghost use Rattle.std.specs.List.{AllByRecursion};
ghost use Rattle.graph_model.specs.Change.{IsDistinctNode, IsDistinctRel, IsWellFormedChange};
ghost use Rattle.projection_spec.specs.Fields.{HasAscendingRelKeys};

use crate::clock::Meter;
use crate::graph::Draws;
use crate::stop::Stop;
use crate::told::tell;
use graph_model::{Change, List, Mem, Name, NewNode, NewRel, Place, Prop, PropertyGraph, TryClone};
use graph_store::{Snapshot, Store};
use native_projection::project;
use projection_spec::{NodeEntry, Orientation, ProjectSpec, RelEntry, RelProp, Rule};
use std::alloc::Global;
use std::time::Instant;

// How many relationships are made at once.
const PIECE: u32 = 65_536;

/// Makes a store of the nodes and the arcs of a graph, an arc a relationship. Then projects it: every node, and the
/// relationships both ways with their values.
pub(crate) fn run(rt: &HostRuntime, nodes: u32, rels: u32, meter: &Meter) -> Result<(), Stop> {
    if nodes == 0 {
        return Err(Stop::Limit);
    }
    let from = store_of(rt.alloc(), nodes, rels)?;
    let spec = both_ways(rt.alloc())?;
    project_whole(rt, &from, &spec, meter)
}

// Projects a store, and tells of the rows of each type.
fn project_whole(
    rt: &HostRuntime,
    from: &Snapshot,
    spec: &ProjectSpec,
    meter: &Meter,
) -> Result<(), Stop> {
    let start = Instant::now(rt)?;
    let graph = project(rt.alloc(), from, spec, 1)?;
    meter.tell(rt, "project", start)?;
    for kind in graph.types() {
        tell(rt, "project", kind.arcs.get())?;
    }
    Ok(())
}

/// A store of so many nodes and relationships.
pub(crate) fn store_of(alloc: Global, nodes: u32, rels: u32) -> Result<Snapshot, Stop>
    requires { 0 < nodes }
{
    let mut store = empty_store(alloc)?;
    make_nodes(alloc, &mut store, nodes)?;
    make_rels(alloc, &mut store, nodes, rels)?;
    Ok(store.snapshot()?)
}

// Makes nodes with neither labels nor values.
fn make_nodes(alloc: Global, store: &mut Store, nodes: u32) -> Result<(), Stop> {
    let change = bare_nodes(alloc, nodes)?;
    make(alloc, store, &change)
}

// Makes relationships, some at a time.
fn make_rels(alloc: Global, store: &mut Store, nodes: u32, rels: u32) -> Result<(), Stop>
    requires { 0 < nodes }
{
    let names = read_names(alloc)?;
    let mut draws = Draws::new();
    let mut left = rels;
    for _piece in 0..rels.div_ceil(PIECE) {
        let count = left.min(PIECE);
        make_some(alloc, store, &mut draws, nodes, count, &names)?;
        left -= count;
    }
    Ok(())
}

// Makes relationships by the next draws.
fn make_some(
    alloc: Global,
    store: &mut Store,
    draws: &mut Draws,
    nodes: u32,
    count: u32,
    names: &Names,
) -> Result<(), Stop>
    requires { 0 < nodes }
{
    let change = some_rels(alloc, draws, nodes, count, names)?;
    make(alloc, store, &change)
}

// The type of the relationships, and the key of their values.
#[derive(Drop)]
struct Names {
    kind: Name,
    key: Name,
}

fn read_names(alloc: Global) -> Result<Names, Stop> {
    let kind = Name::read(alloc, b"R")?;
    let key = Name::read(alloc, b"w")?;
    Ok(Names { kind, key })
}

// A store with nothing in it.
fn empty_store(alloc: Global) -> Result<Store, Mem> {
    let nothing = PropertyGraph {
        nodes: List::new(alloc),
        rels: List::new(alloc),
        next_node: 0,
        next_rel: 0,
    };
    Store::of(alloc, nothing)
}

// Makes a change.
fn make(alloc: Global, store: &mut Store, change: &Change) -> Result<(), Stop>
    requires { IsWellFormedChange change.now }
{
    let made = store.prepare(alloc, change)?;
    store.apply(made);
    Ok(())
}

// The making of nodes with neither labels nor values.
fn bare_nodes(alloc: Global, count: u32) -> Result<Change, Mem>
    ensures { IfOk result IsWellFormedChange }
{
    let mut nodes = Vec::with_capacity(alloc, count as usize)?;
    for _node in 0..count {
        nodes.push(NewNode {
            labels: List::new(alloc),
            props: List::new(alloc),
        })?;
    }
    Ok(Change::Create {
        nodes: List::from_vec(nodes),
        rels: List::new(alloc),
    })
}

// The making of relationships by the next draws.
fn some_rels(
    alloc: Global,
    draws: &mut Draws,
    nodes: u32,
    count: u32,
    names: &Names,
) -> Result<Change, Mem>
    requires { 0 < nodes }
    ensures { IfOk result IsWellFormedChange }
{
    let mut rels = Vec::with_capacity(alloc, count as usize)?;
    for _rel in 0..count {
        rels.push(rel(alloc, draws, nodes, names)?)?;
    }
    Ok(Change::Create {
        nodes: List::new(alloc),
        rels: List::from_vec(rels),
    })
}

// A relationship by the next draws.
fn rel(alloc: Global, draws: &mut Draws, nodes: u32, names: &Names) -> Result<NewRel, Mem>
    requires { 0 < nodes }
    ensures { IfOk result (IsDistinctRel 0) }
{
    let source = Place::Old(draws.node(nodes));
    let target = Place::Old(draws.node(nodes));
    let mut props = List::new(alloc);
    props.push(Prop {
        key: names.key.try_clone()?,
        value: draws.value(),
    })?;
    Ok(NewRel {
        source,
        target,
        kind: names.kind.try_clone()?,
        props,
    })
}

// Every node, and the relationships both ways with their values.
fn both_ways(alloc: Global) -> Result<ProjectSpec, Stop> {
    let mut nodes = List::new(alloc);
    nodes.push(NodeEntry {
        label: Name::read(alloc, b"__ALL__")?,
        store: None,
        props: List::new(alloc),
    })?;
    let mut rels = List::new(alloc);
    rels.push(weighed(alloc)?)?;
    Ok(ProjectSpec { nodes, rels })
}

// The relationships of the type, both ways with their values.
fn weighed(alloc: Global) -> Result<RelEntry, Stop>
    ensures { IfOk result HasAscendingRelKeys }
{
    let mut props = List::new(alloc);
    props.push(RelProp {
        key: Name::read(alloc, b"w")?,
        store: Some(Name::read(alloc, b"w")?),
        default: None,
        rule: Rule::Keep,
    })?;
    Ok(RelEntry {
        kind: Name::read(alloc, b"R")?,
        store: Some(Name::read(alloc, b"R")?),
        orientation: Orientation::Undirected,
        grouped: false,
        props,
    })
}

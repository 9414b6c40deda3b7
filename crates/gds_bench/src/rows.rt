// Rows of arcs: built, reversed and viewed.
ghost use Rattle.std.specs.Prelude.{◌≡◌, ◌+◌, ◌<◌, ◌≤◌, length, map, All, IfOk, OnOk};
ghost use Rattle.graph_model.specs.Lists.{Pairwise};
ghost use Rattle.graph_model.specs.Names.{IsBefore};
ghost use Rattle.graph_model.specs.Projection.{most_arcs};
ghost use Rattle.csr_columns.specs.Parts.{HasNodes, arcs_in, arcs_in_rows, kind_of};

use crate::clock::Meter;
use crate::graph;
use crate::stop::Stop;
use crate::told::tell;
use csr_columns::{Csr, Parts, Projection, TypeColumns, View};
use graph_model::{Choice, List, Name, Orientation, Shared, TryClone};
use std::alloc::Global;
use std::time::Instant;

const MOST_NODES: u32 = 4_194_304;

const MOST_ARCS: u32 = 67_108_864;

/// Reverses rows that have half of the arcs of a graph both ways. Then builds the rows of the graph, reverses them, and takes
/// the views of all nodes: of one type with these rows, and of two.
pub(crate) fn run(rt: &HostRuntime, nodes: u32, arcs: u32, meter: &Meter) -> Result<(), Stop> {
    if nodes == 0 {
        return Err(Stop::Limit);
    }
    let arcs = graph::sorted_arcs(rt.alloc(), nodes, arcs)?;
    mirror(rt, nodes, graph::both_ways(rt.alloc(), &arcs)?, meter)?;
    let rows = rows_of(rt, "build", nodes, arcs, meter)?;
    reverse(rt, "reverse", &rows, meter)?;
    views(rt, &Shared::new(rt.alloc(), rows)?, meter)
}

// The reverse of rows that are their own.
fn mirror(
    rt: &HostRuntime,
    nodes: u32,
    arcs: Vec<(u32, u32, i64)>,
    meter: &Meter,
) -> Result<(), Stop> {
    let rows = rows_of(rt, "both", nodes, arcs, meter)?;
    reverse(rt, "mirror", &rows, meter)
}

/// The rows of arcs that ascend, each with its value.
pub(crate) fn rows_of(
    rt: &HostRuntime,
    work: &str,
    nodes: u32,
    arcs: Vec<(u32, u32, i64)>,
    meter: &Meter,
) -> Result<Csr, Stop> {
    let (ends, values) = graph::apart(rt.alloc(), &arcs)?;
    drop(arcs);
    build(rt, work, nodes, &ends, values, meter)
}

// The same of arcs and their values apart.
fn build(
    rt: &HostRuntime,
    work: &str,
    nodes: u32,
    ends: &[(u32, u32)],
    values: List<i64>,
    meter: &Meter,
) -> Result<Csr, Stop>
    requires { length values ≡ length ends.now }
{
    if !graph::ascend(ends) {
        return Err(Stop::Limit);
    }
    if !graph::lie_below(nodes, ends) {
        return Err(Stop::Limit);
    }
    let mut props = List::new(rt.alloc());
    props.push((Name::read(rt.alloc(), b"w")?, values))?;
    let start = Instant::now(rt)?;
    let csr = Csr::build(rt.alloc(), nodes, ends, props)?;
    meter.tell(rt, work, start)?;
    tell(rt, work, &csr)?;
    Ok(csr)
}

fn reverse(rt: &HostRuntime, work: &str, csr: &Csr, meter: &Meter) -> Result<(), Stop> {
    let start = Instant::now(rt)?;
    let reversed = csr.reverse(rt.alloc())?;
    meter.tell(rt, work, start)?;
    tell(rt, work, &reversed)
}

// The views of all nodes, and of one type or two with the same rows.
fn views(rt: &HostRuntime, rows: &Shared<Csr>, meter: &Meter) -> Result<(), Stop> {
    let nodes = within_limits(rows)?;
    let one = projection(rt.alloc(), nodes, one_type(rt.alloc(), rows)?)?;
    view(rt, "view", &one, meter)?;
    let two = projection(rt.alloc(), nodes, two_types(rt.alloc(), rows)?)?;
    view(rt, "merge", &two, meter)
}

// How many nodes there are, where a projection of two types with these rows is within the limits.
fn within_limits(rows: &Shared<Csr>) -> Result<u32, Stop>
    ensures nodes { IfOk result (λ nodes. (nodes ≡ length rows.now.rows) × (nodes ≤ MOST_NODES)) }
    ensures few { OnOk result (arcs_in_rows rows.now + arcs_in_rows rows.now ≤ most_arcs) }
{
    let nodes = rows.get().node_count();
    if nodes > MOST_NODES {
        return Err(Stop::Limit);
    }
    if rows.get().arc_count() > MOST_ARCS / 2 {
        return Err(Stop::Limit);
    }
    Ok(nodes)
}

// A type with these rows.
fn named_type(alloc: Global, name: &[u8], rows: &Shared<Csr>) -> Result<TypeColumns, Stop>
    ensures name { IfOk result (λ type. type.kind ≡ name.now) }
    ensures rows { IfOk result (λ type. type.arcs ≡ rows.now) }
{
    Ok(TypeColumns {
        kind: Name::read(alloc, name)?,
        orientation: Orientation::Natural,
        arcs: rows.try_clone()?,
    })
}

// One type.
fn one_type(alloc: Global, rows: &Shared<Csr>) -> Result<List<TypeColumns>, Stop>
    requires { arcs_in_rows rows.now + arcs_in_rows rows.now ≤ most_arcs }
    ensures names { IfOk result (λ types. Pairwise IsBefore (map kind_of types)) }
    ensures nodes { IfOk result (All (HasNodes (length rows.now.rows))) }
    ensures few { IfOk result (λ types. arcs_in types ≤ most_arcs) }
{
    let mut types = List::new(alloc);
    types.push(named_type(alloc, b"R", rows)?)?;
    Ok(types)
}

// Two types.
fn two_types(alloc: Global, rows: &Shared<Csr>) -> Result<List<TypeColumns>, Stop>
    requires { arcs_in_rows rows.now + arcs_in_rows rows.now ≤ most_arcs }
    ensures names { IfOk result (λ types. Pairwise IsBefore (map kind_of types)) }
    ensures nodes { IfOk result (All (HasNodes (length rows.now.rows))) }
    ensures few { IfOk result (λ types. arcs_in types ≤ most_arcs) }
{
    let mut types = List::new(alloc);
    types.push(named_type(alloc, b"R", rows)?)?;
    types.push(named_type(alloc, b"S", rows)?)?;
    Ok(types)
}

// The projection of nodes from 0 on, without labels and keys, and of some types.
fn projection(alloc: Global, nodes: u32, types: List<TypeColumns>) -> Result<Projection, Stop>
    requires few_nodes { nodes ≤ MOST_NODES }
    requires names { Pairwise IsBefore (map kind_of types) }
    requires rows { All (HasNodes nodes) types }
    requires few_arcs { arcs_in types ≤ most_arcs }
{
    let parts = Parts {
        ids: graph::ids(alloc, nodes)?,
        labels: List::new(alloc),
        columns: List::new(alloc),
        types,
    };
    Ok(Projection::of(alloc, parts)?)
}

// The view of all nodes and all types, with weights.
fn view(rt: &HostRuntime, work: &str, projection: &Projection, meter: &Meter) -> Result<(), Stop> {
    let key = Name::read(rt.alloc(), b"w")?;
    let start = Instant::now(rt)?;
    let view = projection.view(rt.alloc(), &Choice::All, &Choice::All, Some(&key))?;
    meter.tell(rt, work, start)?;
    tell(rt, work, view.arcs())
}

/// The view of all nodes of these rows and of their one type, with weights where they are wanted.
pub(crate) fn one_view(alloc: Global, rows: &Shared<Csr>, weighted: bool) -> Result<View, Stop> {
    let nodes = within_limits(rows)?;
    let one = projection(alloc, nodes, one_type(alloc, rows)?)?;
    let key = Name::read(alloc, b"w")?;
    let key = if weighted { Some(&key) } else { None };
    Ok(one.view(alloc, &Choice::All, &Choice::All, key)?)
}

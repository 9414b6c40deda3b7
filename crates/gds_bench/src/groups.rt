// The relationships of a store, grouped by each rule.
use crate::clock::Meter;
use crate::project::store_of;
use crate::stop::Stop;
use csr_columns::Csr;
use graph_model::Name;
use graph_store::Snapshot;
use native_projection::project;
use projection_spec::ProjectSpec;
use serde_json::Value;
use std::alloc::Global;
use std::time::Instant;

// Each rule over the values of the relationships between two nodes, and over how many there are.
const RULES: &str =
    r#"{"R":{"properties":{"count":{"property":"*","aggregation":"COUNT"},"max":{"property":"w","aggregation":"MAX"},"min":{"property":"w","aggregation":"MIN"},"single":{"property":"w","aggregation":"SINGLE"},"sum":{"property":"w","aggregation":"SUM"}}}}"#;

/// Makes a store of the nodes and the arcs of a graph, and projects it to one arc for each two nodes between which
/// relationships lead, with a value by each rule.
pub(crate) fn run(rt: &HostRuntime, nodes: u32, rels: u32, meter: &Meter) -> Result<(), Stop> {
    if nodes == 0 {
        return Err(Stop::Limit);
    }
    let from = store_of(rt.alloc(), nodes, rels)?;
    let spec = grouped(rt.alloc())?;
    project_groups(rt, &from, &spec, meter)
}

// The specification, read from its JSON.
fn grouped(alloc: Global) -> Result<ProjectSpec, Stop> {
    let nodes = json(alloc, "\"*\"")?;
    let rels = json(alloc, RULES)?;
    let config = json(alloc, "{}")?;
    Ok(ProjectSpec::from_json(alloc, &nodes, &rels, &config)?)
}

fn json(alloc: Global, text: &str) -> Result<Value, Stop> {
    match Value::from_str(alloc, text) {
        Ok(value) => Ok(value),
        Err(_) => Err(Stop::Mem),
    }
}

// Projects a store, and tells of the values of each type.
fn project_groups(
    rt: &HostRuntime,
    from: &Snapshot,
    spec: &ProjectSpec,
    meter: &Meter,
) -> Result<(), Stop> {
    let start = Instant::now(rt)?;
    let graph = project(rt.alloc(), from, spec, 1)?;
    meter.tell(rt, "groups", start)?;
    for kind in graph.types() {
        tell_keys(rt, kind.arcs.get())?;
    }
    Ok(())
}

// Prints for each key how many arcs there are, and the sum of its values.
fn tell_keys(rt: &HostRuntime, csr: &Csr) -> Result<(), Stop> {
    for key in csr.keys() {
        let sum = total(csr, key);
        let key = str::from_utf8(key.bytes()).unwrap_or("?");
        println!(rt; "groups {key} {} {sum}", csr.arc_count())?;
    }
    Ok(())
}

// The sum of the values under a key.
fn total(csr: &Csr, key: &Name) -> i64 {
    let mut sum: i64 = 0;
    for v in 0..csr.node_count() {
        if let Some(values) = csr.prop(key, v) {
            for value in values {
                sum = sum.wrapping_add(*value);
            }
        }
    }
    sum
}

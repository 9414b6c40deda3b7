// The degrees of a view, in steps cut over workers.
ghost use Rattle.std.specs.Prelude.{◌≡◌, ◌≤◌, OnOk};
ghost use Rattle.par_degree.specs.Runs.{left};

use crate::clock::Meter;
use crate::graph;
use crate::rows::{one_view, rows_of};
use crate::stop::Stop;
use crate::workers::Workers;
use csr_columns::View;
use gds_causes::{OpenGate, Turned};
use graph_model::{Column, Mem, Shared, TryClone};
use par_degree::DegreeRun;
use std::thread::Threads;
use std::time::Instant;

/// Finds how many arcs lead from each node of a graph, and the sums of their weights, by 1, 2, 3 and 64 workers.
pub(crate) fn run<R: Threads + Sync>(
    rt: &HostRuntime,
    threads: &R,
    nodes: u32,
    arcs: u32,
    meter: &Meter,
) -> Result<(), Stop> {
    if nodes == 0 {
        return Err(Stop::Limit);
    }
    let arcs = graph::sorted_arcs(rt.alloc(), nodes, arcs)?;
    let rows = Shared::new(rt.alloc(), rows_of(rt, "arcs", nodes, arcs, meter)?)?;
    by_all(
        rt,
        threads,
        "degrees",
        one_view(rt.alloc(), &rows, false)?,
        meter,
    )?;
    by_all(
        rt,
        threads,
        "weights",
        one_view(rt.alloc(), &rows, true)?,
        meter,
    )
}

fn by_all<R: Threads + Sync>(
    rt: &HostRuntime,
    threads: &R,
    work: &str,
    view: View,
    meter: &Meter,
) -> Result<(), Stop> {
    let view = Shared::new(rt.alloc(), view)?;
    by(rt, work, &view, &Workers { threads, count: 1 }, meter)?;
    by(rt, work, &view, &Workers { threads, count: 2 }, meter)?;
    by(rt, work, &view, &Workers { threads, count: 3 }, meter)?;
    by(rt, work, &view, &Workers { threads, count: 64 }, meter)
}

// The degrees by so many workers, and how long all steps took.
fn by<R: Threads + Sync>(
    rt: &HostRuntime,
    work: &str,
    view: &Shared<View>,
    workers: &Workers<'_, R>,
    meter: &Meter,
) -> Result<(), Stop> {
    let mut run = DegreeRun::start(rt.alloc(), view.try_clone()?)?;
    let start = Instant::now(rt)?;
    let steps = until_done(&mut run, workers)?;
    meter.tell_by(rt, work, workers.count, start)?;
    let column = run.finish(rt.alloc())?;
    println!(rt; "{work} {} {steps} {}", workers.count, digest(&column))?;
    Ok(())
}

// Steps until no node is left. Answers how many.
fn until_done<R: Threads + Sync>(run: &mut DegreeRun, workers: &Workers<'_, R>) -> Result<u32, Mem>
    ensures { OnOk result (left run.new ≡ 0) }
{
    let mut steps: u32 = 0;
    loop {
        let turned = run.advance(workers.threads, workers.count, &OpenGate)?;
        steps = steps.saturating_add(1);
        if let Turned::Done = turned {
            return Ok(steps);
        }
    }
}

// A number that the ids and the degrees of nodes make, in their order.
fn digest(column: &Column) -> u64 {
    let mut sum: u64 = 0;
    for id in column.ids.as_slice() {
        sum = sum.wrapping_mul(31).wrapping_add(u64::from(*id));
    }
    for value in column.values.as_slice() {
        sum = sum.wrapping_mul(31).wrapping_add(value.unsigned_abs());
    }
    sum
}

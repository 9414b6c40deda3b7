// Rounds over the arcs of a graph, by several numbers of workers.
ghost use Rattle.std.specs.Prelude.{◌≡◌, ◌≤◌, length, IfOk};
ghost use Rattle.round_engine.specs.Columns.{NowhereGreater};

use crate::clock::Meter;
use crate::graph;
use crate::least::Least;
use crate::rows::rows_of;
use crate::stop::Stop;
use crate::workers::Workers;
use gds_causes::{OpenGate, Turned};
use graph_model::{Mem, TryClone};
use round_engine::{Kernel, Rounds};
use std::alloc::Global;
use std::thread::Threads;
use std::time::Instant;

/// Lowers values along the arcs of a graph, by 1, 2, 3, 4 and 64 workers: round by round until none falls, once more from the
/// values that don't fall, and round by round again after one was lowered by hand.
pub(crate) fn run<R: Threads + Sync>(
    rt: &HostRuntime,
    threads: &R,
    nodes: u32,
    arcs: u32,
    meter: &Meter,
) -> Result<(), Stop> {
    if nodes == 0 {
        return Err(Stop::Limit);
    }
    let arcs = graph::sorted_arcs(rt.alloc(), nodes, arcs)?;
    let rows = rows_of(rt, "arcs", nodes, arcs, meter)?;
    let kernel = Least::over(rt.alloc(), rows)?;
    by(rt, &kernel, &Workers { threads, count: 1 }, meter)?;
    by(rt, &kernel, &Workers { threads, count: 2 }, meter)?;
    by(rt, &kernel, &Workers { threads, count: 3 }, meter)?;
    by(rt, &kernel, &Workers { threads, count: 4 }, meter)?;
    by(rt, &kernel, &Workers { threads, count: 64 }, meter)
}

// The rounds by so many workers.
fn by<R: Threads + Sync>(
    rt: &HostRuntime,
    kernel: &Least,
    workers: &Workers<'_, R>,
    meter: &Meter,
) -> Result<(), Stop> {
    let first = ascending(rt.alloc(), kernel.len())?;
    let mut rounds = Rounds::start(rt.alloc(), kernel.try_clone()?, first)?;
    timed_round(rt, "full", &mut rounds, workers, meter)?;
    until_done(rt, &mut rounds, workers)?;
    again(rt, &rounds, workers, meter)?;
    let lowered = with_least_at_end(rt.alloc(), rounds.column())?;
    rounds.lower(&lowered);
    until_done(rt, &mut rounds, workers)
}

// A round of all places, from values that don't fall.
fn again<R: Threads + Sync>(
    rt: &HostRuntime,
    rounds: &Rounds<Least>,
    workers: &Workers<'_, R>,
    meter: &Meter,
) -> Result<(), Stop> {
    let column = Vec::from_slice(rt.alloc(), rounds.column())?;
    let mut again = Rounds::start(rt.alloc(), rounds.kernel().try_clone()?, column)?;
    timed_round(rt, "again", &mut again, workers, meter)
}

// One round, and how long it took.
fn timed_round<R: Threads + Sync>(
    rt: &HostRuntime,
    work: &str,
    rounds: &mut Rounds<Least>,
    workers: &Workers<'_, R>,
    meter: &Meter,
) -> Result<(), Stop> {
    let start = Instant::now(rt)?;
    let turned = rounds.advance(workers.threads, workers.count, &OpenGate);
    meter.tell_by(rt, work, workers.count, start)?;
    tell(rt, work, workers.count, turned, rounds.column())
}

// Rounds until no value falls.
fn until_done<R: Threads + Sync>(
    rt: &HostRuntime,
    rounds: &mut Rounds<Least>,
    workers: &Workers<'_, R>,
) -> Result<(), Stop> {
    loop {
        let turned = rounds.advance(workers.threads, workers.count, &OpenGate);
        tell(rt, "rounds", workers.count, turned, rounds.column())?;
        if let Turned::Done = turned {
            return Ok(());
        }
    }
}

// Prints what a round answered, and a number that the values after it make.
fn tell(
    rt: &HostRuntime,
    work: &str,
    workers: u32,
    turned: Turned,
    column: &[u64],
) -> Result<(), Stop> {
    let answer = match turned {
        Turned::More => "more",
        Turned::Done => "done",
    };
    println!(rt; "{work} {workers} {answer} {}", digest(column))?;
    Ok(())
}

// A number that values make, in their order.
fn digest(column: &[u64]) -> u64 {
    let mut sum: u64 = 0;
    for value in column {
        sum = sum.wrapping_mul(31).wrapping_add(*value);
    }
    sum
}

// So many values, from 1 on.
fn ascending(alloc: Global, count: u32) -> Result<Vec<u64>, Mem>
    ensures { IfOk result (λ values. length values.items ≡ count) }
{
    let mut values = Vec::with_capacity(alloc, count as usize)?;
    for place in 0..count {
        values.push(u64::from(place) + 1)?;
    }
    Ok(values)
}

// The values, the last of them 0.
fn with_least_at_end(alloc: Global, column: &[u64]) -> Result<Vec<u64>, Mem>
    ensures long { IfOk result (λ values. length values.items ≡ length column.now) }
    ensures lower { IfOk result (λ values. NowhereGreater values.items column.now) }
{
    let mut values = Vec::from_slice(alloc, column)?;
    if let Some(last) = values.last_mut() {
        *last = 0;
    }
    Ok(values)
}

//! Pieces of work to be timed, each on a graph by a fixed recurrence.
//!
//! The words are cases, each with a number of nodes and of arcs, and perhaps `times` behind them: `rows` for rows of arcs,
//! `project` for a projection of a store, `groups` for one that groups arcs by each rule, `rounds` for rounds over arcs,
//! `frontiers` for rounds over a frontier of one node (its second number is how many), `degrees` for the degrees of a view. The
//! results go to standard output. With `times` the microseconds of each call go to standard error, by a clock around the call
//! alone; a file in `bench/` runs the same work in plain Rust beside it. Nothing is claimed of a case but that it is safe and
//! returns.
#![tactic(auto)]

mod clock;
mod degrees;
mod falling;
mod frontiers;
mod graph;
mod groups;
mod least;
mod project;
mod rounds;
mod rows;
mod stop;
mod told;
mod workers;

use crate::clock::Meter;
use crate::stop::Stop;
use graph_model::List;
use std::env;
use std::process::ExitCode;
use std::thread::Threads;

/// A piece of work.
#[derive(Clone, Copy, Debug, PartialEq, Eq)]
enum Work {
    Rows,
    Project,
    Groups,
    Rounds,
    Frontiers,
    Degrees,
}

/// A piece of work, and the size of its graph.
#[derive(Clone, Copy, Debug, PartialEq, Eq)]
struct Case {
    work: Work,
    nodes: u32,
    arcs: u32,
}

/// What the words ask for.
#[derive(Drop)]
struct Plan {
    cases: List<Case>,
    meter: Meter,
}

// Reads the words: `CASE NODES ARCS` for each case, and perhaps `times` behind them.
fn read_words(rt: &HostRuntime) -> Result<Plan, Stop> {
    let mut words = List::new(rt.alloc());
    for word in env::args(rt)?.skip(1) {
        words.push(word)?;
    }
    let mut cases = List::new(rt.alloc());
    let mut on = false;
    for group in words.as_slice().chunks(3) {
        match group {
            [work, nodes, arcs] => cases.push(read_case(work, nodes, arcs)?)?,
            [last] if last.as_str() == "times" => on = true,
            _ => return Err(Stop::Words),
        }
    }
    Ok(Plan {
        cases,
        meter: Meter { on },
    })
}

fn read_case(work: &str, nodes: &str, arcs: &str) -> Result<Case, Stop> {
    let work = match work {
        "rows" => Work::Rows,
        "project" => Work::Project,
        "groups" => Work::Groups,
        "rounds" => Work::Rounds,
        "frontiers" => Work::Frontiers,
        "degrees" => Work::Degrees,
        _ => return Err(Stop::Words),
    };
    Ok(Case {
        work,
        nodes: number(nodes)?,
        arcs: number(arcs)?,
    })
}

fn number(word: &str) -> Result<u32, Stop> {
    match word.parse::<u32>() {
        Ok(number) => Ok(number),
        Err(_) => Err(Stop::Words),
    }
}

fn main(rt: HostRuntime) -> ExitCode {
    match run(&rt, &rt) {
        Ok(()) => ExitCode::SUCCESS,
        Err(stop) => ExitCode::from(stop.status()),
    }
}

fn run<R: Threads + Sync>(rt: &HostRuntime, threads: &R) -> Result<(), Stop> {
    let plan = read_words(rt)?;
    for case in plan.cases.as_slice() {
        match case.work {
            Work::Rows => rows::run(rt, case.nodes, case.arcs, &plan.meter)?,
            Work::Project => project::run(rt, case.nodes, case.arcs, &plan.meter)?,
            Work::Groups => groups::run(rt, case.nodes, case.arcs, &plan.meter)?,
            Work::Rounds => rounds::run(rt, threads, case.nodes, case.arcs, &plan.meter)?,
            Work::Frontiers => frontiers::run(rt, threads, case.nodes, case.arcs, &plan.meter)?,
            Work::Degrees => degrees::run(rt, threads, case.nodes, case.arcs, &plan.meter)?,
        }
    }
    Ok(())
}

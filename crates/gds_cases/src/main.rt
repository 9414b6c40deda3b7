//! Rows of cases, each a text that says what is asked and what it should give: `CASE ASKED => WANTED`.
//!
//! The words name files of rows; without words standard input holds them. `spec.rt` reads projections from JSON,
//! `catalog.rt` keeps, finds and widens named graphs, `stores.rt` changes and asks a store, `projections.rt` projects it,
//! and `answers.rt` writes replies and refusals. Each file begins with an empty store and no graphs. Standard output gets
//! how many rows there were, and each row that gives something else. Nothing is claimed of this program but that it is safe
//! and returns.
#![tactic(auto)]

mod answers;
mod catalog;
mod projections;
mod refusals;
mod spec;
mod stop;
mod stores;
mod words;

use crate::stop::Stop;
use crate::stores::Stores;
use std::alloc::Global;
use std::process::ExitCode;
use std::{env, fs, io};
use user_catalog::Catalog;

/// How many rows were tried, and how many of them gave something else.
#[derive(Clone, Copy, Debug, PartialEq, Eq)]
struct Count {
    rows: u64,
    differ: u64,
}

/// What the rows of a file are tried on.
#[derive(Drop)]
struct Cases {
    catalog: Catalog,
    stores: Stores,
}

// What a row gives.
fn given(alloc: Global, cases: &mut Cases, asked: &str) -> Result<String, Stop> {
    let (case, asked) = asked.split_once(" ").unwrap_or((asked, ""));
    match case {
        "spec" => spec::given(alloc, asked),
        "catalog" => catalog::given(alloc, &mut cases.catalog, asked),
        "store" => cases.stores.given(alloc, asked),
        "project" => cases.stores.project(alloc, asked),
        "answer" => answers::given(alloc, &cases.stores, asked),
        _ => Err(Stop::Row),
    }
}

// Compares what a row gives with what it wants.
fn judge(rt: &HostRuntime, cases: &mut Cases, row: &str, count: &mut Count) -> Result<(), Stop> {
    let Some((asked, wanted)) = row.split_once(" => ") else {
        return Err(Stop::Row);
    };
    let given = given(rt.alloc(), cases, asked)?;
    count.rows = count.rows.saturating_add(1);
    if given.as_str().trim_end() != wanted {
        count.differ = count.differ.saturating_add(1);
        println!(rt; "{asked} gives {given}, not {wanted}")?;
    }
    Ok(())
}

// An empty store, and no graphs.
fn new_cases(alloc: Global) -> Result<Cases, Stop> {
    Ok(Cases {
        catalog: Catalog::new(alloc),
        stores: Stores::new(alloc)?,
    })
}

// Tries the rows of a text. Empty lines and comments are passed over.
fn judge_all(
    rt: &HostRuntime,
    cases: &mut Cases,
    text: &str,
    count: &mut Count,
) -> Result<(), Stop> {
    for row in text.lines() {
        if row.is_empty() || row.starts_with("#") {
            continue;
        }
        if let Err(why) = judge(rt, cases, row, count) {
            eprintln!(rt; "gds_cases: the program ended at this row: {row}")?;
            return Err(why);
        }
    }
    Ok(())
}

// Tries the rows of a text on an empty store and no graphs, and counts them.
fn judge_text(rt: &HostRuntime, text: &str) -> Result<Count, Stop> {
    let mut count = Count { rows: 0, differ: 0 };
    let mut cases = new_cases(rt.alloc())?;
    let judged = judge_all(rt, &mut cases, text, &mut count);
    drop(cases);
    match judged {
        Ok(()) => Ok(count),
        Err(why) => Err(why),
    }
}

// Tries the rows of a text, and prints how many there were.
fn tell(rt: &HostRuntime, name: &str, text: &str) -> Result<(), Stop> {
    let count = judge_text(rt, text)?;
    println!(rt;
        "{name}: rows {}, rows that differ {}",
        count.rows, count.differ
    )?;
    Ok(())
}

fn run(rt: &HostRuntime) -> Result<(), Stop> {
    let mut words = 0u64;
    for word in env::args(rt)?.skip(1) {
        words = words.saturating_add(1);
        let text = fs::read_to_string(rt, word.as_str())?;
        tell(rt, word.as_str(), text.as_str())?;
    }
    if words == 0 {
        let text = io::read_to_string(rt.alloc(), rt.stdin())?;
        tell(rt, "standard input", text.as_str())?;
    }
    Ok(())
}

fn main(rt: HostRuntime) -> ExitCode {
    match run(&rt) {
        Ok(()) => ExitCode::SUCCESS,
        Err(stop) => ExitCode::from(stop.status()),
    }
}

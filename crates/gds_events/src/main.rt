//! Rows of events on desks: `USER VERB WORDS => ANSWER`, each an event of a user and the text of its answer.
//!
//! The words name files of rows; without words standard input holds them. A line `desk`, `desk admin NAME` or `desk fails
//! NUMBER` begins a new desk, with an administrator or none, whose keeper fails at the commit of that number; `desk over
//! VALUE` and `desk opened VALUE` begin one over a node with a value under `d`, whose keeper is given that, or comes from an
//! opener. Standard output gets how many rows there were, and each row that is answered otherwise. `session.rt` keeps that
//! the job it began last goes on, so that what it hands in is what the desk asks for; else nothing is claimed of this
//! program but that it is safe and returns.
#![tactic(auto)]

mod event;
mod keepers;
mod session;
mod stop;

use crate::session::Session;
use crate::stop::Stop;
use graph_model::{List, Tag};
use std::alloc::Global;
use std::process::ExitCode;
use std::{env, fs, io};
use store_keeper::MemKeeper;

/// How many rows were tried, and how many of them were answered otherwise.
#[derive(Clone, Copy, Debug, PartialEq, Eq)]
struct Count {
    rows: u64,
    differ: u64,
}

// The administrator whom a line names behind `admin`, or none.
fn admin_in(alloc: Global, words: &str) -> Result<Option<Tag>, Stop> {
    match words.split_once(" admin ") {
        Some((_, name)) => Ok(Some(event::tag(alloc, name)?)),
        None => Ok(None),
    }
}

// The commit that a line says fails, behind `fails`, or none.
fn fails_in(alloc: Global, words: &str) -> Result<Vec<u64>, Stop> {
    match words.split_once(" fails ") {
        Some((_, commit)) => Ok(vec![in alloc; event::number(commit)?]?),
        None => Ok(Vec::new(alloc)),
    }
}

// A desk as a line asks for it: ` over VALUE`, ` opened VALUE`, ` fails NUMBER` and ` admin NAME` may stand there.
fn start(alloc: Global, words: &str) -> Result<Session<MemKeeper>, Stop> {
    let fails = fails_in(alloc, words)?;
    if let Some((_, node)) = words.split_once(" over ") {
        return keepers::over_node(alloc, first_word(node), fails);
    }
    if let Some((_, node)) = words.split_once(" opened ") {
        return keepers::opened(alloc, first_word(node), fails);
    }
    let admin = admin_in(alloc, words)?;
    keepers::over_nothing(alloc, admin, fails)
}

// What stands before the first blank.
fn first_word(words: &str) -> &str {
    let (word, _) = words.split_once(" ").unwrap_or((words, ""));
    word
}

// What `USER VERB WORDS` is answered with.
fn answer(alloc: Global, session: &mut Session<MemKeeper>, asked: &str) -> Result<List<u8>, Stop> {
    let Some((user, asked)) = asked.split_once(" ") else {
        return Err(Stop::Row);
    };
    let (verb, words) = asked.split_once(" ").unwrap_or((asked, ""));
    let user = event::tag(alloc, user)?;
    session.answer(alloc, user, verb, words)
}

// Compares an answer with what is wanted.
fn compare(rt: &HostRuntime, asked: &str, given: &[u8], wanted: &str) -> Result<bool, Stop> {
    let given = str::from_utf8(given).unwrap_or("?");
    if given == wanted {
        return Ok(true);
    }
    println!(rt; "{asked} gives {given}, not {wanted}")?;
    Ok(false)
}

// Compares what a row is answered with with what it wants.
fn judge(
    rt: &HostRuntime,
    session: &mut Session<MemKeeper>,
    row: &str,
    count: &mut Count,
) -> Result<(), Stop> {
    let Some((asked, wanted)) = row.split_once(" => ") else {
        return Err(Stop::Row);
    };
    let given = answer(rt.alloc(), session, asked)?;
    count.rows = count.rows.saturating_add(1);
    if !compare(rt, asked, given.as_slice(), wanted)? {
        count.differ = count.differ.saturating_add(1);
    }
    Ok(())
}

// Tries the rows of a desk. Empty lines and comments are passed over.
fn judge_rows(
    rt: &HostRuntime,
    session: &mut Session<MemKeeper>,
    rows: &str,
    count: &mut Count,
) -> Result<(), Stop> {
    for row in rows.lines() {
        if row.is_empty() || row.starts_with("#") {
            continue;
        }
        if let Err(why) = judge(rt, session, row, count) {
            eprintln!(rt; "gds_events: the program ended at this row: {row}")?;
            return Err(why);
        }
    }
    Ok(())
}

// Tries the rows behind the words of a desk.
fn judge_desk(rt: &HostRuntime, text: &str, count: &mut Count) -> Result<(), Stop> {
    let (words, rows) = text.split_once("\n").unwrap_or((text, ""));
    let mut session = start(rt.alloc(), words)?;
    let judged = judge_rows(rt, &mut session, rows, count);
    drop(session);
    judged
}

// Tries the rows of a text, desk after desk.
fn judge_all(rt: &HostRuntime, text: &str, count: &mut Count) -> Result<(), Stop> {
    for desk in text.split("\ndesk") {
        judge_desk(rt, desk.strip_prefix("desk").unwrap_or(desk), count)?;
    }
    Ok(())
}

// Tries the rows of a text, and prints how many there were.
fn judge_text(rt: &HostRuntime, name: &str, text: &str) -> Result<(), Stop> {
    let mut count = Count { rows: 0, differ: 0 };
    judge_all(rt, text, &mut count)?;
    println!(rt;
        "{name}: rows {}, rows that differ {}",
        count.rows, count.differ
    )?;
    Ok(())
}

fn run(rt: &HostRuntime) -> Result<(), Stop> {
    let mut words = 0u64;
    for word in env::args(rt)?.skip(1) {
        words = words.saturating_add(1);
        let text = fs::read_to_string(rt, word.as_str())?;
        judge_text(rt, word.as_str(), text.as_str())?;
    }
    if words == 0 {
        let text = io::read_to_string(rt.alloc(), rt.stdin())?;
        judge_text(rt, "standard input", text.as_str())?;
    }
    Ok(())
}

fn main(rt: HostRuntime) -> ExitCode {
    match run(&rt) {
        Ok(()) => ExitCode::SUCCESS,
        Err(stop) => ExitCode::from(stop.status()),
    }
}

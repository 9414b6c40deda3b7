//! Scripts of lines and answers, on which `shell` and `run` are tried over sources, sinks, keepers and openers in memory.
//!
//! The words name files of scripts; without words standard input holds them. `script.rt` says what a script may hold. Each
//! is run as it stands, and a small one whose streams don't fail also in other pieces, and with each read, each write, each
//! flush and each commit failing in turn. Standard output gets a line a script: what was tried of it, or the first
//! difference from what it wants. Nothing is claimed of this program but that it is safe and returns.
#![tactic(auto)]

mod compare;
mod expand;
mod flush_sink;
mod head;
mod outcome;
mod script;
mod stop;
mod trial;

use crate::script::Script;
use crate::stop::Stop;
use crate::trial::{Tried, try_script};
use std::process::ExitCode;
use std::{env, fs, io};

/// How many scripts were tried, and how many of them differ.
#[derive(Clone, Copy, Debug, PartialEq, Eq)]
struct Count {
    scripts: u64,
    answers: u64,
    differ: u64,
}

// Tries a script, and prints what came of it.
fn judge(rt: &HostRuntime, script: &Script, count: &mut Count) -> Result<(), Stop> {
    let tried = try_script(rt.alloc(), script)?;
    count.scripts = count.scripts.saturating_add(1);
    count.answers = count.answers.saturating_add(script.answers());
    match &tried.difference {
        Some(difference) => {
            count.differ = count.differ.saturating_add(1);
            println!(rt; "{}: {}", script.name, difference)?;
        }
        None => tell(rt, script, &tried)?,
    }
    Ok(())
}

// Prints what was tried of a script that does as it says.
fn tell(rt: &HostRuntime, script: &Script, tried: &Tried) -> Result<(), Stop> {
    print!(rt; "{}: answers {}", script.name, script.answers())?;
    if script.is_small_and_calm() {
        print!(rt; "; failed in turn: reads {}", tried.reads)?;
        print!(rt; ", writes {}, flushes {}", tried.writes, tried.flushes)?;
        println!(rt; ", commits {}", tried.commits)?;
    } else {
        println!(rt; "")?;
    }
    Ok(())
}

// Tries the scripts of a text, one after another.
fn judge_all(rt: &HostRuntime, text: &str, count: &mut Count) -> Result<(), Stop> {
    let mut script = Script::new(rt.alloc());
    let mut number: u64 = 0;
    for line in text.lines() {
        number = number.saturating_add(1);
        match script.take_line(rt.alloc(), line) {
            Ok(false) => {}
            Ok(true) => {
                judge(rt, &script, count)?;
                script = Script::new(rt.alloc());
            }
            Err(Stop::Script) => {
                eprintln!(rt; "gds_scripts: line {number} is no line of a script: {line}")?;
                return Err(Stop::Script);
            }
            Err(why) => return Err(why),
        }
    }
    Ok(())
}

fn run(rt: &HostRuntime) -> Result<(), Stop> {
    let mut count = Count {
        scripts: 0,
        answers: 0,
        differ: 0,
    };
    let mut words = 0u64;
    for word in env::args(rt)?.skip(1) {
        words = words.saturating_add(1);
        let text = fs::read_to_string(rt, word.as_str())?;
        judge_all(rt, text.as_str(), &mut count)?;
    }
    if words == 0 {
        let text = io::read_to_string(rt.alloc(), rt.stdin())?;
        judge_all(rt, text.as_str(), &mut count)?;
    }
    println!(rt;
        "scripts {}, answers {}, scripts that differ {}",
        count.scripts, count.answers, count.differ
    )?;
    Ok(())
}

fn main(rt: HostRuntime) -> ExitCode {
    match run(&rt) {
        Ok(()) => ExitCode::SUCCESS,
        Err(stop) => ExitCode::from(stop.status()),
    }
}

//! The program `gds`: reads its words, runs the command over standard input and output, and ends with its status.
//!
//! What a command does is proved of `run` in gds_session. This crate is the edge: it fetches the words, lends the
//! standard streams, and prints why a command ended on standard error.
#![tactic(auto)]

use gds_causes::{StdSink, StdSource};
use gds_session::{End, run};
use graph_model::List;
use std::io::ErrorKind;
use std::process::ExitCode;
use std::{env, fmt};

/// As many bytes as a command reads at most.
const BUDGET: u64 = 1 << 40;

/// Standard error, as a writer of texts.
#[derive(Drop)]
struct StandardError<'a, R>(&'a R);

impl<R: Eprint> fmt::Write for StandardError<'_, R> {
    fn write_str(&mut self, text: &str) -> fmt::Result {
        match self.0.eprint(text) {
            Ok(()) => Ok(()),
            Err(_) => Err(fmt::Error),
        }
    }
}

// The words after the program's own name. A word that isn't UTF-8 is no word of a command.
fn words(rt: &HostRuntime) -> Result<List<List<u8>>, End> {
    let arguments = match env::args(rt) {
        Ok(arguments) => arguments,
        Err(why) if why.kind() == ErrorKind::InvalidData => return Err(End::BadWords),
        Err(_) => return Err(End::Mem),
    };
    let mut words = List::new(rt.alloc());
    for argument in arguments.skip(1) {
        if words.push(List::from_vec(argument.into_bytes())).is_err() {
            return Err(End::Mem);
        }
    }
    Ok(words)
}

fn command(rt: &HostRuntime) -> End {
    let words = match words(rt) {
        Ok(words) => words,
        Err(end) => return end,
    };
    let mut source = StdSource::new(rt.stdin());
    let mut sink = StdSink::new(rt.stdout());
    run(rt.alloc(), &words, &mut source, &mut sink, BUDGET)
}

fn main(rt: HostRuntime) -> ExitCode {
    let end = command(&rt);
    let _ = end.report(&mut StandardError(&rt));
    ExitCode::from(end.status())
}

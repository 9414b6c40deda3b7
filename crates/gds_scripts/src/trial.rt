// What is tried of a script.
use crate::compare::{difference, first_lines, flush_difference, opening_difference};
use crate::outcome::{Asking, Outcome, Streams, play};
use crate::script::Script;
use crate::stop::Stop;
use gds_session::End;
use graph_model::List;
use std::alloc::Global;

const STORE_FAULT: &[u8] = b"{\"refused\":{\"number\":28,\"code\":\"StoreFault\",\"batches\":0}}";

/// How many reads, writes, flushes and commits failed, each in a trial of its own, and the first difference.
#[derive(Drop)]
pub(crate) struct Tried {
    pub(crate) reads: u64,
    pub(crate) writes: u64,
    pub(crate) flushes: u64,
    pub(crate) commits: u64,
    pub(crate) difference: Option<String>,
}

/// Tries a script as it stands, and then, where it is small and its streams don't fail, in pieces of 1, 7 and 64 bytes and
/// with each read, each write, each flush and each commit failing.
pub(crate) fn try_script(alloc: Global, script: &Script) -> Result<Tried, Stop> {
    let mut tried = Tried {
        reads: 0,
        writes: 0,
        flushes: 0,
        commits: 0,
        difference: try_as_it_stands(alloc, script)?,
    };
    if script.is_small_and_calm() {
        try_pieces(alloc, script, &mut tried)?;
        try_reads(alloc, script, &mut tried)?;
        try_writes(alloc, script, &mut tried)?;
        try_flushes(alloc, script, &mut tried)?;
        try_commits(alloc, script, &mut tried)?;
    }
    Ok(tried)
}

// What comes of a script over some streams.
fn outcome_of(alloc: Global, script: &Script, streams: &Streams<'_>) -> Result<Outcome, Stop> {
    play(alloc, &script.asking(), streams)
}

// How a script differs over the streams that it says.
fn try_as_it_stands(alloc: Global, script: &Script) -> Result<Option<String>, Stop> {
    let outcome = outcome_of(alloc, script, &script.streams())?;
    match difference(alloc, script.wanted.as_slice(), script.end, &outcome)? {
        Some(text) => Ok(Some(text)),
        None => opening_difference(alloc, script.unopened.as_slice(), &outcome),
    }
}

// How a script differs over streams that don't fail.
fn try_once(alloc: Global, script: &Script, streams: &Streams<'_>) -> Result<Option<String>, Stop> {
    let outcome = outcome_of(alloc, script, streams)?;
    difference(alloc, script.wanted.as_slice(), script.end, &outcome)
}

// Keeps the first difference, behind the trial that showed it.
fn note(
    alloc: Global,
    tried: &mut Tried,
    trial: &str,
    number: u64,
    found: Option<String>,
) -> Result<(), Stop> {
    if tried.difference.is_some() {
        return Ok(());
    }
    if let Some(text) = found {
        tried.difference = Some(format!(in alloc; "{trial} {number}: {text}")?);
    }
    Ok(())
}

fn try_pieces(alloc: Global, script: &Script, tried: &mut Tried) -> Result<(), Stop> {
    for piece in [1u8, 7, 64] {
        let streams = Streams {
            piece: usize::from(piece),
            ..script.streams()
        };
        let found = try_once(alloc, script, &streams)?;
        note(alloc, tried, "in pieces of", u64::from(piece), found)?;
    }
    Ok(())
}

// The answers to the lines that are whole before a read.
fn answered_before(script: &Script, read: u64) -> &[u8] {
    if script.is_command() {
        return &[];
    }
    let come = read
        .saturating_sub(1)
        .saturating_mul(script.streams().piece as u64);
    let come = come.min(script.asked.len() as u64);
    let count = script
        .lines
        .iter()
        .filter(|line| line.end as u64 <= come)
        .count();
    first_lines(script.wanted.as_slice(), count)
}

fn try_reads(alloc: Global, script: &Script, tried: &mut Tried) -> Result<(), Stop> {
    for read in 1..u64::MAX {
        let reads = [read];
        let streams = Streams {
            reads: reads.as_slice(),
            ..script.streams()
        };
        let outcome = outcome_of(alloc, script, &streams)?;
        if !outcome.failed {
            return Ok(());
        }
        tried.reads = read;
        let wanted = answered_before(script, read);
        let found = difference(alloc, wanted, End::ReadFault, &outcome)?;
        note(alloc, tried, "where a read fails, read", read, found)?;
    }
    Ok(())
}

// How many bytes are written before a write, where each answer is written for itself in pieces.
fn written_before(script: &Script, write: u64) -> usize {
    let piece = script.streams().piece;
    let wanted = script.wanted.as_slice();
    let mut writes: u64 = 1;
    let mut taken: usize = 0;
    for (place, byte) in wanted.iter().enumerate() {
        if writes == write {
            return place;
        }
        taken = taken.saturating_add(1);
        if *byte == b'\n' || taken >= piece {
            writes = writes.saturating_add(1);
            taken = 0;
        }
    }
    wanted.len()
}

fn try_writes(alloc: Global, script: &Script, tried: &mut Tried) -> Result<(), Stop> {
    for write in 1..u64::MAX {
        let writes = [write];
        let streams = Streams {
            writes: writes.as_slice(),
            ..script.streams()
        };
        let outcome = outcome_of(alloc, script, &streams)?;
        if !outcome.failed {
            return Ok(());
        }
        tried.writes = write;
        let count = if script.is_command() {
            outcome.text.len().min(script.wanted.len())
        } else {
            written_before(script, write)
        };
        let wanted = script.wanted.get(..count).unwrap_or(&[]);
        let found = difference(alloc, wanted, End::WriteFault, &outcome)?;
        note(alloc, tried, "where a write fails, write", write, found)?;
    }
    Ok(())
}

// What is flushed before a flush and what is written then, where each answer is flushed for itself, and a command's text
// once.
fn around_flush(script: &Script, flush: u64) -> (&[u8], &[u8]) {
    let wanted = script.wanted.as_slice();
    if script.is_command() {
        return (&[], wanted);
    }
    let before = first_lines(wanted, flush.saturating_sub(1) as usize);
    (before, first_lines(wanted, flush as usize))
}

// How an outcome differs where a flush fails.
fn try_flush(
    alloc: Global,
    script: &Script,
    flush: u64,
    outcome: &Outcome,
) -> Result<Option<String>, Stop> {
    let (before, written) = around_flush(script, flush);
    match difference(alloc, written, End::WriteFault, outcome)? {
        Some(text) => Ok(Some(text)),
        None => flush_difference(alloc, before.len(), outcome),
    }
}

fn try_flushes(alloc: Global, script: &Script, tried: &mut Tried) -> Result<(), Stop> {
    for flush in 1..u64::MAX {
        let flushes = [flush];
        let streams = Streams {
            flushes: flushes.as_slice(),
            ..script.streams()
        };
        let outcome = outcome_of(alloc, script, &streams)?;
        if !outcome.failed {
            return Ok(());
        }
        tried.flushes = flush;
        let found = try_flush(alloc, script, flush, &outcome)?;
        note(alloc, tried, "where a flush fails, flush", flush, found)?;
    }
    Ok(())
}

// Which answer of a text is the fault of the store.
fn place_of_fault(text: &[u8]) -> Option<usize> {
    let text = str::from_utf8(text).unwrap_or("");
    text.lines().position(|line| line.as_bytes() == STORE_FAULT)
}

// What a script comes to without the line of this place.
fn outcome_without(alloc: Global, script: &Script, place: usize) -> Result<Outcome, Stop> {
    let mut asked = Vec::new(alloc);
    if let Some(line) = script.lines.get(place) {
        let bytes = script.asked.as_slice();
        asked.extend_from_slice(bytes.get(..line.start).unwrap_or(&[]))?;
        asked.extend_from_slice(bytes.get(line.end..).unwrap_or(&[]))?;
    }
    let parts = [asked.len()];
    let words = List::new(alloc);
    let asking = Asking {
        is_command: false,
        words: &words,
        bytes: asked.as_slice(),
        parts: parts.as_slice(),
    };
    play(alloc, &asking, &script.streams())
}

// A text whose line of this place is the fault, put in where it isn't.
fn with_fault(alloc: Global, text: &[u8], place: usize) -> Result<Vec<u8>, Stop> {
    let front = first_lines(text, place);
    let mut whole = Vec::from_slice(alloc, front)?;
    whole.extend_from_slice(STORE_FAULT)?;
    whole.push(b'\n')?;
    whole.extend_from_slice(text.get(front.len()..).unwrap_or(&[]))?;
    Ok(whole)
}

// A line whose commit fails is answered with the fault, and the lines before and behind it as if it weren't there.
fn try_commit(alloc: Global, script: &Script, outcome: &Outcome) -> Result<Option<String>, Stop> {
    let Some(place) = place_of_fault(outcome.text.as_slice()) else {
        return Ok(Some(String::from_str(alloc, "no answer is a fault")?));
    };
    let front = first_lines(script.wanted.as_slice(), place);
    if !outcome.text.starts_with(front) {
        return difference(alloc, script.wanted.as_slice(), script.end, outcome);
    }
    let others = outcome_without(alloc, script, place)?;
    let wanted = with_fault(alloc, others.text.as_slice(), place)?;
    difference(alloc, wanted.as_slice(), script.end, outcome)
}

fn try_commits(alloc: Global, script: &Script, tried: &mut Tried) -> Result<(), Stop> {
    for commit in 1..u64::MAX {
        let commits = [commit];
        let streams = Streams {
            commits: commits.as_slice(),
            ..script.streams()
        };
        let outcome = outcome_of(alloc, script, &streams)?;
        if !outcome.failed {
            return Ok(());
        }
        tried.commits = commit;
        let found = try_commit(alloc, script, &outcome)?;
        note(alloc, tried, "where a commit fails, commit", commit, found)?;
    }
    Ok(())
}

// What comes of some bytes over streams in memory.
use crate::flush_sink::FlushSink;
use crate::stop::Stop;
use desk_core::Desk;
use gds_causes::{MemSink, MemSource};
use gds_session::{End, run, shell};
use graph_model::{Kept, List};
use std::alloc::Global;
use store_keeper::{KeepRefusal, MemKeeper, MemOpener, Opener};

/// How streams behave: their pieces, the sink's room, how many bytes may be read, the path of an opener where keepers come
/// from one, which is empty for no path, and which reads, writes, flushes, commits and openings fail.
#[derive(Clone, Copy, Debug)]
pub(crate) struct Streams<'a> {
    pub(crate) piece: usize,
    pub(crate) room: usize,
    pub(crate) budget: u64,
    pub(crate) opener: Option<&'a [u8]>,
    pub(crate) reads: &'a [u64],
    pub(crate) writes: &'a [u64],
    pub(crate) flushes: &'a [u64],
    pub(crate) commits: &'a [u64],
    pub(crate) opens: &'a [u64],
}

/// What is asked: whether it is a command of `run`, and its words; and the bytes, with the numbers of them that go to one
/// desk after another.
#[derive(Clone, Copy, Debug)]
pub(crate) struct Asking<'a> {
    pub(crate) is_command: bool,
    pub(crate) words: &'a List<List<u8>>,
    pub(crate) bytes: &'a [u8],
    pub(crate) parts: &'a [usize],
}

/// How it ended, what was written and how much of it was flushed, which desks weren't opened, counted from 1, and whether a
/// call failed.
#[derive(Drop)]
pub(crate) struct Outcome {
    pub(crate) end: End,
    pub(crate) text: Vec<u8>,
    pub(crate) flushed: usize,
    pub(crate) unopened: Vec<u64>,
    pub(crate) failed: bool,
}

// A keeper of nothing.
fn new_keeper(alloc: Global, commits: &[u64]) -> Result<MemKeeper, Stop> {
    let fails = Vec::from_slice(alloc, commits)?;
    Ok(MemKeeper::new(Kept::new(alloc), fails))
}

// Serves a source on a desk over what a keeper has, and gives the keeper back.
fn serve(
    alloc: Global,
    source: &mut MemSource,
    sink: &mut FlushSink,
    keeper: MemKeeper,
    budget: u64,
) -> Result<(End, MemKeeper), Stop> {
    match Desk::start(alloc, keeper, None) {
        Ok(desk) => {
            let mut desk = desk;
            let end = shell(alloc, source, sink, &mut desk, budget);
            Ok((end, desk.end()))
        }
        Err(_) => Err(Stop::Mem),
    }
}

// Serves bytes on one desk after another, each over what the keeper of the one before has: a new one behind each of these
// numbers of bytes. Answers how the last one ended, and whether a read or a commit failed.
fn serve_kept(
    alloc: Global,
    asked: &Asking<'_>,
    sink: &mut FlushSink,
    streams: &Streams<'_>,
) -> Result<(End, bool), Stop> {
    let mut keeper = new_keeper(alloc, streams.commits)?;
    let mut end = End::Done;
    let mut failed = false;
    let mut rest = asked.bytes;
    for length in asked.parts {
        let (part, behind) = rest.split_at((*length).min(rest.len()));
        let mut source = source_of(alloc, part, streams)?;
        (end, keeper) = serve(alloc, &mut source, sink, keeper, streams.budget)?;
        failed = failed || source.faults() > 0;
        rest = behind;
    }
    Ok((end, failed || keeper.faults() > 0))
}

// Serves a source on a desk with a keeper of an opener, and gives the keeper back to it; nothing where the opening failed.
fn serve_opened(
    alloc: Global,
    source: &mut MemSource,
    sink: &mut FlushSink,
    opener: &mut MemOpener,
    streams: &Streams<'_>,
) -> Result<Option<End>, Stop> {
    match opener.obtain(alloc, path_of(streams)) {
        Ok(keeper) => match serve(alloc, source, sink, keeper, streams.budget) {
            Ok((end, keeper)) => {
                opener.take_back(keeper);
                Ok(Some(end))
            }
            Err(why) => Err(why),
        },
        Err(KeepRefusal::Fault) => Ok(None),
        Err(KeepRefusal::Mem) => Err(Stop::Mem),
    }
}

// Serves bytes on one desk after another, each opened anew by one opener. Answers how the last one ended that was opened,
// whether a read, a commit or an opening failed, and which desks weren't opened.
fn serve_all_opened(
    alloc: Global,
    asked: &Asking<'_>,
    sink: &mut FlushSink,
    streams: &Streams<'_>,
    unopened: &mut Vec<u64>,
) -> Result<(End, bool), Stop> {
    let mut opener = new_opener(alloc, streams)?;
    let mut end = End::Done;
    let mut failed = false;
    let mut number = 0u64;
    let mut rest = asked.bytes;
    for length in asked.parts {
        number = number.saturating_add(1);
        let (part, behind) = rest.split_at((*length).min(rest.len()));
        let mut source = source_of(alloc, part, streams)?;
        match serve_opened(alloc, &mut source, sink, &mut opener, streams)? {
            Some(last) => end = last,
            None => unopened.push(number)?,
        }
        failed = failed || source.faults() > 0;
        rest = behind;
    }
    Ok((end, failed || opener.faults() > 0))
}

// Serves bytes on one desk after another, as their keepers come.
fn serve_all(
    alloc: Global,
    asked: &Asking<'_>,
    sink: &mut FlushSink,
    streams: &Streams<'_>,
    unopened: &mut Vec<u64>,
) -> Result<(End, bool), Stop> {
    if streams.opener.is_some() {
        serve_all_opened(alloc, asked, sink, streams, unopened)
    } else {
        serve_kept(alloc, asked, sink, streams)
    }
}

// Runs a command, and answers how it ended, and whether a read failed.
fn run_command(
    alloc: Global,
    asked: &Asking<'_>,
    sink: &mut FlushSink,
    streams: &Streams<'_>,
) -> Result<(End, bool), Stop> {
    let mut source = source_of(alloc, asked.bytes, streams)?;
    let end = run(alloc, asked.words, &mut source, sink, streams.budget);
    Ok((end, source.faults() > 0))
}

// The path for which keepers are opened, or none.
fn path_of<'a>(streams: &Streams<'a>) -> Option<&'a [u8]> {
    match streams.opener {
        Some(path) if !path.is_empty() => Some(path),
        _ => None,
    }
}

// An opener of nothing.
fn new_opener(alloc: Global, streams: &Streams<'_>) -> Result<MemOpener, Stop> {
    let opens = Vec::from_slice(alloc, streams.opens)?;
    let commits = Vec::from_slice(alloc, streams.commits)?;
    Ok(MemOpener::new(Kept::new(alloc), opens, commits))
}

// A sink with the room of streams.
fn new_sink(alloc: Global, streams: &Streams<'_>) -> Result<FlushSink, Stop> {
    let writes = Vec::from_slice(alloc, streams.writes)?;
    let flushes = Vec::from_slice(alloc, streams.flushes)?;
    let sink = MemSink::new(alloc, streams.room, streams.piece.max(1), writes)?;
    Ok(FlushSink::new(sink, flushes))
}

// A source of some bytes.
fn source_of(alloc: Global, bytes: &[u8], streams: &Streams<'_>) -> Result<MemSource, Stop> {
    let bytes = Vec::from_slice(alloc, bytes)?;
    let reads = Vec::from_slice(alloc, streams.reads)?;
    Ok(MemSource::new(bytes, streams.piece.max(1), reads))
}

/// What comes of what is asked: by `run` where there are words, else by `shell`.
pub(crate) fn play(
    alloc: Global,
    asked: &Asking<'_>,
    streams: &Streams<'_>,
) -> Result<Outcome, Stop> {
    let mut sink = new_sink(alloc, streams)?;
    let mut unopened = Vec::new(alloc);
    let (end, failed) = if asked.is_command {
        run_command(alloc, asked, &mut sink, streams)?
    } else {
        serve_all(alloc, asked, &mut sink, streams, &mut unopened)?
    };
    Ok(Outcome {
        end,
        text: Vec::from_slice(alloc, sink.bytes())?,
        flushed: sink.flushed(),
        unopened,
        failed: failed || sink.faults() > 0,
    })
}

// Answers: what status and which text a reply has.
use crate::refusals::refusal;
use crate::stop::Stop;
use crate::stores::Stores;
use crate::words::{flag, name, number, small, tag, value, word};
use call_codec::{answer_length, answer_write, status_of};
use desk_model::{GraphLine, JobKind, JobLine, Reply};
use gds_causes::MemSink;
use graph_making::Captured;
use graph_model::{ChangeReply, Column, List, Name, Shared};
use std::alloc::Global;

/// As many bytes as a write takes of an answer.
const PIECE: usize = 64;

/// The status and the text of a reply. `created FIRST NODES FIRST RELATIONSHIPS`, `set PAIRS` and `deleted NODES
/// RELATIONSHIPS` are changes; `stored` and `streamed` columns of at most two rows, each an id and a value; `making NUMBER
/// JOB` a job that began on the store; `made GRAPH NODES ARCS VERSION JOB` a graph; `ended`; `asked JOB`; `there GRAPH
/// true`; `graphs` and `jobs` lines with ` ; ` between them, GRAPH NODES ARCS VERSION and keys, and JOB STAGE ASKED
/// BATCHES; and all else a refusal by its code and fields.
pub(crate) fn given(alloc: Global, stores: &Stores, asked: &str) -> Result<String, Stop> {
    let reply = reply(alloc, stores, asked)?;
    shown(alloc, reply)
}

// The status and the text of a reply, which is gone then.
fn shown(alloc: Global, reply: Reply) -> Result<String, Stop> {
    let status = status_of(&reply);
    let text = text_of(alloc, reply)?;
    let text = str::from_utf8(text.as_slice()).unwrap_or("?");
    Ok(format!(in alloc; "{status} {text}")?)
}

// The text of the answer to a reply, written to a sink that has room for as many bytes as it is said to have.
fn text_from(alloc: Global, reply: &Reply) -> Result<List<u8>, Stop> {
    let room = answer_length(reply) as usize;
    let Ok(mut sink) = MemSink::new(alloc, room, PIECE, Vec::new(alloc)) else {
        return Err(Stop::Mem);
    };
    match answer_write(reply, &mut sink) {
        Ok(()) => Ok(List::from_vec(Vec::from_slice(alloc, sink.bytes())?)),
        Err(_) => Err(Stop::Io),
    }
}

/// The text of a reply, which is gone then.
pub(crate) fn text_of(alloc: Global, reply: Reply) -> Result<List<u8>, Stop> {
    let text = text_from(alloc, &reply);
    drop(reply);
    text
}

fn reply(alloc: Global, stores: &Stores, asked: &str) -> Result<Reply, Stop> {
    let (kind, words) = asked.split_once(" ").unwrap_or((asked, ""));
    match kind {
        "created" | "set" | "deleted" => Ok(Reply::Changed(changed(kind, words)?)),
        "stored" => Ok(Reply::Stored(column(alloc, words)?)),
        "streamed" => Ok(Reply::Rows(column(alloc, words)?)),
        "making" => making(alloc, stores, words),
        "made" => made(alloc, words),
        _ => other_reply(alloc, kind, words),
    }
}

fn other_reply(alloc: Global, kind: &str, words: &str) -> Result<Reply, Stop> {
    match kind {
        "ended" => Ok(Reply::Ended),
        "asked" => asked(alloc, words),
        "there" => there(alloc, words),
        "graphs" => Ok(Reply::Graphs(graphs(alloc, words)?)),
        "jobs" => Ok(Reply::JobLines(jobs(alloc, words)?)),
        _ => match refusal(alloc, kind, words) {
            Ok(why) => Ok(Reply::Refused(why)),
            Err(stop) => Err(stop),
        },
    }
}

fn changed(kind: &str, words: &str) -> Result<ChangeReply, Stop> {
    match kind {
        "created" => Ok(ChangeReply::Created {
            first_node: small(words, 0)?,
            nodes: small(words, 1)?,
            first_rel: small(words, 2)?,
            rels: small(words, 3)?,
        }),
        "set" => Ok(ChangeReply::Set {
            pairs: number(words, 0)?,
        }),
        _ => Ok(ChangeReply::Deleted {
            nodes: small(words, 0)?,
            rels: small(words, 1)?,
        }),
    }
}

// A column of no row, of one or of two.
fn column(alloc: Global, words: &str) -> Result<Column, Stop> {
    match words.split_whitespace().count() {
        0 => Ok(Column::new(alloc)),
        2 => Ok(Column::new(alloc).with_row(small(words, 0)?, value(words, 1)?)?),
        _ => two_rows(
            alloc,
            (small(words, 0)?, value(words, 1)?),
            (small(words, 2)?, value(words, 3)?),
        ),
    }
}

fn two_rows(alloc: Global, first: (u32, i64), second: (u32, i64)) -> Result<Column, Stop> {
    if first.0 >= second.0 {
        return Err(Stop::Row);
    }
    let column = Column::new(alloc).with_row(first.0, first.1)?;
    Ok(column.with_row(second.0, second.1)?)
}

fn making(alloc: Global, stores: &Stores, words: &str) -> Result<Reply, Stop> {
    let job = small(words, 0)?;
    let snapshot = stores.snapshot()?;
    let from = Captured::Store(Shared::new(alloc, snapshot)?);
    match tag(alloc, word(words, 1)?) {
        Ok(name) => Ok(Reply::Making { job, name, from }),
        Err(why) => Err(why),
    }
}

fn made(alloc: Global, words: &str) -> Result<Reply, Stop> {
    let job = tag(alloc, word(words, 4)?)?;
    let mut line = graph(alloc, words, List::new(alloc))?;
    line.job = Some(job);
    Ok(Reply::Made(line))
}

fn asked(alloc: Global, words: &str) -> Result<Reply, Stop> {
    let job = tag(alloc, words)?;
    Ok(Reply::Asked { job })
}

fn there(alloc: Global, words: &str) -> Result<Reply, Stop> {
    let found = flag(words, 1)?;
    let graph = tag(alloc, word(words, 0)?)?;
    Ok(Reply::There { graph, found })
}

// A named graph with these keys, and no job.
fn graph(alloc: Global, words: &str, keys: List<Name>) -> Result<GraphLine, Stop> {
    let nodes = small(words, 1)?;
    let arcs = number(words, 2)?;
    let version = small(words, 3)?;
    let name = tag(alloc, word(words, 0)?)?;
    Ok(GraphLine {
        name,
        nodes,
        arcs,
        version,
        keys,
        job: None,
    })
}

// The keys behind four words.
fn keys(alloc: Global, words: &str) -> Result<List<Name>, Stop> {
    let mut keys = List::new(alloc);
    for (place, key) in words.split_whitespace().enumerate() {
        if place >= 4 {
            keys.push(name(alloc, key)?)?;
        }
    }
    Ok(keys)
}

fn graphs(alloc: Global, words: &str) -> Result<List<GraphLine>, Stop> {
    let mut lines = List::new(alloc);
    for line in words.split(" ; ") {
        if !line.is_empty() {
            lines.push(graph(alloc, line, keys(alloc, line)?)?)?;
        }
    }
    Ok(lines)
}

fn stage(word: &str) -> Result<JobKind, Stop> {
    match word {
        "making" => Ok(JobKind::Making),
        "running" => Ok(JobKind::Running),
        "writing" => Ok(JobKind::Writing),
        _ => Err(Stop::Row),
    }
}

fn job(alloc: Global, words: &str) -> Result<JobLine, Stop> {
    let kind = stage(word(words, 1)?)?;
    let asked = flag(words, 2)?;
    let batches = small(words, 3)?;
    let name = tag(alloc, word(words, 0)?)?;
    Ok(JobLine {
        name,
        kind,
        asked,
        batches,
    })
}

fn jobs(alloc: Global, words: &str) -> Result<List<JobLine>, Stop> {
    let mut lines = List::new(alloc);
    for line in words.split(" ; ") {
        if !line.is_empty() {
            lines.push(job(alloc, line)?)?;
        }
    }
    Ok(lines)
}

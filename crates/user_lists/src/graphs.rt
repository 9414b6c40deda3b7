// What is told of named graphs.
ghost use Rattle.std.specs.Prelude.{◌≡◌, map, None, IfOk, option_copied};
ghost use Rattle.std.specs.Option.{option_map};
ghost use Rattle.csr_columns.specs.Plain.{plain};
ghost use Rattle.desk_model.specs.Replies.{plain_reply};
ghost use Rattle.desk_model.specs.Graphs.{graph_line, entry_line, found_lines};
ghost use Rattle.desk_model.specs.Jobs.{graph_name};
ghost use Rattle.user_lists.specs.Lists.{named, named_graphs};
ghost use Rattle.user_lists.specs.Steps.{lines_reply};

use crate::job::Job;
use csr_columns::Projection;
use desk_model::{GraphLine, Reply};
use graph_model::{List, Mem, Name, Refusal, Tag, TryClone};
use std::alloc::Global;
use user_catalog::Entry;

/// The reply of what is told of graphs.
pub(crate) fn told(lines: Result<List<GraphLine>, Mem>) -> Reply
    ensures { plain_reply result ≡ lines_reply lines }
{
    match lines {
        Ok(lines) => Reply::Graphs(lines),
        Err(_mem) => Reply::Refused(Refusal::Mem),
    }
}

// The keys of the nodes of a graph.
fn keys_of(alloc: Global, graph: &Projection) -> Result<List<Name>, Mem>
    ensures { IfOk result (λ keys. keys ≡ (plain graph.now).keys) }
{
    let mut keys = List::new(alloc);
    for key in graph.keys() {
        keys.push(key.try_clone()?)?;
    }
    Ok(keys)
}

// What is told of a graph under a name and a version, with the name of the job that made it where that is told.
fn line_of(
    alloc: Global,
    job: Option<Tag>,
    name: Tag,
    version: u32,
    graph: &Projection,
) -> Result<GraphLine, Mem>
    ensures { IfOk result (λ line. line ≡ graph_line job name (record { version = version; graph = plain graph.now })) }
{
    Ok(GraphLine {
        name,
        nodes: graph.ids().len() as u32,
        arcs: graph.arc_count(),
        version,
        keys: keys_of(alloc, graph)?,
        job,
    })
}

// What is told of an entry.
fn entry_line(alloc: Global, name: &Tag, entry: &Entry) -> Result<GraphLine, Mem>
    ensures { IfOk result (λ line. line ≡ graph_line None name.now (named entry.now)) }
{
    line_of(
        alloc,
        None,
        name.try_clone()?,
        entry.version,
        entry.graph.get(),
    )
}

/// What is told of each entry.
///
/// # Errors
/// `Mem` where there is no memory for it.
pub(crate) fn lines_of(alloc: Global, entries: &[(Tag, Entry)]) -> Result<List<GraphLine>, Mem>
    ensures { IfOk result (λ lines. lines ≡ map entry_line (named_graphs entries.now)) }
{
    let mut lines = List::new(alloc);
    for (name, entry) in entries {
        lines.push(entry_line(alloc, name, entry)?)?;
    }
    Ok(lines)
}

/// What is told of what stands under a name.
///
/// # Errors
/// `Mem` where there is no memory for it.
pub(crate) fn found_lines(
    alloc: Global,
    name: &Tag,
    found: Option<&Entry>,
) -> Result<List<GraphLine>, Mem>
    ensures { IfOk result (λ lines. lines ≡ found_lines name.now (option_map named (option_copied found.entry))) }
{
    let mut lines = List::new(alloc);
    if let Some(entry) = found {
        lines.push(entry_line(alloc, name, entry)?)?;
    }
    Ok(lines)
}

/// What is told of the graph that a job made, but for its version, and the name under which it is kept.
///
/// # Errors
/// `Mem` where there is no memory for it.
pub(crate) fn told_first(
    alloc: Global,
    job: &Job,
    graph: &Projection,
) -> Result<(GraphLine, Tag), Mem>
    ensures line { IfOk result (λ told. told.0 ≡ graph_line (Some job.now.name) (graph_name job.now.spec) (record { version = 0; graph = plain graph.now })) }
    ensures name { IfOk result (λ told. told.1 ≡ graph_name job.now.spec) }
{
    let name = job.graph.try_clone()?;
    let told = name.try_clone()?;
    let line = line_of(alloc, Some(job.name.try_clone()?), told, 0, graph)?;
    Ok((line, name))
}

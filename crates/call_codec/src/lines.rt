// What is told of named graphs and of jobs.
ghost use Rattle.std.specs.Prelude.{◌≡◌, ◌++◌, codes};
ghost use Rattle.text_sinks.specs.Told.{Wrote};
ghost use Rattle.desk_model.specs.Replies as reply;
ghost use Rattle.call_codec.specs.Answers.{first_text_field, flag_field, graph_fields, graph_head, graph_text, graphs_text, job_fields, job_text, jobs_text, maker_field, number_field, ok_fields, quoted, text_field};

use crate::fields::{put_first_text_field, put_flag_field, put_number_field, put_text_field};
use crate::item::{Item, put_list};
use crate::words::stage_word;
use desk_model::{GraphLine, JobLine};
use gds_causes::Failed;
use graph_model::{Name, Tag};
use text_sinks::{Part, TextSink, put_parts};

// Puts the name of a graph and its counts.
fn put_counts<T: TextSink>(
    text: &mut T,
    name: &[u8],
    nodes: u64,
    arcs: u64,
    version: u64,
) -> Result<(), Failed>
    ensures wrote { Wrote result (T.told text.old) (T.told text.new)
        (first_text_field (codes "graphName") name.now ++ number_field (codes "nodeCount") nodes
        ++ number_field (codes "relationshipCount") arcs ++ number_field (codes "version") version) }
{
    put_first_text_field(text, "graphName", name)?;
    put_number_field(text, "nodeCount", nodes)?;
    put_number_field(text, "relationshipCount", arcs)?;
    put_number_field(text, "version", version)
}

// Puts what is told of each named graph.
fn put_graph_fields<T: TextSink>(text: &mut T, line: &GraphLine) -> Result<(), Failed>
    ensures wrote { Wrote result (T.told text.old) (T.told text.new) (graph_fields line.now) }
{
    put_counts(
        text,
        line.name.bytes(),
        u64::from(line.nodes),
        line.arcs,
        u64::from(line.version),
    )
}

// Puts the name of the job that made a graph, where it is told.
fn put_maker<T: TextSink>(text: &mut T, job: &Option<Tag>) -> Result<(), Failed>
    ensures wrote { Wrote result (T.told text.old) (T.told text.new) (maker_field job.now) }
{
    match job {
        Some(name) => put_text_field(text, "jobId", name.bytes()),
        None => text.put(b""),
    }
}

/// Puts the graph that a job made.
pub(crate) fn put_made<T: TextSink>(text: &mut T, line: &GraphLine) -> Result<(), Failed>
    ensures wrote { Wrote result (T.told text.old) (T.told text.new) (ok_fields (reply.Made line.now)) }
{
    put_graph_fields(text, line)?;
    put_maker(text, &line.job)
}

/// Puts whether there is a graph of this name.
pub(crate) fn put_there<T: TextSink>(text: &mut T, name: &[u8], found: bool) -> Result<(), Failed>
    ensures wrote { Wrote result (T.told text.old) (T.told text.new) (first_text_field (codes "graphName") name.now ++ flag_field (codes "exists") found) }
{
    put_first_text_field(text, "graphName", name)?;
    put_flag_field(text, "exists", found)
}

impl Item for Name {
    ghost use Rattle.call_codec.specs.Answers.{quoted};

    ghost text = { quoted };

    // Puts the name in quotes.
    fn put_to<T: TextSink>(&self, sink: &mut T) -> Result<(), Failed> {
        put_parts(
            sink,
            &[
                Part::Bytes(b"\""),
                Part::Bytes(self.bytes()),
                Part::Bytes(b"\""),
            ],
        )
    }
}

// Puts the front of a named graph, as far as its node keys.
fn put_graph_head<T: TextSink>(text: &mut T, line: &GraphLine) -> Result<(), Failed>
    ensures wrote { Wrote result (T.told text.old) (T.told text.new) (graph_head line.now) }
{
    text.put(b"{")?;
    put_graph_fields(text, line)?;
    text.put(b",\"nodeProperties\":")
}

impl Item for GraphLine {
    ghost use Rattle.call_codec.specs.Answers.{graph_text};

    ghost text = { graph_text };

    // Puts the graph with its node keys.
    fn put_to<T: TextSink>(&self, sink: &mut T) -> Result<(), Failed> {
        put_graph_head(sink, self)?;
        put_list(sink, self.keys.as_slice())?;
        sink.put(b"}")
    }
}

/// Puts named graphs.
pub(crate) fn put_graphs<T: TextSink>(text: &mut T, lines: &[GraphLine]) -> Result<(), Failed>
    ensures wrote { Wrote result (T.told text.old) (T.told text.new) (graphs_text lines.now) }
{
    text.put(b"\"graphs\":")?;
    put_list(text, lines)
}

// Puts the name of a job, its stage, whether it is asked to end, and its batches.
fn put_stage<'a, T: TextSink>(
    text: &mut T,
    name: &'a [u8],
    kind: &'a [u8],
    asked: bool,
    batches: u64,
) -> Result<(), Failed>
    ensures wrote { Wrote result (T.told text.old) (T.told text.new)
        (first_text_field (codes "jobId") name.now ++ text_field (codes "kind") kind.now
        ++ flag_field (codes "terminated") asked ++ number_field (codes "batches") batches) }
{
    put_first_text_field(text, "jobId", name)?;
    put_text_field(text, "kind", kind)?;
    put_flag_field(text, "terminated", asked)?;
    put_number_field(text, "batches", batches)
}

// Puts what is told of a job.
fn put_job_fields<T: TextSink>(text: &mut T, line: &JobLine) -> Result<(), Failed>
    ensures wrote { Wrote result (T.told text.old) (T.told text.new) (job_fields line.now) }
{
    put_stage(
        text,
        line.name.bytes(),
        stage_word(line.kind).as_bytes(),
        line.asked,
        u64::from(line.batches),
    )
}

impl Item for JobLine {
    ghost use Rattle.call_codec.specs.Answers.{job_text};

    ghost text = { job_text };

    // Puts the job.
    fn put_to<T: TextSink>(&self, sink: &mut T) -> Result<(), Failed> {
        sink.put(b"{")?;
        put_job_fields(sink, self)?;
        sink.put(b"}")
    }
}

/// Puts jobs.
pub(crate) fn put_jobs<T: TextSink>(text: &mut T, lines: &[JobLine]) -> Result<(), Failed>
    ensures wrote { Wrote result (T.told text.old) (T.told text.new) (jobs_text lines.now) }
{
    text.put(b"\"jobs\":")?;
    put_list(text, lines)
}

// The answer to a reply.
ghost use Rattle.std.specs.Prelude.{◌≡◌, ◌++◌, ◌^◌, ◌-◌, ◌≤◌, [], length, min, OnOk, OnErr};
ghost use Rattle.std.specs.List.{zip};
ghost use Rattle.std.specs.Io.KnownBytes.{Appends};
ghost use Rattle.gds_causes.specs.Faults.{Rose};
ghost use Rattle.gds_causes.specs.Front.{AppendsFront};
ghost use Rattle.text_sinks.specs.Told.{Wrote};
ghost use Rattle.graph_model.specs.declared.change.ChangeReply.TheVariants as answer;
ghost use Rattle.desk_model.specs.Replies.{plain_reply};
ghost use Rattle.call_codec.specs.Answers.{answer_of, change_fields, items_behind, line_answer, ok_fields, ok_text, row_text, rows_text};

use crate::fields::{put_first_field, put_first_text_field, put_number_field};
use crate::lines::{put_graphs, put_jobs, put_made, put_there};
use crate::refused::put_refusal;
use desk_model::Reply;
use gds_causes::{Failed, Sink};
use graph_model::{ChangeReply, Column};
use text_sinks::{LengthSink, Part, PieceSink, TextSink, put_parts};

// Puts the answer of a change that made something.
fn put_created<T: TextSink>(text: &mut T, nodes: (u64, u64), rels: (u64, u64)) -> Result<(), Failed>
    ensures wrote { Wrote result (T.told text.old) (T.told text.new) (change_fields (answer.Created nodes.0 nodes.1 rels.0 rels.1)) }
{
    put_first_field(text, "firstNode", nodes.0)?;
    put_number_field(text, "nodes", nodes.1)?;
    put_number_field(text, "firstRelationship", rels.0)?;
    put_number_field(text, "relationships", rels.1)
}

// Puts the answer of a change that deleted something.
fn put_deleted<T: TextSink>(text: &mut T, nodes: u64, rels: u64) -> Result<(), Failed>
    ensures wrote { Wrote result (T.told text.old) (T.told text.new) (change_fields (answer.Deleted nodes rels)) }
{
    put_first_field(text, "nodes", nodes)?;
    put_number_field(text, "relationships", rels)
}

// Puts the answer of a change.
fn put_change<T: TextSink>(text: &mut T, answer: ChangeReply) -> Result<(), Failed>
    ensures wrote { Wrote result (T.told text.old) (T.told text.new) (change_fields answer) }
{
    match answer {
        ChangeReply::Created {
            first_node,
            nodes,
            first_rel,
            rels,
        } => put_created(
            text,
            (u64::from(first_node), u64::from(nodes)),
            (u64::from(first_rel), u64::from(rels)),
        ),
        ChangeReply::Set { pairs } => put_first_field(text, "set", pairs),
        ChangeReply::Deleted { nodes, rels } => put_deleted(
            text,
            u64::from(nodes),
            u64::from(rels),
        ),
    }
}

// Puts the row of a node behind some bytes, its value in a field of this name.
#[tactic(auto, unfolding(crate::specs::Answers::field_name, crate::specs::Answers::first_field, crate::specs::Answers::whole_field))]
fn put_row<'a, T: TextSink>(
    text: &mut T,
    before: &'a [u8],
    name: &'a str,
    row: (u32, i64),
) -> Result<(), Failed>
    ensures wrote { Wrote result (T.told text.old) (T.told text.new) (before.now ++ row_text name.now row) }
{
    put_parts(
        text,
        &[
            Part::Bytes(before),
            Part::Bytes(b"{\"nodeId\":"),
            Part::Number(u64::from(row.0)),
            Part::Bytes(b",\""),
            Part::Bytes(name.as_bytes()),
            Part::Bytes(b"\":"),
            Part::Whole(row.1),
            Part::Bytes(b"}"),
        ],
    )
}

// Puts rows with commas between them.
fn put_rows_between<T: TextSink>(
    text: &mut T,
    name: &str,
    ids: &[u32],
    values: &[i64],
) -> Result<(), Failed>
    ensures wrote { Wrote result (T.told text.old) (T.told text.new) (items_behind (row_text name.now) [] (zip ids.now values.now)) }
{
    let mut before: &[u8] = b"";
    for (id, value) in ids.iter().zip(values) {
        put_row(text, before, name, (*id, *value))?;
        before = b",";
    }
    Ok(())
}

// Puts the rows of a column.
fn put_rows<T: TextSink>(
    text: &mut T,
    name: &str,
    ids: &[u32],
    values: &[i64],
) -> Result<(), Failed>
    ensures wrote { Wrote result (T.told text.old) (T.told text.new) (rows_text name.now (zip ids.now values.now)) }
{
    text.put(b"\"rows\":[")?;
    put_rows_between(text, name, ids, values)?;
    text.put(b"]")
}

// Puts the rows of a column.
fn put_column<T: TextSink>(text: &mut T, name: &str, column: &Column) -> Result<(), Failed>
    ensures wrote { Wrote result (T.told text.old) (T.told text.new) (rows_text name.now (zip column.now.ids column.now.values)) }
{
    put_rows(text, name, column.ids.as_slice(), column.values.as_slice())
}

// Puts the fields of an accepted call.
fn put_ok_fields<T: TextSink>(text: &mut T, reply: &Reply) -> Result<(), Failed>
    ensures wrote { Wrote result (T.told text.old) (T.told text.new) (ok_fields (plain_reply reply.now)) }
{
    match reply {
        Reply::Changed(answer) => put_change(text, *answer),
        Reply::Stored(column) => put_column(text, "value", column),
        Reply::Made(line) => put_made(text, line),
        Reply::Asked { job } => put_first_text_field(text, "jobId", job.bytes()),
        Reply::There { graph, found } => put_there(text, graph.bytes(), *found),
        Reply::Graphs(lines) => put_graphs(text, lines.as_slice()),
        Reply::Rows(column) => put_column(text, "propertyValue", column),
        Reply::JobLines(lines) => put_jobs(text, lines.as_slice()),
        Reply::Making { .. } | Reply::Ended | Reply::Refused(_) => text.put(b""),
    }
}

// Puts the text of an accepted call.
fn put_ok<T: TextSink>(text: &mut T, reply: &Reply) -> Result<(), Failed>
    ensures wrote { Wrote result (T.told text.old) (T.told text.new) (ok_text (ok_fields (plain_reply reply.now))) }
{
    text.put(b"{\"ok\":{")?;
    put_ok_fields(text, reply)?;
    text.put(b"}}")
}

// Puts the text of a reply.
fn put_answer<T: TextSink>(text: &mut T, reply: &Reply) -> Result<(), Failed>
    ensures wrote { Wrote result (T.told text.old) (T.told text.new) (answer_of (plain_reply reply.now)) }
{
    match reply {
        Reply::Refused(why) => put_refusal(text, why),
        _ => put_ok(text, reply),
    }
}

// Puts the text of a reply and an LF.
fn put_line<T: TextSink>(text: &mut T, reply: &Reply) -> Result<(), Failed>
    ensures wrote { Wrote result (T.told text.old) (T.told text.new) (line_answer (plain_reply reply.now)) }
{
    put_answer(text, reply)?;
    text.put(b"\n")
}

/// How many bytes the answer to a reply has, without a line end, up to the greatest u64. It takes no memory. O(n) in the items of
/// the reply.
pub fn answer_length(reply: &Reply) -> u64
    ensures length { result ≡ min (length (answer_of (plain_reply reply.now))) (2 ^ 64 - 1) }
{
    let mut text = LengthSink::new();
    put_answer(&mut text, reply).unwrap();
    text.length()
}

/// Writes the answer to a reply, without a line end: `{"ok":{..}}` with the fields of what was done, or `{"refused":{..}}` with the
/// number, the code and the fields of the refusal. It takes no memory, and hands on pieces of some KiB.
///
/// # Errors
/// `Failed` exactly where the sink's count of faults rises: a write failed. Then the sink took a front of the answer.
pub fn answer_write<W: Sink>(reply: &Reply, sink: &mut W) -> Result<(), Failed>
    ensures ok { OnOk result (Appends (W.taken sink.old) (W.taken sink.new) (answer_of (plain_reply reply.now))) }
    ensures err { OnErr result (AppendsFront (W.taken sink.old) (W.taken sink.new) (answer_of (plain_reply reply.now))) }
    ensures held { W.flushed sink.new ≡ W.flushed sink.old }
    ensures fault { OnErr result (Rose (W.faults sink.old) (W.faults sink.new)) }
    ensures calm { OnOk result (W.faults sink.new ≡ W.faults sink.old) }
    ensures later { W.faults sink.old ≤ W.faults sink.new }
{
    let mut text = PieceSink::new(sink);
    put_answer(&mut text, reply)?;
    text.hand_on()
}

/// Writes the answer to a reply as `answer_write` does, and an LF.
///
/// # Errors
/// `Failed` exactly where the sink's count of faults rises: a write failed. Then the sink took a front of the line.
pub fn line_write<W: Sink>(reply: &Reply, sink: &mut W) -> Result<(), Failed>
    ensures ok { OnOk result (Appends (W.taken sink.old) (W.taken sink.new) (line_answer (plain_reply reply.now))) }
    ensures err { OnErr result (AppendsFront (W.taken sink.old) (W.taken sink.new) (line_answer (plain_reply reply.now))) }
    ensures held { W.flushed sink.new ≡ W.flushed sink.old }
    ensures fault { OnErr result (Rose (W.faults sink.old) (W.faults sink.new)) }
    ensures calm { OnOk result (W.faults sink.new ≡ W.faults sink.old) }
    ensures later { W.faults sink.old ≤ W.faults sink.new }
{
    let mut text = PieceSink::new(sink);
    put_line(&mut text, reply)?;
    text.hand_on()
}

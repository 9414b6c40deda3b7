// The table of refusals: their numbers, codes, statuses and fields.
ghost use Rattle.std.specs.Prelude.{◌≡◌, ◌++◌, codes};
ghost use Rattle.text_sinks.specs.Told.{Wrote};
ghost use Rattle.call_codec.specs.Answers.{number_field, refusal_fields, refusal_head, refusal_text, text_field, whole_field};
ghost use Rattle.call_codec.specs.Refusals.{row_of};

use crate::fields::{put_first_field, put_number_field, put_text_field, put_whole_field};
use crate::words::{counter_word, kind_word, part_word, quantity_word, side_word};
use gds_causes::Failed;
use graph_model::Refusal;
use text_sinks::TextSink;

/// A refusal's number, its code, and the status of its answer over HTTP.
#[derive(Clone, Copy, Debug, PartialEq, Eq)]
pub(crate) struct RefusalRow {
    number: u64,
    code: &'static str,
    pub(crate) status: u16,
}

fn numbered(number: u64, code: &'static str, status: u16) -> RefusalRow
    ensures number { result.number ≡ number }
    ensures code { result.code.now ≡ code.now }
    ensures status { result.status ≡ status }
{
    RefusalRow {
        number,
        code,
        status,
    }
}

/// The row of a refusal.
pub(crate) fn row_of(why: &Refusal) -> RefusalRow
    ensures number { result.number ≡ (row_of why.now).number }
    ensures code { result.code.now ≡ (row_of why.now).code }
    ensures status { result.status ≡ (row_of why.now).status }
{
    match why {
        Refusal::BadHttp => numbered(1, "BadHttp", 400),
        Refusal::TooLong { .. } => numbered(2, "TooLong", 413),
        Refusal::LengthRequired => numbered(3, "LengthRequired", 411),
        Refusal::Transfer => numbered(4, "Transfer", 501),
        Refusal::NoSuchProcedure => numbered(5, "NoSuchProcedure", 404),
        Refusal::BadJson => numbered(6, "BadJson", 400),
        Refusal::BadArgument { .. } => numbered(7, "BadArgument", 400),
        Refusal::GraphExists { .. } => numbered(8, "GraphExists", 409),
        Refusal::NoSuchGraph { .. } => numbered(9, "NoSuchGraph", 404),
        Refusal::NoSuchLabel { .. } => numbered(10, "NoSuchLabel", 422),
        Refusal::NoSuchType { .. } => numbered(11, "NoSuchType", 422),
        Refusal::NoSuchProperty { .. } => numbered(12, "NoSuchProperty", 422),
        Refusal::MixedAggregation { .. } => numbered(13, "MixedAggregation", 422),
        Refusal::SumOutOfRange { .. } => numbered(14, "SumOutOfRange", 422),
        Refusal::FilterSyntax { .. } => numbered(15, "FilterSyntax", 422),
        Refusal::FilterType { .. } => numbered(16, "FilterType", 422),
        Refusal::NotUndirected { .. } => numbered(17, "NotUndirected", 422),
        Refusal::WeightOutOfRange { .. } => numbered(18, "WeightOutOfRange", 422),
        Refusal::PropertyExists { .. } => numbered(19, "PropertyExists", 409),
        Refusal::NoSuchEntity { .. } => numbered(20, "NoSuchEntity", 422),
        Refusal::JobExists { .. } => numbered(21, "JobExists", 409),
        Refusal::NoSuchJob { .. } => numbered(22, "NoSuchJob", 404),
        Refusal::Terminated { .. } => numbered(23, "Terminated", 409),
        Refusal::GraphGone { .. } => numbered(24, "GraphGone", 409),
        Refusal::Full { .. } => numbered(25, "Full", 409),
        Refusal::TooManyGraphs { .. } => numbered(26, "TooManyGraphs", 409),
        Refusal::TooManyJobs { .. } => numbered(27, "TooManyJobs", 409),
        Refusal::StoreFault { .. } => numbered(28, "StoreFault", 503),
        Refusal::Mem => numbered(29, "Mem", 507),
        Refusal::CounterSpent { .. } => numbered(30, "CounterSpent", 409),
        Refusal::NotAdmin { .. } => numbered(31, "NotAdmin", 403),
        Refusal::AlreadyUndirected { .. } => numbered(32, "AlreadyUndirected", 409),
        Refusal::TypeExists { .. } => numbered(33, "TypeExists", 409),
    }
}

// Puts a text and a number.
fn put_text_and_number<'a, T: TextSink>(
    text: &mut T,
    first: (&'a str, &'a [u8]),
    second: (&'a str, u64),
) -> Result<(), Failed>
    ensures wrote { Wrote result (T.told text.old) (T.told text.new) (text_field first.entry.0.now first.entry.1.now ++ number_field second.entry.0.now second.entry.1) }
{
    put_text_field(text, first.0, first.1)?;
    put_number_field(text, second.0, second.1)
}

// Puts the fields of a refusal for a sum.
fn put_sum<'a, T: TextSink>(
    text: &mut T,
    rel_type: &'a [u8],
    key: &'a [u8],
    ends: (u64, u64),
) -> Result<(), Failed>
    ensures wrote { Wrote result (T.told text.old) (T.told text.new)
        (text_field (codes "type") rel_type.now ++ text_field (codes "key") key.now ++ number_field (codes "source") ends.0 ++ number_field (codes "target") ends.1) }
{
    put_text_field(text, "type", rel_type)?;
    put_text_field(text, "key", key)?;
    put_number_field(text, "source", ends.0)?;
    put_number_field(text, "target", ends.1)
}

// Puts the fields of a refusal for a weight.
fn put_weight<T: TextSink>(text: &mut T, ends: (u64, u64), weight: i64) -> Result<(), Failed>
    ensures wrote { Wrote result (T.told text.old) (T.told text.new)
        (number_field (codes "source") ends.0 ++ number_field (codes "target") ends.1 ++ whole_field (codes "weight") weight) }
{
    put_number_field(text, "source", ends.0)?;
    put_number_field(text, "target", ends.1)?;
    put_whole_field(text, "weight", weight)
}

// Puts the fields of a refusal for a graph that is gone.
fn put_gone<T: TextSink>(text: &mut T, graph_name: &[u8], had: u64, now_: u64) -> Result<(), Failed>
    ensures wrote { Wrote result (T.told text.old) (T.told text.new)
        (text_field (codes "graphName") graph_name.now ++ number_field (codes "had") had ++ number_field (codes "now") now_) }
{
    put_text_field(text, "graphName", graph_name)?;
    put_number_field(text, "had", had)?;
    put_number_field(text, "now", now_)
}

// Puts the fields of a refusal for what is full.
fn put_full<T: TextSink>(text: &mut T, which: &[u8], limit: u64, batches: u64) -> Result<(), Failed>
    ensures wrote { Wrote result (T.told text.old) (T.told text.new)
        (text_field (codes "which") which.now ++ number_field (codes "limit") limit ++ number_field (codes "batches") batches) }
{
    put_text_field(text, "which", which)?;
    put_number_field(text, "limit", limit)?;
    put_number_field(text, "batches", batches)
}

// Puts the fields of a refusal behind its number and its code.
fn put_refusal_fields<T: TextSink>(text: &mut T, why: &Refusal) -> Result<(), Failed>
    ensures wrote { Wrote result (T.told text.old) (T.told text.new) (refusal_fields why.now) }
{
    match why {
        Refusal::BadHttp
        | Refusal::LengthRequired
        | Refusal::Transfer
        | Refusal::NoSuchProcedure
        | Refusal::BadJson
        | Refusal::Mem => text.put(b""),
        Refusal::TooLong { what, limit } => {
            put_text_and_number(
                text,
                ("what", part_word(*what).as_bytes()),
                ("limit", *limit),
            )
        }
        Refusal::BadArgument { at, row } => {
            put_text_and_number(text, ("at", at.as_slice()), ("row", *row))
        }
        Refusal::GraphExists { graph_name } | Refusal::NoSuchGraph { graph_name } => {
            put_text_field(text, "graphName", graph_name.bytes())
        }
        Refusal::NoSuchLabel { label } => put_text_field(text, "label", label.bytes()),
        Refusal::NoSuchType { rel_type }
        | Refusal::MixedAggregation { rel_type }
        | Refusal::NotUndirected { rel_type }
        | Refusal::AlreadyUndirected { rel_type }
        | Refusal::TypeExists { rel_type } => put_text_field(text, "type", rel_type.bytes()),
        Refusal::NoSuchProperty { key } | Refusal::PropertyExists { key } => {
            put_text_field(text, "key", key.bytes())
        }
        Refusal::SumOutOfRange {
            rel_type,
            key,
            source,
            target,
        } => put_sum(
            text,
            rel_type.bytes(),
            key.bytes(),
            (u64::from(*source), u64::from(*target)),
        ),
        Refusal::FilterSyntax { filter, byte } | Refusal::FilterType { filter, byte } => {
            put_text_and_number(
                text,
                ("filter", side_word(*filter).as_bytes()),
                ("byte", u64::from(*byte)),
            )
        }
        Refusal::WeightOutOfRange {
            source,
            target,
            weight,
        } => put_weight(text, (u64::from(*source), u64::from(*target)), *weight),
        Refusal::NoSuchEntity { kind, id } => {
            put_text_and_number(
                text,
                ("kind", kind_word(*kind).as_bytes()),
                ("id", u64::from(*id)),
            )
        }
        Refusal::JobExists { job_id } | Refusal::NoSuchJob { job_id } => {
            put_text_field(text, "jobId", job_id.bytes())
        }
        Refusal::Terminated { batches } | Refusal::StoreFault { batches } => {
            put_number_field(text, "batches", u64::from(*batches))
        }
        Refusal::GraphGone {
            graph_name,
            had,
            now_,
        } => put_gone(text, graph_name.bytes(), u64::from(*had), u64::from(*now_)),
        Refusal::Full {
            which,
            limit,
            batches,
        } => put_full(
            text,
            quantity_word(*which).as_bytes(),
            *limit,
            u64::from(*batches),
        ),
        Refusal::TooManyGraphs { limit } | Refusal::TooManyJobs { limit } => {
            put_number_field(text, "limit", *limit)
        }
        Refusal::CounterSpent { counter, last } => {
            put_text_and_number(
                text,
                ("counter", counter_word(*counter).as_bytes()),
                ("last", *last),
            )
        }
        Refusal::NotAdmin { username } => put_text_field(text, "username", username.bytes()),
    }
}

// Puts the front of the text of a refusal: its number and its code.
fn put_refusal_head<T: TextSink>(text: &mut T, number: u64, code: &[u8]) -> Result<(), Failed>
    ensures wrote { Wrote result (T.told text.old) (T.told text.new) (refusal_head number code.now) }
{
    text.put(b"{\"refused\":{")?;
    put_first_field(text, "number", number)?;
    put_text_field(text, "code", code)
}

// Puts the front of the text of a refusal.
fn put_refusal_row<T: TextSink>(text: &mut T, why: &Refusal) -> Result<(), Failed>
    ensures wrote { Wrote result (T.told text.old) (T.told text.new) (refusal_head (row_of why.now).number (row_of why.now).code) }
{
    let row = row_of(why);
    put_refusal_head(text, row.number, row.code.as_bytes())
}

/// Puts the text of a refusal.
pub(crate) fn put_refusal<T: TextSink>(text: &mut T, why: &Refusal) -> Result<(), Failed>
    ensures wrote { Wrote result (T.told text.old) (T.told text.new) (refusal_text why.now) }
{
    put_refusal_row(text, why)?;
    put_refusal_fields(text, why)?;
    text.put(b"}}")
}

// Refusals, written as a code and its fields in the order of the text.
use crate::stop::Stop;
use crate::words::{name, number, small, tag, value, word};
use graph_model::{Counter, EntityKind, List, LongPart, Name, Quantity, Refusal, Side, Tag};
use std::alloc::Global;

// Codes with a tag alone, with a name alone, and with a number alone.
const OF_TAG: [&str; 5] = [
    "GraphExists",
    "NoSuchGraph",
    "JobExists",
    "NoSuchJob",
    "NotAdmin",
];

const OF_NAME: [&str; 8] = [
    "NoSuchLabel",
    "NoSuchType",
    "NoSuchProperty",
    "MixedAggregation",
    "NotUndirected",
    "PropertyExists",
    "AlreadyUndirected",
    "TypeExists",
];

const OF_NUMBER: [&str; 4] = ["TooManyGraphs", "TooManyJobs", "Terminated", "StoreFault"];

/// The refusal of a code with these fields.
pub(crate) fn refusal(alloc: Global, code: &str, fields: &str) -> Result<Refusal, Stop> {
    if fields.is_empty() {
        return plain(code);
    }
    if OF_TAG.contains(&code) {
        return of_tag(code, tag(alloc, fields)?);
    }
    if OF_NAME.contains(&code) {
        return of_name(code, name(alloc, fields)?);
    }
    if OF_NUMBER.contains(&code) {
        return of_number(code, small(fields, 0)?);
    }
    match code {
        "BadArgument" => bad_argument(alloc, fields),
        "SumOutOfRange" => sum_out_of_range(alloc, fields),
        "GraphGone" => graph_gone(alloc, fields),
        _ => of_words(code, fields),
    }
}

fn plain(code: &str) -> Result<Refusal, Stop> {
    match code {
        "BadHttp" => Ok(Refusal::BadHttp),
        "LengthRequired" => Ok(Refusal::LengthRequired),
        "Transfer" => Ok(Refusal::Transfer),
        "NoSuchProcedure" => Ok(Refusal::NoSuchProcedure),
        "BadJson" => Ok(Refusal::BadJson),
        "Mem" => Ok(Refusal::Mem),
        _ => Err(Stop::Row),
    }
}

fn of_tag(code: &str, tag: Tag) -> Result<Refusal, Stop> {
    match code {
        "GraphExists" => Ok(Refusal::GraphExists { graph_name: tag }),
        "NoSuchGraph" => Ok(Refusal::NoSuchGraph { graph_name: tag }),
        "JobExists" => Ok(Refusal::JobExists { job_id: tag }),
        "NoSuchJob" => Ok(Refusal::NoSuchJob { job_id: tag }),
        _ => Ok(Refusal::NotAdmin { username: tag }),
    }
}

fn of_name(code: &str, name: Name) -> Result<Refusal, Stop> {
    match code {
        "NoSuchLabel" => Ok(Refusal::NoSuchLabel { label: name }),
        "NoSuchType" => Ok(Refusal::NoSuchType { rel_type: name }),
        "NoSuchProperty" => Ok(Refusal::NoSuchProperty { key: name }),
        "MixedAggregation" => Ok(Refusal::MixedAggregation { rel_type: name }),
        "NotUndirected" => Ok(Refusal::NotUndirected { rel_type: name }),
        "PropertyExists" => Ok(Refusal::PropertyExists { key: name }),
        "AlreadyUndirected" => Ok(Refusal::AlreadyUndirected { rel_type: name }),
        _ => Ok(Refusal::TypeExists { rel_type: name }),
    }
}

fn of_number(code: &str, number: u32) -> Result<Refusal, Stop> {
    let limit = u64::from(number);
    match code {
        "TooManyGraphs" => Ok(Refusal::TooManyGraphs { limit }),
        "TooManyJobs" => Ok(Refusal::TooManyJobs { limit }),
        "Terminated" => Ok(Refusal::Terminated { batches: number }),
        _ => Ok(Refusal::StoreFault { batches: number }),
    }
}

fn bad_argument(alloc: Global, fields: &str) -> Result<Refusal, Stop> {
    let row = number(fields, 1)?;
    let at = word(fields, 0)?;
    let at = List::from_vec(Vec::from_slice(alloc, at.as_bytes())?);
    Ok(Refusal::BadArgument { at, row })
}

fn sum_out_of_range(alloc: Global, fields: &str) -> Result<Refusal, Stop> {
    let source = small(fields, 2)?;
    let target = small(fields, 3)?;
    let rel_type = name(alloc, word(fields, 0)?)?;
    let key = name(alloc, word(fields, 1)?)?;
    Ok(Refusal::SumOutOfRange {
        rel_type,
        key,
        source,
        target,
    })
}

fn graph_gone(alloc: Global, fields: &str) -> Result<Refusal, Stop> {
    let had = small(fields, 1)?;
    let now_ = small(fields, 2)?;
    let graph_name = tag(alloc, word(fields, 0)?)?;
    Ok(Refusal::GraphGone {
        graph_name,
        had,
        now_,
    })
}

// A refusal of words and numbers alone.
fn of_words(code: &str, fields: &str) -> Result<Refusal, Stop> {
    match code {
        "TooLong" => too_long(fields),
        "FilterSyntax" => filter_syntax(fields),
        "FilterType" => filter_type(fields),
        "WeightOutOfRange" => weight_out_of_range(fields),
        "NoSuchEntity" => no_such_entity(fields),
        "Full" => full(fields),
        "CounterSpent" => counter_spent(fields),
        _ => Err(Stop::Row),
    }
}

fn too_long(fields: &str) -> Result<Refusal, Stop> {
    let limit = number(fields, 1)?;
    let what = match word(fields, 0)? {
        "head" => LongPart::Head,
        "body" => LongPart::Body,
        "line" => LongPart::Line,
        _ => return Err(Stop::Row),
    };
    Ok(Refusal::TooLong { what, limit })
}

fn side(word: &str) -> Result<Side, Stop> {
    match word {
        "nodes" => Ok(Side::Nodes),
        "relationships" => Ok(Side::Rels),
        _ => Err(Stop::Row),
    }
}

fn filter_syntax(fields: &str) -> Result<Refusal, Stop> {
    let byte = small(fields, 1)?;
    let filter = side(word(fields, 0)?)?;
    Ok(Refusal::FilterSyntax { filter, byte })
}

fn filter_type(fields: &str) -> Result<Refusal, Stop> {
    let byte = small(fields, 1)?;
    let filter = side(word(fields, 0)?)?;
    Ok(Refusal::FilterType { filter, byte })
}

fn weight_out_of_range(fields: &str) -> Result<Refusal, Stop> {
    let source = small(fields, 0)?;
    let target = small(fields, 1)?;
    let weight = value(fields, 2)?;
    Ok(Refusal::WeightOutOfRange {
        source,
        target,
        weight,
    })
}

fn no_such_entity(fields: &str) -> Result<Refusal, Stop> {
    let id = small(fields, 1)?;
    let kind = match word(fields, 0)? {
        "node" => EntityKind::Node,
        "relationship" => EntityKind::Rel,
        _ => return Err(Stop::Row),
    };
    Ok(Refusal::NoSuchEntity { kind, id })
}

fn quantity(word: &str) -> Result<Quantity, Stop> {
    match word {
        "nodes" => Ok(Quantity::Nodes),
        "relationships" => Ok(Quantity::Rels),
        "values" => Ok(Quantity::Values),
        "arcs" => Ok(Quantity::Arcs),
        _ => Err(Stop::Row),
    }
}

fn full(fields: &str) -> Result<Refusal, Stop> {
    let limit = number(fields, 1)?;
    let batches = small(fields, 2)?;
    let which = quantity(word(fields, 0)?)?;
    Ok(Refusal::Full {
        which,
        limit,
        batches,
    })
}

fn counter_spent(fields: &str) -> Result<Refusal, Stop> {
    let last = number(fields, 1)?;
    let counter = match word(fields, 0)? {
        "imports" => Counter::Imports,
        "jobs" => Counter::Jobs,
        "versions" => Counter::Versions,
        _ => return Err(Stop::Row),
    };
    Ok(Refusal::CounterSpent { counter, last })
}

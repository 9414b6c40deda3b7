// Why a call was refused.
ghost use Rattle.std.specs.Prelude.{◌≡◌};
ghost use Rattle.graph_model.specs.declared.refusal.Refusal.TheVariants.{Mem as refusal_mem};

use crate::list::List;
use crate::memory::Mem;
use crate::name::{Name, Tag};

/// What is too long.
#[derive(Clone, Copy, Debug, PartialEq, Eq)]
pub enum LongPart {
    /// The head of an HTTP request.
    Head,
    /// The body of an HTTP request.
    Body,
    /// A line of JSON.
    Line,
}

/// One of the two sides of a graph.
#[derive(Clone, Copy, Debug, PartialEq, Eq)]
pub enum Side {
    /// The nodes.
    Nodes,
    /// The relationships.
    Rels,
}

/// A kind of element.
#[derive(Clone, Copy, Debug, PartialEq, Eq)]
pub enum EntityKind {
    /// A node.
    Node,
    /// A relationship.
    Rel,
}

/// A quantity that is limited.
#[derive(Clone, Copy, Debug, PartialEq, Eq)]
pub enum Quantity {
    /// Node ids ever given.
    Nodes,
    /// Relationship ids ever given.
    Rels,
    /// Values that are stored.
    Values,
    /// Arcs of a named graph.
    Arcs,
}

/// A counter of a user.
#[derive(Clone, Copy, Debug, PartialEq, Eq)]
pub enum Counter {
    /// Import answers that are kept.
    Imports,
    /// Job numbers.
    Jobs,
    /// Versions of named graphs.
    Versions,
}

/// Why a call was refused: one variant a cause, numbered from 1 in the order of this list.
#[derive(Debug, Drop)]
pub enum Refusal {
    /// The head of an HTTP request breaks the rules for heads.
    BadHttp,
    /// The head, the body or the line is longer than its limit in bytes.
    TooLong {
        what: LongPart,
        limit: u64,
    },
    /// An HTTP request has no Content-Length.
    LengthRequired,
    /// An HTTP request has a Transfer-Encoding.
    Transfer,
    /// No procedure has this name.
    NoSuchProcedure,
    /// The text is no JSON.
    BadJson,
    /// An argument is missing, unknown or of a wrong form. `row` is the row of a CSV text, counted from 1, and 0 elsewhere.
    BadArgument {
        at: List<u8>,
        row: u64,
    },
    /// The caller has a graph of this name.
    GraphExists {
        graph_name: Tag,
    },
    /// The caller has no graph of this name.
    NoSuchGraph {
        graph_name: Tag,
    },
    /// The label isn't known.
    NoSuchLabel {
        label: Name,
    },
    /// The type isn't known.
    NoSuchType {
        rel_type: Name,
    },
    /// The key isn't known.
    NoSuchProperty {
        key: Name,
    },
    /// A projected type keeps arcs and groups them at once.
    MixedAggregation {
        rel_type: Name,
    },
    /// The sum of a key over the relationships between two nodes leaves i64. The ends are node ids.
    SumOutOfRange {
        rel_type: Name,
        key: Name,
        source: u32,
        target: u32,
    },
    /// No filter has this token here. `byte` is its place in the text, counted from 0.
    FilterSyntax {
        filter: Side,
        byte: u32,
    },
    /// An operand of a filter is of the wrong kind. `byte` is its place in the text, counted from 0.
    FilterType {
        filter: Side,
        byte: u32,
    },
    /// A chosen type isn't undirected.
    NotUndirected {
        rel_type: Name,
    },
    /// An arc weighs less than 0 or more than 4,294,967,295. The ends are node ids.
    WeightOutOfRange {
        source: u32,
        target: u32,
        weight: i64,
    },
    /// The named graph has this key.
    PropertyExists {
        key: Name,
    },
    /// No element with this id is there.
    NoSuchEntity {
        kind: EntityKind,
        id: u32,
    },
    /// The caller has a job of this name.
    JobExists {
        job_id: Tag,
    },
    /// The caller has no job of this name.
    NoSuchJob {
        job_id: Tag,
    },
    /// The job was asked to end. `batches` is how many batches it had done.
    Terminated {
        batches: u32,
    },
    /// The named graph isn't the one that the job began on: its version was `had` and is `now_`, which is 0 for no graph.
    GraphGone {
        graph_name: Tag,
        had: u32,
        now_: u32,
    },
    /// A limit would be passed. `batches` is how many batches the job had done, and 0 outside a write.
    Full {
        which: Quantity,
        limit: u64,
        batches: u32,
    },
    /// The caller has as many graphs as a user may have.
    TooManyGraphs {
        limit: u64,
    },
    /// The caller has as many jobs as a user may have.
    TooManyJobs {
        limit: u64,
    },
    /// The keeper could not commit. `batches` is how many batches the job had done, and 0 outside a write.
    StoreFault {
        batches: u32,
    },
    /// No memory was to be had.
    Mem,
    /// A counter of the caller stands at its last number.
    CounterSpent {
        counter: Counter,
        last: u64,
    },
    /// The caller asks about another user and isn't the administrator.
    NotAdmin {
        username: Tag,
    },
    /// The type is undirected already.
    AlreadyUndirected {
        rel_type: Name,
    },
    /// The named graph has this type.
    TypeExists {
        rel_type: Name,
    },
}

impl From<Mem> for Refusal {
    ghost from_gives = { λ _ refusal. refusal ≡ refusal_mem };

    fn from(_mem: Mem) -> Refusal {
        Refusal::Mem
    }
}

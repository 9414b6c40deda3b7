// The words for the small enums of refusals, and for the stages of jobs.
ghost use Rattle.std.specs.Prelude.{◌≡◌};
ghost use Rattle.call_codec.specs.Answers.{part_word, side_word, kind_word, quantity_word, counter_word, stage_word};

use desk_model::JobKind;
use graph_model::{Counter, EntityKind, LongPart, Quantity, Side};

pub(crate) fn part_word(what: LongPart) -> &'static str
    ensures { result.now ≡ part_word what }
{
    match what {
        LongPart::Head => "head",
        LongPart::Body => "body",
        LongPart::Line => "line",
    }
}

pub(crate) fn side_word(side: Side) -> &'static str
    ensures { result.now ≡ side_word side }
{
    match side {
        Side::Nodes => "nodes",
        Side::Rels => "relationships",
    }
}

pub(crate) fn kind_word(kind: EntityKind) -> &'static str
    ensures { result.now ≡ kind_word kind }
{
    match kind {
        EntityKind::Node => "node",
        EntityKind::Rel => "relationship",
    }
}

pub(crate) fn quantity_word(which: Quantity) -> &'static str
    ensures { result.now ≡ quantity_word which }
{
    match which {
        Quantity::Nodes => "nodes",
        Quantity::Rels => "relationships",
        Quantity::Values => "values",
        Quantity::Arcs => "arcs",
    }
}

pub(crate) fn counter_word(counter: Counter) -> &'static str
    ensures { result.now ≡ counter_word counter }
{
    match counter {
        Counter::Imports => "imports",
        Counter::Jobs => "jobs",
        Counter::Versions => "versions",
    }
}

pub(crate) fn stage_word(kind: JobKind) -> &'static str
    ensures { result.now ≡ stage_word kind }
{
    match kind {
        JobKind::Making => "making",
        JobKind::Running => "running",
        JobKind::Writing => "writing",
    }
}

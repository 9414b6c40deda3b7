// A graph that was made of a capture.
ghost use Rattle.std.specs.Prelude.{◌≡◌};
ghost use Rattle.graph_making.specs.Making.{made_of, plain_capture, plain_made};

use crate::capture::{Captured, MakeSpec};
use csr_columns::Projection;
use graph_model::Refusal;
use std::marker::Model;
use std::snapshot::Snapshot;

/// The graph that a specification makes of a capture, or why it makes none.
///
/// Contracts see the capture and the specification, which settle what was made; the value holds no copy of them.
#[derive(Drop)]
pub struct Built {
    from: Snapshot<Captured>,
    spec: Snapshot<MakeSpec>,
    made: Result<Projection, Refusal>,
}

impl Model for Built {
    ghost use Rattle.std.specs.Prelude.{◌≡◌};
    ghost use Rattle.graph_making.specs.Making.{BuiltGraph, made_of, plain_capture, plain_made};

    ghost Value = { BuiltGraph };

    ghost view = { λ built. record { from = plain_capture built.from.value; spec = built.spec.value } };

    ghost invariant = { λ built. plain_made built.made ≡ made_of (plain_capture built.from.value) built.spec.value };
}

impl Built {
    /// What a specification makes of a capture, where this is it: a refusal is held as well as a graph.
    pub fn of(from: &Captured, spec: &MakeSpec, made: Result<Projection, Refusal>) -> Built
        requires { plain_made made ≡ made_of (plain_capture from.now) spec.now }
        ensures capture { result.from ≡ plain_capture from.now }
        ensures asked { result.spec ≡ spec.now }
    {
        Built {
            from: Snapshot::of(from),
            spec: Snapshot::of(spec),
            made,
        }
    }

    /// The graph that was made, or why none was.
    pub fn into_result(self) -> Result<Projection, Refusal>
        ensures { plain_made result ≡ made_of self.from self.spec }
    {
        let Built {
            from: _,
            spec: _,
            made,
        } = self;
        made
    }
}

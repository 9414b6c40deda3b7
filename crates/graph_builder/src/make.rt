// How a graph is made of a capture.
ghost use Rattle.std.specs.Prelude.{◌≡◌, ◌≤◌, Ok, Err, IfOk, IfErr};
ghost use Rattle.graph_model.specs.Refusals.{UnlessMem};
ghost use Rattle.csr_columns.specs.Plain.{plain};
ghost use Rattle.graph_making.specs.Making.{made_of, plain_capture};

use csr_columns::Projection;
use graph_making::{Built, Captured, MakeSpec};
use graph_model::{Mem, Refusal};
use native_projection::project;
use std::alloc::Global;

/// What can be made of a capture and a specification.
pub trait Make {
    /// Makes the graph that a specification asks for of a capture, on so many workers. What comes of it is the same for
    /// each number of workers; a refusal is held as well as a graph.
    ///
    /// # Errors
    /// `Mem` where there is no memory for it.
    fn make(alloc: Global, from: &Captured, spec: &MakeSpec, workers: u32) -> Result<Built, Mem>
        requires some { 1 ≤ workers }
        requires few { workers ≤ 64 }
        ensures capture { IfOk result (λ built. built.from ≡ plain_capture from.now) }
        ensures asked { IfOk result (λ built. built.spec ≡ spec.now) };
}

impl Make for Built {
    fn make(alloc: Global, from: &Captured, spec: &MakeSpec, workers: u32) -> Result<Built, Mem> {
        match make_graph(alloc, from, spec, workers) {
            Err(Refusal::Mem) => Err(Mem),
            made => Ok(Built::of(from, spec, made)),
        }
    }
}

// The graph that a specification asks for of a capture, or why there is none, or `Mem`.
fn make_graph(
    alloc: Global,
    from: &Captured,
    spec: &MakeSpec,
    workers: u32,
) -> Result<Projection, Refusal>
    requires some { 1 ≤ workers }
    requires few { workers ≤ 64 }
    ensures ok { IfOk result (λ graph. made_of (plain_capture from.now) spec.now ≡ Ok (plain graph)) }
    ensures refused { IfErr result (λ why. UnlessMem why (made_of (plain_capture from.now) spec.now ≡ Err why)) }
{
    match (from, spec) {
        (Captured::Store(snapshot), MakeSpec::Native(spec)) => {
            project(alloc, snapshot.get(), spec, workers)
        }
    }
}

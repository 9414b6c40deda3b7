// What is captured for a job that makes a graph.
ghost use Rattle.std.specs.Prelude.{◌≡◌, IfOk};
ghost use Rattle.graph_making.specs.Making.{plain_capture};
ghost use Rattle.desk_model.specs.Step.{captured_for};

use graph_making::{Captured, MakeSpec};
use graph_model::{Mem, Shared};
use graph_store::Store;
use std::alloc::Global;

/// What is captured for a specification: the store's graph as it is now, which later changes don't reach.
///
/// # Errors
/// `Mem` where there is no memory for it.
pub(crate) fn capture(alloc: Global, store: &Store, spec: &MakeSpec) -> Result<Captured, Mem>
    ensures { IfOk result (λ captured. plain_capture captured ≡ captured_for spec.now store.now) }
{
    match spec {
        MakeSpec::Native(_) => Ok(Captured::Store(Shared::new(alloc, store.snapshot()?)?)),
    }
}

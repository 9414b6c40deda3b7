// A run that finds the degrees of a view.
ghost use Rattle.std.specs.Prelude.{◌≡◌, ◌<◌, ◌≤◌, length, Ok, None, Some, IfOk, IfErr, OnOk};
ghost use Rattle.gds_causes.specs.Turned.{MatchTurned};
ghost use Rattle.graph_model.specs.Degrees.{degrees, weight_refusal};
ghost use Rattle.graph_model.specs.Refusals.{UnlessMem};
ghost use Rattle.csr_columns.specs.ViewParts.{plain_view_of};
ghost use Rattle.par_degree.specs.Runs.{advanced, left, turned_at};

use crate::counting;
use crate::weights::weight_refusal;
use csr_columns::View;
use gds_causes::{Gate, Turned};
use graph_model::{Column, List, Mem, Refusal, Shared};
use std::alloc::Global;
use std::marker::Model;
use std::thread::Threads;

/// A view whose degrees are being found. Contracts see the view, and how many nodes have theirs.
#[derive(Drop)]
pub struct DegreeRun {
    view: Shared<View>,
    values: Vec<i64>,
    ready: u32,
}

impl Model for DegreeRun {
    ghost use Rattle.par_degree.specs.Runs.{DegreeState, IsRun};

    ghost Value = { DegreeState };

    ghost view = { λ run. record { view = run.view; ready = run.ready } };

    ghost invariant = { λ run. IsRun run.view run.values.items run.ready };
}

// Room for some values.
fn room(alloc: Global, count: usize) -> Result<Vec<i64>, Mem>
    ensures { IfOk result (λ values. length values.items ≡ count) }
{
    Ok(vec![in alloc; 0; count]?)
}

impl DegreeRun {
    /// A run that has treated no node yet. It shares the view, and takes room for all degrees.
    ///
    /// # Errors
    /// The refusal of the first arc that weighs less than 0 or more than 4,294,967,295, or `Mem`. The pointer to the view is
    /// given up.
    pub fn start(alloc: Global, view: Shared<View>) -> Result<DegreeRun, Refusal>
        ensures ok { IfOk result (λ run. (run.view ≡ view) × (run.ready ≡ 0)) }
        ensures taken { OnOk result (weight_refusal (plain_view_of view) ≡ None) }
        ensures refused { IfErr result (λ why. UnlessMem why (weight_refusal (plain_view_of view) ≡ Some why)) }
    {
        if let Some(why) = weight_refusal(view.get()) {
            return Err(why);
        }
        match room(alloc, view.get().ids().len()) {
            Ok(values) => Ok(DegreeRun {
                view,
                values,
                ready: 0,
            }),
            Err(Mem) => Err(Refusal::Mem),
        }
    }

    /// Treats the next 65,536 nodes, or those that are left. `More` exactly where nodes are left afterwards, and then fewer
    /// than before. It takes no memory, and is never refused.
    ///
    /// `workers` is 1 to 64, and the result is the same for every number of workers and every gate. The step's nodes are cut
    /// into as many consecutive parts of equal size, the last perhaps shorter. Each goes through the gate with its number,
    /// counted from 1, and all of them run at once; one alone runs in the caller.
    pub fn advance<R: Threads + Sync, G: Gate + Sync>(
        &mut self,
        rt: &R,
        workers: u32,
        gate: &G,
    ) -> Result<Turned, Mem>
        requires some_workers { 1 ≤ workers }
        requires few_workers { workers ≤ 64 }
        ensures run { self.new ≡ advanced self.old }
        ensures answer { result ≡ Ok (turned_at self.new) }
        ensures left { IfOk result (λ turned. MatchTurned turned (left self.new < left self.old) (left self.new ≡ 0)) }
    {
        let view = self.view.get();
        self.ready = counting::count_more(rt, workers, gate, view, &mut self.values, self.ready);
        if (self.ready as usize) < self.values.len() {
            Ok(Turned::More)
        } else {
            Ok(Turned::Done)
        }
    }

    /// The degree of each node, beside its id. The last `advance` has answered `Done`.
    ///
    /// # Errors
    /// `Mem` where there is no room for the ids. The run is given up.
    pub fn finish(self, alloc: Global) -> Result<Column, Mem>
        requires { left self ≡ 0 }
        ensures ids { IfOk result (λ column. column.ids ≡ self.view.ids) }
        ensures values { IfOk result (λ column. column.values ≡ degrees (plain_view_of self.view)) }
    {
        let ids = Vec::from_slice(alloc, self.view.get().ids())?;
        Ok(Column {
            ids: List::from_vec(ids),
            values: List::from_vec(self.values),
        })
    }
}

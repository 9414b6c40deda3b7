// Views of projections, on which algorithms run.
ghost use Rattle.std.specs.Prelude.{◌≡◌, ◌<◌, ◌≤◌, length, IfSome, option_copied};
ghost use Rattle.std.specs.List.Sorted.{IsStrictlyIncreasing};
ghost use Rattle.graph_model.specs.Graph.{most_nodes};
ghost use Rattle.graph_model.specs.Projection.{most_arcs};
ghost use Rattle.csr_columns.specs.Rows.{row_at, row_in};
ghost use Rattle.csr_columns.specs.Parts.{arcs_in_rows};
ghost use Rattle.csr_columns.specs.ViewParts.{HasWeightsAmong};

use crate::csr::Csr;
use graph_model::{List, Name, Shared};
use std::marker::Model;

/// The nodes with a chosen label and the arcs of the chosen types between them, in rows.
///
/// A node is told by its place among the ids. A view has at most 4,194,304 nodes and 67,108,864 arcs.
#[derive(Drop)]
pub struct View {
    pub(crate) ids: Shared<List<u32>>,
    pub(crate) arcs: Shared<Csr>,
    pub(crate) weight: Option<usize>,
    pub(crate) directed: Option<Name>,
}

impl Model for View {
    ghost use Rattle.csr_columns.specs.ViewParts.{ViewColumns, IsView, view_shown};

    ghost Value = { ViewColumns };

    ghost view = { λ v. view_shown v.ids v.arcs v.weight v.directed };

    ghost invariant = { λ v. IsView v.ids v.arcs v.weight };
}

impl View {
    /// The ids of the nodes, ascending.
    #[inline]
    pub fn ids(&self) -> &[u32]
        ensures ids { result.now ≡ self.now.ids }
        ensures ascend { IsStrictlyIncreasing result.now }
        ensures few { length result.now ≤ most_nodes }
    {
        self.ids.get().as_slice()
    }

    /// The arcs between places of ids, each row in ascending order of target. The weights are one of their columns.
    #[inline]
    pub fn arcs(&self) -> &Csr
        ensures arcs { result.now ≡ self.now.arcs }
        ensures rows { length result.now.rows ≡ length self.now.ids }
        ensures few { arcs_in_rows result.now ≤ most_arcs }
        ensures weights { HasWeightsAmong self.now }
        ensures ascend { IsStrictlyIncreasing self.now.ids }
    {
        self.arcs.get()
    }

    /// The weights of the arcs from `v`, in their order, `None` where no weight key was asked for.
    #[inline]
    pub fn weights(&self, v: u32) -> Option<&[i64]>
        requires { v < length self.now.ids }
        ensures weights { option_copied result ≡ row_in self.now.weights v }
        ensures beside { IfSome result (λ weights. length weights.now ≡ length (row_at self.now.arcs.rows v)) }
    {
        match self.weight {
            Some(place) => Some(self.arcs.get().values(place, v)),
            None => None,
        }
    }

    /// The name of the first chosen type that isn't undirected, `None` where each is.
    #[inline]
    pub fn directed(&self) -> Option<&Name>
        ensures { option_copied result ≡ self.now.directed }
    {
        self.directed.as_ref()
    }
}

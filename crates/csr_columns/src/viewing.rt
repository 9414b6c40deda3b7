// The view of a projection: choices resolved, nodes kept, and arcs taken over.
ghost use Rattle.std.specs.Prelude.{◌≡◌, ◌≤◌, ◌∷◌, [], true, length, All, Some, None, Ok, Err, IfOk, IfErr, IfSome, OnOk, option_copied};
ghost use Rattle.std.specs.List.{list_all};
ghost use Rattle.std.specs.List.Sorted.{IsStrictlyIncreasing};
ghost use Rattle.graph_model.specs.View.{view_refusal, view_of, plain_view};
ghost use Rattle.graph_model.specs.Refusals.{UnlessMem};
ghost use Rattle.csr_columns.specs.Parts.{FitTogether};
ghost use Rattle.csr_columns.specs.Plain.{plain};
ghost use Rattle.csr_columns.specs.ViewParts.{StandsAmong, plain_view_of, view_shown};
ghost use Rattle.csr_columns.specs.Choosing.{IsWhole, chosen, has_column, kept_flags, first_directed_kind};
ghost use Rattle.csr_columns.specs.Keeping.{HasPlacesBelow, kept_of, renumbered};
ghost use Rattle.csr_columns.specs.Merging.{IsNumbering};
ghost use Rattle.graph_model.specs.Graph.{most_nodes};

use crate::parts::TypeColumns;
use crate::projection::Projection;
use crate::view::View;
use crate::{choosing, keeping, taking};
use graph_model::{Choice, List, Mem, Name, Refusal, Shared, TryClone};
use std::alloc::Global;

/// The kept nodes: their ids, for each node the place that it gets, and the nodes at those places.
#[derive(Drop)]
struct Kept {
    ids: List<u32>,
    places: Vec<Option<u32>>,
    nodes: Vec<u32>,
}

impl Projection {
    /// The nodes with a chosen label, and the arcs of the chosen types between them, with their weights where a weight key
    /// is given. A view of all nodes and one type whose rows ascend shares the ids and the rows.
    ///
    /// # Errors
    /// `NoSuchLabel` with the first label that isn't projected, else `NoSuchType` with the first type that isn't, else
    /// `NoSuchProperty` where the weight key isn't a key of every chosen type, or `Mem`.
    pub fn view(
        &self,
        alloc: Global,
        labels: &Choice,
        types: &Choice,
        weight: Option<&Name>,
    ) -> Result<View, Refusal>
        ensures ok { IfOk result (λ view. view_of (plain self.now) labels.now types.now (option_copied weight.entry) ≡ Ok (plain_view_of view)) }
        ensures refused { IfErr result (λ why. UnlessMem why (view_of (plain self.now) labels.now types.now (option_copied weight.entry) ≡ Err why)) }
    {
        if let Err(why) = self.check_choices(labels, types, weight) {
            return Err(why);
        }
        let made = match weight {
            None => self.bare_view(alloc, labels, types),
            Some(key) => self.heavy_view(alloc, labels, types, key),
        };
        match made {
            Ok(view) => Ok(view),
            Err(_mem) => Err(Refusal::Mem),
        }
    }

    // Refuses a view of names that aren't there.
    fn check_choices(
        &self,
        labels: &Choice,
        types: &Choice,
        weight: Option<&Name>,
    ) -> Result<(), Refusal>
        ensures ok { OnOk result (view_refusal (plain self.now) labels.now types.now (option_copied weight.entry) ≡ None) }
        ensures refused { IfErr result (λ why. UnlessMem why (view_refusal (plain self.now) labels.now types.now (option_copied weight.entry) ≡ Some why)) }
    {
        if let Some(label) = choosing::unknown(self.labels(), labels) {
            let label = label.try_clone()?;
            return Err(Refusal::NoSuchLabel { label });
        }
        if let Some(rel_type) = choosing::unknown_type(self.types(), types) {
            let rel_type = rel_type.try_clone()?;
            return Err(Refusal::NoSuchType { rel_type });
        }
        if let Some(key) = weight {
            if !choosing::have_key(self.types(), types, key) {
                let key = key.try_clone()?;
                return Err(Refusal::NoSuchProperty { key });
            }
        }
        Ok(())
    }

    // The view without weights.
    fn bare_view(&self, alloc: Global, labels: &Choice, types: &Choice) -> Result<View, Mem>
        ensures { IfOk result (λ view. plain_view_of view ≡ plain_view (plain self.now) labels.now types.now None) }
    {
        match self.whole_type(alloc, labels, types)? {
            Some(kind) => self.sharing_view(kind, types, None),
            None => self.bare_copy(alloc, labels, types),
        }
    }

    // The view with the weights under a key that each chosen type has.
    fn heavy_view(
        &self,
        alloc: Global,
        labels: &Choice,
        types: &Choice,
        key: &Name,
    ) -> Result<View, Mem>
        requires { list_all (has_column key.now) (chosen types.now self.now.types) ≡ true }
        ensures { IfOk result (λ view. plain_view_of view ≡ plain_view (plain self.now) labels.now types.now (Some key.now)) }
    {
        match self.whole_type(alloc, labels, types)? {
            Some(kind) => self.sharing_view(kind, types, kind.arcs.get().place_of(key)),
            None => self.heavy_copy(alloc, labels, types, key),
        }
    }

    // The one chosen type, where each node is chosen and the type's rows ascend: a view shares its rows then.
    fn whole_type(
        &self,
        alloc: Global,
        labels: &Choice,
        types: &Choice,
    ) -> Result<Option<&TypeColumns>, Mem>
        ensures { IfOk result (λ kind. IfSome (option_copied kind) (IsWhole self.now labels.now types.now)) }
    {
        let Some(kind) = choosing::only_chosen(self.types(), types) else {
            return Ok(None);
        };
        if !kind.arcs.get().has_ascending_rows() {
            return Ok(None);
        }
        if !self.chooses_all(alloc, labels)? {
            return Ok(None);
        }
        Ok(Some(kind))
    }

    // Whether each node is chosen.
    fn chooses_all(&self, alloc: Global, labels: &Choice) -> Result<bool, Mem>
        ensures { IfOk result (λ all. all ≡ true → All (λ kept. kept ≡ true) (kept_flags labels.now self.now.labels (length self.now.ids))) }
    {
        if let Choice::All = labels {
            return Ok(true);
        }
        let kept = self.kept_flags(alloc, labels)?;
        Ok(kept.iter().all(|flag| *flag))
    }

    // The view of all nodes and one type, which shares the ids and the type's rows.
    fn sharing_view(
        &self,
        kind: &TypeColumns,
        types: &Choice,
        weight: Option<usize>,
    ) -> Result<View, Mem>
        requires only { chosen types.now self.now.types ≡ kind.now ∷ [] }
        requires weighted { StandsAmong weight (length kind.now.arcs.columns) }
        ensures view { IfOk result (λ view. view ≡ view_shown self.now.ids kind.now.arcs weight (first_directed_kind (chosen types.now self.now.types))) }
        ensures fit { OnOk result (FitTogether self.now) }
    {
        Ok(View {
            ids: self.shared_ids()?,
            arcs: kind.arcs.try_clone()?,
            weight,
            directed: directed(self.types(), types)?,
        })
    }

    // The view without weights, in rows of its own.
    fn bare_copy(&self, alloc: Global, labels: &Choice, types: &Choice) -> Result<View, Mem>
        ensures { IfOk result (λ view. plain_view_of view ≡ plain_view (plain self.now) labels.now types.now None) }
    {
        let Kept { ids, places, nodes } = self.keep(alloc, labels)?;
        let (count, types_of) = (ids.len() as u32, self.types());
        let arcs = taking::bare_rows(alloc, count, types_of, types, &places, &nodes)?;
        Ok(View {
            ids: Shared::new(alloc, ids)?,
            arcs: Shared::new(alloc, arcs)?,
            weight: None,
            directed: directed(self.types(), types)?,
        })
    }

    // The view with the weights under a key that each chosen type has, in rows of its own.
    fn heavy_copy(
        &self,
        alloc: Global,
        labels: &Choice,
        types: &Choice,
        key: &Name,
    ) -> Result<View, Mem>
        requires { list_all (has_column key.now) (chosen types.now self.now.types) ≡ true }
        ensures { IfOk result (λ view. plain_view_of view ≡ plain_view (plain self.now) labels.now types.now (Some key.now)) }
    {
        let Kept { ids, places, nodes } = self.keep(alloc, labels)?;
        let (count, types_of) = (ids.len() as u32, self.types());
        let arcs = taking::heavy_rows(alloc, count, types_of, types, &places, &nodes, key)?;
        Ok(View {
            ids: Shared::new(alloc, ids)?,
            arcs: Shared::new(alloc, arcs)?,
            weight: Some(0),
            directed: directed(self.types(), types)?,
        })
    }

    // The nodes with a chosen label.
    fn keep(&self, alloc: Global, labels: &Choice) -> Result<Kept, Mem>
        ensures ids { IfOk result (λ kept. kept.ids ≡ kept_of (kept_flags labels.now self.now.labels (length self.now.ids)) self.now.ids) }
        ensures places { IfOk result (λ kept. kept.places.items ≡ renumbered 0 (kept_flags labels.now self.now.labels (length self.now.ids))) }
        ensures long { IfOk result (λ kept. length kept.places.items ≡ length self.now.ids) }
        ensures below { IfOk result (λ kept. HasPlacesBelow (length kept.ids) kept.places.items) }
        ensures few { IfOk result (λ kept. length kept.ids ≤ most_nodes) }
        ensures ascend { IfOk result (λ kept. IsStrictlyIncreasing kept.ids) }
        ensures numbered { IfOk result (λ kept. IsNumbering kept.places.items kept.nodes.items) }
        ensures many { IfOk result (λ kept. length kept.nodes.items ≡ length kept.ids) }
        ensures sorted { OnOk result (IsStrictlyIncreasing self.now.ids) }
    {
        let kept = self.kept_flags(alloc, labels)?;
        let ids = keeping::kept_ids(alloc, &kept, self.ids())?;
        let places = keeping::new_places(alloc, &kept)?;
        let nodes = keeping::kept_nodes(alloc, &kept)?;
        Ok(Kept { ids, places, nodes })
    }
}

// The name of the first chosen type that isn't undirected.
fn directed(types: &[TypeColumns], choice: &Choice) -> Result<Option<Name>, Mem>
    ensures { IfOk result (λ name. name ≡ first_directed_kind (chosen choice.now types.now)) }
{
    match choosing::first_directed(types, choice) {
        Some(name) => {
            let copy = name.try_clone()?;
            Ok(Some(copy))
        }
        None => Ok(None),
    }
}

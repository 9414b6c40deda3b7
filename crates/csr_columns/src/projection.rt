// Projections: nodes with labels and values, and arcs by type, in columns.
ghost use Rattle.std.specs.Prelude.{◌≡◌, ◌<◌, ◌≤◌, true, false, length, IfOk, IfErr, IfSome, OnOk, All, option_copied};
ghost use Rattle.std.specs.List.Sorted.{IsStrictlyIncreasing};
ghost use Rattle.graph_model.specs.Projection.{most_arcs, is_among, under, with_column};
ghost use Rattle.graph_model.specs.Graph.{most_nodes};
ghost use Rattle.graph_model.specs.Refusals.{UnlessMem};
ghost use Rattle.csr_columns.specs.Rows.{names_of};
ghost use Rattle.csr_columns.specs.Parts.{FitTogether, HasNodes, arcs_in, flag_at, value_at};
ghost use Rattle.csr_columns.specs.Plain.{plain, parts_with_column};
ghost use Rattle.csr_columns.specs.Choosing.{kept_flags};

use crate::parts::{Parts, TypeColumns};
use crate::{adding, columns, keeping};
use graph_model::{Choice, Column, List, Mem, Name, Refusal, Shared, TryClone};
use std::alloc::Global;
use std::marker::Model;

/// Nodes with labels and values, and arcs by type, in columns that copies share. Contracts see the parts.
///
/// A node is told by its place among the ids. A projection has at most 4,194,304 nodes and 67,108,864 arcs.
#[derive(Drop)]
pub struct Projection {
    ids: Shared<List<u32>>,
    labels: List<Name>,
    flags: List<Shared<List<bool>>>,
    keys: List<Name>,
    columns: List<Shared<List<i64>>>,
    types: Shared<List<TypeColumns>>,
}

impl Model for Projection {
    ghost use Rattle.csr_columns.specs.declared.parts.Parts.{Parts};
    ghost use Rattle.csr_columns.specs.Parts.{parts_shown, AreColumns};

    ghost Value = { Parts };

    ghost view = { λ p. parts_shown p.ids p.labels p.flags p.keys p.columns p.types };

    ghost invariant = { λ p. AreColumns p.ids p.labels p.flags p.keys p.columns p.types };
}

impl Projection {
    /// The projection of these parts. The columns are moved in.
    ///
    /// # Errors
    /// `Mem` where there is no memory.
    pub fn of(alloc: Global, parts: Parts) -> Result<Projection, Mem>
        requires { FitTogether parts }
        ensures { IfOk result (λ projection. projection ≡ parts) }
    {
        let Parts {
            ids,
            labels,
            columns,
            types,
        } = parts;
        let (labels, flags) = columns::apart(alloc, labels)?;
        let (keys, columns) = columns::apart(alloc, columns)?;
        Ok(Projection {
            ids: Shared::new(alloc, ids)?,
            labels,
            flags: columns::share_each(alloc, flags)?,
            keys,
            columns: columns::share_each(alloc, columns)?,
            types: Shared::new(alloc, types)?,
        })
    }

    /// The ids of the nodes, ascending.
    #[inline]
    pub fn ids(&self) -> &[u32]
        ensures ids { result.now ≡ self.now.ids }
        ensures ascend { IsStrictlyIncreasing result.now }
        ensures few { length result.now ≤ most_nodes }
    {
        self.ids.get().as_slice()
    }

    /// Whether the node at `v` has a label; none has a label that isn't projected.
    pub fn has_label(&self, v: u32, label: &Name) -> bool
        requires { v < length self.now.ids }
        ensures { result ≡ flag_at self.now.labels label.now v }
    {
        match columns::column_under(self.labels.as_slice(), self.flags.as_slice(), label) {
            Some(flags) => flags[v as usize],
            None => false,
        }
    }

    /// The projected labels, ascending.
    #[inline]
    pub fn labels(&self) -> &[Name]
        ensures { result.now ≡ names_of self.now.labels }
    {
        self.labels.as_slice()
    }

    /// The keys of the nodes, ascending.
    #[inline]
    pub fn keys(&self) -> &[Name]
        ensures { result.now ≡ names_of self.now.columns }
    {
        self.keys.as_slice()
    }

    /// The value of the node at `v` under a key, `None` where there is no such key.
    pub fn value(&self, v: u32, key: &Name) -> Option<i64>
        requires { v < length self.now.ids }
        ensures { result ≡ value_at self.now.columns key.now v }
    {
        match columns::column_under(self.keys.as_slice(), self.columns.as_slice(), key) {
            Some(column) => Some(columns::item(column, v as usize)),
            None => None,
        }
    }

    /// The values of all nodes under a key, by place, `None` where there is no such key.
    pub fn values(&self, key: &Name) -> Option<&[i64]>
        ensures values { option_copied result ≡ under key.now self.now.columns }
        ensures long { IfSome result (λ values. length values.now ≡ length self.now.ids) }
    {
        match columns::column_under(self.keys.as_slice(), self.columns.as_slice(), key) {
            Some(values) => Some(values),
            None => None,
        }
    }

    /// The projected types, ascending by name. The rows of each are those of all nodes.
    #[inline]
    pub fn types(&self) -> &[TypeColumns]
        ensures types { result.now ≡ self.now.types }
        ensures rows { All (HasNodes (length self.now.ids)) result.now }
        ensures few { arcs_in result.now ≤ most_arcs }
    {
        self.types.get().as_slice()
    }

    /// The number of arcs of all types.
    pub fn arc_count(&self) -> u64
        ensures { result ≡ arcs_in self.now.types }
    {
        let mut count = 0;
        for kind in self.types() {
            count += u64::from(kind.arcs.get().arc_count());
        }
        count
    }

    /// The projection with one more column. All that it had is shared with it, and the column's key stands in its order.
    ///
    /// # Errors
    /// `PropertyExists` exactly where the key is there, or `Mem`.
    pub fn with_column(
        &self,
        alloc: Global,
        key: Name,
        column: &Column,
    ) -> Result<Projection, Refusal>
        ensures ok { IfOk result (λ wider. plain wider ≡ with_column (plain self.now) key column.now) }
        ensures columns { IfOk result (λ wider. wider ≡ parts_with_column self.now key column.now) }
        ensures missing { OnOk result (is_among (names_of self.now.columns) key ≡ false) }
        ensures refused { IfErr result (λ why. UnlessMem why ((why ≡ Refusal.PropertyExists key) × (is_among (names_of self.now.columns) key ≡ true))) }
    {
        if columns::is_among(self.keys(), &key) {
            return Err(Refusal::PropertyExists { key });
        }
        match self.wider(alloc, key, column) {
            Ok(wider) => Ok(wider),
            Err(_mem) => Err(Refusal::Mem),
        }
    }

    // The ids of the nodes, shared.
    pub(crate) fn shared_ids(&self) -> Result<Shared<List<u32>>, Mem>
        ensures ids { IfOk result (λ ids. ids ≡ self.now.ids) }
        ensures fit { OnOk result (FitTogether self.now) }
    {
        self.ids.try_clone()
    }

    /// Whether each node has a chosen label, by place.
    ///
    /// # Errors
    /// `Mem` where there is no memory for it.
    pub fn kept_flags(&self, alloc: Global, labels: &Choice) -> Result<Vec<bool>, Mem>
        ensures { IfOk result (λ kept. kept.items ≡ kept_flags labels.now self.now.labels (length self.now.ids)) }
    {
        let nodes = self.ids.get().len();
        let (names, flags) = (self.labels.as_slice(), self.flags.as_slice());
        let kept = keeping::kept_flags(alloc, nodes, names, flags, labels)?;
        Ok(kept)
    }

    // The projection with one more column, whose key isn't there yet.
    fn wider(&self, alloc: Global, key: Name, column: &Column) -> Result<Projection, Mem>
        requires { is_among (names_of self.now.columns) key ≡ false }
        ensures { IfOk result (λ wider. wider ≡ parts_with_column self.now key column.now) }
    {
        let place = adding::place_among(self.keys.as_slice(), &key);
        let values = adding::values_for(alloc, self.ids.get().as_slice(), column)?;
        let keys = adding::inserted(self.keys.try_clone()?, place, key)?;
        let shared = Shared::new(alloc, values)?;
        let columns = adding::inserted(self.columns.try_clone()?, place, shared)?;
        Ok(Projection {
            ids: self.ids.try_clone()?,
            labels: self.labels.try_clone()?,
            flags: self.flags.try_clone()?,
            keys,
            columns,
            types: self.types.try_clone()?,
        })
    }
}

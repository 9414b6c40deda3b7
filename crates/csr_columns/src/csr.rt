// Arcs by source, in columns that copies share.
ghost use Rattle.std.specs.Prelude.{◌≡◌, ◌<◌, ◌≤◌, true, [], length, map, sum_by, All, MatchOption, IfOk, IfSome, None, Some, option_copied};
ghost use Rattle.std.specs.List.Sorted.{IsSorted};
ghost use Rattle.csr_columns.specs.Rows.{HasColumnsBeside, HasTargetsBelow, IsBeside, names_of, LiesBelow, AreDistinct, arc_cmp, arc_rows_of, listed, row_at, column_at, row_in, turned_rows};
ghost use Rattle.csr_columns.specs.Order.{HasAscendingRows};
ghost use Rattle.csr_columns.specs.Parts.{arcs_in_rows};
ghost use Rattle.csr_columns.specs.Keeping.{HasPlacesBelow};
ghost use Rattle.csr_columns.specs.Merging.{HasRows, IsNumbering, merged_row, merged_rows};
ghost use Rattle.graph_model.specs.Projection.{is_among, most_arcs, under};

use crate::arc_columns::ArcColumns;
use crate::columns;
use crate::merging::TypeRows;
use graph_model::{List, Mem, Name, Shared, TryClone};
use std::alloc::Global;
use std::marker::Model;

/// Arcs by their source, with a column of values per key. The row of a node is the list of its arcs' targets. A copy shares
/// the columns.
#[derive(Drop)]
pub struct Csr {
    columns: Shared<ArcColumns>,
}

impl Model for Csr {
    ghost use Rattle.csr_columns.specs.Rows.{ArcRows};

    ghost Value = { ArcRows };

    ghost view = { λ csr. csr.columns };
}

impl Csr {
    // Arcs in columns, which are shared from now on.
    fn sharing(alloc: Global, columns: ArcColumns) -> Result<Csr, Mem>
        ensures { IfOk result (λ csr. csr ≡ columns) }
    {
        Ok(Csr {
            columns: Shared::new(alloc, columns)?,
        })
    }

    /// The rows of arcs in ascending order of source and target, with a column of values per key. A value stands at
    /// the place of its arc. The columns are moved in, and stand in the order given.
    ///
    /// # Errors
    /// `Mem` where there is no memory, and where there are more arcs than `u32` counts.
    pub fn build(
        alloc: Global,
        nodes: u32,
        ends: &[(u32, u32)],
        props: List<(Name, List<i64>)>,
    ) -> Result<Csr, Mem>
        requires below { All (LiesBelow nodes) ends.now }
        requires ascend { IsSorted arc_cmp ends.now }
        requires beside { All (λ prop. length prop.1 ≡ length ends.now) props }
        requires distinct { AreDistinct (map (λ prop. prop.0) props) }
        ensures { IfOk result (λ csr. csr ≡ arc_rows_of nodes ends.now props) }
    {
        Csr::sharing(alloc, ArcColumns::build(alloc, nodes, ends, props)?)
    }

    /// The rows of arcs that stand in any order, with no columns. Each row keeps the order in which its arcs stand.
    ///
    /// # Errors
    /// `Mem` where there is no memory, and where there are more arcs than `u32` counts.
    pub fn by_source(alloc: Global, nodes: u32, ends: &[(u32, u32)]) -> Result<Csr, Mem>
        requires { All (LiesBelow nodes) ends.now }
        ensures { IfOk result (λ csr. csr ≡ arc_rows_of nodes ends.now []) }
    {
        Csr::sharing(alloc, ArcColumns::by_source(alloc, nodes, ends)?)
    }

    /// The rows of kept nodes, merged from rows of several types, with their weights under a key where there is one.
    pub(crate) fn merged(
        alloc: Global,
        nodes: u32,
        types: &[TypeRows],
        places: &[Option<u32>],
        kept: &[u32],
        key: Option<&Name>,
    ) -> Result<Csr, Mem>
        requires rows { All (HasRows (length places.now)) types.now }
        requires places { HasPlacesBelow nodes places.now }
        requires kept { IsNumbering places.now kept.now }
        requires many { length kept.now ≡ nodes }
        requires few { length (listed (map (merged_row nodes places.now types.now) kept.now)) ≤ most_arcs }
        ensures rows { IfOk result (λ csr. csr ≡ merged_rows (option_copied key.entry) (map (merged_row nodes places.now types.now) kept.now)) }
        ensures few { IfOk result (λ csr. arcs_in_rows csr ≤ most_arcs) }
    {
        let columns = ArcColumns::merged(alloc, nodes, types, places, kept, key)?;
        Csr::sharing(alloc, columns)
    }

    /// The number of nodes. The targets of all arcs lie below it, and each column has a value for each arc.
    #[inline]
    pub fn node_count(&self) -> u32
        ensures nodes { result ≡ length self.now.rows }
        ensures below { HasTargetsBelow self.now.rows }
        ensures beside { HasColumnsBeside self.now }
    {
        self.columns.get().node_count()
    }

    /// The number of arcs.
    #[inline]
    pub fn arc_count(&self) -> u32
        ensures { result ≡ sum_by length self.now.rows }
    {
        self.columns.get().arc_count()
    }

    /// The targets of the arcs from `v`, in order.
    #[inline]
    pub fn row(&self, v: u32) -> &[u32]
        requires { v < length self.now.rows }
        ensures row { result.now ≡ row_at self.now.rows v }
        ensures below { All (λ target. target < length self.now.rows) result.now }
    {
        self.columns.get().row(v)
    }

    /// The keys, in the order in which `build` was given them.
    #[inline]
    pub fn keys(&self) -> &[Name]
        ensures keys { result.now ≡ map (λ column. column.0) self.now.columns }
        ensures distinct { AreDistinct result.now }
    {
        self.columns.get().keys()
    }

    /// Whether each row ascends.
    pub(crate) fn has_ascending_rows(&self) -> bool
        ensures ascend { result ≡ true → HasAscendingRows self.now.rows }
        ensures below { HasTargetsBelow self.now.rows }
    {
        self.columns.get().has_ascending_rows()
    }

    /// Whether there is a column under a key.
    pub(crate) fn has_key(&self, key: &Name) -> bool
        ensures { result ≡ is_among (names_of self.now.columns) key.now }
    {
        columns::is_among(self.keys(), key)
    }

    /// The place of a key among the keys, `None` where there is no such key.
    pub fn place_of(&self, key: &Name) -> Option<usize>
        ensures place { MatchOption result (under key.now self.now.columns ≡ None) (λ place. (place < length self.now.columns) × (under key.now self.now.columns ≡ Some (column_at self.now.columns place))) }
        ensures beside { IfSome result (λ place. IsBeside self.now.rows (column_at self.now.columns place)) }
    {
        self.columns.get().place_of(key)
    }

    /// The values of the arcs from `v` under the key at a place, in order.
    #[inline]
    pub fn values(&self, place: usize, v: u32) -> &[i64]
        requires place { place < length self.now.columns }
        requires node { v < length self.now.rows }
        ensures values { result.now ≡ row_at (column_at self.now.columns place) v }
        ensures beside { length result.now ≡ length (row_at self.now.rows v) }
    {
        self.columns.get().values(place, v)
    }

    /// The values of the arcs from `v` under a key, in order, `None` where there is no such key.
    pub fn prop(&self, key: &Name, v: u32) -> Option<&[i64]>
        requires { v < length self.now.rows }
        ensures { option_copied result ≡ row_in (under key.now self.now.columns) v }
    {
        let place = self.place_of(key)?;
        Some(self.values(place, v))
    }

    /// Every arc turned, in ascending order of the new source and the new target. Equal arcs keep their order. Rows that
    /// are their own reverse, as those of undirected relationships mostly are, are shared; whether they are costs a number a
    /// node, and ends at the first difference.
    ///
    /// # Errors
    /// `Mem` where there is no memory.
    pub fn reverse(&self, alloc: Global) -> Result<Csr, Mem>
        ensures { IfOk result (λ csr. csr ≡ turned_rows self.now) }
    {
        let columns = self.columns.get();
        if columns.is_mirrored(alloc)? {
            return self.try_clone();
        }
        Csr::sharing(alloc, columns.reverse(alloc)?)
    }
}

impl TryClone for Csr {
    fn try_clone(&self) -> Result<Csr, Mem> {
        Ok(Csr {
            columns: self.columns.try_clone()?,
        })
    }
}

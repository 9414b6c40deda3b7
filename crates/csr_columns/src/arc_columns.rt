// Arcs by source: where each row begins, and the targets and the values row after row.
ghost use Rattle.std.specs.Prelude.{◌≡◌, ◌<◌, ◌≤◌, true, [], length, map, sum_by, All, MatchOption, IfOk, IfSome, None, Some, option_copied};
ghost use Rattle.std.specs.List.Sorted.{IsSorted};
ghost use Rattle.csr_columns.specs.Rows.{HasColumnsBeside, HasTargetsBelow, IsBeside, LiesBelow, AreDistinct, arc_cmp, arc_rows_of, listed, row_at, column_at, turned_rows};
ghost use Rattle.csr_columns.specs.Order.{HasAscendingRows};
ghost use Rattle.csr_columns.specs.Parts.{arcs_in_rows};
ghost use Rattle.csr_columns.specs.Keeping.{HasPlacesBelow};
ghost use Rattle.csr_columns.specs.Merging.{HasRows, IsNumbering, merged_row, merged_rows};
ghost use Rattle.graph_model.specs.Projection.{most_arcs, under};

use crate::merging::{self, TypeRows};
use crate::turning::{self, Turning};
use crate::{columns, counting, mirroring};
use graph_model::{List, Mem, Name, TryClone};
use std::alloc::Global;
use std::marker::Model;

/// The columns of arcs by their source: those of `Csr`, which shares them.
#[derive(Debug, Drop)]
pub(crate) struct ArcColumns {
    offsets: Vec<u32>,
    targets: Vec<u32>,
    keys: List<Name>,
    columns: Vec<List<i64>>,
}

impl Model for ArcColumns {
    ghost use Rattle.csr_columns.specs.Rows.{ArcRows};
    ghost use Rattle.csr_columns.specs.Offsets.{shown, AreRows};

    ghost Value = { ArcRows };

    ghost view = { λ csr. shown csr.offsets.items csr.targets.items csr.keys csr.columns.items };

    ghost invariant = { λ csr. AreRows csr.offsets.items csr.targets.items csr.keys csr.columns.items };
}

impl ArcColumns {
    /// The rows of arcs in ascending order of source and target, with a column of values per key. A value stands at
    /// the place of its arc. The columns are moved in, and stand in the order given.
    ///
    /// # Errors
    /// `Mem` where there is no memory, and where there are more arcs than `u32` counts.
    pub(crate) fn build(
        alloc: Global,
        nodes: u32,
        ends: &[(u32, u32)],
        props: List<(Name, List<i64>)>,
    ) -> Result<ArcColumns, Mem>
        requires below { All (LiesBelow nodes) ends.now }
        requires ascend { IsSorted arc_cmp ends.now }
        requires beside { All (λ prop. length prop.1 ≡ length ends.now) props }
        requires distinct { AreDistinct (map (λ prop. prop.0) props) }
        ensures { IfOk result (λ csr. csr ≡ arc_rows_of nodes ends.now props) }
    {
        if ends.len() > u32::MAX as usize {
            return Err(Mem);
        }
        let offsets = counting::row_offsets(alloc, nodes, ends)?;
        let targets = counting::targets(alloc, ends)?;
        let (keys, columns) = columns::apart(alloc, props)?;
        Ok(ArcColumns {
            offsets,
            targets,
            keys,
            columns,
        })
    }

    /// The rows of arcs that stand in any order, with no columns. Each row keeps the order in which its arcs stand.
    ///
    /// # Errors
    /// `Mem` where there is no memory, and where there are more arcs than `u32` counts.
    pub(crate) fn by_source(
        alloc: Global,
        nodes: u32,
        ends: &[(u32, u32)],
    ) -> Result<ArcColumns, Mem>
        requires { All (LiesBelow nodes) ends.now }
        ensures { IfOk result (λ csr. csr ≡ arc_rows_of nodes ends.now []) }
    {
        if ends.len() > u32::MAX as usize {
            return Err(Mem);
        }
        let (offsets, targets) = counting::group_by_source(alloc, nodes, ends)?;
        Ok(ArcColumns {
            offsets,
            targets,
            keys: List::new(alloc),
            columns: Vec::new(alloc),
        })
    }

    /// The rows of kept nodes, merged from rows of several types, with their weights under a key where there is one.
    ///
    /// # Errors
    /// `Mem` where there is no memory.
    pub(crate) fn merged(
        alloc: Global,
        nodes: u32,
        types: &[TypeRows],
        places: &[Option<u32>],
        kept: &[u32],
        key: Option<&Name>,
    ) -> Result<ArcColumns, Mem>
        requires rows { All (HasRows (length places.now)) types.now }
        requires places { HasPlacesBelow nodes places.now }
        requires kept { IsNumbering places.now kept.now }
        requires many { length kept.now ≡ nodes }
        requires few { length (listed (map (merged_row nodes places.now types.now) kept.now)) ≤ most_arcs }
        ensures rows { IfOk result (λ csr. csr ≡ merged_rows (option_copied key.entry) (map (merged_row nodes places.now types.now) kept.now)) }
        ensures few { IfOk result (λ csr. arcs_in_rows csr ≤ most_arcs) }
    {
        let rows = merging::merge(alloc, nodes, types, places, kept, key.is_some())?;
        let keys = columns::keys_under(alloc, key)?;
        let columns = columns::values_under(alloc, key, rows.weights)?;
        Ok(ArcColumns {
            offsets: rows.offsets,
            targets: rows.targets,
            keys,
            columns,
        })
    }

    /// The number of nodes. The targets of all arcs lie below it, and each column has a value for each arc.
    #[inline]
    pub(crate) fn node_count(&self) -> u32
        ensures nodes { result ≡ length self.now.rows }
        ensures below { HasTargetsBelow self.now.rows }
        ensures beside { HasColumnsBeside self.now }
    {
        (self.offsets.len() - 1) as u32
    }

    /// The number of arcs.
    #[inline]
    pub(crate) fn arc_count(&self) -> u32
        ensures { result ≡ sum_by length self.now.rows }
    {
        self.targets.len() as u32
    }

    /// The targets of the arcs from `v`, in order.
    #[inline]
    pub(crate) fn row(&self, v: u32) -> &[u32]
        requires { v < length self.now.rows }
        ensures row { result.now ≡ row_at self.now.rows v }
        ensures below { All (λ target. target < length self.now.rows) result.now }
    {
        columns::cut(&self.offsets, &self.targets, v)
    }

    /// The keys, in the order in which `build` was given them.
    #[inline]
    pub(crate) fn keys(&self) -> &[Name]
        ensures keys { result.now ≡ map (λ column. column.0) self.now.columns }
        ensures distinct { AreDistinct result.now }
    {
        self.keys.as_slice()
    }

    /// Whether each row ascends.
    pub(crate) fn has_ascending_rows(&self) -> bool
        ensures ascend { result ≡ true → HasAscendingRows self.now.rows }
        ensures below { HasTargetsBelow self.now.rows }
    {
        for v in 0..self.node_count() {
            if !columns::is_ascending(self.row(v)) {
                return false;
            }
        }
        true
    }

    /// The place of a key among the keys, `None` where there is no such key.
    pub(crate) fn place_of(&self, key: &Name) -> Option<usize>
        ensures place { MatchOption result (under key.now self.now.columns ≡ None) (λ place. (place < length self.now.columns) × (under key.now self.now.columns ≡ Some (column_at self.now.columns place))) }
        ensures beside { IfSome result (λ place. IsBeside self.now.rows (column_at self.now.columns place)) }
    {
        columns::place_of(self.keys.as_slice(), key)
    }

    /// The values of the arcs from `v` under the key at a place, in order.
    #[inline]
    pub(crate) fn values(&self, place: usize, v: u32) -> &[i64]
        requires place { place < length self.now.columns }
        requires node { v < length self.now.rows }
        ensures values { result.now ≡ row_at (column_at self.now.columns place) v }
        ensures beside { length result.now ≡ length (row_at self.now.rows v) }
    {
        columns::cut(&self.offsets, self.columns[place].as_slice(), v)
    }

    /// Whether these rows are their own reverse, with the same values.
    pub(crate) fn is_mirrored(&self, alloc: Global) -> Result<bool, Mem>
        ensures { IfOk result (λ same. same ≡ true → turned_rows self.now ≡ self.now) }
    {
        let same = mirroring::mirrors(alloc, &self.offsets, &self.targets, &self.columns)?;
        Ok(same)
    }

    /// Every arc turned, in ascending order of the new source and the new target. Equal arcs keep their order.
    ///
    /// # Errors
    /// `Mem` where there is no memory.
    pub(crate) fn reverse(&self, alloc: Global) -> Result<ArcColumns, Mem>
        ensures { IfOk result (λ csr. csr ≡ turned_rows self.now) }
    {
        let Turning {
            offsets,
            places,
            sources,
        } = turning::turn(alloc, &self.offsets, &self.targets)?;
        Ok(ArcColumns {
            offsets,
            targets: columns::pick(alloc, &sources, &places)?,
            keys: self.keys.try_clone()?,
            columns: columns::pick_each(alloc, &self.columns, &places)?,
        })
    }
}

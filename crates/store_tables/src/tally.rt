// Numbers under names: how often elements have a label, a type or a key.
ghost use Rattle.std.specs.Prelude.{◌≡◌, ℕ, ◌+◌, ◌-◌, ◌∷◌, [], ◌++◌, ◌<◌, List, Some, None, length, take, slice_get, slice_set, nat_lt, if◌then◌else◌, MatchOption, IfOk, OnOk};
ghost use Rattle.std.specs.Str.{bytes_eq};
ghost use Rattle.store_tables.specs.Counted.{times};
ghost use Rattle.store_tables.specs.declared.name_row.NameRow.{NameRow};
ghost use Rattle.store_tables.specs.NameRows.{count_under, followed, told_count, turns_high as high_turn, EndsAt, GoesOn, IsReached, IsSearchable};

use crate::name_row::{NameRow, turns_high};
use crate::table::Table;
use graph_model::{Mem, Name, Prop, TryClone};
use std::alloc::Global;
use std::marker::Model;

/// Something with a name.
pub trait Named {
    /// The name.
    ghost name_of: { Self → List ℕ };

    fn name(&self) -> &Name
        ensures { result.now ≡ name_of self.now };
}

impl Named for Name {
    ghost name_of = { λ name. name };

    fn name(&self) -> &Name {
        self
    }
}

impl Named for Prop {
    ghost name_of = { λ prop. prop.key };

    fn name(&self) -> &Name {
        &self.key
    }
}

/// Numbers under names. A copy shares the rows that they stand in, and a change of a number copies those near its row
/// alone. A name stays once it has a row, also where the number under it falls to 0.
#[derive(Drop)]
pub struct Tally {
    rows: Table<NameRow>,
}

impl Model for Tally {
    ghost use Rattle.std.specs.Prelude.{List};
    ghost use Rattle.store_tables.specs.declared.name_row.NameRow.{NameRow};
    ghost use Rattle.store_tables.specs.NameRows.{IsSearchable};

    ghost Value = { List NameRow };

    ghost view = { λ tally. tally.rows };

    ghost invariant = { λ tally. IsSearchable tally.rows };
}

impl TryClone for Tally {
    fn try_clone(&self) -> Result<Tally, Mem> {
        Ok(Tally {
            rows: self.rows.try_clone()?,
        })
    }
}

/// The place of the row that follows in the search for a name; none where the search ends.
fn next_in_search(rows: &Table<NameRow>, name: &Name, place: usize, depth: usize) -> Option<usize>
    ensures { MatchOption result (EndsAt name.now rows.now place depth) (λ next. GoesOn name.now rows.now place depth next) }
{
    let Some(row) = rows.get(place) else {
        return None;
    };
    if row.has_name(name) {
        return None;
    }
    let next = row.next_place(turns_high(name, depth));
    if next <= place || rows.len() <= next {
        return None;
    }
    Some(next)
}

/// The place of the row at which the search for a name ends, and how many rows it came past before.
fn search_end(rows: &Table<NameRow>, name: &Name) -> (usize, usize)
    requires { 0 < length rows.now }
    ensures within { result.0 < length rows.now }
    ensures reached { IsReached name.now (take result.0 rows.now) result.1 }
    ensures ends { EndsAt name.now rows.now result.0 result.1 }
{
    let mut place = 0;
    let mut depth = 0;
    while let Some(next) = next_in_search(rows, name, place, depth) {
        place = next;
        depth += 1;
    }
    (place, depth)
}

/// The number in a row, where that is the row of a name.
fn count_at(rows: &Table<NameRow>, name: &Name, place: usize) -> Option<u64>
    requires { place < length rows.now }
    ensures { (row : NameRow) → slice_get rows.now place ≡ Some row → result ≡ told_count name.now row }
{
    match rows.get(place) {
        Some(row) => {
            if row.has_name(name) {
                Some(row.count())
            } else {
                None
            }
        }
        None => None,
    }
}

/// Puts another number into a row.
fn set_count(rows: &mut Table<NameRow>, alloc: Global, place: usize, count: u64) -> Result<(), Mem>
    requires { place < length rows.old }
    ensures { OnOk result ((row : NameRow) → slice_get rows.old place ≡ Some row → rows.new ≡ slice_set rows.old place (record row { count = count })) }
{
    let Some(row) = rows.get(place) else {
        return Ok(());
    };
    let row = row.with_count(count)?;
    rows.set(alloc, place, row)
}

/// Puts a row for a new name behind all others, as the one that follows a row on a turn.
fn push_behind(
    rows: &mut Table<NameRow>,
    alloc: Global,
    place: usize,
    high: bool,
    new: NameRow,
) -> Result<(), Mem>
    requires { place < length rows.old }
    ensures { OnOk result ((row : NameRow) → slice_get rows.old place ≡ Some row → rows.new ≡ slice_set rows.old place (followed row high (length rows.old)) ++ new ∷ []) }
{
    let Ok(next) = u32::try_from(rows.len()) else {
        return Err(Mem);
    };
    let Some(row) = rows.get(place) else {
        return Ok(());
    };
    let row = row.followed(high, next)?;
    rows.set(alloc, place, row)?;
    rows.push(alloc, new)
}

/// Adds to the number under a name.
fn add_in(rows: &mut Table<NameRow>, alloc: Global, name: &Name, more: u64) -> Result<(), Mem>
    requires { IsSearchable rows.old }
    ensures searchable { OnOk result (IsSearchable rows.new) }
    ensures added { OnOk result ((other : List ℕ) → count_under rows.new other
        ≡ count_under rows.old other + (if bytes_eq other name.now then more else 0)) }
{
    if rows.len() == 0 {
        return rows.push(alloc, NameRow::of(name, more)?);
    }
    let (place, depth) = search_end(rows, name);
    match count_at(rows, name, place) {
        Some(count) => {
            let sum = count.checked_add(more).ok_or(Mem)?;
            set_count(rows, alloc, place, sum)
        }
        None => {
            let new = NameRow::of(name, more)?;
            push_behind(rows, alloc, place, turns_high(name, depth), new)
        }
    }
}

/// Takes one from the number under a name.
fn subtract_in(rows: &mut Table<NameRow>, alloc: Global, name: &Name) -> Result<(), Mem>
    requires { IsSearchable rows.old }
    ensures searchable { OnOk result (IsSearchable rows.new) }
    ensures taken { OnOk result ((other : List ℕ) → count_under rows.new other
        ≡ count_under rows.old other - (if bytes_eq other name.now then 1 else 0)) }
{
    if rows.len() == 0 {
        return Ok(());
    }
    let (place, _depth) = search_end(rows, name);
    match count_at(rows, name, place) {
        Some(count) => set_count(rows, alloc, place, count.saturating_sub(1)),
        None => Ok(()),
    }
}

impl Tally {
    /// No names.
    pub fn new(alloc: Global) -> Result<Tally, Mem>
        ensures { IfOk result (λ made. made ≡ []) }
    {
        Ok(Tally {
            rows: Table::new(alloc)?,
        })
    }

    /// The number under a name, and 0 where there is none.
    fn count_of(&self, name: &Name) -> u64
        ensures { result ≡ count_under self.now name.now }
    {
        if self.rows.len() == 0 {
            return 0;
        }
        let (place, _depth) = search_end(&self.rows, name);
        count_at(&self.rows, name, place).unwrap_or(0)
    }

    /// Whether the number under a name is more than 0.
    pub fn is_counted(&self, name: &Name) -> bool
        ensures { result ≡ nat_lt 0 (count_under self.now name.now) }
    {
        self.count_of(name) > 0
    }

    /// The numbers with more under a name.
    pub fn plus(self, alloc: Global, name: &Name, more: u64) -> Result<Tally, Mem>
        ensures { IfOk result (λ made. (other : List ℕ) → count_under made other
            ≡ count_under self other + (if bytes_eq other name.now then more else 0)) }
    {
        let Tally { mut rows } = self;
        add_in(&mut rows, alloc, name, more)?;
        Ok(Tally { rows })
    }

    /// The numbers with one less under a name.
    fn minus_one(self, alloc: Global, name: &Name) -> Result<Tally, Mem>
        ensures { IfOk result (λ made. (other : List ℕ) → count_under made other
            ≡ count_under self other - (if bytes_eq other name.now then 1 else 0)) }
    {
        let Tally { mut rows } = self;
        subtract_in(&mut rows, alloc, name)?;
        Ok(Tally { rows })
    }

    /// The numbers with one more under the name of each item.
    pub fn plus_each<N: Named>(self, alloc: Global, items: &[N]) -> Result<Tally, Mem>
        ensures { IfOk result (λ made. (other : List ℕ) → count_under made other
            ≡ count_under self other + times N.name_of items.now other) }
    {
        let mut tally = self;
        for item in items {
            tally = tally.plus(alloc, item.name(), 1)?;
        }
        Ok(tally)
    }

    /// The numbers with one less under the name of each item.
    pub fn minus_each<N: Named>(self, alloc: Global, items: &[N]) -> Result<Tally, Mem>
        ensures { IfOk result (λ made. (other : List ℕ) → count_under made other
            ≡ count_under self other - times N.name_of items.now other) }
    {
        let mut tally = self;
        for item in items {
            tally = tally.minus_one(alloc, item.name())?;
        }
        Ok(tally)
    }
}

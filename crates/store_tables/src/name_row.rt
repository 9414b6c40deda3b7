// A name with the number under it, and the rows that follow it in a search.
ghost use Rattle.std.specs.Prelude.{◌≡◌, None, IfOk};
ghost use Rattle.std.specs.Str.{bytes_eq};
ghost use Rattle.store_tables.specs.NameRows.{turns_high as high_turn, next_place as place_behind, followed as row_followed};

use graph_model::{Mem, Name, TryClone};

/// A name, the number under it, and the places of the rows that follow it where a search turns low and high.
#[derive(Drop)]
pub struct NameRow {
    name: Name,
    count: u64,
    low: Option<u32>,
    high: Option<u32>,
}

impl NameRow {
    /// A row that none follows.
    pub(crate) fn of(name: &Name, count: u64) -> Result<NameRow, Mem>
        ensures { IfOk result (λ row. row ≡ record { name = name.now; count = count; low = None; high = None }) }
    {
        Ok(NameRow {
            name: name.try_clone()?,
            count,
            low: None,
            high: None,
        })
    }

    /// The number under the name.
    pub(crate) fn count(&self) -> u64
        ensures { result ≡ self.now.count }
    {
        self.count
    }

    /// Whether this is the row of a name.
    pub(crate) fn has_name(&self, name: &Name) -> bool
        ensures { result ≡ bytes_eq name.now self.now.name }
    {
        name.bytes() == self.name.bytes()
    }

    /// The place of the row that follows on a turn, and 0 where none does.
    pub(crate) fn next_place(&self, high: bool) -> usize
        ensures { result ≡ place_behind self.now high }
    {
        let next = if high { self.high } else { self.low };
        next.unwrap_or(0) as usize
    }

    /// The row with another number.
    pub(crate) fn with_count(&self, count: u64) -> Result<NameRow, Mem>
        ensures { IfOk result (λ row. row ≡ record self.now { count = count }) }
    {
        Ok(NameRow {
            name: self.name.try_clone()?,
            count,
            low: self.low,
            high: self.high,
        })
    }

    /// The row with another that follows it on a turn.
    pub(crate) fn followed(&self, high: bool, place: u32) -> Result<NameRow, Mem>
        ensures { IfOk result (λ row. row ≡ row_followed self.now high place) }
    {
        let mut row = self.try_clone()?;
        if high {
            row.high = Some(place);
        } else {
            row.low = Some(place);
        }
        Ok(row)
    }
}

impl TryClone for NameRow {
    fn try_clone(&self) -> Result<NameRow, Mem> {
        Ok(NameRow {
            name: self.name.try_clone()?,
            count: self.count,
            low: self.low,
            high: self.high,
        })
    }
}

/// Whether the search for a name turns high after so many rows: by the bits of its bytes, one after another. Names
/// differ in one of their first 512 bits, so that no search comes to more than 513 rows.
#[tactic(auto, unfolding(crate::specs::NameRows::turns_high))]
pub(crate) fn turns_high(name: &Name, depth: usize) -> bool
    ensures { result ≡ high_turn name.now depth }
{
    let byte = name.bytes().get(depth / 8).copied().unwrap_or(0);
    (byte >> (depth % 8)) % 2 == 1
}

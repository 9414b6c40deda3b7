// The places of nodes by their ids.
ghost use Rattle.std.specs.Prelude.{◌≡◌, ◌-◌, ◌^◌, ◌<◌, true, All, IfOk, length};
ghost use Rattle.std.specs.List.Sorted.{IsStrictlyIncreasing};
ghost use Rattle.projected_arcs.specs.Places.{AreOwn, AreSlots, slot_at, place_or_zero};

use graph_model::Mem;
use std::alloc::Global;
use std::marker::Model;

// What stands in the slot of an id without a place.
const NO_PLACE: u32 = u32::MAX;

/// The places of ids among other ids, a slot for each id.
#[derive(Drop)]
pub struct Places {
    slots: Vec<u32>,
    // Whether each id below the number of slots is its own place, so that no slot has to be read.
    whole: bool,
}

impl Model for Places {
    ghost use Rattle.std.specs.Prelude.{◌≡◌, true, List, ℕ};
    ghost use Rattle.projected_arcs.specs.Places.{AreOwn};

    ghost Value = { List ℕ };

    ghost view = { λ places. places.slots.items };

    ghost invariant = { λ places. places.whole ≡ true → AreOwn places.slots.items };
}

/// The place that stands in an id's slot.
#[inline]
fn slot_at(slots: &[u32], id: u32) -> Option<u32>
    ensures { result ≡ slot_at slots.now id }
{
    match slots.get(id as usize) {
        Some(&place) if place != NO_PLACE => Some(place),
        _ => None,
    }
}

/// Whether each id below the number of slots is its own place.
fn are_own(below: u32, slots: &[u32]) -> bool
    requires { length slots.now ≡ below }
    ensures own { result ≡ true → AreOwn slots.now }
    ensures all { AreOwn slots.now → result ≡ true }
{
    for id in 0..below {
        match slot_at(slots, id) {
            Some(place) if place == id => {}
            _ => return false,
        }
    }
    true
}

impl Places {
    /// The places of ids that ascend and lie below a number.
    ///
    /// # Errors
    /// `Mem` where there is no memory for the slots.
    pub fn of(alloc: Global, below: u32, ids: &[u32]) -> Result<Places, Mem>
        requires ascend { IsStrictlyIncreasing ids.now }
        requires below { All (λ id. id < below) ids.now }
        requires few { length ids.now < 2 ^ 32 - 1 }
        ensures { IfOk result (λ places. AreSlots ids.now places) }
    {
        let mut slots = vec![in alloc; NO_PLACE; below as usize]?;
        for (place, id) in ids.iter().enumerate() {
            slots[*id as usize] = place as u32;
        }
        let whole = are_own(below, slots.as_slice());
        Ok(Places { slots, whole })
    }

    /// The place of an id, where it has one.
    #[inline]
    pub(crate) fn place(&self, id: u32) -> Option<u32>
        ensures { result ≡ slot_at self.now id }
    {
        if !self.whole {
            return slot_at(self.slots.as_slice(), id);
        }
        if (id as usize) < self.slots.len() {
            Some(id)
        } else {
            None
        }
    }

    /// The places of the ends of an arc, and 0 for one without a place.
    #[inline]
    pub(crate) fn ends(&self, source: u32, target: u32) -> (u32, u32)
        ensures { result ≡ (place_or_zero self.now source, place_or_zero self.now target) }
    {
        (
            self.place(source).unwrap_or(0),
            self.place(target).unwrap_or(0),
        )
    }
}

// A kernel with its column, and the places where values may still fall.
ghost use Rattle.std.specs.Prelude.{ℕ, List, ◌≡◌, ◌<◌, ◌≤◌, length, replicate, true, IfOk};
ghost use Rattle.gds_causes.specs.Turned.{MatchTurned};
ghost use Rattle.round_engine.specs.Columns.{NowhereGreater, FallsSomewhere, AllSound};
ghost use Rattle.round_engine.specs.Rounds.{round, left};

use crate::frontier::{lower_column, settle_round};
use crate::kernel::Kernel;
use crate::marks::list_marked;
use crate::parts::{Workers, fill_first};
use gds_causes::{Gate, Turned};
use graph_model::Mem;
use std::alloc::Global;
use std::marker::Model;
use std::thread::Threads;

/// A kernel with its column of values, one a place. Contracts see the two.
///
/// A round computes the next value at the places of its frontier alone: at every other place the value is its own next
/// value. After a round the frontier is the places that fell and those that they touch.
#[derive(Drop)]
pub struct Rounds<K: Kernel> {
    kernel: K,
    column: Vec<u64>,
    // The next values of the frontier's places, in their order.
    values: Vec<u64>,
    // The frontier is the first `count` of these, in ascending order.
    places: Vec<u32>,
    count: usize,
    marks: Vec<bool>,
}

impl<K: Kernel> Model for Rounds<K> {
    ghost use Rattle.std.specs.Prelude.{◌≡◌, length};
    ghost use Rattle.round_engine.specs.Rounds.{RoundsState};
    ghost use Rattle.round_engine.specs.Frontier.{IsRunning};

    ghost Value = { RoundsState K };

    ghost view = { λ rounds. record { kernel = rounds.kernel; column = rounds.column.items } };

    ghost invariant = { λ rounds. IsRunning (K.size rounds.kernel) (K.next_value rounds.kernel) rounds.column.items rounds.places.items rounds.marks.items rounds.count × (length rounds.values.items ≡ K.size rounds.kernel) };
}

impl<K: Kernel + Sync> Rounds<K> {
    /// Rounds that start with these values, the value of place 0 first. The kernel never changes afterwards. It takes room
    /// for 13 bytes a place beside the values, and is the only call that takes memory.
    ///
    /// # Errors
    /// `Mem` where there is no room; the kernel and the values are given up.
    pub fn start(alloc: Global, kernel: K, first: Vec<u64>) -> Result<Rounds<K>, Mem>
    where
        K: Drop,
        requires as_long { length first.items ≡ K.size kernel }
        ensures kernel { IfOk result (λ rounds. rounds.kernel ≡ kernel) }
        ensures column { IfOk result (λ rounds. rounds.column ≡ first.items) }
    {
        let size = kernel.len();
        let values = vec![in alloc; 0; size as usize]?;
        let mut places = vec![in alloc; 0; size as usize]?;
        let mut marks = all_marked(alloc, size as usize)?;
        let count = list_marked(size, &mut marks, &mut places);
        Ok(Rounds {
            kernel,
            column: first,
            values,
            places,
            count,
            marks,
        })
    }

    /// One round: each place gets the kernel's next value, all of them of the old column. `More` exactly where some value
    /// fell, and then the sum of the column is smaller; `Done` where none did, so that the column is as it was and is a
    /// fixed point.
    ///
    /// `workers` is 1 to 64, and the result is the same for every number of workers and every gate. The places are cut into
    /// as many consecutive parts of equal size, the last perhaps shorter. Each part with some place of the frontier goes
    /// through the gate with its number, counted from 1, and all of these run at once; one alone runs in the caller. Time is
    /// one call of the kernel and one look at what is touched for each place of the frontier, and no memory is taken (both
    /// measured, not proved).
    pub fn advance<R: Threads + Sync, G: Gate + Sync>(
        &mut self,
        rt: &R,
        workers: u32,
        gate: &G,
    ) -> Turned
        requires some_workers { 1 ≤ workers }
        requires few_workers { workers ≤ 64 }
        ensures kernel { self.new.kernel ≡ self.old.kernel }
        ensures ok { self.new.column ≡ round (K.next_value self.old.kernel) self.old.column }
        ensures turned { MatchTurned result (FallsSomewhere self.old.column self.new.column) (self.new.column ≡ self.old.column) }
        ensures left { MatchTurned result (left self.new < left self.old) (left self.new ≡ left self.old) }
        ensures sound { AllSound (K.IsSound self.old.kernel) self.old.column → AllSound (K.IsSound self.old.kernel) self.new.column }
        ensures above { (fixed : List ℕ) → fixed ≡ round (K.next_value self.old.kernel) fixed
            → length fixed ≡ length self.old.column → NowhereGreater fixed self.old.column
            → NowhereGreater fixed self.new.column }
    {
        let size = self.kernel.len().div_ceil(workers).max(1);
        let workers = Workers { rt, gate, size };
        fill_first(
            &workers,
            &self.kernel,
            &self.column,
            &self.places,
            &mut self.values,
            self.count,
        );
        let settled = settle_round(
            &self.kernel,
            &mut self.column,
            &self.values,
            &mut self.places,
            self.count,
            &mut self.marks,
        );
        self.count = settled.count;
        settled.turned
    }

    /// Lowers the values to others, which are nowhere greater, and sound where the values are. The frontier gains the places
    /// that fall and those that they touch. Time is one look at each place, and no memory is taken (both measured, not
    /// proved).
    pub fn lower(&mut self, to: &[u64])
        requires as_long { length to.now ≡ length self.old.column }
        requires lower { NowhereGreater to.now self.old.column }
        requires sound { AllSound (K.IsSound self.old.kernel) self.old.column → AllSound (K.IsSound self.old.kernel) to.now }
        ensures kernel { self.new.kernel ≡ self.old.kernel }
        ensures ok { self.new.column ≡ to.now }
        ensures left { left self.new ≤ left self.old }
        ensures sound { AllSound (K.IsSound self.old.kernel) self.old.column → AllSound (K.IsSound self.old.kernel) self.new.column }
    {
        self.count = lower_column(
            &self.kernel,
            &mut self.column,
            to,
            &mut self.places,
            self.count,
            &mut self.marks,
        );
    }

    /// The values, the value of place 0 first: one for each place.
    pub fn column(&self) -> &[u64]
        ensures column { result.now ≡ self.now.column }
        ensures as_long { length result.now ≡ K.size self.now.kernel }
    {
        &self.column
    }

    /// The kernel.
    pub fn kernel(&self) -> &K
        ensures { result.now ≡ self.now.kernel }
    {
        &self.kernel
    }
}

// So many marks, all of them set.
fn all_marked(alloc: Global, size: usize) -> Result<Vec<bool>, Mem>
    ensures { IfOk result (λ marks. marks.items ≡ replicate size true) }
{
    Ok(vec![in alloc; true; size]?)
}

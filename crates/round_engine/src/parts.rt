// The next values at some places, cut over workers.
ghost use Rattle.std.specs.Prelude.{◌≡◌, ℕ, ◌+◌, ◌*◌, ◌<◌, ◌≤◌, List, length, map, take};
ghost use Rattle.std.specs.List.{All};
ghost use Rattle.std.specs.Thread.{IsSync};

use crate::kernel::Kernel;
use gds_causes::Gate;
use std::thread::{Threads, join_mut};

/// Who works on a round: where threads come from, the gate that each part goes through, and how many places a part has.
#[derive(Drop)]
pub(crate) struct Workers<'a, R, G> {
    pub(crate) rt: &'a R,
    pub(crate) gate: &'a G,
    pub(crate) size: u32,
    pub(crate) ghost some: { 0 < size },
}

/// Puts the next value at each of the first `count` places beside it.
pub(crate) fn fill_first<R: Threads + Sync, K: Kernel + Sync, G: Gate + Sync>(
    workers: &Workers<'_, R, G>,
    kernel: &K,
    column: &[u64],
    places: &[u32],
    values: &mut [u64],
    count: usize,
)
    requires as_long { length column.now ≡ K.size kernel.now }
    requires in_places { count ≤ length places.now }
    requires in_values { count ≤ length values.old }
    requires in_range { All (λ v. v < K.size kernel.now) (take count places.now) }
    ensures long { length values.new ≡ length values.old }
    ensures filled { take count values.new ≡ map (K.next_value kernel.now column.now) (take count places.now) }
{
    fill(
        workers,
        kernel,
        column,
        &places[..count],
        &mut values[..count],
    );
}

// Puts the next value at each of the places beside it. The places ascend, and are cut at multiples of the part's size. Each
// part that has some goes through the gate with its number, counted from 1, all of them at once: the last in the caller, the
// others in threads of their own where they can be had.
fn fill<R: Threads + Sync, K: Kernel + Sync, G: Gate + Sync>(
    workers: &Workers<'_, R, G>,
    kernel: &K,
    column: &[u64],
    places: &[u32],
    values: &mut [u64],
)
    requires as_long { length column.now ≡ K.size kernel.now }
    requires in_range { All (λ v. v < K.size kernel.now) places.now }
    requires room { length values.old ≡ length places.now }
    ensures { values.new ≡ map (K.next_value kernel.now column.now) places.now }
{
    let (Some(first), Some(last)) = (places.first(), places.last()) else {
        return;
    };
    let (low, high) = (*first / workers.size, *last / workers.size);
    let middle = low + high.saturating_sub(low) / 2;
    let size = workers.size;
    let at = places.partition_point(|place| *place / size <= middle);
    if low == high || at == 0 || at == places.len() {
        workers.gate.enter(low.saturating_add(1));
        fill_in_turn(kernel, column, places, values);
        return;
    }
    let (front, back) = places.split_at(at);
    let (front_values, back_values) = values.split_at_mut(at);
    join_mut(
        workers.rt,
        &mut ||
            requires { IsSync R.row × IsSync K.row × IsSync G.row × (length column.now ≡ K.size kernel.now) × All (λ v. v < K.size kernel.now) front.now × (length front_values.now ≡ length front.now) }
            ensures { front_values.exit.now ≡ map (K.next_value kernel.entry.now column.entry.now) front.entry.now }
        { fill(workers, kernel, column, front, front_values) },
        &mut ||
            requires { IsSync R.row × IsSync K.row × IsSync G.row × (length column.now ≡ K.size kernel.now) × All (λ v. v < K.size kernel.now) back.now × (length back_values.now ≡ length back.now) }
            ensures { back_values.exit.now ≡ map (K.next_value kernel.entry.now column.entry.now) back.entry.now }
        { fill(workers, kernel, column, back, back_values) },
    );
}

// The same in one thread.
fn fill_in_turn<K: Kernel>(kernel: &K, column: &[u64], places: &[u32], values: &mut [u64])
    requires as_long { length column.now ≡ K.size kernel.now }
    requires in_range { All (λ v. v < K.size kernel.now) places.now }
    requires room { length values.old ≡ length places.now }
    ensures { values.new ≡ map (K.next_value kernel.now column.now) places.now }
{
    for at in 0..places.len() {
        values[at] = kernel.next(column, places[at]);
    }
}

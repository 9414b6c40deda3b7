// The places where the next value is still to be found.
ghost use Rattle.std.specs.Prelude.{◌≡◌, ℕ, ◌<◌, ◌≤◌, List, length, map, sum, take, true, false, IfSome};
ghost use Rattle.std.specs.List.{All, Contains};
ghost use Rattle.gds_causes.specs.Turned.{MatchTurned};
ghost use Rattle.round_engine.specs.Columns.{value_at, NowhereGreater, FallsSomewhere, AllSound};
ghost use Rattle.round_engine.specs.Rounds.{round};
ghost use Rattle.round_engine.specs.Frontier.{IsRunning, IsSettled, IsIn};

use crate::kernel::Kernel;
use crate::marks::{list_marked, lower, mark, mark_with_touched};
use gds_causes::Turned;

/// What a round left: how many places its frontier has now, and whether some value fell.
#[derive(Drop)]
pub(crate) struct Settled {
    pub(crate) count: usize,
    pub(crate) turned: Turned,
}

/// Puts the next values of the frontier, the first `count` of the places, into the column, and makes the frontier of the next
/// round: the places that fell, and those that they touch.
pub(crate) fn settle_round<K: Kernel>(
    kernel: &K,
    column: &mut [u64],
    values: &[u64],
    places: &mut [u32],
    count: usize,
    marks: &mut [bool],
) -> Settled
    requires running { IsRunning (K.size kernel.now) (K.next_value kernel.now) column.old places.old marks.old count }
    requires values_long { length values.now ≡ K.size kernel.now }
    requires filled { take count values.now ≡ map (K.next_value kernel.now column.old) (take count places.old) }
    ensures running { IsRunning (K.size kernel.now) (K.next_value kernel.now) column.new places.new marks.new result.count }
    ensures ok { column.new ≡ round (K.next_value kernel.now) column.old }
    ensures turned { MatchTurned result.turned (FallsSomewhere column.old column.new) (column.new ≡ column.old) }
    ensures left { MatchTurned result.turned (sum column.new < sum column.old) (sum column.new ≡ sum column.old) }
    ensures sound { AllSound (K.IsSound kernel.now) column.old → AllSound (K.IsSound kernel.now) column.new }
    ensures above { (fixed : List ℕ) → fixed ≡ round (K.next_value kernel.now) fixed → length fixed ≡ length column.old
        → NowhereGreater fixed column.old → NowhereGreater fixed column.new }
{
    let fell = settle(column, &mut places[..count], &values[..count]);
    let count = spread(kernel, places, fell, marks);
    Settled {
        count,
        turned: turned_after(fell),
    }
}

/// Lowers a column to another, and adds to the frontier, the first `count` of the places, those that fall and those that they
/// touch. Answers how many places it has then.
pub(crate) fn lower_column<K: Kernel>(
    kernel: &K,
    column: &mut [u64],
    to: &[u64],
    places: &mut [u32],
    count: usize,
    marks: &mut [bool],
) -> usize
    requires running { IsRunning (K.size kernel.now) (K.next_value kernel.now) column.old places.old marks.old count }
    requires to_long { length to.now ≡ length column.old }
    requires lower { NowhereGreater to.now column.old }
    ensures running { IsRunning (K.size kernel.now) (K.next_value kernel.now) column.new places.new marks.new result }
    ensures ok { column.new ≡ to.now }
    ensures left { sum column.new ≤ sum column.old }
{
    mark(marks, &places[..count]);
    lower(kernel, column, to, marks);
    list_marked(kernel.len(), marks, places)
}

// What a round answers in which so many places fell.
fn turned_after(fell: usize) -> Turned
    ensures { MatchTurned result (0 < fell) (fell ≡ 0) }
{
    if fell == 0 {
        Turned::Done
    } else {
        Turned::More
    }
}

// Puts the values of these places into the column, and lists the places whose value fell, in the same order. Answers how
// many there are.
fn settle(column: &mut [u64], places: &mut [u32], values: &[u64]) -> usize
    requires in_range { All (λ v. v < length column.old) places.old }
    requires room { length values.now ≡ length places.old }
    ensures within { result ≤ length places.new }
    ensures column_long { length column.new ≡ length column.old }
    ensures places_long { length places.new ≡ length places.old }
    ensures settled { (next : ℕ → ℕ) → values.now ≡ map next places.old
        → ((v : ℕ) → v < length column.old → next v ≤ value_at column.old v)
        → IsSettled next column.old column.new places.old (take result places.new) }
{
    let mut fell = 0;
    for at in 0..values.len() {
        let place = places[at];
        if values[at] < column[place as usize] {
            column[place as usize] = values[at];
            places[fell] = place;
            fell += 1;
        }
    }
    fell
}

// Lists the first `count` of these places and those that they touch, in ascending order. Answers how many there are.
//
// A list of at most a sixteenth of the places is sorted, a longer one is made from marks.
fn spread<K: Kernel>(kernel: &K, places: &mut [u32], count: usize, marks: &mut [bool]) -> usize
    requires long { length places.old ≡ K.size kernel.now }
    requires marks_long { length marks.old ≡ K.size kernel.now }
    requires within { count ≤ length places.old }
    requires in_range { All (λ v. v < K.size kernel.now) (take count places.old) }
    requires unmarked { All (λ mark. mark ≡ false) marks.old }
    ensures within { result ≤ length places.new }
    ensures long { length places.new ≡ length places.old }
    ensures marks_long { length marks.new ≡ length marks.old }
    ensures in_range { All (λ v. v < K.size kernel.now) (take result places.new) }
    ensures unmarked { All (λ mark. mark ≡ false) marks.new }
    ensures listed { All (IsIn (K.touched kernel.now) (take result places.new)) (take count places.old) }
{
    match append_touched(kernel, places, count) {
        Some(end) => {
            let list = &mut places[..end];
            list.sort_unstable();
            drop_repeats(list)
        }
        None => {
            mark_with_touched(kernel, marks, &places[..count]);
            list_marked(kernel.len(), marks, places)
        }
    }
}

// Puts the places that the first `count` touch behind them. Answers where they end, or `None` where they would be more than
// a sixteenth.
fn append_touched<K: Kernel>(kernel: &K, places: &mut [u32], count: usize) -> Option<usize>
    requires long { length places.old ≡ K.size kernel.now }
    requires within { count ≤ length places.old }
    requires in_range { All (λ v. v < K.size kernel.now) (take count places.old) }
    ensures long { length places.new ≡ length places.old }
    ensures kept { take count places.new ≡ take count places.old }
    ensures within { IfSome result (λ end. end ≤ length places.new) }
    ensures in_range { IfSome result (λ end. All (λ v. v < K.size kernel.now) (take end places.new)) }
    ensures listed { IfSome result (λ end. All (IsIn (K.touched kernel.now) (take end places.new)) (take count places.old)) }
{
    let limit = places.len() / 16;
    let mut end = count;
    for at in 0..count {
        let touched = kernel.touches(places[at]);
        if limit.saturating_sub(end) < touched.len() {
            return None;
        }
        places[end..end + touched.len()].copy_from_slice(touched);
        end += touched.len();
    }
    Some(end)
}

// Leaves each of the places once, where equal ones stand side by side. Answers how many are left.
fn drop_repeats(places: &mut [u32]) -> usize
    ensures within { result ≤ length places.new }
    ensures long { length places.new ≡ length places.old }
    ensures only { All (Contains places.old) (take result places.new) }
    ensures all { All (Contains (take result places.new)) places.old }
{
    let mut kept = 0;
    for at in 0..places.len() {
        let place = places[at];
        if !ends_with(&places[..kept], place) {
            places[kept] = place;
            kept += 1;
        }
    }
    kept
}

// Whether this place is the last of the list.
fn ends_with(places: &[u32], place: u32) -> bool
    ensures { result ≡ true → Contains places.now place }
{
    match places.last() {
        Some(last) => *last == place,
        None => false,
    }
}

// The value of a key over the arcs of a group.
ghost use Rattle.std.specs.Prelude.{◌≡◌, ◌-◌, ◌*◌, ◌^◌, ◌+ℤ◌, ◌≤ℤ◌, neg_ℤ, ◌++◌, All, option_to_list, unwrap_or, count_by, pos};
ghost use Rattle.std.specs.Int.{int_min, int_max};
ghost use Rattle.std.specs.List.{reduce};
ghost use Rattle.projection_spec.specs.KeptArcs.{known_value, known_values, single_value, arc_count, rule_value, missing, in_i64, stores};
ghost use Rattle.rel_aggregate.specs.Groups.{HasCell, LeastFirst};

use projection_spec::{RawArc, RelProp, Rule};

/// The value of a key over the arcs of a group, or none where its sum leaves i64. `place` is where the arcs have the
/// key's cell.
pub(crate) fn rule_value(arcs: &[RawArc], place: usize, prop: &RelProp) -> Option<i64>
    requires cells { All (HasCell place) arcs.now }
    requires least_first { LeastFirst arcs.now }
    ensures { result ≡ rule_value prop.now.rule place prop.now arcs.now }
{
    match prop.rule {
        Rule::Keep | Rule::Single => Some(single_value(arcs, place, prop.default)),
        Rule::Count => Some(arc_count(arcs, place, prop)),
        Rule::Min => Some(least_value(arcs, place, prop.default)),
        Rule::Max => Some(greatest_value(arcs, place, prop.default)),
        Rule::Sum => sum_value(arcs, place, prop.default),
    }
}

// The value of an arc: the stored one, else the default.
fn known_value(arc: &RawArc, place: usize, default: Option<i64>) -> Option<i64>
    requires { HasCell place arc.now }
    ensures { result ≡ known_value place default arc.now }
{
    arc.cells.as_slice()[place].or(default)
}

fn single_value(arcs: &[RawArc], place: usize, default: Option<i64>) -> i64
    requires cells { All (HasCell place) arcs.now }
    requires least_first { LeastFirst arcs.now }
    ensures { result ≡ single_value place default arcs.now }
{
    match arcs.first() {
        Some(first) => known_value(first, place, default).unwrap_or(i64::MIN),
        None => i64::MIN,
    }
}

fn least_value(arcs: &[RawArc], place: usize, default: Option<i64>) -> i64
    requires { All (HasCell place) arcs.now }
    ensures { result ≡ unwrap_or (reduce int_min (known_values place default arcs.now)) missing }
{
    let mut least = None;
    for arc in arcs {
        least = lesser(least, known_value(arc, place, default));
    }
    least.unwrap_or(i64::MIN)
}

fn greatest_value(arcs: &[RawArc], place: usize, default: Option<i64>) -> i64
    requires { All (HasCell place) arcs.now }
    ensures { result ≡ unwrap_or (reduce int_max (known_values place default arcs.now)) missing }
{
    let mut greatest = None;
    for arc in arcs {
        greatest = greater(greatest, known_value(arc, place, default));
    }
    greatest.unwrap_or(i64::MIN)
}

// The lesser of two values, or the one that is there.
fn lesser(a: Option<i64>, b: Option<i64>) -> Option<i64>
    ensures { result ≡ reduce int_min (option_to_list a ++ option_to_list b) }
{
    match (a, b) {
        (Some(a), Some(b)) => Some(a.min(b)),
        (Some(a), None) => Some(a),
        (None, b) => b,
    }
}

// The greater of two values, or the one that is there.
fn greater(a: Option<i64>, b: Option<i64>) -> Option<i64>
    ensures { result ≡ reduce int_max (option_to_list a ++ option_to_list b) }
{
    match (a, b) {
        (Some(a), Some(b)) => Some(a.max(b)),
        (Some(a), None) => Some(a),
        (None, b) => b,
    }
}

fn arc_count(arcs: &[RawArc], place: usize, prop: &RelProp) -> i64
    requires { All (HasCell place) arcs.now }
    ensures { result ≡ pos (arc_count place prop.now.store arcs.now) }
{
    match &prop.store {
        None => arcs.len() as i64,
        Some(_) => stored_count(arcs, place) as i64,
    }
}

fn stored_count(arcs: &[RawArc], place: usize) -> usize
    requires { All (HasCell place) arcs.now }
    ensures { result ≡ count_by (stores place) arcs.now }
{
    let mut count = 0;
    for arc in arcs {
        if arc.cells.as_slice()[place].is_some() {
            count += 1;
        }
    }
    count
}

fn sum_value(arcs: &[RawArc], place: usize, default: Option<i64>) -> Option<i64>
    requires { All (HasCell place) arcs.now }
    ensures { result ≡ in_i64 (unwrap_or (reduce ◌+ℤ◌ (known_values place default arcs.now)) missing) }
{
    match whole_sum(arcs, place, default) {
        Some(sum) => i64::try_from(sum).ok(),
        None => Some(i64::MIN),
    }
}

// The sum in 128 bits, where no sum of fewer than 2^64 values leaves them.
fn whole_sum(arcs: &[RawArc], place: usize, default: Option<i64>) -> Option<i128>
    requires { All (HasCell place) arcs.now }
    ensures { result ≡ reduce ◌+ℤ◌ (known_values place default arcs.now) }
{
    let mut sum = None;
    for arc in arcs {
        sum = added(sum, known_value(arc, place, default));
    }
    sum
}

// A sum and one more value, or the one of them that is there.
fn added(sum: Option<i128>, value: Option<i64>) -> Option<i128>
    requires low { neg_ℤ (pos (2 ^ 63 * (2 ^ 64 - 1))) ≤ℤ unwrap_or sum (pos 0) }
    requires high { unwrap_or sum (pos 0) ≤ℤ pos (2 ^ 63 * (2 ^ 64 - 1)) }
    ensures sum { result ≡ reduce ◌+ℤ◌ (option_to_list sum ++ option_to_list value) }
    ensures low { unwrap_or sum (pos 0) ≤ℤ (unwrap_or result (pos 0) +ℤ pos (2 ^ 63)) }
    ensures high { unwrap_or result (pos 0) ≤ℤ (unwrap_or sum (pos 0) +ℤ pos (2 ^ 63)) }
{
    match (sum, value) {
        (Some(sum), Some(value)) => Some(sum + i128::from(value)),
        (None, Some(value)) => Some(i128::from(value)),
        (sum, None) => sum,
    }
}

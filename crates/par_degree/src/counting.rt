// The degrees of nodes.
ghost use Rattle.std.specs.Prelude.{◌≡◌, ◌+◌, ◌<◌, ◌≤◌, ◌++◌, length, min, take, slice_index, None};
ghost use Rattle.graph_model.specs.Degrees.{degree_of, degrees, sum_of, weight_refusal};
ghost use Rattle.graph_model.specs.Projection.{most_arcs};
ghost use Rattle.csr_columns.specs.ViewParts.{plain_view_of, HasWeightsBeside};
ghost use Rattle.std.specs.Thread.{IsSync};
ghost use Rattle.par_degree.specs.Runs.{nodes_a_step};
ghost use Rattle.par_degree.specs.Weights.{AreTaken};

use csr_columns::View;
use gds_causes::Gate;
use std::thread::{Threads, join_mut};

/// How many nodes a step treats.
const NODES_A_STEP: u32 = 65_536;

/// Who works on a step: where threads come from, the gate that each part goes through, and how many nodes a part has.
#[derive(Drop)]
struct Workers<'a, R, G> {
    rt: &'a R,
    gate: &'a G,
    size: u32,
    ghost some: { 0 < size },
}

/// Puts the degrees of the next 65,536 nodes from a place on, or of those that are left, into their places. Answers the
/// place behind them. The nodes are cut into as many consecutive parts of equal size as there are workers, the last perhaps
/// shorter; each goes through the gate with its number, counted from 1, and all of them run at once.
pub(crate) fn count_more<R: Threads + Sync, G: Gate + Sync>(
    rt: &R,
    workers: u32,
    gate: &G,
    view: &View,
    values: &mut [i64],
    from: u32,
) -> u32
    requires some_workers { 1 ≤ workers }
    requires taken { weight_refusal (plain_view_of view.now) ≡ None }
    requires long { length values.old ≡ length view.now.ids }
    requires within { from ≤ length view.now.ids }
    requires before { take from values.old ≡ take from (degrees (plain_view_of view.now)) }
    ensures next { result ≡ min (from + nodes_a_step) (length view.now.ids) }
    ensures long { length values.new ≡ length values.old }
    ensures counted { take result values.new ≡ take result (degrees (plain_view_of view.now)) }
{
    let until = view
        .arcs()
        .node_count()
        .min(from.saturating_add(NODES_A_STEP));
    let size = (until - from).div_ceil(workers).max(1);
    let workers = Workers { rt, gate, size };
    if from < until {
        let step = &mut values[from as usize..until as usize];
        count_parts(&workers, view, 1, from, until, step);
    }
    until
}

// Puts the degrees of the nodes between two places into theirs, in parts that run at once. The first has this number.
fn count_parts<R: Threads + Sync, G: Gate + Sync>(
    workers: &Workers<'_, R, G>,
    view: &View,
    part: u32,
    from: u32,
    until: u32,
    step: &mut [i64],
)
    requires taken { weight_refusal (plain_view_of view.now) ≡ None }
    requires beside { HasWeightsBeside view.now }
    requires order { from ≤ until }
    requires within { until ≤ length view.now.ids }
    requires long { from + length step.old ≡ until }
    ensures long { length step.new ≡ length step.old }
    ensures counted { take from (degrees (plain_view_of view.now)) ++ step.new ≡ take until (degrees (plain_view_of view.now)) }
{
    if until - from <= workers.size {
        workers.gate.enter(part);
        count_part(view, from, until, step);
        return;
    }
    let middle = from + workers.size;
    let next = part.saturating_add(1);
    let (front, back) = step.split_at_mut(workers.size as usize);
    join_mut(
        workers.rt,
        &mut ||
            requires { IsSync R.row × IsSync G.row × (weight_refusal (plain_view_of view.now) ≡ None) × HasWeightsBeside view.now × (from ≤ middle) × (middle ≤ length view.now.ids) × (from + length front.now ≡ middle) }
            ensures { (length front.exit.now ≡ length front.entry.now) × (take from (degrees (plain_view_of view.entry.now)) ++ front.exit.now ≡ take middle (degrees (plain_view_of view.entry.now))) }
        {
            workers.gate.enter(part);
            count_part(view, from, middle, front)
        },
        &mut ||
            requires { IsSync R.row × IsSync G.row × (weight_refusal (plain_view_of view.now) ≡ None) × HasWeightsBeside view.now × (middle ≤ until) × (until ≤ length view.now.ids) × (middle + length back.now ≡ until) }
            ensures { (length back.exit.now ≡ length back.entry.now) × (take middle (degrees (plain_view_of view.entry.now)) ++ back.exit.now ≡ take until (degrees (plain_view_of view.entry.now))) }
        { count_parts(workers, view, next, middle, until, back) },
    );
}

// The same in one thread.
fn count_part(view: &View, from: u32, until: u32, step: &mut [i64])
    requires taken { weight_refusal (plain_view_of view.now) ≡ None }
    requires beside { HasWeightsBeside view.now }
    requires order { from ≤ until }
    requires within { until ≤ length view.now.ids }
    requires long { from + length step.old ≡ until }
    ensures long { length step.new ≡ length step.old }
    ensures counted { take from (degrees (plain_view_of view.now)) ++ step.new ≡ take until (degrees (plain_view_of view.now)) }
{
    for v in from..until {
        step[(v - from) as usize] = degree_at(view, v);
    }
}

// The degree of the node at place `v`.
fn degree_at(view: &View, v: u32) -> i64
    requires taken { weight_refusal (plain_view_of view.now) ≡ None }
    requires beside { HasWeightsBeside view.now }
    requires in_range { v < length view.now.ids }
    ensures { result ≡ degree_of (plain_view_of view.now) (slice_index view.now.ids v) }
{
    let row = view.arcs().row(v);
    match view.weights(v) {
        Some(weights) => weight_sum(weights),
        None => row.len() as i64,
    }
}

// The sum of weights that are in range.
fn weight_sum(weights: &[i64]) -> i64
    requires taken { AreTaken weights.now (length weights.now) }
    requires few { length weights.now ≤ most_arcs }
    ensures { result ≡ sum_of weights.now }
{
    let mut sum: i64 = 0;
    for weight in weights {
        sum += *weight;
    }
    sum
}

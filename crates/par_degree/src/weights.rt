// Weights that are refused.
ghost use Rattle.std.specs.Prelude.{ℕ, ◌≡◌, ◌<◌, length, pos, true, false, slice_index_or, MatchOption};
ghost use Rattle.graph_model.specs.Degrees.{first_refused, is_out_of_range, weight_refusal};
ghost use Rattle.csr_columns.specs.ViewParts.{plain_view_of, view_row};
ghost use Rattle.par_degree.specs.Weights.{AreTaken, IsFirstRefused};

use csr_columns::View;
use graph_model::Refusal;

/// The greatest weight that is taken.
const MOST_WEIGHT: i64 = 4_294_967_295;

/// The refusal of the first arc of a view that weighs less than 0 or more than 4,294,967,295, `None` where there is none, as
/// in a view without weights. It takes no memory.
pub fn weight_refusal(view: &View) -> Option<Refusal>
    ensures { result ≡ weight_refusal (plain_view_of view.now) }
{
    for v in 0..view.arcs().node_count() {
        let refusal = row_refusal(view, v);
        if refusal.is_some() {
            return refusal;
        }
    }
    None
}

// The refusal of the first such arc from `v`.
fn row_refusal(view: &View, v: u32) -> Option<Refusal>
    requires { v < length view.now.ids }
    ensures { result ≡ first_refused (view_row view.now v) }
{
    let Some(weights) = view.weights(v) else {
        return None;
    };
    let Some(at) = first_out_of_range(weights) else {
        return None;
    };
    let target = view.arcs().row(v)[at];
    Some(Refusal::WeightOutOfRange {
        source: view.ids()[v as usize],
        target: view.ids()[target as usize],
        weight: weights[at],
    })
}

// The place of the first weight that is out of range.
fn first_out_of_range(weights: &[i64]) -> Option<usize>
    ensures { MatchOption result (AreTaken weights.now (length weights.now)) (IsFirstRefused weights.now) }
{
    for (at, weight) in weights.iter().enumerate() {
        if is_out_of_range(*weight) {
            return Some(at);
        }
    }
    None
}

fn is_out_of_range(weight: i64) -> bool
    ensures { result ≡ is_out_of_range weight }
{
    weight < 0 || MOST_WEIGHT < weight
}

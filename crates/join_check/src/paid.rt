ghost use Rattle.std.specs.Prelude.{◌≡◌, ◌*◌, ◌^◌, pos, neg_ℤ, ◌*ℤ◌, ◌+ℤ◌, ◌≤ℤ◌, length, All};
ghost use Rattle.std.specs.Prelude.{int_lt};
ghost use Rattle.std.specs.Prelude.{IsTrue, if◌then◌else◌};
ghost use Rattle.graph_theory.specs.Sums.{int_sum_to};
ghost use Rattle.graph_theory.specs.Graph.{IsEdgeNumber};
ghost use Rattle.graph_theory.specs.Walk.{walk_weight};
ghost use Rattle.mb_problem.specs.Network.{graph_of};
ghost use Rattle.join_check.specs.Forests.{turned_weight};
ghost use Rattle.join_check.specs.Checks.{at, AreLengths};

use mb_base::EdgeId;
use mb_problem::Instance;

/// All lengths, added up.
fn length_sum(lengths: &[i64]) -> i64
    requires { AreLengths lengths.now }
    ensures { result ≡ int_sum_to (at lengths.now) (length lengths.now) }
{
    let mut sum = 0;
    for length in lengths {
        sum += *length;
    }
    sum
}

/// A weight if it is negative, else 0.
fn negative_part(w: i64) -> i128
    ensures part { result ≡ (if int_lt w (pos 0) then w else pos 0) }
    ensures low { neg_ℤ (pos (2 ^ 63)) ≤ℤ result }
    ensures high { result ≤ℤ pos 0 }
{
    if w < 0 { i128::from(w) } else { 0 }
}

/// The weights of the edges of negative weight, added up.
fn negative_sum(instance: &Instance) -> i128
    ensures sum { result ≡ turned_weight instance.now }
    ensures low { neg_ℤ (pos (2 ^ 95)) ≤ℤ result }
    ensures high { result ≤ℤ pos (2 ^ 95) }
{
    let mut sum = 0;
    for edge in instance.edge_list() {
        sum += negative_part(edge.w);
    }
    sum
}

/// The weights of edges, added up.
pub fn weight_of(instance: &Instance, edges: &[EdgeId]) -> i128
    requires { All (IsEdgeNumber (graph_of instance.now)) edges.now }

    // The weight of the list, within that of so many edges.
    ensures sum { result ≡ walk_weight (graph_of instance.now) edges.now }
    ensures low { neg_ℤ (pos (1_000_000_000_000 * length edges.now)) ≤ℤ result }
    ensures high { result ≤ℤ pos (1_000_000_000_000 * length edges.now) }
{
    let mut total = 0;
    for edge in edges {
        total += i128::from(instance.edge(*edge).2);
    }
    total
}

/// Whether the lengths, and the negative weights twice, add up to twice the weight of the join.
pub(crate) fn is_paid(instance: &Instance, join: &[EdgeId], lengths: &[i64]) -> bool
    requires edges { All (IsEdgeNumber (graph_of instance.now)) join.now }
    requires lengths { AreLengths lengths.now }
    ensures { IsTrue result → int_sum_to (at lengths.now) (length lengths.now)
        +ℤ pos 2 *ℤ turned_weight instance.now
        ≡ pos 2 *ℤ walk_weight (graph_of instance.now) join.now }
{
    let bound = i128::from(length_sum(lengths)) + 2 * negative_sum(instance);
    if bound != 2 * weight_of(instance, join) {
        return false;
    }
    true
}

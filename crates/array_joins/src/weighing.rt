ghost use Rattle.std.specs.Prelude.{◌≡◌, ◌≤◌, ◌^◌, ◌≤ℤ◌, ◌+ℤ◌, pos, neg_ℤ, length, All};
ghost use Rattle.graph_theory.specs.Graph.{IsEdgeNumber, edge_of};
ghost use Rattle.graph_theory.specs.Walk.{walk_weight};
ghost use Rattle.mb_problem.specs.Network.{graph_of};

use mb_base::EdgeId;
use mb_problem::{EDGE_LIMIT, Instance};

/// The weight of an edge.
fn weight_at(instance: &Instance, edge: EdgeId) -> i64
    requires { IsEdgeNumber (graph_of instance.now) edge }
    ensures weight { result ≡ (edge_of (graph_of instance.now) edge).w }
    ensures low { neg_ℤ (pos 1000000000000) ≤ℤ result }
    ensures high { result ≤ℤ pos 1000000000000 }
{
    instance.edge(edge).2
}

/// The sum of two numbers, each of which is far from the limits of 64 bits.
fn plus(a: i64, b: i64) -> i64
    requires low_a { neg_ℤ (pos (2 ^ 61)) ≤ℤ a }
    requires high_a { a ≤ℤ pos (2 ^ 61) }
    requires low_b { neg_ℤ (pos (2 ^ 61)) ≤ℤ b }
    requires high_b { b ≤ℤ pos (2 ^ 61) }
    ensures { result ≡ a +ℤ b }
{
    a + b
}

/// The weights of edges, added up.
pub(crate) fn weight_of(instance: &Instance, edges: &[EdgeId]) -> i64
    requires edges { All (IsEdgeNumber (graph_of instance.now)) edges.now }
    requires size_limit { length edges.now ≤ EDGE_LIMIT }
    ensures { result ≡ walk_weight (graph_of instance.now) edges.now }
{
    let mut total = 0i64;
    for edge in edges {
        total = plus(total, weight_at(instance, *edge));
    }
    total
}

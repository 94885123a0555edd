ghost use Rattle.std.specs.Prelude.{◌≡◌, ◌+◌, ◌≤◌, length, pos, ◌*ℤ◌, ◌-ℤ◌, ◌≤ℤ◌, All, MatchOption};
ghost use Rattle.graph_theory.specs.Graph.{IsGraph, IsEdgeWithin, IsWeight};
ghost use Rattle.graph_theory.specs.Duals.{IsNumber, dual_of, slack};
ghost use Rattle.graph_theory.specs.OddSets.{HaveItemForm, listed_sets};
ghost use Rattle.dual_check.specs.Crossed.{AreCrossed, IsWithin};
ghost use Rattle.dual_check.specs.Fault.{IsFirstSlackFault};

use graph_theory::{Edge, OddSet};
use mb_base::{EdgeId, VertexId};
use weighted_graph::Graph;

/// The dual of a vertex.
fn set_dual(y: &[i64], vertex: VertexId) -> i64
    requires low { 1 ≤ vertex }
    requires high { vertex ≤ length y.now }
    ensures { result ≡ dual_of y.now vertex }
{
    y[vertex.number() as usize - 1]
}

/// Twice the weight of an edge, without the duals of its ends and what is given for the sets that
/// it crosses.
fn slack_of(y: &[i64], edge: &Edge, crossed: i128) -> i128
    requires ends { IsEdgeWithin (length y.now) edge.now }
    requires y_numbers { All IsNumber y.now }
    requires value_limit { IsWithin 3 crossed }
    ensures { result
        ≡ pos 2 *ℤ edge.now.w -ℤ dual_of y.now edge.now.u -ℤ dual_of y.now edge.now.v -ℤ crossed }
{
    let doubled = 2 * i128::from(edge.w);
    let at_ends = i128::from(set_dual(y, edge.u)) + i128::from(set_dual(y, edge.v));
    doubled - at_ends - crossed
}

/// The first edge with a negative slack, from the totals at each edge. The sets stand for the
/// contract alone: the totals are theirs.
pub(crate) fn first_slack_fault(
    graph: &Graph,
    y: &[i64],
    sets: &[OddSet],
    totals: &[i128],
) -> Option<EdgeId>
    requires one_each { length y.now ≡ graph.now.vertices }
    requires y_numbers { All IsNumber y.now }
    requires set_numbers { All (λ s. IsNumber s.dual) sets.now }
    requires forms { HaveItemForm sets.now }
    requires totals { AreCrossed graph.now sets.now totals.now }
    ensures graph { IsGraph graph.now }
    ensures slacks { MatchOption result
        (All (λ e. pos 0 ≤ℤ slack y.now (listed_sets graph.now.vertices sets.now) e)
        graph.now.edges)
        (IsFirstSlackFault graph.now y.now sets.now) }
{
    for (k, edge) in graph.edge_list().iter().enumerate() {
        if slack_of(y, edge, totals[k + 1]) < 0 {
            return Some(EdgeId::new(k as u32 + 1));
        }
    }
    None
}

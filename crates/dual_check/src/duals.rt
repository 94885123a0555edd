ghost use Rattle.std.specs.Prelude.{◌≡◌, ℕ, List, length, ℤ, pos, neg_ℤ, ◌*ℤ◌, ◌≤ℤ◌, All, IfOk};
ghost use Rattle.std.specs.Prelude.{IfErr, OnOk, slice_index_or};
ghost use Rattle.graph_theory.specs.Sums.{int_sum_to};
ghost use Rattle.graph_theory.specs.Graph.{HasNoLoop, IsPerfect, weight};
ghost use Rattle.graph_theory.specs.Duals.{AreDuals, IsNumber, dual_value};
ghost use Rattle.graph_theory.specs.OddSets.{AreEarlier, HaveItemForm, IsGivenWithin, listed_sets};
ghost use Rattle.dual_check.specs.Fault.{IsFirstDualFault};

use crate::crossings::crossed_all;
use crate::fault::DualFault;
use crate::sets::{first_set_fault, set_total};
use crate::slacks::first_slack_fault;
use graph_theory::{NUMBER_LIMIT, OddSet};
use std::alloc::Global;
use weighted_graph::Graph;

/// The duals of the vertices, added up.
fn vertex_total(y: &[i64]) -> i128
    requires { All IsNumber y.now }
    ensures value { result ≡ int_sum_to (λ k. slice_index_or y.now k (pos 0)) (length y.now) }
    ensures low { (neg_ℤ NUMBER_LIMIT *ℤ pos (length y.now)) ≤ℤ result }
    ensures high { result ≤ℤ (NUMBER_LIMIT *ℤ pos (length y.now)) }
{
    let mut total = 0;
    for a in y {
        total += i128::from(*a);
    }
    total
}

/// The value of duals: one for each vertex, in `y`, and one for each odd set of vertices. A set may
/// name earlier sets in place of their members. Duals that are not feasible have no value: the
/// answer is their first fault, of the sets first, then of the slacks. Duals, slacks and the value
/// are in doubled units: an edge counts twice its weight. It takes time linear in vertices, edges
/// and items, and besides for each set that is named by no other and names none the lesser of the
/// degrees of its members and the square of their number, for each tree of others the degrees of
/// its members, each as often as the logarithm of the depth of the tree.
pub fn bound(alloc: Global, graph: &Graph, y: &[i64], sets: &[OddSet]) -> Result<i128, DualFault>
    requires one_each { length y.now ≡ graph.now.vertices }
    requires y_numbers { All IsNumber y.now }
    requires set_numbers { All (λ s. IsNumber s.dual) sets.now }
    requires sets_within { All (IsGivenWithin graph.now.vertices) sets.now }
    requires earlier { AreEarlier sets.now }
    requires loopless { HasNoLoop graph.now }

    // The dual value, or the first set or edge that breaks a rule.
    ensures value { IfOk result
        (λ value. value ≡ dual_value y.now (listed_sets graph.now.vertices sets.now)) }
    ensures forms { OnOk result (HaveItemForm sets.now) }
    ensures duals { OnOk result
        (AreDuals graph.now y.now (listed_sets graph.now.vertices sets.now)) }
    ensures fault { IfErr result (IsFirstDualFault graph.now y.now sets.now) }

    // Twice the weight of every perfect matching is at least the value.
    ensures below { IfOk result
        (λ value. (counts : List ℕ) → IsPerfect graph.now counts
        → value ≤ℤ (pos 2 *ℤ weight graph.now counts)) }
{
    if let Some(number) = first_set_fault(alloc, graph.vertices(), sets)? {
        return Err(DualFault::SetForm(number));
    }
    let totals = crossed_all(alloc, graph, sets)?;
    if let Some(e) = first_slack_fault(graph, y, sets, &totals) {
        return Err(DualFault::Slack(e));
    }
    Ok(vertex_total(y) + set_total(sets))
}

ghost use Rattle.std.specs.Prelude.{◌≡◌, ◌⊎◌, ◌≤◌, ◌+◌, ◌≤ℤ◌, ℕ, ℤ, length, IfSome, IfNone};
ghost use Rattle.graph_theory.specs.Graph.{IsEdgeNumber, IsWeight, edge_of};
ghost use Rattle.alt_forest.specs.declared.weights.Weights.TheVariants.{Given};
ghost use Rattle.alt_forest.specs.Searches.{IsStart};
ghost use Rattle.search_start.specs.Weights.{AllWeigh, HasTwoWeights, IsFirstOther};
ghost use Rattle.search_start.specs.Weights.{IsWeightOfSome};

use base_types::{EdgeId, Steps};
use std::sync::ledger::Ledger;
use weighted_graph::Graph;

/// The weight of an edge, at one counted look.
fn weight_of<L: Ledger>(graph: &Graph, e: EdgeId, steps: &mut Steps<L>) -> i64
    requires { IsEdgeNumber graph.now e }
    ensures is { result ≡ (edge_of graph.now e).w }
    ensures weight { IsWeight result }
    ensures step { steps.new ≡ steps.old + 1 }
{
    let (_, _, w) = graph.look(e, steps);
    w
}

/// The lesser of a weight and of that of an edge, at one counted look.
fn lesser_of<L: Ledger>(least: i64, graph: &Graph, e: EdgeId, steps: &mut Steps<L>) -> i64
    requires least { IsWeight least }
    requires edge { IsEdgeNumber graph.now e }
    ensures weight { IsWeight result }
    ensures least { result ≤ℤ least }
    ensures edge { result ≤ℤ (edge_of graph.now e).w }
    ensures low { (x : ℤ) → x ≤ℤ least → x ≤ℤ (edge_of graph.now e).w → x ≤ℤ result }
    ensures either { (result ≡ least) ⊎ (result ≡ (edge_of graph.now e).w) }
    ensures step { steps.new ≡ steps.old + 1 }
{
    least.min(weight_of(graph, e, steps))
}

/// The least weight of an edge, or 0 if there is no edge, at one look for each edge.
pub fn least_weight<L: Ledger>(graph: &Graph, steps: &mut Steps<L>) -> i64
    // The least weight, which some edge has, with the exact number of inspections.
    ensures start { IsStart graph.now Given result }
    ensures least { IsWeightOfSome graph.now result }
    ensures steps { steps.new ≡ steps.old + length graph.now.edges }
{
    if graph.edges() == 0 {
        return 0;
    }
    let mut least = weight_of(graph, EdgeId::new(1), steps);
    for place in 1..graph.edges() {
        least = lesser_of(least, graph, EdgeId::new(place + 1), steps);
    }
    least
}

/// The one weight that all edges have, 0 if there is no edge; nothing if two edges differ. It looks
/// at the edges in turn, up to the first one that differs from the first of all.
pub fn common_weight<L: Ledger>(graph: &Graph, steps: &mut Steps<L>) -> Option<i64>
    // The one weight that all edges have, or that two differ, with the exact number of inspections.
    ensures some { IfSome result (λ w. IsWeight w × AllWeigh graph.now w) }
    ensures none { IfNone result (HasTwoWeights graph.now) }
    ensures whole { IfSome result (λ w. steps.new ≡ steps.old + length graph.now.edges) }
    ensures first { IfNone result ((k : ℕ) × IsFirstOther graph.now k
        × (steps.new ≡ steps.old + k + 1)) }
{
    if graph.edges() == 0 {
        return Some(0);
    }
    let common = weight_of(graph, EdgeId::new(1), steps);
    for place in 1..graph.edges() {
        if weight_of(graph, EdgeId::new(place + 1), steps) != common {
            return None;
        }
    }
    Some(common)
}

//! Where halving starts: at the greatest of the vertices' least weights.
ghost use Rattle.std.specs.Prelude.{◌≡◌, ℕ, ◌+◌, ◌<◌, ◌≤◌, ◌≤ℤ◌, int_lt, true, length, IfOk};
ghost use Rattle.graph_theory.specs.Graph.{IsEdgeNumber, IsGraph, edge_of};
ghost use Rattle.bottleneck.specs.Halving.{AreLeast, IsLeastAt, IsStart, weight_at};

use mb_base::{EdgeId, OutOfMemory, VertexId};
use std::alloc::Global;
use weighted_graph::Graph;

/// Lowers the least weight that is known at a vertex, if an edge there weighs less.
fn lower(least: &mut [i64], vertex: VertexId, weight: i64)
    requires { vertex < length least.old }
    ensures size { length least.new ≡ length least.old }
    ensures low { weight_at least.new vertex ≤ℤ weight }
    ensures lower { (v : ℕ) → weight_at least.new v ≤ℤ weight_at least.old v }
{
    let place = vertex.number() as usize;
    if weight < least[place] {
        least[place] = weight;
    }
}

/// Lowers the least weights that are known at the ends of an edge.
fn lower_ends(least: &mut [i64], graph: &Graph, number: EdgeId)
    requires size { length least.old ≡ graph.now.vertices + 1 }
    requires is_graph { IsGraph graph.now }
    requires edge { IsEdgeNumber graph.now number }
    ensures size { length least.new ≡ length least.old }
    ensures from { weight_at least.new (edge_of graph.now number).u
        ≤ℤ (edge_of graph.now number).w }
    ensures to { weight_at least.new (edge_of graph.now number).v
        ≤ℤ (edge_of graph.now number).w }
    ensures lower { (v : ℕ) → weight_at least.new v ≤ℤ weight_at least.old v }
{
    let (u, v, weight) = graph.edge(number);
    lower(least, u, weight);
    lower(least, v, weight);
}

/// The least weight of the edges at each vertex. Place 0 isn't a vertex.
fn least_weights(alloc: Global, graph: &Graph) -> Result<Vec<i64>, OutOfMemory>
    ensures size { IfOk result (λ v. length v.items ≡ graph.now.vertices + 1) }
    ensures each { IfOk result (λ v. AreLeast graph.now (length graph.now.edges) v.items) }
    ensures is_graph { IsGraph graph.now }
{
    let mut least = vec![in alloc; i64::MAX; graph.vertices() as usize + 1]?;
    for place in 0..graph.edges() {
        lower_ends(&mut least, graph, EdgeId::new(place + 1));
    }
    Ok(least)
}

/// A vertex at which the greatest of these weights stands.
fn greatest_at(least: &[i64]) -> usize
    requires { 1 < length least.now }
    ensures low { 1 ≤ result }
    ensures high { result < length least.now }
{
    let mut greatest = 1;
    for vertex in 1..least.len() {
        if least[greatest] < least[vertex] {
            greatest = vertex;
        }
    }
    greatest
}

/// The greatest of the vertices' least weights. An edge at one of the vertices weighs no less.
fn greatest_least(alloc: Global, graph: &Graph) -> Result<i64, OutOfMemory>
    requires { 1 ≤ graph.now.vertices }
    ensures { IfOk result (λ bound. (v : ℕ) × (1 ≤ v) × (v ≤ graph.now.vertices)
        × IsLeastAt graph.now v bound) }
{
    let least = least_weights(alloc, graph)?;
    Ok(least[greatest_at(&least)])
}

/// How many of the weights, which ascend, are below a bound.
fn count_below(weights: &[i64], bound: i64) -> usize
    ensures size_limit { result ≤ length weights.now }
    ensures below { (p : ℕ) → p < result → int_lt (weight_at weights.now p) bound ≡ true }
{
    for place in 0..weights.len() {
        if weights[place] >= bound {
            return place;
        }
    }
    weights.len()
}

/// The place of the greatest of the vertices' least weights, or the end if a vertex has no edge. No
/// edges up to an earlier place have a perfect matching, since one covers each vertex.
pub fn start(alloc: Global, graph: &Graph, weights: &[i64]) -> Result<usize, OutOfMemory>
    requires { 1 ≤ graph.now.vertices }
    ensures { IfOk result (IsStart graph.now weights.now) }
{
    let bound = greatest_least(alloc, graph)?;
    Ok(count_below(weights, bound))
}

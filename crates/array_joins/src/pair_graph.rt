//! The graph of pairs of leaves.
ghost use Rattle.std.specs.Prelude.{◌≡◌, ◌*◌, ◌≤◌, ◌+◌, length, IfOk, IfSome, OnOk};
ghost use Rattle.graph_theory.specs.Graph.{HasNoLoop, IsWeight};
ghost use Rattle.graph_theory.specs.Limits.{IsWithinLimits};
ghost use Rattle.mwpm_engine.specs.Solutions.{HasPerfect, size_of_graph};
ghost use Rattle.array_joins.specs.PairedUp.{IsPairedUp};

use crate::pairs::Pair;
use graph_theory::{GRAPH_EDGE_LIMIT, GRAPH_VERTEX_LIMIT, WEIGHT_LIMIT};
use mb_base::{OutOfMemory, VertexId};
use std::alloc::Global;
use weighted_graph::Graph;

/// The nearest weight that an edge may have.
fn within(weight: i64) -> i64
    ensures { IsWeight result }
{
    if weight > WEIGHT_LIMIT {
        return WEIGHT_LIMIT;
    }
    if weight < -WEIGHT_LIMIT {
        return -WEIGHT_LIMIT;
    }
    weight
}

/// Adds the pair at a place: leaves 1 and 2 for place 0, 3 and 4 for place 1, and so on.
fn add_two(graph: &mut Graph, place: u32, weight: i64) -> Result<(), OutOfMemory>
    requires paired { IsPairedUp place graph.old }
    requires each { length graph.old.edges ≡ place }
    requires room { 2 * place + 2 ≤ graph.old.vertices }
    requires size_limit { graph.old.vertices ≤ GRAPH_VERTEX_LIMIT }
    ensures paired { OnOk result (IsPairedUp (place + 1) graph.new) }
    ensures each { OnOk result (length graph.new.edges ≡ place + 1) }
    ensures vertices { graph.new.vertices ≡ graph.old.vertices }
{
    let first = 2 * place + 1;
    graph.add(
        VertexId::new(first),
        VertexId::new(first + 1),
        within(weight),
    )?;
    Ok(())
}

/// The graph of the pairs of leaves 1 and 2, 3 and 4, and so on.
fn graph_of_twos(alloc: Global, distances: &[i64]) -> Result<Graph, OutOfMemory>
    requires size_limit { 2 * length distances.now ≤ GRAPH_VERTEX_LIMIT }
    ensures vertices { IfOk result (λ g. g.vertices ≡ 2 * length distances.now) }
    ensures paired { IfOk result (λ g. IsPairedUp (length distances.now) g) }
{
    let mut graph = Graph::new(alloc, 2 * distances.len() as u32);
    for (place, weight) in distances.iter().enumerate() {
        add_two(&mut graph, place as u32, *weight)?;
    }
    Ok(graph)
}

/// Adds a pair, if there is room for it and its leaves differ and are there.
fn add_other(graph: &mut Graph, twos: u32, pair: &Pair) -> Result<(), OutOfMemory>
    requires paired { IsPairedUp twos graph.old }
    ensures paired { OnOk result (IsPairedUp twos graph.new) }
    ensures vertices { graph.new.vertices ≡ graph.old.vertices }
{
    if graph.edges() >= GRAPH_EDGE_LIMIT {
        return Ok(());
    }
    if pair.low < 1 {
        return Ok(());
    }
    if pair.high <= pair.low {
        return Ok(());
    }
    if pair.high > graph.vertices() {
        return Ok(());
    }
    graph.add(
        VertexId::new(pair.low),
        VertexId::new(pair.high),
        within(pair.weight),
    )?;
    Ok(())
}

/// Adds pairs.
fn add_others(graph: &mut Graph, twos: u32, pairs: &[Pair]) -> Result<(), OutOfMemory>
    requires paired { IsPairedUp twos graph.old }
    ensures paired { OnOk result (IsPairedUp twos graph.new) }
    ensures vertices { graph.new.vertices ≡ graph.old.vertices }
{
    for pair in pairs {
        add_other(graph, twos, pair)?;
    }
    Ok(())
}

/// The graph of the pairs of leaves 1 and 2, 3 and 4, and so on, at these distances, and of other
/// pairs; nothing if it has too many vertices.
pub(crate) fn pair_graph(
    alloc: Global,
    distances: &[i64],
    pairs: &[Pair],
) -> Result<Option<Graph>, OutOfMemory>
    ensures limits { IfOk result (λ o. IfSome o (λ g. IsWithinLimits (size_of_graph g))) }
    ensures loopless { IfOk result (λ o. IfSome o HasNoLoop) }
    ensures perfect { IfOk result (λ o. IfSome o HasPerfect) }
{
    if distances.len() > GRAPH_VERTEX_LIMIT as usize / 2 {
        return Ok(None);
    }
    let twos = distances.len() as u32;
    let mut graph = graph_of_twos(alloc, distances)?;
    add_others(&mut graph, twos, pairs)?;
    Ok(Some(graph))
}

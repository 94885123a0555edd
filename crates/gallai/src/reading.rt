//! What is read off an engine whose run has left a barrier.
ghost use Rattle.std.specs.Prelude.{◌≡◌, ◌≤◌, ◌==◌, [], ◌∷◌, ◌++◌, if◌then◌else◌};
ghost use Rattle.std.specs.Prelude.{Some, IfOk, OnOk};
ghost use Rattle.std.specs.List.Sorted.{IsStrictlyIncreasing};
ghost use Rattle.graph_theory.specs.Graph.{IsEdgeNumber, edge_of};
ghost use Rattle.graph_theory.specs.Parts.{holds, IsVertexSet};
ghost use Rattle.gadget_base.specs.Listed.{ListsCounts};
ghost use Rattle.mwpm_engine.specs.declared.outcome.Outcome.TheVariants.{Barrier};
ghost use Rattle.mwpm_engine.specs.Solutions.{mate_at, matching_of};

use mb_base::{EdgeId, OutOfMemory, VertexId};
use mwpm_engine::Engine;
use std::alloc::Global;
use weighted_graph::Graph;

/// Whether the matching has an edge: it is the edge at its first end.
fn is_matched(engine: &Engine, graph: &Graph, e: EdgeId) -> bool
    requires barrier { engine.now.outcome ≡ Some Barrier }
    requires same_graph { engine.now.graph ≡ graph.now }
    requires edge { IsEdgeNumber graph.now e }
    ensures { result ≡ (mate_at engine.now.mates (edge_of graph.now e).u == e) }
{
    let (u, _, _) = graph.edge(e);
    match engine.mate_of(u) {
        Some(mate) => mate.number() == e.number(),
        None => false,
    }
}

/// Puts an edge at the end where the matching has it.
fn push_matched(
    edges: &mut Vec<EdgeId>,
    engine: &Engine,
    graph: &Graph,
    e: EdgeId,
) -> Result<(), OutOfMemory>
    requires barrier { engine.now.outcome ≡ Some Barrier }
    requires same_graph { engine.now.graph ≡ graph.now }
    requires edge { IsEdgeNumber graph.now e }
    ensures { OnOk result (edges.new.items
        ≡ (if mate_at engine.now.mates (edge_of graph.now e).u == e
        then edges.old.items ++ e ∷ [] else edges.old.items)) }
{
    if !is_matched(engine, graph, e) {
        return Ok(());
    }
    edges.push(e)?;
    Ok(())
}

/// The edges of the greatest matching, ascending: each at its first end.
pub fn greatest_matching(
    alloc: Global,
    engine: &Engine,
    graph: &Graph,
) -> Result<Vec<EdgeId>, OutOfMemory>
    requires barrier { engine.now.outcome ≡ Some Barrier }
    requires same_graph { engine.now.graph ≡ graph.now }
    ensures counts { IfOk result (λ v. ListsCounts graph.now
        (matching_of graph.now engine.now.mates) v.items) }
    ensures ascending { IfOk result (λ v. IsStrictlyIncreasing v.items) }
{
    let mut edges = Vec::new(alloc);
    for place in 0..graph.edges() {
        push_matched(&mut edges, engine, graph, EdgeId::new(place + 1))?;
    }
    Ok(edges)
}

/// Puts a vertex at the end where it lies in an outer node.
fn push_outer(
    vertices: &mut Vec<VertexId>,
    engine: &Engine,
    vertex: VertexId,
) -> Result<(), OutOfMemory>
    requires barrier { engine.now.outcome ≡ Some Barrier }
    requires low { 1 ≤ vertex }
    requires high { vertex ≤ engine.now.graph.vertices }
    ensures { OnOk result (vertices.new.items ≡ (if holds engine.now.outer vertex
        then vertices.old.items ++ vertex ∷ [] else vertices.old.items)) }
{
    if !engine.in_outer(vertex) {
        return Ok(());
    }
    vertices.push(vertex)?;
    Ok(())
}

/// The vertices of outer nodes, ascending.
pub fn outer_vertices(
    alloc: Global,
    engine: &Engine,
    graph: &Graph,
) -> Result<Vec<VertexId>, OutOfMemory>
    requires barrier { engine.now.outcome ≡ Some Barrier }
    requires same_graph { engine.now.graph ≡ graph.now }
    requires set { IsVertexSet graph.now.vertices engine.now.outer }
    ensures { IfOk result (λ v. v.items ≡ engine.now.outer) }
{
    let mut vertices = Vec::new(alloc);
    for place in 0..graph.vertices() {
        push_outer(&mut vertices, engine, VertexId::new(place + 1))?;
    }
    Ok(vertices)
}

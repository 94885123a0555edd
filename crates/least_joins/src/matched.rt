ghost use Rattle.std.specs.Prelude.{◌≡◌, ◌==◌, if◌then◌else◌, [], ◌∷◌, ◌++◌, Some, IfOk, OnOk};
ghost use Rattle.std.specs.List.Sorted.{IsStrictlyIncreasing};
ghost use Rattle.graph_theory.specs.Graph.{IsEdgeNumber, edge_of};
ghost use Rattle.gadget_base.specs.Listed.{ListsCounts};
ghost use Rattle.mwpm_engine.specs.Solutions.{mate_at, matching_of};
ghost use Rattle.mwpm_engine.specs.declared.outcome.Outcome.TheVariants.{Matched};

use mb_base::{EdgeId, OutOfMemory};
use mwpm_engine::Engine;
use std::alloc::Global;
use weighted_graph::Graph;

/// Puts an edge at the end where the matching has it: it is the edge at its first end.
fn push_matched(
    edges: &mut Vec<EdgeId>,
    engine: &Engine,
    graph: &Graph,
    e: EdgeId,
) -> Result<(), OutOfMemory>
    requires matched { engine.now.outcome ≡ Some Matched }
    requires same_graph { engine.now.graph ≡ graph.now }
    requires edge { IsEdgeNumber graph.now e }
    ensures { OnOk result
        (edges.new.items
        ≡ (if mate_at engine.now.mates (edge_of graph.now e).u == e then edges.old.items ++ e ∷ []
        else edges.old.items)) }
{
    let (u, _, _) = graph.edge(e);
    if engine.mate(u).number() != e.number() {
        return Ok(());
    }
    edges.push(e)?;
    Ok(())
}

/// The edges of the perfect matching that was found, each once, ascending. It takes time linear in
/// the edges.
pub fn matching(alloc: Global, engine: &Engine, graph: &Graph) -> Result<Vec<EdgeId>, OutOfMemory>
    requires matched { engine.now.outcome ≡ Some Matched }
    requires same_graph { engine.now.graph ≡ graph.now }

    // The edges of the engine's perfect matching, each as often as the matching has it, ascending.
    ensures counts { IfOk result
        (λ v. ListsCounts graph.now (matching_of graph.now engine.now.mates) v.items) }
    ensures ascending { IfOk result (λ v. IsStrictlyIncreasing v.items) }
{
    let mut edges = Vec::new(alloc);
    for place in 0..graph.edges() {
        push_matched(&mut edges, engine, graph, EdgeId::new(place + 1))?;
    }
    Ok(edges)
}

ghost use Rattle.std.specs.Prelude.{◌≡◌, ◌≤◌, ◌+◌, ℕ, length, All, IfOk, OnOk};
ghost use Rattle.graph_theory.specs.Graph.{HasNoLoop, IsEdgeNumber, IsGraph};
ghost use Rattle.bottleneck.specs.Halving.{AreLight, chosen};

use mb_base::{EdgeId, OutOfMemory};
use std::alloc::Global;
use weighted_graph::Graph;

/// Puts an edge at the end, if it weighs at most so much.
fn push_light(
    numbers: &mut Vec<EdgeId>,
    graph: &Graph,
    most: i64,
    place: u32,
) -> Result<(), OutOfMemory>
    requires is_graph { IsGraph graph.now }
    requires edge { IsEdgeNumber graph.now (place + 1) }
    requires before { AreLight graph.now most place numbers.old.items }
    ensures { OnOk result (AreLight graph.now most (place + 1) numbers.new.items) }
{
    let number = EdgeId::new(place + 1);
    let (_, _, weight) = graph.edge(number);
    if weight > most {
        return Ok(());
    }
    numbers.push(number)?;
    Ok(())
}

/// The numbers of the edges that weigh at most so much.
pub fn light_edges(alloc: Global, graph: &Graph, most: i64) -> Result<Vec<EdgeId>, OutOfMemory>
    ensures { IfOk result (λ v. AreLight graph.now most (length graph.now.edges) v.items) }
{
    let mut numbers = Vec::new(alloc);
    for place in 0..graph.edges() {
        push_light(&mut numbers, graph, most, place)?;
    }
    Ok(numbers)
}

/// The graph of these edges, with all weights 0.
pub fn chosen_graph(alloc: Global, graph: &Graph, numbers: &[EdgeId]) -> Result<Graph, OutOfMemory>
    requires loopless { HasNoLoop graph.now }
    requires numbers { All (IsEdgeNumber graph.now) numbers.now }
    requires size_limit { length numbers.now ≤ length graph.now.edges }
    ensures graph { IfOk result (λ h. h ≡ chosen graph.now numbers.now) }
    ensures loopless { IfOk result HasNoLoop }
{
    let mut part = Graph::new(alloc, graph.vertices());
    for number in numbers {
        let (u, v, _) = graph.edge(*number);
        part.add(u, v, 0)?;
    }
    Ok(part)
}

ghost use Rattle.std.specs.Prelude.{◌≡◌, ℕ, ◌+◌, ◌<◌, ◌≤◌, ◌↔◌, pos, ◌<ℤ◌, length, All, IsTrue};
ghost use Rattle.std.specs.Prelude.{IfOk, OnOk};
ghost use Rattle.graph_theory.specs.Graph.{IsGraph, IsEdgeNumber};
ghost use Rattle.graph_theory.specs.Walk.{walk_weight};
ghost use Rattle.conservative_paths.specs.Trails.{KeepsOpen, Advances};

use crate::trail::Trail;
use mb_base::{EdgeId, OutOfMemory, VertexId};
use weighted_graph::Graph;

/// The weights of the edges, added up.
fn weight_of(graph: &Graph, edges: &[EdgeId]) -> i128
    requires { All (IsEdgeNumber graph.now) edges.now }
    ensures { result ≡ walk_weight graph.now edges.now }
{
    let mut total = 0;
    for edge in edges {
        total += i128::from(graph.edge(*edge).2);
    }
    total
}

/// Whether the edges weigh less than 0 together.
fn is_negative(graph: &Graph, edges: &[EdgeId]) -> bool
    requires { All (IsEdgeNumber graph.now) edges.now }
    ensures { IsTrue result ↔ (walk_weight graph.now edges.now <ℤ pos 0) }
{
    weight_of(graph, edges) < 0
}

/// Goes on over an edge, and cuts the path back where it comes to a vertex again.
pub(crate) fn go_on(
    graph: &Graph,
    trail: &mut Trail,
    edge: EdgeId,
    there: VertexId,
) -> Result<(), OutOfMemory>
    requires graph { IsGraph graph.now }
    requires room { there < length trail.old.place.items }
    ensures { OnOk result (KeepsOpen graph.now edge there trail.old trail.new) }
{
    let _ = graph;
    if let Some(place) = trail.follow(edge, there)? {
        trail.cut(place);
    }
    Ok(())
}

/// Goes on over an edge. Where the path comes to a vertex again it answers the place, if the
/// circuit from there weighs less than 0, and else cuts it off.
pub(crate) fn go_on_or_close(
    graph: &Graph,
    trail: &mut Trail,
    edge: EdgeId,
    there: VertexId,
) -> Result<Option<usize>, OutOfMemory>
    requires graph { IsGraph graph.now }
    requires room { there < length trail.old.place.items }
    requires number { IsEdgeNumber graph.now edge }
    requires numbers { All (IsEdgeNumber graph.now) trail.old.edges.items }
    requires listed { length trail.old.vertices.items ≤ length trail.old.edges.items + 1 }
    ensures { IfOk result (Advances graph.now edge there trail.old trail.new) }
{
    let Some(place) = trail.follow(edge, there)? else {
        return Ok(None);
    };
    if is_negative(graph, trail.since(place)) {
        return Ok(Some(place));
    }
    trail.cut(place);
    Ok(None)
}

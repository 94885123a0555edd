ghost use Rattle.std.specs.Prelude.{◌≡◌, ◌≤◌, length, true, None, IsTrue, IfOk};
ghost use Rattle.graph_theory.specs.Graph.{IsWeight};
ghost use Rattle.mb_problem.specs.Network.{IsInstanceEdge, vertices};
ghost use Rattle.alt_forest.specs.declared.weights.Weights.TheVariants.{Given};
ghost use Rattle.alt_forest.specs.Searches.{IsStart};

use graph_theory::WEIGHT_LIMIT;
use mb_base::{EdgeId, OutOfMemory, VertexId};
use mb_problem::{Instance, VERTEX_LIMIT};
use std::alloc::Global;
use std::process::Abort;
use weighted_graph::Graph;

/// Whether an edge can be one of the instance, and isn't a loop.
pub fn is_edge(instance: &Instance, u: u32, v: u32, w: i64) -> bool
    ensures { IsTrue result
        → IsInstanceEdge (vertices instance.now) (record { u = u; v = v; w = w; capacity = None }) }
{
    let n = instance.vertices();
    if u < 1 || n < u {
        return false;
    }
    if v < 1 || n < v {
        return false;
    }
    if w < -WEIGHT_LIMIT || WEIGHT_LIMIT < w {
        return false;
    }
    u != v
}

/// Adds an edge to an instance of fewer than 20.
fn add(
    rt: &impl Abort,
    instance: &mut Instance,
    edge: &(u32, u32, i64),
) -> Result<(), OutOfMemory> {
    let (u, v, w) = *edge;
    assert!(rt; instance.edges() < 20);
    assert!(rt; is_edge(instance, u, v, w));
    instance.add_edge(VertexId::new(u), VertexId::new(v), w, None)?;
    Ok(())
}

/// The instance of so many vertices and these edges, of which there are at most 20.
pub fn instance_of(
    rt: &impl Abort,
    alloc: Global,
    vertices: u32,
    edges: &[(u32, u32, i64)],
) -> Result<Instance, OutOfMemory>
    ensures { IfOk result (λ i. length i.edges ≤ 20) }
{
    assert!(rt; vertices <= VERTEX_LIMIT);
    let mut instance = Instance::new(alloc, vertices, 1)?;
    for edge in edges {
        add(rt, &mut instance, edge)?;
    }
    assert!(rt; instance.edges() <= 20);
    Ok(instance)
}

/// Whether this is a weight, and no weight of an edge is below it.
pub fn can_start(graph: &Graph, start: i64) -> bool
    ensures { result ≡ true → IsStart graph.now Given start }
{
    if start < -WEIGHT_LIMIT || WEIGHT_LIMIT < start {
        return false;
    }
    is_least(graph, start)
}

/// Whether no weight of an edge is below a start.
fn is_least(graph: &Graph, start: i64) -> bool
    requires { IsWeight start }
    ensures { result ≡ true → IsStart graph.now Given start }
{
    for place in 0..graph.edges() {
        let (_, _, w) = graph.edge(EdgeId::new(place + 1));
        if w < start {
            return false;
        }
    }
    true
}

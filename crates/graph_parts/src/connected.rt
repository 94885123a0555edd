ghost use Rattle.std.specs.Prelude.{◌≡◌, ℕ, ◌+◌, ◌<◌, ◌↔◌, true, length, IsTrue, IfOk};
ghost use Rattle.graph_theory.specs.Graph.{edge_at};
ghost use Rattle.graph_parts.specs.Marks.{is_marked};
ghost use Rattle.graph_parts.specs.Connected.{HasConnectedEdges};

use crate::components::mark_component;
use mb_base::{EdgeId, OutOfMemory};
use std::alloc::Global;
use weighted_graph::Graph;

/// Whether each edge has a marked end `u`.
fn are_marked(graph: &Graph, marks: &[bool]) -> bool
    requires { length marks.now ≡ graph.now.vertices + 1 }
    ensures { IsTrue result ↔ ((k : ℕ) → k < length graph.now.edges
        → is_marked marks.now (edge_at graph.now k).u ≡ true) }
{
    for edge in graph.edge_list() {
        if !marks[edge.u.number() as usize] {
            return false;
        }
    }
    true
}

/// Whether all edges lie in one component, as they do if there are none. It takes time linear in
/// vertices and edges.
///
/// # Errors
///
/// `OutOfMemory` if an allocation fails.
pub fn edge_connected(alloc: Global, graph: &Graph) -> Result<bool, OutOfMemory>
    // Whether all edges lie in one component.
    ensures exact { IfOk result (λ answer. (answer ≡ true) ↔ HasConnectedEdges graph.now) }
{
    if graph.edges() == 0 {
        return Ok(true);
    }
    let (first, _, _) = graph.edge(EdgeId::new(1));
    let marks = mark_component(alloc, graph, first)?;
    Ok(are_marked(graph, &marks))
}

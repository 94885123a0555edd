ghost use Rattle.std.specs.Prelude.{◌≡◌, ℕ, ◌+◌, ◌≤◌, ◌↔◌, true, [], length, IfOk};
ghost use Rattle.graph_theory.specs.Graph.{IsGraph};
ghost use Rattle.graph_theory.specs.Parts.{holds};
ghost use Rattle.graph_theory.specs.Barrier.{AreTogether, IsComponent};
ghost use Rattle.graph_parts.specs.Marks.{is_marked};

use crate::marks::{list_marked, no_marks};
use crate::search::search;
use mb_base::{OutOfMemory, VertexId};
use std::alloc::Global;
use weighted_graph::Graph;

/// Marks the component of a vertex, in time linear in vertices and edges.
pub(crate) fn mark_component(
    alloc: Global,
    graph: &Graph,
    v: VertexId,
) -> Result<Vec<bool>, OutOfMemory>
    requires low { 1 ≤ v }
    requires high { v ≤ graph.now.vertices }
    ensures size { IfOk result (λ marks. length marks.items ≡ graph.now.vertices + 1) }
    ensures exact { IfOk result (λ marks. (w : ℕ) → (is_marked marks.items w ≡ true)
        ↔ AreTogether graph.now [] v w) }
    ensures graph { IsGraph graph.now }
{
    let places = graph.vertices() as usize + 1;
    let removed = no_marks(alloc, places)?;
    let mut marks = no_marks(alloc, places)?;
    let index = graph.index()?;
    let mut reached = Vec::new(alloc);
    let mut links = Vec::new(alloc);
    search(
        graph,
        &index,
        &removed,
        v,
        &mut marks,
        &mut reached,
        &mut links,
    )?;
    Ok(marks)
}

/// The component of a vertex, ascending: the vertex, and all that walks join with it. It takes time
/// linear in vertices and edges.
pub fn component(alloc: Global, graph: &Graph, v: VertexId) -> Result<Vec<VertexId>, OutOfMemory>
    requires low { 1 ≤ v }
    requires high { v ≤ graph.now.vertices }

    // Exactly the vertices that are connected to the start.
    ensures component { IfOk result (λ c. IsComponent graph.now [] c.items) }
    ensures start { IfOk result (λ c. holds c.items v ≡ true) }
    ensures graph { IsGraph graph.now }
{
    let marks = mark_component(alloc, graph, v)?;
    let component = list_marked(alloc, &marks)?;
    Ok(component)
}

ghost use Rattle.std.specs.Prelude.{◌≡◌, ◌≤◌, [], ◌∷◌, ◌++◌, if◌then◌else◌, Some, IfOk, OnOk};
ghost use Rattle.graph_theory.specs.Parts.{holds, IsVertexSet};
ghost use Rattle.mwpm_engine.specs.declared.outcome.Outcome.TheVariants.{Barrier};

use mb_base::{OutOfMemory, VertexId};
use mwpm_engine::Engine;
use std::alloc::Global;
use weighted_graph::Graph;

/// Puts a vertex at the end where the barrier has it.
fn push_vertex(
    vertices: &mut Vec<VertexId>,
    engine: &Engine,
    vertex: VertexId,
) -> Result<(), OutOfMemory>
    requires barrier { engine.now.outcome ≡ Some Barrier }
    requires low { 1 ≤ vertex }
    requires high { vertex ≤ engine.now.graph.vertices }
    ensures { OnOk result (vertices.new.items ≡ (if holds engine.now.barrier vertex
        then vertices.old.items ++ vertex ∷ [] else vertices.old.items)) }
{
    if !engine.in_barrier(vertex) {
        return Ok(());
    }
    vertices.push(vertex)?;
    Ok(())
}

/// The vertices of the barrier, ascending, in time linear in the vertices.
pub fn barrier_vertices(
    alloc: Global,
    engine: &Engine,
    graph: &Graph,
) -> Result<Vec<VertexId>, OutOfMemory>
    requires barrier { engine.now.outcome ≡ Some Barrier }
    requires same_graph { engine.now.graph ≡ graph.now }
    requires set { IsVertexSet graph.now.vertices engine.now.barrier }

    // The vertices of the engine's barrier, ascending.
    ensures { IfOk result (λ v. v.items ≡ engine.now.barrier) }
{
    let mut vertices = Vec::new(alloc);
    for place in 0..graph.vertices() {
        push_vertex(&mut vertices, engine, VertexId::new(place + 1))?;
    }
    Ok(vertices)
}

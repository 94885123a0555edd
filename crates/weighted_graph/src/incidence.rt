ghost use Rattle.std.specs.Prelude.{◌≡◌, ℕ, ◌*◌, ◌<◌, ◌≤◌, ◌^◌, ◌++◌, length, All, IfOk, OnOk};
ghost use Rattle.graph_theory.specs.Graph.{Multigraph, IsEdgeWithin, edges_around};
ghost use Rattle.weighted_graph.specs.Grouped.{items_of};
ghost use Rattle.weighted_graph.specs.Index.{noted};

use crate::by_vertex::ByVertex;
use base_types::{EdgeId, OutOfMemory, VertexId};
use graph_theory::Edge;
use std::alloc::Global;
use std::marker::Model;

/// Puts the number of an edge beside each of its ends, beside that of a loop once.
fn note(
    entries: &mut Vec<(VertexId, EdgeId)>,
    edge: &Edge,
    number: EdgeId,
) -> Result<(), OutOfMemory>
    ensures { OnOk result (entries.new.items ≡ entries.old.items ++ noted edge.now number) }
{
    entries.push((edge.u, number))?;
    if edge.u != edge.v {
        entries.push((edge.v, number))?;
    }
    Ok(())
}

/// The numbers of the edges beside their ends, in their order.
fn ends_of(
    alloc: Global,
    vertices: u32,
    edges: &[Edge],
) -> Result<Vec<(VertexId, EdgeId)>, OutOfMemory>
    requires size_limit { length edges.now < 2 ^ 32 }
    requires ends { All (IsEdgeWithin vertices) edges.now }
    ensures size { IfOk result (λ entries. length entries.items ≤ 2 * length edges.now) }
    ensures within { IfOk result (λ entries. All (λ e. e.0 ≤ vertices) entries.items) }
    ensures exact { IfOk result (λ entries. (v : ℕ) → items_of entries.items v
        ≡ edges_around (record { vertices = vertices; edges = edges.now }) v) }
{
    let mut entries = Vec::with_capacity(alloc, 2 * edges.len())?;
    for (place, edge) in edges.iter().enumerate() {
        let number = EdgeId::new(place as u32 + 1);
        note(&mut entries, edge, number)?;
    }
    Ok(entries)
}

/// For each vertex of a graph the numbers of its edges, ascending. Contracts see the list of these
/// lists, with an empty one at place 0, which isn't a vertex.
#[derive(Drop)]
pub struct Incidence {
    lists: ByVertex<EdgeId>,
}

impl Model for Incidence {
    ghost use Rattle.std.specs.Prelude.{ℕ, List};

    ghost Value = { List (List ℕ) };

    ghost view = { λ i. i.lists };
}

impl Incidence {
    ghost use Rattle.std.specs.Prelude.{◌≡◌, ◌<◌, ◌^◌, [], length, slice_index_or, IfOk, All};
    ghost use Rattle.graph_theory.specs.Graph.{Multigraph, IsEdgeWithin};
    ghost use Rattle.weighted_graph.specs.Index.{IsIndex};

    /// The index of a graph with this many vertices and these edges.
    pub fn of(alloc: Global, vertices: u32, edges: &[Edge]) -> Result<Self, OutOfMemory>
        requires size_limit { length edges.now < 2 ^ 32 }
        requires few_vertices { vertices < 2 ^ 32 }
        requires ends { All (IsEdgeWithin vertices) edges.now }
        ensures { IfOk result (IsIndex (record { vertices = vertices; edges = edges.now })) }
    {
        let entries = ends_of(alloc, vertices, edges)?;
        let lists = ByVertex::of(alloc, vertices, &entries)?;
        Ok(Incidence { lists })
    }

    /// The numbers of the edges at a vertex, ascending, in constant time.
    pub fn at(&self, v: VertexId) -> &[EdgeId]
        requires { v < length self.now }

        // The edges at a vertex, ascending, each with its other end.
        ensures { result.now ≡ slice_index_or self.now v [] }
    {
        self.lists.at(v)
    }
}

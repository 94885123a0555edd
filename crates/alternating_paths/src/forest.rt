use crate::growing::{far_end, grow_all};
use crate::label::{Label, free_labels, label_at, set_label};
use crate::tracing::trace;
use mb_base::{EdgeId, OutOfMemory, VertexId};
use std::alloc::Global;
use weighted_graph::Graph;

/// The forest of a search for alternating paths from the vertices that a matching misses. If the
/// matching is maximum, each vertex that some maximum matching misses has a path of even length in
/// it; no contract says so, and whoever uses a path tests it.
#[derive(Drop)]
pub struct Forest {
    alloc: Global,
    labels: Vec<Label>,
}

/// Notes an edge of the matching at one of its ends.
fn match_end(labels: &mut [Label], edge: EdgeId, vertex: VertexId, partner: VertexId) {
    let mut label = label_at(labels, vertex);
    label.mate = edge;
    label.partner = partner;
    set_label(labels, vertex, label);
}

/// Notes the edges of the matching.
fn match_all(labels: &mut [Label], graph: &Graph, matching: &[EdgeId]) {
    for edge in matching {
        let one = far_end(graph, *edge, VertexId::new(0));
        let other = far_end(graph, *edge, one);
        match_end(labels, *edge, one, other);
        match_end(labels, *edge, other, one);
    }
}

impl Forest {
    /// The forest of a matching of a graph, whose edges may be loops. It takes time almost linear
    /// in vertices and edges.
    ///
    /// # Errors
    ///
    /// `OutOfMemory` if an allocation fails.
    pub fn of(alloc: Global, graph: &Graph, matching: &[EdgeId]) -> Result<Self, OutOfMemory> {
        let mut labels = free_labels(alloc, graph.vertices())?;
        match_all(&mut labels, graph, matching);
        let index = graph.index()?;
        grow_all(alloc, graph, &index, &mut labels)?;
        Ok(Forest { alloc, labels })
    }

    /// A guess of an even path from an outer vertex to a root, in time linear in its edges.
    ///
    /// # Errors
    ///
    /// `OutOfMemory` if an allocation fails.
    pub fn path(&self, vertex: VertexId) -> Result<Vec<EdgeId>, OutOfMemory> {
        trace(self.alloc, &self.labels, vertex)
    }
}

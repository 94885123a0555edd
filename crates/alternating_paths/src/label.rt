//! What a search knows of each vertex. A vertex that isn't in the table has the label of no vertex,
//! so a search needs to know nothing of the graph.
use mb_base::{EdgeId, OutOfMemory, VertexId};
use std::alloc::Global;

/// On which side of its tree a vertex is: an inner vertex of an odd cycle becomes outer as well,
/// and is turned then.
#[derive(Clone, Copy)]
pub(crate) enum Side {
    Free,
    Inner,
    Outer,
    Turned,
}

/// The label of a vertex; 0 stands for no vertex and no edge.
#[derive(Clone, Copy)]
pub(crate) struct Label {
    pub side: Side,
    /// The edge of the matching, and its other end.
    pub mate: EdgeId,
    pub partner: VertexId,
    /// Of an inner vertex the edge to its parent, and that.
    pub edge: EdgeId,
    pub parent: VertexId,
    /// Of a turned vertex the edge that closed the odd cycle, with the end on the vertex' side.
    pub bridge: EdgeId,
    pub near: VertexId,
    pub far: VertexId,
    /// A vertex nearer to the base of the outermost odd cycle.
    pub base: VertexId,
    /// The edge for which a common base was last sought here.
    pub stamp: EdgeId,
}

/// The label of a vertex without edges.
pub(crate) fn free_label(base: VertexId) -> Label {
    let none = VertexId::new(0);
    let no_edge = EdgeId::new(0);
    Label {
        side: Side::Free,
        mate: no_edge,
        partner: none,
        edge: no_edge,
        parent: none,
        bridge: no_edge,
        near: none,
        far: none,
        base,
        stamp: no_edge,
    }
}

/// The label of a vertex.
pub(crate) fn label_at(labels: &[Label], vertex: VertexId) -> Label {
    let place = vertex.number() as usize;
    if place < labels.len() {
        labels[place]
    } else {
        free_label(VertexId::new(0))
    }
}

/// Changes the label of a vertex.
pub(crate) fn set_label(labels: &mut [Label], vertex: VertexId, label: Label) {
    let place = vertex.number() as usize;
    if place < labels.len() {
        labels[place] = label;
    }
}

/// The labels of vertices without edges. Place 0 isn't a vertex.
pub(crate) fn free_labels(alloc: Global, count: u32) -> Result<Vec<Label>, OutOfMemory> {
    let places = count as usize + 1;
    let mut labels = Vec::with_capacity(alloc, places)?;
    for number in 0..count {
        labels.push(free_label(VertexId::new(number)))?;
    }
    labels.push(free_label(VertexId::new(count)))?;
    Ok(labels)
}

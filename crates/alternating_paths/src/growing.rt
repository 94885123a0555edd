//! A breadth-first search for alternating paths from all missed vertices at once, which shrinks odd
//! cycles (Edmonds; Schrijver, Combinatorial Optimization, volume A, chapter 24).
ghost use Rattle.weighted_graph.specs.Index.{IsIndex};

use crate::bases::{base_of, common_base, set_base};
use crate::label::{Label, Side, label_at, set_label};
use mb_base::{EdgeId, OutOfMemory, VertexId};
use std::alloc::Global;
use weighted_graph::{Graph, Incidence};

/// The other end of an edge, or the vertex itself if there is no such edge.
pub(crate) fn far_end(graph: &Graph, edge: EdgeId, vertex: VertexId) -> VertexId {
    if edge.number() < 1 {
        return vertex;
    }
    if edge.number() > graph.edges() {
        return vertex;
    }
    graph.other_end(edge, vertex)
}

/// Puts a vertex on a side of its tree.
fn set_side(labels: &mut [Label], vertex: VertexId, side: Side) {
    let place = vertex.number() as usize;
    if place < labels.len() {
        labels[place].side = side;
    }
}

/// Adds a vertex and its partner to the tree of an outer vertex.
fn grow(
    labels: &mut [Label],
    queue: &mut Vec<VertexId>,
    edge: EdgeId,
    parent: VertexId,
    vertex: VertexId,
) -> Result<(), OutOfMemory> {
    let mut inner = label_at(labels, vertex);
    let partner = inner.partner;
    inner.side = Side::Inner;
    inner.edge = edge;
    inner.parent = parent;
    set_label(labels, vertex, inner);
    set_side(labels, partner, Side::Outer);
    queue.push(partner)?;
    Ok(())
}

/// The edge that closes an odd cycle, with the end on one side of it, and the cycle's base.
#[derive(Clone, Copy)]
struct Bridge {
    edge: EdgeId,
    near: VertexId,
    far: VertexId,
    base: VertexId,
}

/// The label of a vertex in an odd cycle: an inner one is turned.
fn shrunk_label(label: Label, bridge: Bridge) -> Label {
    let mut shrunk = label;
    shrunk.base = bridge.base;
    if let Side::Inner = label.side {
        shrunk.side = Side::Turned;
        shrunk.bridge = bridge.edge;
        shrunk.near = bridge.near;
        shrunk.far = bridge.far;
    }
    shrunk
}

/// Turns an inner vertex, which an odd cycle reaches from its other side.
fn turn(
    labels: &mut [Label],
    queue: &mut Vec<VertexId>,
    vertex: VertexId,
    bridge: Bridge,
) -> Result<(), OutOfMemory> {
    let label = label_at(labels, vertex);
    let side = label.side;
    set_label(labels, vertex, shrunk_label(label, bridge));
    if let Side::Inner = side {
        queue.push(vertex)?;
    }
    Ok(())
}

/// Shrinks one side of an odd cycle: the way from the end of its bridge to its base.
fn shrink_side(
    labels: &mut [Label],
    queue: &mut Vec<VertexId>,
    bridge: Bridge,
) -> Result<(), OutOfMemory> {
    let mut at = base_of(labels, bridge.near);
    for _ in 0..labels.len() {
        if at == bridge.base {
            return Ok(());
        }
        let inner = label_at(labels, at).partner;
        set_base(labels, at, bridge.base);
        turn(labels, queue, inner, bridge)?;
        let parent = label_at(labels, inner).parent;
        at = base_of(labels, parent);
    }
    Ok(())
}

/// Shrinks the odd cycle that an edge between two outer vertices closes.
fn shrink(
    labels: &mut [Label],
    queue: &mut Vec<VertexId>,
    edge: EdgeId,
    near: VertexId,
    far: VertexId,
) -> Result<(), OutOfMemory> {
    let one = base_of(labels, near);
    let other = base_of(labels, far);
    if one == other {
        return Ok(());
    }
    let base = common_base(labels, one, other, edge);
    if base.number() == 0 {
        return Ok(());
    }
    let bridge = Bridge {
        edge,
        near,
        far,
        base,
    };
    let back = Bridge {
        edge,
        near: far,
        far: near,
        base,
    };
    shrink_side(labels, queue, bridge)?;
    shrink_side(labels, queue, back)
}

/// What an edge at an outer vertex leads to: a vertex of no tree, which the tree grows by, or an
/// outer one, with which it closes an odd cycle.
fn follow(
    graph: &Graph,
    labels: &mut [Label],
    queue: &mut Vec<VertexId>,
    edge: EdgeId,
    from: VertexId,
) -> Result<(), OutOfMemory> {
    let to = far_end(graph, edge, from);
    match label_at(labels, to).side {
        Side::Free => grow(labels, queue, edge, from, to),
        Side::Inner => Ok(()),
        Side::Outer => shrink(labels, queue, edge, from, to),
        Side::Turned => shrink(labels, queue, edge, from, to),
    }
}

/// Follows all edges at an outer vertex.
fn scan(
    graph: &Graph,
    edges: &[EdgeId],
    labels: &mut [Label],
    queue: &mut Vec<VertexId>,
    vertex: VertexId,
) -> Result<(), OutOfMemory> {
    for edge in edges {
        follow(graph, labels, queue, *edge, vertex)?;
    }
    Ok(())
}

/// Makes a vertex a root if it has no mate.
fn push_root(
    labels: &mut [Label],
    queue: &mut Vec<VertexId>,
    vertex: VertexId,
) -> Result<(), OutOfMemory> {
    if label_at(labels, vertex).mate.number() != 0 {
        return Ok(());
    }
    set_side(labels, vertex, Side::Outer);
    queue.push(vertex)?;
    Ok(())
}

/// Makes each vertex without a mate a root, and answers them.
fn roots(alloc: Global, count: u32, labels: &mut [Label]) -> Result<Vec<VertexId>, OutOfMemory> {
    let mut queue = Vec::new(alloc);
    for number in 0..count {
        push_root(labels, &mut queue, VertexId::new(number + 1))?;
    }
    Ok(queue)
}

/// Searches from all roots, breadth first. Each vertex is followed from once.
pub(crate) fn grow_all(
    alloc: Global,
    graph: &Graph,
    index: &Incidence,
    labels: &mut [Label],
) -> Result<(), OutOfMemory>
    requires { IsIndex graph.now index.now }
{
    let mut queue = roots(alloc, graph.vertices(), labels)?;
    for turn in 0..labels.len() {
        if turn >= queue.len() {
            return Ok(());
        }
        let vertex = queue[turn];
        if vertex.number() <= graph.vertices() {
            scan(graph, index.at(vertex), labels, &mut queue, vertex)?;
        }
    }
    Ok(())
}

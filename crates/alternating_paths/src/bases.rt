//! The outermost odd cycle that holds a vertex, by its base.
use crate::label::{Label, label_at};
use mb_base::{EdgeId, VertexId};

/// Puts a vertex nearer to the base of its odd cycle.
pub(crate) fn set_base(labels: &mut [Label], vertex: VertexId, base: VertexId) {
    let place = vertex.number() as usize;
    if place < labels.len() {
        labels[place].base = base;
    }
}

/// The base of the outermost odd cycle that holds a vertex, or the vertex itself if none does. The
/// way there gets half as long.
pub(crate) fn base_of(labels: &mut [Label], vertex: VertexId) -> VertexId {
    let mut at = vertex;
    for _ in 0..labels.len() {
        let next = label_at(labels, at).base;
        if next == at {
            return at;
        }
        let base = label_at(labels, next).base;
        set_base(labels, at, base);
        at = base;
    }
    at
}

/// The base from which the tree goes on towards its root; 0 at the root.
pub(crate) fn base_above(labels: &mut [Label], base: VertexId) -> VertexId {
    let partner = label_at(labels, base).partner;
    let parent = label_at(labels, partner).parent;
    base_of(labels, parent)
}

/// Whether a base has been met for this edge; if not, it is met now.
fn is_met(labels: &mut [Label], base: VertexId, edge: EdgeId) -> bool {
    let place = base.number() as usize;
    if place >= labels.len() {
        return false;
    }
    if labels[place].stamp == edge {
        return true;
    }
    labels[place].stamp = edge;
    false
}

/// The first base that the ways from two bases to their roots have in common; 0 if there is none.
/// The ways are followed in turn.
pub(crate) fn common_base(
    labels: &mut [Label],
    one: VertexId,
    other: VertexId,
    edge: EdgeId,
) -> VertexId {
    let none = VertexId::new(0);
    let mut here = one;
    let mut there = other;
    for _ in 0..2 * labels.len() {
        if here != none {
            if is_met(labels, here, edge) {
                return here;
            }
            here = base_above(labels, here);
        }
        let next = there;
        there = here;
        here = next;
    }
    none
}

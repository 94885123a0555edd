use mb_base::{EdgeId, Sequence, VertexId};

/// What one search finds: a greatest matching, ascending; the vertices that some greatest matching
/// misses, and their neighbours outside, both ascending; and for each of the first in turn a path
/// from it, along the matching and outside it in turn, to a vertex that the matching misses.
#[derive(Drop)]
pub struct Decomposition {
    pub matching: Sequence<EdgeId>,
    pub d: Sequence<VertexId>,
    pub a: Sequence<VertexId>,
    pub paths: Sequence<(VertexId, Sequence<EdgeId>)>,
}

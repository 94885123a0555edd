use mb_base::{EdgeId, Sequence, VertexId};

/// What halving over the weights has found.
#[derive(Drop)]
pub enum Bottleneck {
    /// A perfect matching that minimises the largest edge weight: its weight, or 0 without
    /// vertices; the matching as numbers of edges of the graph without loops; and a barrier of that
    /// graph with its lighter edges alone.
    Best {
        weight: i64,
        matching: Sequence<EdgeId>,
        barrier: Sequence<VertexId>,
    },
    /// There is no perfect matching, as this barrier shows.
    Unmatched {
        barrier: Sequence<VertexId>,
    },
}

use mb_base::{EdgeId, Sequence, VertexId};

/// An answer to an instance. Whether it is feasible depends on the kind.
#[derive(Drop)]
pub enum Answer {
    /// How often each edge is used, one count per edge.
    Counts(Sequence<u32>),
    /// A walk: where it starts, and its edges in order.
    Walk {
        start: VertexId,
        edges: Sequence<EdgeId>,
    },
    /// The empty walk.
    Nothing,
}

/// A set of edges, ascending.
#[derive(Drop)]
pub struct Join {
    pub edges: Sequence<EdgeId>,
}

/// At which vertices a join has odd degree.
#[derive(Clone, Copy)]
pub enum Parity {
    /// At none.
    Empty,
    /// At those whose value is odd.
    Values,
    /// At those that an odd number of edges meets.
    OddDegrees,
}

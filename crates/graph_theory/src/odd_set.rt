use base_types::{Sequence, VertexId};

/// An odd set of vertices with its dual, as a certificate gives it: its members are the vertices
/// and those of the sets that are referred to, each by its place, from 1, in the list of sets.
#[derive(Drop)]
pub struct OddSet {
    pub dual: i64,
    pub vertices: Sequence<VertexId>,
    pub references: Sequence<u32>,
}

use base_types::VertexId;

/// An edge between `u` and `v` of weight `w`.
#[derive(Clone, Copy)]
pub struct Edge {
    pub u: VertexId,
    pub v: VertexId,
    pub w: i64,
}

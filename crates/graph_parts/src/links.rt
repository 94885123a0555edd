use mb_base::{EdgeId, VertexId};

/// An edge of a tree, and the end that it leads to.
#[derive(Clone, Copy)]
pub(crate) struct Link {
    pub(crate) edge: EdgeId,
    pub(crate) to: VertexId,
}

use base_types::{EdgeId, NodeId};

/// What can have a moment: an edge or the node of a blossom.
#[derive(Clone, Copy)]
pub enum Item {
    Edge(EdgeId),
    Blossom(NodeId),
}

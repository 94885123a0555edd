use base_types::EdgeId;
use blossom_arena::NodeId;

/// What can happen to a search: a tree grows by an edge, a blossom is shrunk by an edge, the
/// matching is augmented by an edge, or a blossom is expanded.
#[derive(Clone, Copy)]
pub enum Event {
    Grow(EdgeId),
    Shrink(EdgeId),
    Augment(EdgeId),
    Expand(NodeId),
}

/// What comes next, with the least change of duals that makes it possible; or that no change makes
/// anything possible.
#[derive(Clone, Copy)]
pub enum Next {
    Grow(EdgeId, i128),
    Shrink(EdgeId, i128),
    Augment(EdgeId, i128),
    Expand(NodeId, i128),
    Stuck,
}

ghost use Rattle.std.specs.Prelude.{◌≡◌, Some, IsSome};
ghost use Rattle.graph_theory.specs.Graph.{IsEdgeNumber};
ghost use Rattle.alt_forest.specs.State.{IsOutermost};
ghost use Rattle.alt_forest.specs.Searches.{HasShape, state_of, edge_in};
ghost use Rattle.alt_forest.specs.Ways.{HasGrandparentLink, IsRead};

use crate::path::other_node;
use crate::search::Search;
use crate::tables::edge_for;
use base_types::EdgeId;
use blossom_arena::NodeId;

/// The way up from an outer node that isn't a root to the next outer one: by its mate to an inner
/// node, and from that one by its parent.
#[derive(Clone, Copy)]
pub struct GrandparentLink {
    pub mate: EdgeId,
    pub inner: NodeId,
    pub parent: EdgeId,
    pub outer: NodeId,
}

/// The edge that is kept, if there is one.
fn kept(edge: Option<EdgeId>) -> EdgeId
    requires { IsSome edge }
    ensures { edge ≡ Some result }
{
    match edge {
        Some(e) => e,
        None => unreachable!(),
    }
}

impl Search {
    /// The way up by a node's mate and by the parent of that mate (chapter 24). The lists may be
    /// those of a search whose mates are being changed. It counts no step and takes no memory.
    pub fn hop(&self, node: NodeId) -> GrandparentLink
        requires shape { HasShape self.now }
        requires outermost { IsOutermost (state_of self.now) node }
        requires hop { HasGrandparentLink (state_of self.now) node }
        ensures hop { IsRead (state_of self.now) node result }
    {
        let mate = kept(edge_for(&self.mates, node.number()));
        let inner = other_node(self, mate, node.number());
        let parent = kept(edge_for(&self.parents, inner));
        let outer = other_node(self, parent, inner);
        GrandparentLink {
            mate,
            inner: NodeId::new(inner),
            parent,
            outer: NodeId::new(outer),
        }
    }
}

ghost use Rattle.std.specs.Prelude.{◌≡◌, ◌↔◌, true, None};
ghost use Rattle.blossom_arena.specs.Family.{is_vertex};
ghost use Rattle.alt_forest.specs.State.{IsExposed};
ghost use Rattle.alt_forest.specs.Searches.{IsSound, edge_in, state_of};
ghost use Rattle.search_start.specs.Starts.{IsBegun};

use alt_forest::Search;
use base_types::VertexId;
use blossom_arena::NodeId;

/// Whether this is an outermost node without a mate. Any number may be asked for.
pub fn is_exposed(search: &Search, node: NodeId) -> bool
    requires sound { IsSound search.now }
    ensures { (result ≡ true) ↔ IsExposed (state_of search.now) node }
{
    if !search.arena.is_node(node) {
        return false;
    }
    if !search.arena.is_outermost(node) {
        return false;
    }
    search.mate(node).is_none()
}

/// Whether a vertex has no mate, if no blossom stands: it is outermost.
pub(crate) fn is_free(search: &Search, v: VertexId) -> bool
    requires sound { IsSound search.now }
    requires started { IsBegun (state_of search.now) search.now.start }
    requires vertex { is_vertex search.now.graph.vertices v ≡ true }
    ensures { (result ≡ true) ↔ (edge_in search.now.mates.items v ≡ None) }
{
    search.mate(NodeId::new(v.number())).is_none()
}

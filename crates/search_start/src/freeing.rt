ghost use Rattle.std.specs.Prelude.{◌≡◌, ℕ, true, vec_len};
ghost use Rattle.graph_theory.specs.Graph.{IsEdgeNumber, edge_of};
ghost use Rattle.blossom_arena.specs.Family.{is_vertex};
ghost use Rattle.alt_forest.specs.State.{IsExposed};
ghost use Rattle.alt_forest.specs.Searches.{HasShape, IsSound, edge_in, put, state_of};
ghost use Rattle.search_start.specs.Starts.{IsBegun};

use alt_forest::{Search, set_edge};
use base_types::{EdgeId, VertexId};
use blossom_arena::NodeId;

/// Keeps the same mate, or none, for the two ends of an edge.
pub(crate) fn set_ends(search: &mut Search, e: EdgeId, mate: &Option<EdgeId>)
    requires shape { HasShape search.old }
    requires edge { IsEdgeNumber search.old.graph e }
    ensures mates { edge_in search.new.mates.items
        ≡ put (put (edge_in search.old.mates.items) (edge_of search.old.graph e).u mate.now)
        (edge_of search.old.graph e).v mate.now }
    ensures len { vec_len search.new.mates ≡ vec_len search.old.mates }
    ensures frame { search.new ≡ record search.old { mates = search.new.mates } }
{
    let (u, v, _) = search.graph.edge(e);
    set_edge(&mut search.mates, NodeId::new(u.number()), *mate);
    set_edge(&mut search.mates, NodeId::new(v.number()), *mate);
}

/// Takes the edge out of the matching by which a vertex is matched, if it is.
pub(crate) fn free(search: &mut Search, v: VertexId)
    requires sound { IsSound search.old }
    requires started { IsBegun (state_of search.old) search.old.start }
    requires vertex { is_vertex search.old.graph.vertices v ≡ true }
    ensures sound { IsSound search.new }
    ensures started { IsBegun (state_of search.new) search.new.start }
    ensures exposed { IsExposed (state_of search.new) v }
    ensures others { (a : ℕ) → IsExposed (state_of search.old) a
        → IsExposed (state_of search.new) a }
    ensures frame { search.new ≡ record search.old { mates = search.new.mates } }
{
    let Some(e) = search.mate(NodeId::new(v.number())) else {
        return;
    };
    set_ends(search, e, &None);
}

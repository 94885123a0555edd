ghost use Rattle.std.specs.Prelude.{◌≡◌, ◌+ℤ◌, true};
ghost use Rattle.blossom_arena.specs.Family.{dual_at, is_vertex};
ghost use Rattle.alt_forest.specs.Searches.{IsSound, put, state_of};
ghost use Rattle.alt_forest.specs.Counts.{exposed_count};
ghost use Rattle.search_start.specs.Starts.{IsBegun, CanMove};

use alt_forest::Search;
use base_types::VertexId;
use blossom_arena::NodeId;

/// Changes the dual of an exposed vertex by d.
pub(crate) fn move_dual(search: &mut Search, v: VertexId, d: i64)
    requires sound { IsSound search.old }
    requires started { IsBegun (state_of search.old) search.old.start }
    requires vertex { is_vertex search.old.graph.vertices v ≡ true }
    requires possible { CanMove (state_of search.old) search.old.start v d }
    ensures sound { IsSound search.new }
    ensures started { IsBegun (state_of search.new) search.new.start }
    ensures duals { dual_at search.new.arena.duals
        ≡ put (dual_at search.old.arena.duals) v (dual_at search.old.arena.duals v +ℤ d) }
    ensures exposed { exposed_count (state_of search.new) ≡ exposed_count (state_of search.old) }
    ensures frame { search.new
        ≡ record search.old { arena = record search.old.arena { duals = search.new.arena.duals } } }
{
    search
        .arena
        .add_dual(NodeId::new(v.number()), i128::from(d));
}

ghost use Rattle.std.specs.Prelude.{◌≡◌, ℕ, pos, ◌≤ℤ◌, true, None};
ghost use Rattle.graph_theory.specs.declared.limits.TheConstants.{NUMBER_LIMIT};
ghost use Rattle.blossom_arena.specs.Family.{in_ring};
ghost use Rattle.search_heap.specs.Moments.{with_moment, IsItem};
ghost use Rattle.alt_forest.specs.State.{IsOutermost};
ghost use Rattle.alt_forest.specs.Searches.{IsSound, state_of};
ghost use Rattle.search_keys.specs.Bounds.{HasPlaces};
ghost use Rattle.tree_steps.specs.Moving.{AreEntered};

use alt_forest::{Item, Search};
use search_keys::EventBounds;

/// Gives the inner blossoms among the nodes of the circuit their moments.
pub(crate) fn enter_circuit(search: &mut Search)
    requires sound { IsSound search.old }
    requires low { pos 0 ≤ℤ search.old.clock }
    requires high { search.old.clock ≤ℤ NUMBER_LIMIT }
    requires circuit { (a : ℕ) → in_ring search.old.circuit.items a ≡ true
        → IsOutermost (state_of search.old) a }
    ensures frame { search.new ≡ record search.old { queue = search.new.queue } }
    ensures sound { IsSound search.new }
    ensures entered { AreEntered (state_of search.old) search.old.clock search.old.circuit.items
        search.old.queue search.new.queue }
    ensures edges { search.new.queue.edges ≡ search.old.queue.edges }
{
    for place in 0..search.circuit.len() {
        let link = search.circuit[place];
        search.enter_blossom(link.node);
    }
}

/// The same where bounds are kept. The moments of vertices stay.
pub(crate) fn bound_circuit(search: &Search, bounds: &mut EventBounds)
    requires sound { IsSound search.now }
    requires low { pos 0 ≤ℤ search.now.clock }
    requires high { search.now.clock ≤ℤ NUMBER_LIMIT }
    requires circuit { (a : ℕ) → in_ring search.now.circuit.items a ≡ true
        → IsOutermost (state_of search.now) a }
    requires places { HasPlaces search.now.graph bounds.old }
    ensures entered { AreEntered (state_of search.now) search.now.clock search.now.circuit.items
        bounds.old.moments bounds.new.moments }
    ensures frame { bounds.new ≡ record bounds.old { moments = bounds.new.moments } }
    ensures places { HasPlaces search.now.graph bounds.new }
{
    for place in 0..search.circuit.len() {
        let link = search.circuit[place];
        bounds.enter_blossom(search, link.node);
    }
}

/// Takes the moment of an item away.
pub(crate) fn drop_entry(search: &mut Search, item: Item)
    requires sound { IsSound search.old }
    requires item { IsItem search.old.queue item }
    ensures queue { search.new.queue ≡ with_moment search.old.queue item None }
    ensures frame { search.new ≡ record search.old { queue = search.new.queue } }
    ensures sound { IsSound search.new }
{
    search.queue.remove(item);
}

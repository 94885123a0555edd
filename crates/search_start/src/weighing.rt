//! The weights of a graph whose edges all weigh the same, for a search that has used none.
ghost use Rattle.std.specs.Prelude.{◌≡◌, ◌≤◌, ◌<◌, ℕ, pos, true};
ghost use Rattle.graph_theory.specs.Graph.{IsEdgeNumber, IsWeight};
ghost use Rattle.graph_theory.specs.Parts.{holds};
ghost use Rattle.graph_theory.specs.declared.limits.TheConstants.{GRAPH_VERTEX_LIMIT};
ghost use Rattle.blossom_arena.specs.Family.{IsFamily, dual_at, is_node, is_vertex, names_of};
ghost use Rattle.alt_forest.specs.declared.weights.Weights.TheVariants.{Given, Zero};
ghost use Rattle.alt_forest.specs.State.{slack_of};
ghost use Rattle.alt_forest.specs.Searches.{IsSound, state_of};
ghost use Rattle.search_start.specs.Weights.{AllWeigh};

use alt_forest::{Search, Weights};
use blossom_arena::{Arena, NodeId};

/// Gives each vertex of an arena whose vertices have the dual 0 the same dual.
fn raise_vertices(arena: &mut Arena, dual: i64)
    requires size_limit { arena.old.vertex_count ≤ GRAPH_VERTEX_LIMIT }
    requires zero { (v : ℕ) → is_vertex arena.old.vertex_count v ≡ true
        → dual_at arena.old.duals v ≡ pos 0 }
    requires weight { IsWeight dual }
    ensures frame { arena.new ≡ record arena.old { duals = arena.new.duals } }
    ensures vertices { (v : ℕ) → is_vertex arena.old.vertex_count v ≡ true
        → dual_at arena.new.duals v ≡ dual }
    ensures others { (a : ℕ) → arena.old.vertex_count < a
        → dual_at arena.new.duals a ≡ dual_at arena.old.duals a }
    ensures is_family { IsFamily arena.new }
{
    for number in 0..arena.vertex_count() {
        arena.add_dual(NodeId::new(number + 1), i128::from(dual));
    }
}

/// Gives a search that has used no weights, and whose duals are all 0, the weights of its graph,
/// where all are the same: each vertex gets the weight as its dual. No slack changes, since both
/// ends of an edge take from twice its weight what that has risen by (chapter 26). It takes time
/// linear in the vertices, and no memory.
pub fn weigh(search: &mut Search, weight: i64)
    requires sound { IsSound search.old }
    requires zero { search.old.weights ≡ Zero }
    requires duals { (a : ℕ) → is_node search.old.graph.vertices search.old.arena.blossoms a ≡ true
        → dual_at search.old.arena.duals a ≡ pos 0 }
    requires weight { IsWeight weight }
    requires alike { AllWeigh search.old.graph weight }

    // A pass without weights that found a perfect matching serves for edges that all weigh the
    // same: no slack changes.
    ensures frame { search.new ≡ record search.old {
      arena = record search.old.arena { duals = search.new.arena.duals };
      weights = Given;
      start = weight;
    } }
    ensures vertices { (v : ℕ) → is_vertex search.old.graph.vertices v ≡ true
        → dual_at search.new.arena.duals v ≡ weight }
    ensures blossoms { (b : ℕ) → holds (names_of search.old.arena.blossoms) b ≡ true
        → dual_at search.new.arena.duals b ≡ pos 0 }
    ensures slacks { (e : ℕ) → IsEdgeNumber search.old.graph e
        → slack_of (state_of search.new) e ≡ slack_of (state_of search.old) e }
    ensures sound { IsSound search.new }
{
    raise_vertices(&mut search.arena, weight);
    search.weights = Weights::Given;
    search.start = weight;
}

ghost use Rattle.std.specs.Prelude.{◌≡◌, ◌≤◌, ◌+◌, ◌*◌, ℕ, pos, neg_ℤ, ◌*ℤ◌, ◌≤ℤ◌, true, None, []};
ghost use Rattle.std.specs.Prelude.{length};
ghost use Rattle.graph_theory.specs.declared.limits.TheConstants.{WEIGHT_LIMIT};
ghost use Rattle.blossom_arena.specs.Family.{dual_at, is_vertex};
ghost use Rattle.blossom_arena.specs.declared.label.Label.TheVariants.{Out};
ghost use Rattle.alt_forest.specs.declared.weights.Weights.TheVariants.{Given, Zero};
ghost use Rattle.alt_forest.specs.Searches.{IsSound, IsStart, edge_in, label_at, state_of};
ghost use Rattle.alt_forest.specs.Counts.{exposed_count};
ghost use Rattle.alt_forest.specs.Entries.{IsQueued};
ghost use Rattle.alt_forest.specs.TreeNodes.{HasTreeNodes};
ghost use Rattle.alt_forest.specs.Trees.{SameParity};
ghost use Rattle.search_start.specs.Bounds.{HasPerfect, IsBounded};
ghost use Rattle.search_start.specs.Starts.{JoinsExposed};
ghost use Rattle.search_start.specs.Sweeps.{start_looks};

use crate::pairing::start_all;
use crate::raising::lift_all;
use crate::sweeping::sweep_twice;
use alt_forest::Search;
use base_types::Steps;
use std::sync::ledger::Ledger;
use weighted_graph::Graph;

/// Gives a pass that has just been reset duals that are feasible, and matches vertices by tight
/// edges (chapter 26). In the pass with weights the dual of each vertex rises to the least weight
/// of its edges, or to 1 less, so that all duals keep the parity of the start. Then the dual of
/// each exposed vertex in turn rises by the least slack of its edges, and where an edge that is
/// tight then leads to another exposed vertex the two are matched. So no tight edge joins two
/// exposed vertices at the end; in the pass without weights, if no dual rises and each edge is
/// tight, no edge can be added to the matching. With weights and at least ten vertices two sweeps
/// follow, in which exposed vertices take partners from others, whose duals fall, and one round
/// more for those that are exposed then. Each edge is looked at four times at most, with sweeps ten
/// times. It takes time linear in vertices and edges, and no memory.
pub fn start_pass<L: Ledger>(search: &mut Search, steps: &mut Steps<L>)
    requires sound { IsSound search.old }
    requires event_times { IsQueued search.old }
    requires listed { HasTreeNodes search.old }
    requires start { IsStart search.old.graph search.old.weights search.old.start }
    requires blossoms { search.old.arena.blossoms ≡ [] }
    requires duals { (v : ℕ) → is_vertex search.old.graph.vertices v ≡ true
        → dual_at search.old.arena.duals v ≡ search.old.start }
    requires labels { (a : ℕ) → label_at search.old.labels.items a ≡ Out }
    requires mates { (a : ℕ) → edge_in search.old.mates.items a ≡ None }
    ensures frame { search.new
        ≡ record search.old {
          arena = record search.old.arena { duals = search.new.arena.duals };
          mates = search.new.mates;
        } }

    // A pass begins with feasible duals of one parity and a matching by tight edges.
    ensures sound { IsSound search.new }
    ensures event_times { IsQueued search.new }
    ensures listed { HasTreeNodes search.new }
    ensures bounded { (search.old.weights ≡ Given → HasPerfect search.old.graph)
        → IsBounded (state_of search.new) search.new.start }
    ensures parity { (u v : ℕ) → is_vertex search.old.graph.vertices u ≡ true
        → is_vertex search.old.graph.vertices v ≡ true
        → SameParity (dual_at search.new.arena.duals u) (dual_at search.new.arena.duals v) }
    ensures in_range { (v : ℕ) → is_vertex search.old.graph.vertices v ≡ true
        → (neg_ℤ WEIGHT_LIMIT ≤ℤ dual_at search.new.arena.duals v)
        × (dual_at search.new.arena.duals v ≤ℤ (pos 3 *ℤ WEIGHT_LIMIT)) }

    // No tight edge can be added to that matching.
    ensures maximal { (e : ℕ) → JoinsExposed (state_of search.new) e → ⊥ }
    ensures exposed { exposed_count (state_of search.new) ≤ exposed_count (state_of search.old) }

    // It takes at most four inspections an edge, or ten with weights and at least ten vertices.
    ensures steps { steps.new
        ≤ steps.old + start_looks search.old.graph.vertices * length search.old.graph.edges }
    ensures flat { search.old.weights ≡ Zero → steps.new ≤ steps.old
        + 4 * length search.old.graph.edges }
{
    lift_all(search, steps);
    start_all(search, steps);
    sweep_twice(search, steps);
}

/// Gives a pass over a graph that has just been reset duals and mates, as `start_pass` does. The
/// graph is the one that the search was made for.
pub fn start_duals<L: Ledger>(search: &mut Search, graph: &Graph, steps: &mut Steps<L>)
    requires sound { IsSound search.old }
    requires event_times { IsQueued search.old }
    requires listed { HasTreeNodes search.old }
    requires same_graph { graph.now ≡ search.old.graph }
    requires start { IsStart graph.now search.old.weights search.old.start }
    requires blossoms { search.old.arena.blossoms ≡ [] }
    requires duals { (v : ℕ) → is_vertex graph.now.vertices v ≡ true
        → dual_at search.old.arena.duals v ≡ search.old.start }
    requires labels { (a : ℕ) → label_at search.old.labels.items a ≡ Out }
    requires mates { (a : ℕ) → edge_in search.old.mates.items a ≡ None }
    ensures frame { search.new
        ≡ record search.old {
          arena = record search.old.arena { duals = search.new.arena.duals };
          mates = search.new.mates;
        } }

    // A pass begins with feasible duals of one parity and a matching by tight edges.
    ensures sound { IsSound search.new }
    ensures event_times { IsQueued search.new }
    ensures listed { HasTreeNodes search.new }
    ensures bounded { (search.old.weights ≡ Given → HasPerfect graph.now)
        → IsBounded (state_of search.new) search.new.start }
    ensures parity { (u v : ℕ) → is_vertex graph.now.vertices u ≡ true
        → is_vertex graph.now.vertices v ≡ true
        → SameParity (dual_at search.new.arena.duals u) (dual_at search.new.arena.duals v) }

    // No tight edge can be added to that matching.
    ensures maximal { (e : ℕ) → JoinsExposed (state_of search.new) e → ⊥ }
    ensures exposed { exposed_count (state_of search.new) ≤ exposed_count (state_of search.old) }

    // It takes at most four inspections an edge, or ten with weights and at least ten vertices.
    ensures steps { steps.new
        ≤ steps.old + start_looks graph.now.vertices * length graph.now.edges }
    ensures flat { search.old.weights ≡ Zero → steps.new ≤ steps.old + 4 * length graph.now.edges }
{
    let _ = graph;
    start_pass(search, steps);
}

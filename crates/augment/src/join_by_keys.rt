ghost use Rattle.std.specs.Prelude.{◌≡◌, ◌↔◌, ◌⊎◌, ◌≢◌, ◌+◌, ◌*◌, ◌≤◌, ℕ, pos, true, false, Some};
ghost use Rattle.std.specs.Prelude.{length, if◌then◌else◌};
ghost use Rattle.graph_theory.specs.Parts.{holds};
ghost use Rattle.blossom_arena.specs.declared.label.Label.TheVariants.{Out};
ghost use Rattle.alt_forest.specs.State.{IsExposed, IsOutermost};
ghost use Rattle.alt_forest.specs.Trees.{path_of, root_of};
ghost use Rattle.alt_forest.specs.Events.{CanAugment};
ghost use Rattle.alt_forest.specs.Searches.{IsSound, state_of, label_at, edge_in};
ghost use Rattle.alt_forest.specs.Counts.{exposed_count, tree_count, IsPlanted};
ghost use Rattle.alt_forest.specs.TreeNodes.{HasTreeNodes};
ghost use Rattle.search_keys.specs.Bounds.{HasPlaces, IsBounding};
ghost use Rattle.search_keys.specs.Looks.{ends_outer, stale_ends};

use crate::joining::cut_trees;
use alt_forest::Search;
use base_types::{EdgeId, Steps};
use search_keys::EventBounds;
use std::sync::ledger::Ledger;

/// An augment, as `join` says it, if bounds of the moments are kept: the two trees that the tight
/// edge `e` joins are taken away, and all others stay. Vertices of the two trees keep their keys
/// and are entered anew. What it looks at and what has to be looked at anew then have each end of
/// an edge once at most. It answers whether a tree is left; if none is, it ends as `clear` does,
/// and the bounds mean nothing any more.
pub fn join_bounding<L: Ledger>(
    search: &mut Search,
    bounds: &mut EventBounds,
    e: EdgeId,
    steps: &mut Steps<L>,
) -> bool
    requires sound { IsSound search.old }
    requires vertex_keys { IsBounding search.old bounds.old }
    requires listed { HasTreeNodes search.old }
    requires possible { CanAugment (state_of search.old) e }
    ensures sound { IsSound search.new }
    ensures vertex_keys { result ≡ true → IsBounding search.new bounds.new }
    ensures places { HasPlaces search.new.graph bounds.new }
    ensures listed { HasTreeNodes search.new }
    ensures cleared { (c : CanAugment (state_of search.old) e) (a : ℕ)
        → IsOutermost (state_of search.old) a
        → (root_of (state_of search.old) a ≡ root_of (state_of search.old) c.one)
        ⊎ (root_of (state_of search.old) a ≡ root_of (state_of search.old) c.other)
        → label_at search.new.labels.items a ≡ Out }
    ensures stays { (c : CanAugment (state_of search.old) e) (a : ℕ)
        → IsOutermost (state_of search.old) a
        → root_of (state_of search.old) a ≢ root_of (state_of search.old) c.one
        → root_of (state_of search.old) a ≢ root_of (state_of search.old) c.other
        → label_at search.new.labels.items a ≡ label_at search.old.labels.items a }
    ensures frame { search.new ≡ record search.old {
      arena = record search.old.arena { motions = search.new.arena.motions };
      labels = search.new.labels;
      mates = search.new.mates;
      queue = search.new.queue;
      clock = search.new.clock;
      tree_nodes = search.new.tree_nodes;
      scanned = search.new.scanned;
    } }
    ensures clock { search.new.clock ≡ (if result then search.old.clock else pos 0) }
    ensures one { (c : CanAugment (state_of search.old) e)
        → edge_in search.new.mates.items c.one ≡ Some e }
    ensures other { (c : CanAugment (state_of search.old) e)
        → edge_in search.new.mates.items c.other ≡ Some e }
    ensures keeps { (c : CanAugment (state_of search.old) e) (a : ℕ)
        → holds (path_of (state_of search.old) c.one) a ≡ false
        → holds (path_of (state_of search.old) c.other) a ≡ false
        → edge_in search.new.mates.items a ≡ edge_in search.old.mates.items a }
    ensures exposed { (c : CanAugment (state_of search.old) e) (a : ℕ)
        → IsExposed (state_of search.new) a
        ↔ (IsExposed (state_of search.old) a
        × (a ≢ root_of (state_of search.old) c.one) × (a ≢ root_of (state_of search.old) c.other)) }
    ensures fewer { exposed_count (state_of search.new) + 2 ≡ exposed_count (state_of search.old) }
    ensures trees { tree_count (state_of search.new) + 2 ≡ tree_count (state_of search.old) }
    ensures left { (result ≡ false) ↔ (tree_count (state_of search.new) ≡ 0) }
    ensures all_rooted { IsPlanted (state_of search.old) → IsPlanted (state_of search.new) }

    // The same with an exact count of its inspections.
    ensures last { result ≡ false → steps.new ≡ steps.old + 1 }
    ensures edge_ends { result ≡ true → steps.new
        ≡ steps.old + 1 + ends_outer (state_of search.new) search.new.scanned.items }
    ensures inspections { result ≡ true
        → steps.new + stale_ends search.new bounds.new
        ≤ steps.old + 1 + 2 * length search.old.graph.edges }
{
    steps.tick();
    if !cut_trees(search, e) {
        return false;
    }
    bounds.enter_scanned(search, steps);
    true
}

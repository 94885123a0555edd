ghost use Rattle.std.specs.Prelude.{◌≡◌, ◌≢◌, ◌⊎◌, ◌↔◌, ◌+◌, ℕ, pos, false, Some};
ghost use Rattle.graph_theory.specs.Parts.{holds};
ghost use Rattle.blossom_arena.specs.declared.label.Label.TheVariants.{Out};
ghost use Rattle.alt_forest.specs.State.{IsOutermost, IsExposed};
ghost use Rattle.alt_forest.specs.Trees.{path_of, root_of};
ghost use Rattle.alt_forest.specs.Events.{CanAugment};
ghost use Rattle.alt_forest.specs.Searches.{IsSound, state_of, label_at, edge_in};
ghost use Rattle.alt_forest.specs.Counts.{exposed_count, tree_count, IsPlanted};
ghost use Rattle.alt_forest.specs.Entries.{IsQueued};
ghost use Rattle.alt_forest.specs.TreeNodes.{HasTreeNodes};
ghost use Rattle.augment.specs.Exchange.{IsExchanged};

use crate::dissolving::fell;
use crate::turning::turn;
use alt_forest::Search;
use base_types::{EdgeId, Steps};
use std::sync::ledger::Ledger;
use weighted_graph::Graph;

/// Flips the path between the roots of the two trees that the edge joins, labels exactly the nodes
/// of these trees out, and keeps their vertices for looks.
pub(crate) fn exchange(search: &mut Search, e: EdgeId)
    requires sound { IsSound search.old }
    requires listed { HasTreeNodes search.old }
    requires possible { CanAugment (state_of search.old) e }
    ensures sound { IsSound search.new }
    ensures frame { search.new ≡ record search.old {
      arena = record search.old.arena { motions = search.new.arena.motions };
      labels = search.new.labels;
      mates = search.new.mates;
      tree_nodes = search.new.tree_nodes;
      scanned = search.new.scanned;
    } }
    ensures exchanged { (c : CanAugment (state_of search.old) e)
        → IsExchanged search.old search.new e c.one c.other }
    ensures cleared { (c : CanAugment (state_of search.old) e) (a : ℕ)
        → IsOutermost (state_of search.old) a
        → (root_of (state_of search.old) a ≡ root_of (state_of search.old) c.one)
        ⊎ (root_of (state_of search.old) a ≡ root_of (state_of search.old) c.other)
        → label_at search.new.labels.items a ≡ Out }
    ensures stays { (c : CanAugment (state_of search.old) e) (a : ℕ)
        → IsOutermost (state_of search.old) a
        → root_of (state_of search.old) a ≢ root_of (state_of search.old) c.one
        → root_of (state_of search.old) a ≢ root_of (state_of search.old) c.other
        → label_at search.new.labels.items a ≡ label_at search.old.labels.items a }
    ensures one { (c : CanAugment (state_of search.old) e)
        → edge_in search.new.mates.items c.one ≡ Some e }
    ensures other { (c : CanAugment (state_of search.old) e)
        → edge_in search.new.mates.items c.other ≡ Some e }
    ensures keeps { (c : CanAugment (state_of search.old) e) (a : ℕ)
        → holds (path_of (state_of search.old) c.one) a ≡ false
        → holds (path_of (state_of search.old) c.other) a ≡ false
        → edge_in search.new.mates.items a ≡ edge_in search.old.mates.items a }
    ensures exposed { (c : CanAugment (state_of search.old) e) (a : ℕ)
        → IsExposed (state_of search.new) a
        ↔ (IsExposed (state_of search.old) a
        × (a ≢ root_of (state_of search.old) c.one) × (a ≢ root_of (state_of search.old) c.other)) }
    ensures fewer { exposed_count (state_of search.new) + 2 ≡ exposed_count (state_of search.old) }
    ensures trees { tree_count (state_of search.new) + 2 ≡ tree_count (state_of search.old) }
    ensures all_rooted { IsPlanted (state_of search.old) → IsPlanted (state_of search.new) }
{
    let (u, v, _) = search.graph.edge(e);
    let one = search.arena.outermost(u);
    let other = search.arena.outermost(v);
    let one_tree_id = search.root_vertex(one);
    let other_tree_id = search.root_vertex(other);
    turn(search, e, one, other);
    fell(search, one_tree_id, other_tree_id);
}

/// Flips the path between the roots of the two trees that the tight edge `e` joins, so that both
/// are matched and no other node is exposed or matched anew, and takes all trees away: every label
/// becomes `Out`, and no event waits any more (chapters 24 and 26). The two nodes that `e` joins
/// are mates by it, and a node off the path keeps its mate. Blossoms and duals stay. It counts one
/// step for itself, takes time linear in the path but for passes over the nodes, and takes no
/// memory.
pub fn flip<L: Ledger>(search: &mut Search, graph: &Graph, e: EdgeId, steps: &mut Steps<L>)
    requires sound { IsSound search.old }
    requires listed { HasTreeNodes search.old }
    requires same_graph { graph.now ≡ search.old.graph }
    requires possible { CanAugment (state_of search.old) e }
    ensures sound { IsSound search.new }
    ensures event_times { IsQueued search.new }
    ensures listed { HasTreeNodes search.new }
    ensures labels { (a : ℕ) → label_at search.new.labels.items a ≡ Out }
    ensures frame { search.new ≡ record search.old {
      arena = record search.old.arena { motions = search.new.arena.motions };
      labels = search.new.labels;
      mates = search.new.mates;
      queue = search.new.queue;
      clock = pos 0;
      tree_nodes = search.new.tree_nodes;
      scanned = search.new.scanned;
    } }

    // Matches both ends of an edge by it; what is off the two paths to the roots keeps its mate.
    ensures one { (c : CanAugment (state_of search.old) e)
        → edge_in search.new.mates.items c.one ≡ Some e }
    ensures other { (c : CanAugment (state_of search.old) e)
        → edge_in search.new.mates.items c.other ≡ Some e }
    ensures keeps { (c : CanAugment (state_of search.old) e) (a : ℕ)
        → holds (path_of (state_of search.old) c.one) a ≡ false
        → holds (path_of (state_of search.old) c.other) a ≡ false
        → edge_in search.new.mates.items a ≡ edge_in search.old.mates.items a }

    // The two roots are exposed no more, all others are as before, and no tree is left.
    ensures exposed { (c : CanAugment (state_of search.old) e) (a : ℕ)
        → IsExposed (state_of search.new) a
        ↔ (IsExposed (state_of search.old) a
        × (a ≢ root_of (state_of search.old) c.one) × (a ≢ root_of (state_of search.old) c.other)) }
    ensures fewer { exposed_count (state_of search.new) + 2 ≡ exposed_count (state_of search.old) }
    ensures trees { tree_count (state_of search.new) ≡ 0 }
    ensures step { steps.new ≡ steps.old + 1 }
{
    let _ = graph;
    steps.tick();
    exchange(search, e);
    search.clear();
}

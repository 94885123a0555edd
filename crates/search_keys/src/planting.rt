ghost use Rattle.std.specs.Prelude.{◌≡◌, ◌+◌, ◌≤◌};
ghost use Rattle.blossom_arena.specs.declared.label.Label.TheVariants.{Outer, Out};
ghost use Rattle.alt_forest.specs.State.{IsExposed};
ghost use Rattle.alt_forest.specs.Counts.{exposed_count, tree_count};
ghost use Rattle.alt_forest.specs.Entries.{looks_left};
ghost use Rattle.alt_forest.specs.Searches.{IsSound, label_at, put, state_of};
ghost use Rattle.alt_forest.specs.TreeNodes.{HasTreeNodes};
ghost use Rattle.search_keys.specs.Bounds.{IsBounding};
ghost use Rattle.search_keys.specs.Looks.{ends_outer, stale_ends};

use crate::bounds::EventBounds;
use alt_forest::Search;
use base_types::Steps;
use blossom_arena::NodeId;
use std::sync::ledger::Ledger;

/// Makes an exposed node the root of a tree of its own (chapter 24), and gives the keys of the
/// edges at its vertices. It takes no memory.
pub fn plant<L: Ledger>(
    search: &mut Search,
    bounds: &mut EventBounds,
    v: NodeId,
    steps: &mut Steps<L>,
)
    requires sound { IsSound search.old }
    requires vertex_keys { IsBounding search.old bounds.old }
    requires listed { HasTreeNodes search.old }
    requires exposed { IsExposed (state_of search.old) v }
    requires out { label_at search.old.labels.items v ≡ Out }
    ensures labels { label_at search.new.labels.items
        ≡ put (label_at search.old.labels.items) v Outer }
    ensures frame { search.new ≡ record search.old {
      arena = record search.old.arena { motions = search.new.arena.motions };
      labels = search.new.labels;
      tree_nodes = search.new.tree_nodes;
      scanned = search.new.scanned;
    } }
    ensures trees { tree_count (state_of search.new) ≡ tree_count (state_of search.old) + 1 }
    ensures exposed { exposed_count (state_of search.new) ≡ exposed_count (state_of search.old) }
    ensures sound { IsSound search.new }
    ensures vertex_keys { IsBounding search.new bounds.new }
    ensures listed { HasTreeNodes search.new }

    // A new root counts the inspections of its vertices' edges exactly.
    ensures inspections { steps.new + looks_left (state_of search.new)
        ≤ steps.old + looks_left (state_of search.old) }
    ensures edge_ends { steps.new
        ≡ steps.old + ends_outer (state_of search.new) search.new.scanned.items }
    ensures stale { stale_ends search.new bounds.new ≤ stale_ends search.old bounds.old }
{
    search.make_root(v);
    bounds.enter_scanned(search, steps);
}

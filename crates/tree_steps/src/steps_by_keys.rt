ghost use Rattle.std.specs.Prelude.{◌≡◌, ◌<◌, ◌≤◌, ◌+◌, ◌*◌, ℕ, length};
ghost use Rattle.blossom_arena.specs.Family.{ring_of};
ghost use Rattle.alt_forest.specs.State.{IsMate};
ghost use Rattle.alt_forest.specs.Counts.{outside_among, tree_count, exposed_count, measure};
ghost use Rattle.alt_forest.specs.Counts.{IsPlanted};
ghost use Rattle.alt_forest.specs.Entries.{looks_left};
ghost use Rattle.alt_forest.specs.Events.{CanExpand, CanGrow, CanShrink};
ghost use Rattle.alt_forest.specs.Searches.{IsSound, state_of};
ghost use Rattle.alt_forest.specs.TreeNodes.{HasTreeNodes};
ghost use Rattle.search_keys.specs.Bounds.{IsBounding};
ghost use Rattle.search_keys.specs.Looks.{ends_outer, stale_ends};
ghost use Rattle.tree_steps.specs.Circuits.{closed_by};
ghost use Rattle.tree_steps.specs.Expanded.{IsExpanded};
ghost use Rattle.tree_steps.specs.Grown.{grown};
ghost use Rattle.tree_steps.specs.Shrinkable.{IsShrunk};

use crate::entering::bound_circuit;
use crate::expanding::open_blossom;
use crate::growth::extend_tree;
use crate::shrinking::shrink_closed;
use alt_forest::Search;
use base_types::{EdgeId, Steps};
use blossom_arena::NodeId;
use search_keys::EventBounds;
use std::sync::ledger::Ledger;

/// A grow, as `grow` says it, if bounds of the moments are kept. No bound becomes stale.
pub fn grow_bounding<L: Ledger>(
    search: &mut Search,
    bounds: &mut EventBounds,
    e: EdgeId,
    steps: &mut Steps<L>,
)
    requires sound { IsSound search.old }
    requires vertex_keys { IsBounding search.old bounds.old }
    requires listed { HasTreeNodes search.old }
    requires possible { CanGrow (state_of search.old) e }
    ensures grown { (g : CanGrow (state_of search.old) e) (mate : ℕ)
        → IsMate (state_of search.old) g.far g.mate_edge mate
        → state_of search.new ≡ grown (state_of search.old) e g.far mate }
    ensures frame { search.new ≡ record search.old {
      arena = record search.old.arena { motions = search.new.arena.motions };
      labels = search.new.labels;
      parents = search.new.parents;
      tree_nodes = search.new.tree_nodes;
      scanned = search.new.scanned;
    } }
    ensures sound { IsSound search.new }
    ensures vertex_keys { IsBounding search.new bounds.new }

    // Makes no key outdated; `shrink_bounding` and `expand_bounding` make only those outdated that
    // they pay for.
    ensures stale { stale_ends search.new bounds.new ≤ stale_ends search.old bounds.old }
    ensures listed { HasTreeNodes search.new }
    ensures trees { tree_count (state_of search.new) ≡ tree_count (state_of search.old) }
    ensures exposed { exposed_count (state_of search.new) ≡ exposed_count (state_of search.old) }
    ensures all_rooted { IsPlanted (state_of search.old) → IsPlanted (state_of search.new) }
    ensures falls { measure (state_of search.new) < measure (state_of search.old) }
    ensures blossoms { outside_among (state_of search.new) search.new.arena.blossoms
        ≤ outside_among (state_of search.old) search.old.arena.blossoms }

    // Counts one step for the event and one inspection for each end at the scanned vertices of
    // outer nodes, exactly.
    ensures inspections { steps.new + looks_left (state_of search.new)
        ≤ steps.old + 1 + looks_left (state_of search.old) }
    ensures edge_ends { steps.new
        ≡ steps.old + 1 + ends_outer (state_of search.new) search.new.scanned.items }
{
    steps.tick(); // the grow
    let far = extend_tree(search, e);
    bounds.enter_blossom(search, far);
    bounds.enter_scanned(search, steps);
}

/// A shrink, as `shrink` says it, if bounds of the moments are kept. Those of vertices in the new
/// node may be stale then.
pub fn shrink_bounding<L: Ledger>(
    search: &mut Search,
    bounds: &mut EventBounds,
    e: EdgeId,
    steps: &mut Steps<L>,
) -> NodeId
    requires sound { IsSound search.old }
    requires vertex_keys { IsBounding search.old bounds.old }
    requires listed { HasTreeNodes search.old }
    requires possible { CanShrink (state_of search.old) e }
    ensures shrunk { IsShrunk (state_of search.old) (state_of search.new) result }
    ensures circuit { ring_of search.new.arena.blossoms result ≡ closed_by (state_of search.old) e }
    ensures frame { search.new ≡ record search.old {
      arena = search.new.arena;
      labels = search.new.labels;
      mates = search.new.mates;
      circuit = search.new.circuit;
      tree_nodes = search.new.tree_nodes;
      scanned = search.new.scanned;
    } }
    ensures sound { IsSound search.new }
    ensures vertex_keys { IsBounding search.new bounds.new }
    ensures stale { stale_ends search.new bounds.new ≤ 2 * length search.old.graph.edges }
    ensures listed { HasTreeNodes search.new }
    ensures trees { tree_count (state_of search.new) ≡ tree_count (state_of search.old) }
    ensures exposed { exposed_count (state_of search.new) ≡ exposed_count (state_of search.old) }
    ensures all_rooted { IsPlanted (state_of search.old) → IsPlanted (state_of search.new) }
    ensures falls { measure (state_of search.new) < measure (state_of search.old) }
    ensures one_more { length search.new.arena.blossoms ≡ length search.old.arena.blossoms + 1 }
    ensures blossoms { outside_among (state_of search.new) search.new.arena.blossoms
        ≤ outside_among (state_of search.old) search.old.arena.blossoms }

    // The same exact count for a shrink.
    ensures inspections { steps.new + looks_left (state_of search.new)
        ≤ steps.old + 1 + looks_left (state_of search.old) }
    ensures edge_ends { steps.new
        ≡ steps.old + 1 + ends_outer (state_of search.new) search.new.scanned.items }
{
    steps.tick(); // the shrink
    let node = shrink_closed(search, e);
    bounds.enter_scanned(search, steps);
    node
}

/// An expand, as `expand` says it, if bounds of the moments are kept. No bound becomes stale.
pub fn expand_bounding<L: Ledger>(
    search: &mut Search,
    bounds: &mut EventBounds,
    b: NodeId,
    steps: &mut Steps<L>,
)
    requires sound { IsSound search.old }
    requires vertex_keys { IsBounding search.old bounds.old }
    requires listed { HasTreeNodes search.old }
    requires possible { CanExpand (state_of search.old) b }
    ensures expanded { IsExpanded (state_of search.old) (state_of search.new) b }
    ensures frame { search.new ≡ record search.old {
      arena = record search.old.arena {
        motions = search.new.arena.motions;
        blossoms = search.new.arena.blossoms;
      };
      labels = search.new.labels;
      parents = search.new.parents;
      mates = search.new.mates;
      circuit = search.new.circuit;
      tree_nodes = search.new.tree_nodes;
      scanned = search.new.scanned;
    } }
    ensures sound { IsSound search.new }
    ensures vertex_keys { IsBounding search.new bounds.new }
    ensures stale { stale_ends search.new bounds.new ≤ stale_ends search.old bounds.old }
    ensures listed { HasTreeNodes search.new }
    ensures trees { tree_count (state_of search.new) ≡ tree_count (state_of search.old) }
    ensures exposed { exposed_count (state_of search.new) ≡ exposed_count (state_of search.old) }
    ensures all_rooted { IsPlanted (state_of search.old) → IsPlanted (state_of search.new) }
    ensures falls { measure (state_of search.new) < measure (state_of search.old) }
    ensures one_fewer { length search.new.arena.blossoms + 1 ≡ length search.old.arena.blossoms }
    ensures blossoms { outside_among (state_of search.new) search.new.arena.blossoms
        < outside_among (state_of search.old) search.old.arena.blossoms }

    // The same exact count for an expand.
    ensures inspections { steps.new + looks_left (state_of search.new)
        ≤ steps.old + 1 + looks_left (state_of search.old) }
    ensures edge_ends { steps.new
        ≡ steps.old + 1 + ends_outer (state_of search.new) search.new.scanned.items }
{
    steps.tick(); // the expand
    open_blossom(search, b);
    bound_circuit(search, bounds);
    bounds.remove(b);
    bounds.enter_scanned(search, steps);
}

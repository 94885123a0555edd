ghost use Rattle.std.specs.Prelude.{◌≡◌, ◌≢◌, ◌≤◌, ◌+◌, MatchBool};
ghost use Rattle.alt_forest.specs.Searches.{IsSound, state_of};
ghost use Rattle.alt_forest.specs.Counts.{exposed_count, tree_count, IsPlanted};
ghost use Rattle.alt_forest.specs.Entries.{IsQueued, entry_count, looks_left};
ghost use Rattle.alt_forest.specs.TreeNodes.{HasTreeNodes};
ghost use Rattle.search_start.specs.Ready.{IsReady};

use crate::exposed::is_exposed;
use alt_forest::Search;
use base_types::Steps;
use blossom_arena::NodeId;
use std::sync::ledger::Ledger;
use weighted_graph::Graph;

/// Makes every exposed node the root of a tree of its own, and answers whether there is one. No
/// tree stands before.
pub fn plant_all<L: Ledger>(search: &mut Search, graph: &Graph, steps: &mut Steps<L>) -> bool
    requires well_formed { IsReady search.old }
    requires same_graph { graph.now ≡ search.old.graph }
    ensures sound { IsSound search.new }
    ensures event_times { IsQueued search.new }
    ensures listed { HasTreeNodes search.new }
    ensures frame { search.new ≡ record search.old {
      arena = record search.old.arena { motions = search.new.arena.motions };
      labels = search.new.labels;
      queue = search.new.queue;
      tree_nodes = search.new.tree_nodes;
      scanned = search.new.scanned;
    } }
    ensures all_rooted { IsPlanted (state_of search.new) }
    ensures trees { MatchBool result (tree_count (state_of search.new) ≢ 0)
        (tree_count (state_of search.new) ≡ 0) }
    ensures exposed { exposed_count (state_of search.new) ≡ exposed_count (state_of search.old) }
    ensures inspections { steps.new + looks_left (state_of search.new)
        ≤ steps.old + looks_left (state_of search.old) }
    ensures count { entry_count search.new.queue + steps.old ≤ entry_count search.old.queue
        + steps.new }
{
    let mut some = false;
    for place in 0..search.arena.node_limit() {
        let node = NodeId::new(place + 1);
        if !is_exposed(search, node) {
            continue;
        }
        search.plant(graph, node, steps);
        some = true;
    }
    some
}

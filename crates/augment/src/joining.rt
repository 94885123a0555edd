ghost use Rattle.std.specs.Prelude.{◌≡◌, ◌≢◌, ◌⊎◌, ◌↔◌, ◌+◌, ◌*◌, ◌≤◌, ℕ, pos, true, false, Some};
ghost use Rattle.std.specs.Prelude.{[], All, length, if◌then◌else◌};
ghost use Rattle.blossom_arena.specs.Family.{is_vertex};
ghost use Rattle.graph_theory.specs.Parts.{holds};
ghost use Rattle.blossom_arena.specs.declared.label.Label.TheVariants.{Out};
ghost use Rattle.alt_forest.specs.State.{IsOutermost, IsExposed};
ghost use Rattle.alt_forest.specs.Trees.{path_of, root_of};
ghost use Rattle.alt_forest.specs.Events.{CanAugment};
ghost use Rattle.alt_forest.specs.Searches.{IsSound, state_of, label_at, edge_in};
ghost use Rattle.alt_forest.specs.Counts.{exposed_count, tree_count, IsPlanted};
ghost use Rattle.alt_forest.specs.Entries.{IsQueued, IsQueuedBut, ends_around, entry_count};
ghost use Rattle.alt_forest.specs.Entries.{out_ends};
ghost use Rattle.alt_forest.specs.TreeNodes.{HasTreeNodes};
ghost use Rattle.augment.specs.Exchange.{IsExchanged};

use crate::flips::exchange;
use crate::tree_sizes::take_smaller_side;
use alt_forest::Search;
use base_types::{EdgeId, Steps};
use std::sync::ledger::Ledger;
use weighted_graph::Graph;

/// Whether no node is listed.
fn lists_none(search: &Search) -> bool
    ensures { (result ≡ true) ↔ (search.now.tree_nodes.nodes ≡ []) }
{
    search.tree_nodes.nodes().is_empty()
}

/// Flips the path between the roots of the two trees that the edge joins, labels exactly the nodes
/// of these trees out, and keeps their vertices for looks. It answers whether a tree is left, and
/// if none is it ends as `clear` does.
pub(crate) fn cut_trees(search: &mut Search, e: EdgeId) -> bool
    requires sound { IsSound search.old }
    requires listed { HasTreeNodes search.old }
    requires possible { CanAugment (state_of search.old) e }
    ensures sound { IsSound search.new }
    ensures listed { HasTreeNodes search.new }
    ensures cleared { (c : CanAugment (state_of search.old) e) (a : ℕ)
        → IsOutermost (state_of search.old) a
        → (root_of (state_of search.old) a ≡ root_of (state_of search.old) c.one)
        ⊎ (root_of (state_of search.old) a ≡ root_of (state_of search.old) c.other)
        → label_at search.new.labels.items a ≡ Out }
    ensures stays { (c : CanAugment (state_of search.old) e) (a : ℕ)
        → IsOutermost (state_of search.old) a
        → root_of (state_of search.old) a ≢ root_of (state_of search.old) c.one
        → root_of (state_of search.old) a ≢ root_of (state_of search.old) c.other
        → label_at search.new.labels.items a ≡ label_at search.old.labels.items a }
    ensures frame { search.new ≡ record search.old {
      arena = record search.old.arena { motions = search.new.arena.motions };
      labels = search.new.labels;
      mates = search.new.mates;
      queue = search.new.queue;
      clock = search.new.clock;
      tree_nodes = search.new.tree_nodes;
      scanned = search.new.scanned;
    } }
    ensures clock { search.new.clock ≡ (if result then search.old.clock else pos 0) }
    ensures one { (c : CanAugment (state_of search.old) e)
        → edge_in search.new.mates.items c.one ≡ Some e }
    ensures other { (c : CanAugment (state_of search.old) e)
        → edge_in search.new.mates.items c.other ≡ Some e }
    ensures keeps { (c : CanAugment (state_of search.old) e) (a : ℕ)
        → holds (path_of (state_of search.old) c.one) a ≡ false
        → holds (path_of (state_of search.old) c.other) a ≡ false
        → edge_in search.new.mates.items a ≡ edge_in search.old.mates.items a }
    ensures exposed { (c : CanAugment (state_of search.old) e) (a : ℕ)
        → IsExposed (state_of search.new) a
        ↔ (IsExposed (state_of search.old) a
        × (a ≢ root_of (state_of search.old) c.one) × (a ≢ root_of (state_of search.old) c.other)) }
    ensures fewer { exposed_count (state_of search.new) + 2 ≡ exposed_count (state_of search.old) }
    ensures trees { tree_count (state_of search.new) + 2 ≡ tree_count (state_of search.old) }
    ensures left { (result ≡ false) ↔ (tree_count (state_of search.new) ≡ 0) }
    ensures all_rooted { IsPlanted (state_of search.old) → IsPlanted (state_of search.new) }
    ensures event_times { result ≡ false → IsQueued search.new }
    ensures none { result ≡ false → (a : ℕ) → label_at search.new.labels.items a ≡ Out }
    ensures some { result ≡ true → length search.new.tree_nodes.nodes ≢ 0 }
    ensures lasts { result ≡ true → search.new ≡ record search.old {
      arena = record search.old.arena { motions = search.new.arena.motions };
      labels = search.new.labels;
      mates = search.new.mates;
      tree_nodes = search.new.tree_nodes;
      scanned = search.new.scanned;
    } }
    ensures exchanged { result ≡ true → (c : CanAugment (state_of search.old) e)
        → IsExchanged search.old search.new e c.one c.other }
{
    exchange(search, e);
    if lists_none(search) {
        search.clear();
        return false;
    }
    true
}

/// Looks at the edges at the vertices that are kept for it, or at those at the outer nodes that are
/// listed, if there are no more ends of edges at these.
fn look_again<L: Ledger>(search: &mut Search, graph: &Graph, steps: &mut Steps<L>)
    requires sound { IsSound search.old }
    requires listed { HasTreeNodes search.old }
    requires same_graph { graph.now ≡ search.old.graph }
    requires vertices { All (λ v. is_vertex search.old.graph.vertices v ≡ true)
        search.old.scanned.items }
    requires size_limit { ends_around search.old.graph search.old.scanned.items
        ≤ 2 * length search.old.graph.edges }
    requires event_times { IsQueuedBut search.old search.old.scanned.items }
    ensures frame { search.new
        ≡ record search.old { queue = search.new.queue; scanned = search.new.scanned } }
    ensures sound { IsSound search.new }
    ensures event_times { IsQueued search.new }
    ensures listed { HasTreeNodes search.new }
    ensures more { steps.old ≤ steps.new }
    ensures edge_ends { steps.new ≤ steps.old
        + ends_around search.old.graph search.old.scanned.items }
    ensures count { entry_count search.new.queue + steps.old ≤ entry_count search.old.queue
        + steps.new }
{
    take_smaller_side(search);
    search.enter_scanned(graph, steps);
}

/// Flips the path between the roots of the two trees that the tight edge `e` joins, so that both
/// are matched, and takes these two trees away: exactly their nodes are labelled out (chapters 24
/// and 26). Every other tree stays as it is, with its moments, and so do blossoms and duals. It
/// counts one step for itself and looks at most once for each end of an edge at a vertex of the two
/// trees, whose nodes are labelled out then: at the edges there, or at those at the outer nodes of
/// the trees that stay, where these are no more. An edge that leads from an outer node to a node of
/// the two trees gets its moment. It answers whether a tree is left, and if none is it ends as
/// `clear` does. It takes time linear in the edges at the two trees, and no memory.
pub fn join<L: Ledger>(search: &mut Search, graph: &Graph, e: EdgeId, steps: &mut Steps<L>) -> bool
    requires sound { IsSound search.old }
    requires event_times { IsQueued search.old }
    requires listed { HasTreeNodes search.old }
    requires same_graph { graph.now ≡ search.old.graph }
    requires possible { CanAugment (state_of search.old) e }
    ensures sound { IsSound search.new }
    ensures event_times { IsQueued search.new }
    ensures listed { HasTreeNodes search.new }

    // Matches along the same paths, and dissolves the two trees that its edge joins alone: others
    // keep labels and event times.
    ensures cleared { (c : CanAugment (state_of search.old) e) (a : ℕ)
        → IsOutermost (state_of search.old) a
        → (root_of (state_of search.old) a ≡ root_of (state_of search.old) c.one)
        ⊎ (root_of (state_of search.old) a ≡ root_of (state_of search.old) c.other)
        → label_at search.new.labels.items a ≡ Out }
    ensures stays { (c : CanAugment (state_of search.old) e) (a : ℕ)
        → IsOutermost (state_of search.old) a
        → root_of (state_of search.old) a ≢ root_of (state_of search.old) c.one
        → root_of (state_of search.old) a ≢ root_of (state_of search.old) c.other
        → label_at search.new.labels.items a ≡ label_at search.old.labels.items a }
    ensures frame { search.new ≡ record search.old {
      arena = record search.old.arena { motions = search.new.arena.motions };
      labels = search.new.labels;
      mates = search.new.mates;
      queue = search.new.queue;
      clock = search.new.clock;
      tree_nodes = search.new.tree_nodes;
      scanned = search.new.scanned;
    } }
    ensures clock { search.new.clock ≡ (if result then search.old.clock else pos 0) }
    ensures one { (c : CanAugment (state_of search.old) e)
        → edge_in search.new.mates.items c.one ≡ Some e }
    ensures other { (c : CanAugment (state_of search.old) e)
        → edge_in search.new.mates.items c.other ≡ Some e }
    ensures keeps { (c : CanAugment (state_of search.old) e) (a : ℕ)
        → holds (path_of (state_of search.old) c.one) a ≡ false
        → holds (path_of (state_of search.old) c.other) a ≡ false
        → edge_in search.new.mates.items a ≡ edge_in search.old.mates.items a }
    ensures exposed { (c : CanAugment (state_of search.old) e) (a : ℕ)
        → IsExposed (state_of search.new) a
        ↔ (IsExposed (state_of search.old) a
        × (a ≢ root_of (state_of search.old) c.one) × (a ≢ root_of (state_of search.old) c.other)) }
    ensures fewer { exposed_count (state_of search.new) + 2 ≡ exposed_count (state_of search.old) }

    // Exactly the nodes of those two trees are labelled free.
    ensures trees { tree_count (state_of search.new) + 2 ≡ tree_count (state_of search.old) }
    ensures left { (result ≡ false) ↔ (tree_count (state_of search.new) ≡ 0) }
    ensures all_rooted { IsPlanted (state_of search.old) → IsPlanted (state_of search.new) }

    // Counts one step for itself and inspects no more edge ends than there are at the vertices of
    // the two trees.
    ensures step { steps.old + 1 ≤ steps.new }
    ensures edge_ends { steps.new + out_ends (state_of search.old)
        ≤ steps.old + 1 + out_ends (state_of search.new) }
    ensures inspections { steps.new ≤ steps.old + 1 + 2 * length search.old.graph.edges }
    ensures count { entry_count search.new.queue + steps.old ≤ entry_count search.old.queue
        + steps.new }
{
    steps.tick();
    if !cut_trees(search, e) {
        return false;
    }
    look_again(search, graph, steps);
    true
}

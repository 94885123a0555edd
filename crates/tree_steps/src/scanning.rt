ghost use Rattle.std.specs.Prelude.{◌≡◌, ◌≤◌, ◌+◌, ◌++◌, ℤ, true, false, Option, Some, None, All};
ghost use Rattle.std.specs.Prelude.{length, vec_len};
ghost use Rattle.std.specs.Vec.{vec_capacity};
ghost use Rattle.graph_theory.specs.Graph.{IsEdgeNumber, edge_of};
ghost use Rattle.blossom_arena.specs.Family.{is_node, is_vertex, members_of, IsCircuit};
ghost use Rattle.search_heap.specs.declared.item.Item.TheVariants.{Edge as OfEdge};
ghost use Rattle.search_heap.specs.Moments.{moment_of};
ghost use Rattle.alt_forest.specs.State.{IsOutermost};
ghost use Rattle.alt_forest.specs.Entries.{NeedsMoment, IsQueued, IsQueuedBut, ends_around};
ghost use Rattle.alt_forest.specs.Entries.{ends_looked, entry_count, touches_any};
ghost use Rattle.alt_forest.specs.Searches.{IsSound, state_of};
ghost use Rattle.tree_steps.specs.Scanned.{unless_outer, newly_outer};

use crate::entering::drop_entry;
use alt_forest::{Item, Label, Search};
use base_types::{EdgeId, Steps};
use blossom_arena::NodeId;
use std::sync::ledger::Ledger;
use weighted_graph::Graph;

/// Notes the vertices of a node, and no others, as those whose edges are to be looked at.
pub(crate) fn scan_node(search: &mut Search, node: NodeId)
    requires sound { IsSound search.old }
    requires node { is_node search.old.graph.vertices search.old.arena.blossoms node ≡ true }
    ensures scanned { search.new.scanned.items ≡ members_of search.old.arena.blossoms node }
    ensures frame { search.new ≡ record search.old { scanned = search.new.scanned } }
    ensures sound { IsSound search.new }
{
    search.scanned.clear();
    search.scan(node);
}

/// Notes the vertices of a node besides, unless it is outer.
fn scan_unless_outer(search: &mut Search, node: NodeId)
    requires sound { IsSound search.old }
    requires outermost { IsOutermost (state_of search.old) node }
    requires room { vec_len search.old.scanned + length (unless_outer (state_of search.old) node)
        ≤ vec_capacity search.old.scanned }
    ensures scanned { search.new.scanned.items ≡ search.old.scanned.items
        ++ unless_outer (state_of search.old) node }
    ensures capacity { vec_capacity search.new.scanned ≡ vec_capacity search.old.scanned }
    ensures frame { search.new ≡ record search.old { scanned = search.new.scanned } }
    ensures sound { IsSound search.new }
{
    if search.label(node) == Label::Outer {
        return;
    }
    search.scan(node);
}

/// Notes the vertices of the circuit's nodes that are not outer, and no others.
pub(crate) fn scan_circuit(search: &mut Search)
    requires sound { IsSound search.old }
    requires circuit { IsCircuit search.old.graph.vertices search.old.arena.blossoms
        search.old.circuit.items }
    ensures scanned { search.new.scanned.items
        ≡ newly_outer (state_of search.old) search.old.circuit.items }
    ensures frame { search.new ≡ record search.old { scanned = search.new.scanned } }
    ensures sound { IsSound search.new }
{
    search.scanned.clear();
    for place in 0..search.circuit.len() {
        let link = search.circuit[place];
        scan_unless_outer(search, link.node);
    }
}

/// Takes the moment of an edge whose event has come, and looks at the edges at the noted vertices,
/// which get their moments; it counts a step for each look.
pub(crate) fn look_on<L: Ledger>(
    search: &mut Search,
    graph: &Graph,
    e: EdgeId,
    steps: &mut Steps<L>,
)
    requires sound { IsSound search.old }
    requires same_graph { graph.now ≡ search.old.graph }
    requires edge { IsEdgeNumber search.old.graph e }
    requires had { (m : ℤ) × (moment_of search.old.queue (OfEdge e) ≡ Some m) }
    requires free { (m : Option ℤ) → NeedsMoment (state_of search.old) search.old.clock e m }
    requires missed { touches_any search.old.scanned.items (edge_of search.old.graph e) ≡ false }
    requires vertices { All (λ v. is_vertex search.old.graph.vertices v ≡ true)
        search.old.scanned.items }
    requires event_times { IsQueuedBut search.old search.old.scanned.items }
    ensures frame { search.new ≡ record search.old { queue = search.new.queue } }
    ensures sound { IsSound search.new }
    ensures event_times { IsQueued search.new }
    ensures taken { moment_of search.new.queue (OfEdge e) ≡ None }
    ensures inspections { steps.new ≤ steps.old
        + ends_around search.old.graph search.old.scanned.items }
    ensures count { entry_count search.new.queue + steps.old + 1 ≤ entry_count search.old.queue
        + steps.new }
{
    drop_entry(search, Item::Edge(e));
    search.enter_scanned(graph, steps);
}

ghost use Rattle.std.specs.Prelude.{◌≡◌, ◌≢◌, ◌<◌, ◌≤◌, ◌+◌, ℕ, true, false, Some, None};
ghost use Rattle.graph_theory.specs.Graph.{IsEdgeNumber, edge_of};
ghost use Rattle.blossom_arena.specs.Family.{in_ring, is_vertex, outermost, made_of, ring_of};
ghost use Rattle.search_heap.specs.declared.item.Item.TheVariants.{Edge as OfEdge};
ghost use Rattle.search_heap.specs.Moments.{moment_of};
ghost use Rattle.blossom_arena.specs.declared.label.Label.TheVariants.{Outer, Out};
ghost use Rattle.alt_forest.specs.State.{IsOutermost, node_u};
ghost use Rattle.alt_forest.specs.Trees.{path_of, first_common};
ghost use Rattle.alt_forest.specs.Counts.{is_outside, outside_among, tree_count, exposed_count};
ghost use Rattle.alt_forest.specs.Counts.{measure, IsPlanted};
ghost use Rattle.alt_forest.specs.Entries.{IsQueued, entry_count, looks_left, outside_ends};
ghost use Rattle.alt_forest.specs.Entries.{touches_any};
ghost use Rattle.alt_forest.specs.Events.{CanShrink};
ghost use Rattle.alt_forest.specs.Searches.{IsSound, state_of, label_at};
ghost use Rattle.alt_forest.specs.TreeNodes.{HasTreeNodes, tree_id_at};
ghost use Rattle.tree_steps.specs.Circuits.{base_of, closed_by};
ghost use Rattle.tree_steps.specs.Left.{IsStep};
ghost use Rattle.tree_steps.specs.Scanned.{newly_outer};
ghost use Rattle.tree_steps.specs.Shrunk.{shrunk_state};
ghost use Rattle.tree_steps.specs.Shrinkable.{AreInOneTree, CanClose, Closes, IsShrunk};

use crate::circuit::fill_circuit;
use crate::insertion::insert_node;
use crate::scanning::{look_on, scan_circuit};
use alt_forest::{Label, Search, set_edge, set_label};
use base_types::{EdgeId, Steps, VertexId};
use blossom_arena::NodeId;
use std::sync::ledger::Ledger;
use weighted_graph::Graph;

/// Makes one outer node of the circuit, which has the mate of its base.
fn close(search: &mut Search, base: NodeId) -> NodeId
    requires sound { IsSound search.old }
    requires possible { CanClose (state_of search.old) search.old.circuit.items base }
    ensures state { state_of search.new
        ≡ shrunk_state (state_of search.old)
        (made_of search.old.arena.blossoms search.old.circuit.items result) base }
    ensures outside_unchanged { (a : ℕ) → a ≢ result → in_ring search.old.circuit.items a ≡ false
        → label_at search.new.arena.motions a ≡ label_at search.old.arena.motions a }
    ensures frame { search.new
        ≡ record search.old
        { arena = search.new.arena; labels = search.new.labels; mates = search.new.mates } }
    ensures sound { IsSound search.new }
{
    let mate = search.mate(base);
    let node = search.arena.shrink(&search.circuit);
    set_label(&mut search.labels, node, Label::Outer);
    set_edge(&mut search.mates, node, mate);
    node
}

/// The first node that the ways of two nodes of one tree share.
fn meeting_node(search: &Search, a: NodeId, b: NodeId) -> NodeId
    requires sound { IsSound search.now }
    requires ends { AreInOneTree (state_of search.now) a b }
    ensures { first_common (path_of (state_of search.now) a) (path_of (state_of search.now) b)
        ≡ Some result }
{
    match search.meet(a, b) {
        Some(node) => node,
        None => a,
    }
}

/// The vertex that is kept for the nodes of the tree that a shrink's edge lies in.
fn tree_id_of(search: &Search, e: EdgeId) -> VertexId
    requires sound { IsSound search.now }
    requires listed { HasTreeNodes search.now }
    requires possible { CanShrink (state_of search.now) e }
    ensures vertex { is_vertex search.now.graph.vertices result ≡ true }
    ensures kept { tree_id_at search.now.tree_nodes.tree_ids
        (node_u search.now.graph search.now.arena.blossoms e) ≡ Some result }
{
    let (u, _, _) = search.graph.edge(e);
    let node = search.arena.outermost(u);
    search.root_vertex(node)
}

/// Fills the circuit with that which a tight edge between two different outer nodes of one tree
/// closes, and answers its base.
fn fill_closed(search: &mut Search, e: EdgeId) -> NodeId
    requires sound { IsSound search.old }
    requires possible { CanShrink (state_of search.old) e }
    ensures closes { Closes (state_of search.old) e }
    ensures circuit { search.new.circuit.items ≡ closed_by (state_of search.old) e }
    ensures base { result ≡ base_of (state_of search.old) e }
    ensures frame { search.new ≡ record search.old { circuit = search.new.circuit } }
    ensures sound { IsSound search.new }
{
    let (u, v, _) = search.graph.edge(e);
    let a = search.arena.outermost(u);
    let b = search.arena.outermost(v);
    let base = meeting_node(search, a, b);
    fill_circuit(search, a, b, base, e);
    base
}

/// Makes one outer node of the circuit that a tight edge between two different outer nodes of one
/// tree closes, and notes the vertices that come into it from nodes that were not outer. It answers
/// the new node.
fn close_by(search: &mut Search, e: EdgeId) -> NodeId
    requires sound { IsSound search.old }
    requires possible { CanShrink (state_of search.old) e }
    ensures closes { Closes (state_of search.old) e }
    ensures state { state_of search.new
        ≡ shrunk_state (state_of search.old)
        (made_of search.old.arena.blossoms (closed_by (state_of search.old) e) result)
        (base_of (state_of search.old) e) }
    ensures scanned { search.new.scanned.items
        ≡ newly_outer (state_of search.old) (closed_by (state_of search.old) e) }
    ensures outside_unchanged { (a : ℕ) → a ≢ result → in_ring (closed_by (state_of search.old) e) a
        ≡ false
        → label_at search.new.arena.motions a ≡ label_at search.old.arena.motions a }
    ensures frame { search.new ≡ record search.old {
      arena = search.new.arena;
      labels = search.new.labels;
      mates = search.new.mates;
      circuit = search.new.circuit;
      scanned = search.new.scanned;
    } }
    ensures sound { IsSound search.new }
{
    let base = fill_closed(search, e);
    scan_circuit(search);
    close(search, base)
}

/// What a shrink does to the trees: it makes one node of the circuit that the edge closes, lists
/// it, and notes the vertices that come into it from nodes that were not outer. It answers the new
/// node.
pub(crate) fn shrink_closed(search: &mut Search, e: EdgeId) -> NodeId
    requires sound { IsSound search.old }
    requires listed { HasTreeNodes search.old }
    requires possible { CanShrink (state_of search.old) e }
    ensures shrunk { IsShrunk (state_of search.old) (state_of search.new) result }
    ensures circuit { ring_of search.new.arena.blossoms result ≡ closed_by (state_of search.old) e }
    ensures holds_u { outermost search.new.arena.blossoms (edge_of search.old.graph e).u ≡ result }
    ensures holds_v { outermost search.new.arena.blossoms (edge_of search.old.graph e).v ≡ result }
    ensures missed { touches_any search.new.scanned.items (edge_of search.old.graph e) ≡ false }
    ensures frame { search.new ≡ record search.old {
      arena = search.new.arena;
      labels = search.new.labels;
      mates = search.new.mates;
      circuit = search.new.circuit;
      tree_nodes = search.new.tree_nodes;
      scanned = search.new.scanned;
    } }
    ensures sound { IsSound search.new }
    ensures listed { HasTreeNodes search.new }
    ensures step { IsStep (state_of search.old) (state_of search.new) search.new.scanned.items }
{
    let tree_id = tree_id_of(search, e);
    let node = close_by(search, e);
    insert_node(search, node, tree_id);
    node
}

/// Makes one node of the circuit that a tight edge between two different outer nodes of one tree
/// closes: the two ways up to where they meet (chapter 24). The edge has no moment any more. It
/// looks at the edges at the vertices that come into an outer node by that, which get their
/// moments, and counts a step for each look and one for the event. It answers the new node, and
/// takes no memory.
pub fn shrink<L: Ledger>(
    search: &mut Search,
    graph: &Graph,
    e: EdgeId,
    steps: &mut Steps<L>,
) -> NodeId
    requires sound { IsSound search.old }
    requires event_times { IsQueued search.old }
    requires listed { HasTreeNodes search.old }
    requires same_graph { graph.now ≡ search.old.graph }
    requires possible { CanShrink (state_of search.old) e }

    // Makes one node of the circuit that an edge closes: the two paths up from its ends, both of
    // which the node holds.
    ensures shrunk { IsShrunk (state_of search.old) (state_of search.new) result }
    ensures circuit { ring_of search.new.arena.blossoms result ≡ closed_by (state_of search.old) e }
    ensures holds_u { outermost search.new.arena.blossoms (edge_of graph.now e).u ≡ result }
    ensures holds_v { outermost search.new.arena.blossoms (edge_of graph.now e).v ≡ result }
    ensures frame { search.new ≡ record search.old {
      arena = search.new.arena;
      labels = search.new.labels;
      mates = search.new.mates;
      circuit = search.new.circuit;
      queue = search.new.queue;
      tree_nodes = search.new.tree_nodes;
      scanned = search.new.scanned;
    } }
    ensures sound { IsSound search.new }
    ensures event_times { IsQueued search.new }
    ensures taken { moment_of search.new.queue (OfEdge e) ≡ None }
    ensures listed { HasTreeNodes search.new }
    ensures trees { tree_count (state_of search.new) ≡ tree_count (state_of search.old) }
    ensures exposed { exposed_count (state_of search.new) ≡ exposed_count (state_of search.old) }
    ensures all_rooted { IsPlanted (state_of search.old) → IsPlanted (state_of search.new) }
    ensures falls { measure (state_of search.new) < measure (state_of search.old) }
    ensures inside { (w : ℕ) → is_vertex search.old.graph.vertices w ≡ true
        → is_outside (state_of search.new) w ≡ true → is_outside (state_of search.old) w ≡ true }
    ensures blossoms { outside_among (state_of search.new) search.new.arena.blossoms
        ≤ outside_among (state_of search.old) search.old.arena.blossoms }
    ensures inspections { steps.new + looks_left (state_of search.new)
        ≤ steps.old + 1 + looks_left (state_of search.old) }
    ensures edge_ends { steps.new + outside_ends (state_of search.new)
        ≤ steps.old + 1 + outside_ends (state_of search.old) }
    ensures count { entry_count search.new.queue + steps.old + 2 ≤ entry_count search.old.queue
        + steps.new }
{
    steps.tick();
    let node = shrink_closed(search, e);
    look_on(search, graph, e, steps);
    node
}

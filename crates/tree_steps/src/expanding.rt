ghost use Rattle.std.specs.Prelude.{◌≡◌, ◌≢◌, ◌<◌, ◌≤◌, ◌+◌, ◌%◌, ◌⊎◌, ℕ, true, None, All, []};
ghost use Rattle.std.specs.Prelude.{length, take, drop};
ghost use Rattle.std.specs.List.{AllByRecursion};
ghost use Rattle.graph_theory.specs.Graph.{IsEdgeNumber};
ghost use Rattle.graph_theory.specs.Parts.{holds};
ghost use Rattle.blossom_arena.specs.Family.{in_ring, is_vertex, members_of, names_of, nodes_of};
ghost use Rattle.blossom_arena.specs.Family.{ring_of, dissolved};
ghost use Rattle.search_heap.specs.declared.item.Item.TheVariants.{Blossom as OfBlossom};
ghost use Rattle.search_heap.specs.Moments.{moment_of};
ghost use Rattle.alt_forest.specs.State.{IsOutermost, node_u, node_v};
ghost use Rattle.alt_forest.specs.Trees.{node_limit};
ghost use Rattle.alt_forest.specs.Counts.{is_outside, outside_among, tree_count, exposed_count};
ghost use Rattle.alt_forest.specs.Counts.{measure, IsPlanted};
ghost use Rattle.alt_forest.specs.Entries.{IsQueued, ends_around, entry_count, looks_left};
ghost use Rattle.alt_forest.specs.Entries.{out_ends, outside_ends};
ghost use Rattle.alt_forest.specs.Events.{CanExpand};
ghost use Rattle.alt_forest.specs.Searches.{HasShape, IsSound, label_at, state_of};
ghost use Rattle.alt_forest.specs.TreeNodes.{HasTreeNodes};
ghost use Rattle.tree_steps.specs.Circuits.{before, mirror, last_edge};
ghost use Rattle.tree_steps.specs.Expanded.{child_at, opened, hung_up, IsExpanded, IsOpening};
ghost use Rattle.tree_steps.specs.Expanded.{AreRootsOpened};

use crate::circuit::{fill_round, place_of};
use crate::entering::{drop_entry, enter_circuit};
use crate::insertion::insert_circuit;
use crate::pairs::{climb_down, climb_up, label_out, mate_pairs};
use crate::scanning::scan_node;
use crate::way_up::or_none;
use alt_forest::{Item, Label, Search, set_edge, set_label};
use base_types::{EdgeId, Steps};
use blossom_arena::{Link, NodeId};
use std::sync::ledger::Ledger;
use weighted_graph::Graph;

/// The node of a blossom's circuit that holds the end of an edge that leaves the blossom.
fn child_at(search: &Search, b: NodeId, e: EdgeId) -> NodeId
    requires shape { HasShape search.now }
    requires blossom { holds (names_of search.now.arena.blossoms) b ≡ true }
    requires edge { IsEdgeNumber search.now.graph e }
    requires leaves { (node_u search.now.graph search.now.arena.blossoms e ≡ b)
        ⊎ (node_v search.now.graph search.now.arena.blossoms e ≡ b) }
    ensures child { result ≡ child_at search.now.graph search.now.arena.blossoms b e }
{
    let (u, v, _) = search.graph.edge(e);
    if search.arena.outermost(u).number() == b.number() {
        return search.arena.child_holding(b, u);
    }
    search.arena.child_holding(b, v)
}

/// Takes a blossom away: its base has its mate and is inner, and the circuit's other nodes, which
/// the search's circuit has, are mates two by two and labelled out.
fn open_at(search: &mut Search, b: NodeId, base: NodeId, mate: EdgeId)
    requires shape { HasShape search.old }
    requires possible { CanExpand (state_of search.old) b }
    requires nodes { AllByRecursion (λ (l : Link). l.node ≤ node_limit search.old.graph.vertices)
        search.old.circuit.items }
    requires base { base ≤ node_limit search.old.graph.vertices }
    ensures state { state_of search.new
        ≡ opened (state_of search.old) b base search.old.circuit.items mate }
    ensures frame { search.new
        ≡ record search.old {
          arena = dissolved search.old.arena b;
          labels = search.new.labels;
          mates = search.new.mates;
        } }
    ensures shape { HasShape search.new }
{
    search.arena.dissolve(b);
    label_out(&mut search.labels, &search.circuit);
    set_label(&mut search.labels, base, Label::Inner);
    mate_pairs(&mut search.mates, &search.circuit);
    set_edge(&mut search.mates, base, Some(mate));
}

/// Takes into the tree the way of even length along the circuit between its base and its entry,
/// which hangs by the edge `parent`. The circuit's first node is behind the base, by the edge
/// `first`.
fn take_even_way(search: &mut Search, base: NodeId, entry: NodeId, first: EdgeId, parent: EdgeId)
    requires shape { HasShape search.old }
    requires even { length search.old.circuit.items % 2 ≡ 0 }
    requires nodes { AllByRecursion (λ (l : Link). l.node ≤ node_limit search.old.graph.vertices)
        search.old.circuit.items }
    requires base { base ≤ node_limit search.old.graph.vertices }
    ensures down { (place : ℕ) → place ≡ length (before (nodes_of search.old.circuit.items) entry)
        → place % 2 ≡ 0
        → state_of search.new
        ≡ hung_up (state_of search.old) base
        (last_edge parent (drop place search.old.circuit.items)) parent
        (mirror parent (drop place search.old.circuit.items) []) }
    ensures up { (place : ℕ) → place ≡ length (before (nodes_of search.old.circuit.items) entry)
        → place % 2 ≡ 1
        → state_of search.new
        ≡ hung_up (state_of search.old) base first parent
        (take (place + 1) search.old.circuit.items) }
    ensures frame { search.new
        ≡ record search.old { labels = search.new.labels; parents = search.new.parents } }
    ensures shape { HasShape search.new }
{
    let place = place_of(&search.circuit, entry);
    if place % 2 == 0 {
        climb_down(
            &mut search.labels,
            &mut search.parents,
            &search.circuit[place..],
            base,
            parent,
        );
        return;
    }
    climb_up(
        &mut search.labels,
        &mut search.parents,
        &search.circuit[..place + 1],
        base,
        first,
        parent,
    );
}

/// Takes `b`, an inner blossom of dual 0, away, and takes the way of even length between its base
/// and its entry into the tree. The search's circuit has the nodes of `b`'s.
fn lay_open(search: &mut Search, b: NodeId)
    requires sound { IsSound search.old }
    requires possible { CanExpand (state_of search.old) b }
    ensures expanded { IsExpanded (state_of search.old) (state_of search.new) b }
    ensures circuit { (a : ℕ) → in_ring search.new.circuit.items a
        ≡ in_ring (ring_of search.old.arena.blossoms b) a }
    ensures frame { search.new ≡ record search.old {
      arena = record search.old.arena {
        motions = search.new.arena.motions;
        blossoms = search.new.arena.blossoms;
      };
      labels = search.new.labels;
      parents = search.new.parents;
      mates = search.new.mates;
      circuit = search.new.circuit;
    } }
    ensures sound { IsSound search.new }
    ensures outside_unchanged { (a : ℕ) → a ≢ b
        → label_at search.new.arena.motions a ≡ label_at search.old.arena.motions a }
    ensures roots { AreRootsOpened (state_of search.old) (state_of search.new) b }
{
    let mate = or_none(search.mate(b));
    let parent = or_none(search.parent(b));
    let base = child_at(search, b, mate);
    let entry = child_at(search, b, parent);
    let first = fill_round(search, b, base);
    open_at(search, b, base, mate);
    take_even_way(search, base, entry, first, parent);
    search.circuit.push_reserved(Link {
        node: base,
        edge: first,
    });
}

/// What an expand does to the trees: it lays `b` open, lists the nodes of its circuit that are in
/// the tree, and notes the vertices of `b`, and no others, as those whose edges are to be looked
/// at. The search's circuit has the nodes of `b`'s, of which those that are inner have no moment
/// yet.
pub(crate) fn open_blossom(search: &mut Search, b: NodeId)
    requires sound { IsSound search.old }
    requires listed { HasTreeNodes search.old }
    requires possible { CanExpand (state_of search.old) b }
    ensures expanded { IsExpanded (state_of search.old) (state_of search.new) b }
    ensures circuit { (a : ℕ) → in_ring search.new.circuit.items a
        ≡ in_ring (ring_of search.old.arena.blossoms b) a }
    ensures outer { (a : ℕ) → in_ring search.new.circuit.items a ≡ true
        → IsOutermost (state_of search.new) a }
    ensures scanned { search.new.scanned.items ≡ members_of search.old.arena.blossoms b }
    ensures frame { search.new ≡ record search.old {
      arena = record search.old.arena {
        motions = search.new.arena.motions;
        blossoms = search.new.arena.blossoms;
      };
      labels = search.new.labels;
      parents = search.new.parents;
      mates = search.new.mates;
      circuit = search.new.circuit;
      tree_nodes = search.new.tree_nodes;
      scanned = search.new.scanned;
    } }
    ensures sound { IsSound search.new }
    ensures listed { HasTreeNodes search.new }
    ensures opening { IsOpening (state_of search.old) (state_of search.new) b
        search.new.scanned.items }
{
    let tree_id = search.root_vertex(b);
    scan_node(search, b);
    lay_open(search, b);
    insert_circuit(search, tree_id);
}

/// Expands `b`, an inner blossom of dual 0, in a search over `graph` (chapters 24 and 26): the
/// blossom is taken away and its circuit lies open. The way of even length along it between the
/// node that holds the end of the blossom's mate and the node that holds the end of its parent
/// comes into the tree, and the circuit's other nodes are mates two by two and labelled out. The
/// blossom has no moment any more. It looks at the edges at the blossom's vertices, which get their
/// moments, but for those in inner nodes. It counts a step for each look and one for the event,
/// takes no memory, and there is no error.
pub fn expand<L: Ledger>(search: &mut Search, graph: &Graph, b: NodeId, steps: &mut Steps<L>)
    requires sound { IsSound search.old }
    requires event_times { IsQueued search.old }
    requires listed { HasTreeNodes search.old }
    requires same_graph { graph.now ≡ search.old.graph }
    requires possible { CanExpand (state_of search.old) b }

    // Opens an inner blossom of dual 0 and keeps the path of the tree through it.
    ensures expanded { IsExpanded (state_of search.old) (state_of search.new) b }
    ensures frame { search.new ≡ record search.old {
      arena = record search.old.arena {
        motions = search.new.arena.motions;
        blossoms = search.new.arena.blossoms;
      };
      labels = search.new.labels;
      parents = search.new.parents;
      mates = search.new.mates;
      circuit = search.new.circuit;
      queue = search.new.queue;
      tree_nodes = search.new.tree_nodes;
      scanned = search.new.scanned;
    } }
    ensures sound { IsSound search.new }
    ensures event_times { IsQueued search.new }
    ensures taken { moment_of search.new.queue (OfBlossom b) ≡ None }
    ensures listed { HasTreeNodes search.new }
    ensures trees { tree_count (state_of search.new) ≡ tree_count (state_of search.old) }
    ensures exposed { exposed_count (state_of search.new) ≡ exposed_count (state_of search.old) }
    ensures all_rooted { IsPlanted (state_of search.old) → IsPlanted (state_of search.new) }

    // Lowers what is outside outer nodes; inspects at most the edge ends at the blossom's vertices.
    ensures falls { measure (state_of search.new) < measure (state_of search.old) }
    ensures inside { (w : ℕ) → is_vertex search.old.graph.vertices w ≡ true
        → is_outside (state_of search.new) w ≡ true → is_outside (state_of search.old) w ≡ true }
    ensures blossoms { outside_among (state_of search.new) search.new.arena.blossoms
        < outside_among (state_of search.old) search.old.arena.blossoms }
    ensures inspections { steps.new + looks_left (state_of search.new)
        ≤ steps.old + 1 + looks_left (state_of search.old) }
    ensures ends { steps.new ≤ steps.old + 1 + ends_around graph.now
        (members_of search.old.arena.blossoms b) }
    ensures edge_ends { steps.new + outside_ends (state_of search.new)
        + out_ends (state_of search.old)
        ≤ steps.old + 1 + outside_ends (state_of search.old) + out_ends (state_of search.new) }
    ensures count { entry_count search.new.queue + steps.old + 1 ≤ entry_count search.old.queue
        + steps.new }
{
    steps.tick();
    open_blossom(search, b);
    enter_circuit(search);
    drop_entry(search, Item::Blossom(b));
    search.enter_scanned(graph, steps);
}

ghost use Rattle.std.specs.Prelude.{◌≡◌, ◌<◌, ◌≤◌, ◌+◌, ℕ, true, Some, None};
ghost use Rattle.blossom_arena.specs.Family.{is_vertex, members_of};
ghost use Rattle.search_heap.specs.declared.item.Item.TheVariants.{Edge as OfEdge};
ghost use Rattle.search_heap.specs.Moments.{moment_of};
ghost use Rattle.blossom_arena.specs.declared.label.Label.TheVariants.{Outer, Inner};
ghost use Rattle.alt_forest.specs.State.{IsOutermost, IsMate};
ghost use Rattle.alt_forest.specs.Counts.{is_outside, outside_among, tree_count, exposed_count};
ghost use Rattle.alt_forest.specs.Counts.{measure, IsPlanted};
ghost use Rattle.alt_forest.specs.Entries.{IsQueued, entry_count, looks_left, outside_ends};
ghost use Rattle.alt_forest.specs.Events.{CanGrow};
ghost use Rattle.alt_forest.specs.Searches.{IsSound, state_of, label_at, edge_in, put};
ghost use Rattle.alt_forest.specs.TreeNodes.{HasTreeNodes, tree_id_at};
ghost use Rattle.tree_steps.specs.Grown.{grown};
ghost use Rattle.tree_steps.specs.Left.{IsStep};

use crate::insertion::insert_node;
use crate::scanning::{look_on, scan_node};
use alt_forest::{Label, Search, set_edge, set_label};
use base_types::{EdgeId, Steps, VertexId};
use blossom_arena::NodeId;
use std::sync::ledger::Ledger;
use weighted_graph::Graph;

/// The node labelled out that a grow takes in.
fn far_node(search: &Search, e: EdgeId) -> NodeId
    requires sound { IsSound search.now }
    requires possible { CanGrow (state_of search.now) e }
    ensures { (g : CanGrow (state_of search.now) e) → result ≡ g.far }
{
    let (u, v, _) = search.graph.edge(e);
    let near = search.arena.outermost(u);
    let far = search.arena.outermost(v);
    if search.label(near) == Label::Outer {
        return far;
    }
    near
}

/// The vertex that is kept for the node that a grow's two nodes hang under.
fn near_tree_id(search: &Search, e: EdgeId) -> VertexId
    requires sound { IsSound search.now }
    requires listed { HasTreeNodes search.now }
    requires possible { CanGrow (state_of search.now) e }
    ensures vertex { is_vertex search.now.graph.vertices result ≡ true }
    ensures kept { (g : CanGrow (state_of search.now) e)
        → tree_id_at search.now.tree_nodes.tree_ids g.near ≡ Some result }
{
    let (u, v, _) = search.graph.edge(e);
    let node = search.arena.outermost(u);
    if search.label(node) == Label::Outer {
        return search.root_vertex(node);
    }
    let other = search.arena.outermost(v);
    search.root_vertex(other)
}

/// The node at the other end of a node's mate; the node itself where it has none.
fn mate_node(search: &Search, node: NodeId) -> NodeId
    requires sound { IsSound search.now }
    requires outermost { IsOutermost (state_of search.now) node }
    ensures { (f mate : ℕ) → edge_in search.now.mates.items node ≡ Some f
        → IsMate (state_of search.now) node f mate → result ≡ mate }
{
    match search.mate(node) {
        Some(f) => search.other_node(f, node),
        None => node,
    }
}

/// Labels the node labelled out at the far end of a tight edge inner, hangs it by that edge, and
/// labels its mate outer. It answers the two.
fn take_in(search: &mut Search, e: EdgeId) -> (NodeId, NodeId)
    requires sound { IsSound search.old }
    requires possible { CanGrow (state_of search.old) e }
    ensures far { (g : CanGrow (state_of search.old) e) → result.0 ≡ g.far }
    ensures mate { (g : CanGrow (state_of search.old) e)
        → IsMate (state_of search.old) g.far g.mate_edge result.1 }
    ensures grown { (g : CanGrow (state_of search.old) e)
        → state_of search.new ≡ grown (state_of search.old) e g.far result.1 }
    ensures frame { search.new
        ≡ record search.old { labels = search.new.labels; parents = search.new.parents } }
    ensures sound { IsSound search.new }
{
    let far = far_node(search, e);
    let mate = mate_node(search, far);
    set_label(&mut search.labels, far, Label::Inner);
    set_label(&mut search.labels, mate, Label::Outer);
    set_edge(&mut search.parents, far, Some(e));
    (far, mate)
}

/// What a grow does to the trees: it takes in the far node of the edge and that one's mate, lists
/// both, and notes the mate's vertices, and no others, as those whose edges are to be looked at. It
/// answers the far node, which has no moment yet.
pub(crate) fn extend_tree(search: &mut Search, e: EdgeId) -> NodeId
    requires sound { IsSound search.old }
    requires listed { HasTreeNodes search.old }
    requires possible { CanGrow (state_of search.old) e }
    ensures far { (g : CanGrow (state_of search.old) e) → result ≡ g.far }
    ensures mate { (g : CanGrow (state_of search.old) e)
        → (mate : ℕ) × IsMate (state_of search.old) g.far g.mate_edge mate
        × (search.new.scanned.items ≡ members_of search.old.arena.blossoms mate) }
    ensures grown { (g : CanGrow (state_of search.old) e) (mate : ℕ)
        → IsMate (state_of search.old) g.far g.mate_edge mate
        → state_of search.new ≡ grown (state_of search.old) e g.far mate }
    ensures frame { search.new ≡ record search.old {
      arena = record search.old.arena { motions = search.new.arena.motions };
      labels = search.new.labels;
      parents = search.new.parents;
      tree_nodes = search.new.tree_nodes;
      scanned = search.new.scanned;
    } }
    ensures sound { IsSound search.new }
    ensures listed { HasTreeNodes search.new }
    ensures step { IsStep (state_of search.old) (state_of search.new) search.new.scanned.items }
{
    let tree_id = near_tree_id(search, e);
    let (far, mate) = take_in(search, e);
    insert_node(search, far, tree_id);
    insert_node(search, mate, tree_id);
    scan_node(search, mate);
    far
}

/// Takes into a tree the node labelled out at the far end of a tight edge, which becomes inner, and
/// its mate, which becomes outer (chapter 24). The edge has no moment any more. It looks at the
/// edges at the mate's vertices, which get their moments, counts a step for each look and one for
/// the event, and takes no memory.
pub fn grow<L: Ledger>(search: &mut Search, graph: &Graph, e: EdgeId, steps: &mut Steps<L>)
    requires sound { IsSound search.old }
    requires event_times { IsQueued search.old }
    requires listed { HasTreeNodes search.old }
    requires same_graph { graph.now ≡ search.old.graph }
    requires possible { CanGrow (state_of search.old) e }

    // Takes a node and its mate into a tree, and changes nothing else that isn't named.
    ensures grown { (g : CanGrow (state_of search.old) e) (mate : ℕ)
        → IsMate (state_of search.old) g.far g.mate_edge mate
        → state_of search.new ≡ grown (state_of search.old) e g.far mate }
    ensures frame { search.new ≡ record search.old {
      arena = record search.old.arena { motions = search.new.arena.motions };
      labels = search.new.labels;
      parents = search.new.parents;
      queue = search.new.queue;
      tree_nodes = search.new.tree_nodes;
      scanned = search.new.scanned;
    } }
    ensures sound { IsSound search.new }
    ensures event_times { IsQueued search.new }

    // Takes the event time of its own edge away.
    ensures taken { moment_of search.new.queue (OfEdge e) ≡ None }
    ensures listed { HasTreeNodes search.new }
    ensures trees { tree_count (state_of search.new) ≡ tree_count (state_of search.old) }
    ensures exposed { exposed_count (state_of search.new) ≡ exposed_count (state_of search.old) }
    ensures all_rooted { IsPlanted (state_of search.old) → IsPlanted (state_of search.new) }
    ensures falls { measure (state_of search.new) < measure (state_of search.old) }
    ensures inside { (w : ℕ) → is_vertex search.old.graph.vertices w ≡ true
        → is_outside (state_of search.new) w ≡ true → is_outside (state_of search.old) w ≡ true }
    ensures blossoms { outside_among (state_of search.new) search.new.arena.blossoms
        ≤ outside_among (state_of search.old) search.old.arena.blossoms }

    // Inspects no more edge ends than there are at the vertices that come into an outer node, and
    // counts itself.
    ensures inspections { steps.new + looks_left (state_of search.new)
        ≤ steps.old + 1 + looks_left (state_of search.old) }
    ensures edge_ends { steps.new + outside_ends (state_of search.new)
        ≤ steps.old + 1 + outside_ends (state_of search.old) }
    ensures count { entry_count search.new.queue + steps.old + 2 ≤ entry_count search.old.queue
        + steps.new }
{
    steps.tick();
    let far = extend_tree(search, e);
    search.enter_blossom(far);
    look_on(search, graph, e, steps);
}

ghost use Rattle.std.specs.Prelude.{◌≡◌, ◌+◌, ◌<◌, ℕ, true, false, None, vec_len, length};
ghost use Rattle.std.specs.Prelude.{if◌then◌else◌};
ghost use Rattle.graph_theory.specs.Graph.{IsEdgeNumber};
ghost use Rattle.graph_theory.specs.Nested.{most_blossoms};
ghost use Rattle.blossom_arena.specs.Family.{is_vertex, is_child, chain_of};
ghost use Rattle.alt_forest.specs.Searches.{edge_in, put};
ghost use Rattle.augment.specs.Opening.{IsSpread, IsBare, CanMark, marked, up_to, spread_in};

use alt_forest::set_edge;
use base_types::{EdgeId, VertexId};
use blossom_arena::{Arena, NodeId};
use weighted_graph::Graph;

/// Keeps an edge for each node that holds a vertex, innermost first, before it comes to `stop`.
fn mark_holders(
    arena: &Arena,
    mates: &mut Vec<Option<EdgeId>>,
    v: VertexId,
    stop: NodeId,
    e: EdgeId,
)
    requires vertex { is_vertex arena.now.vertex_count v ≡ true }
    requires places { arena.now.vertex_count + most_blossoms arena.now.vertex_count
        < vec_len mates.old }
    ensures mates { edge_in mates.new.items
        ≡ marked (edge_in mates.old.items) (up_to (chain_of arena.now.blossoms v) stop) e }
    ensures len { vec_len mates.new ≡ vec_len mates.old }
{
    for holder in arena.chain(v) {
        if holder.number() == stop.number() {
            return;
        }
        set_edge(mates, holder, Some(e));
    }
}

/// Keeps an edge for each node that holds an end of it and lies within a blossom, or for all that
/// hold an end where `stop` isn't a node.
pub(crate) fn mark_ends(
    arena: &Arena,
    graph: &Graph,
    mates: &mut Vec<Option<EdgeId>>,
    stop: NodeId,
    e: EdgeId,
)
    requires vertices { arena.now.vertex_count ≡ graph.now.vertices }
    requires edge { IsEdgeNumber graph.now e }
    requires places { arena.now.vertex_count + most_blossoms arena.now.vertex_count
        < vec_len mates.old }
    ensures mates { edge_in mates.new.items
        ≡ spread_in graph.now arena.now.blossoms stop (edge_in mates.old.items) e }
    ensures len { vec_len mates.new ≡ vec_len mates.old }
{
    let (u, v, _) = graph.edge(e);
    mark_holders(arena, mates, u, stop, e);
    mark_holders(arena, mates, v, stop, e);
}

/// Whether a node lies within another one.
fn is_child(arena: &Arena, node: NodeId) -> bool
    ensures { result ≡ is_child arena.now.blossoms node }
{
    if !arena.is_node(node) {
        return false;
    }
    !arena.is_outermost(node)
}

/// Keeps no edge for a node that lies within another one.
fn clear_child(arena: &Arena, mates: &mut Vec<Option<EdgeId>>, node: NodeId)
    requires { node < vec_len mates.old }
    ensures mates { edge_in mates.new.items
        ≡ (if is_child arena.now.blossoms node then put (edge_in mates.old.items) node None
        else edge_in mates.old.items) }
    ensures len { vec_len mates.new ≡ vec_len mates.old }
{
    if is_child(arena, node) {
        set_edge(mates, node, None);
    }
}

/// Keeps no edge for any node that lies within another one.
pub(crate) fn clear_children(arena: &Arena, mates: &mut Vec<Option<EdgeId>>)
    requires places { arena.now.vertex_count + most_blossoms arena.now.vertex_count
        < vec_len mates.old }
    ensures within { (c : ℕ) → is_child arena.now.blossoms c ≡ true
        → edge_in mates.new.items c ≡ None }
    ensures outermost { (c : ℕ) → is_child arena.now.blossoms c ≡ false
        → edge_in mates.new.items c ≡ edge_in mates.old.items c }
    ensures len { vec_len mates.new ≡ vec_len mates.old }
{
    for number in 0..arena.node_limit() {
        clear_child(arena, mates, NodeId::new(number + 1));
    }
}

/// The edge that is kept for a node, if any is.
pub(crate) fn edge_for(edges: &[Option<EdgeId>], node: NodeId) -> Option<EdgeId>
    requires place { node < length edges.now }
    ensures { result ≡ edge_in edges.now node }
{
    edges[node.number() as usize]
}

/// Keeps the mate of a node, if it is outermost, for all nodes that hold an end of it.
fn mark_mate(arena: &Arena, graph: &Graph, mates: &mut Vec<Option<EdgeId>>, node: NodeId)
    requires possible { CanMark graph.now arena.now (edge_in mates.old.items) }
    requires places { arena.now.vertex_count + most_blossoms arena.now.vertex_count
        < vec_len mates.old }
    ensures bare { IsBare graph.now arena.now.blossoms (edge_in mates.new.items) }
    ensures spread { IsSpread graph.now arena.now.blossoms (edge_in mates.new.items) node }
    ensures keeps { (a : ℕ) → IsSpread graph.now arena.now.blossoms (edge_in mates.old.items) a
        → IsSpread graph.now arena.now.blossoms (edge_in mates.new.items) a }
    ensures outermost { (c : ℕ) → is_child arena.now.blossoms c ≡ false
        → edge_in mates.new.items c ≡ edge_in mates.old.items c }
    ensures len { vec_len mates.new ≡ vec_len mates.old }
{
    if !arena.is_outermost(node) {
        return;
    }
    if let Some(e) = edge_for(mates, node) {
        mark_ends(arena, graph, mates, NodeId::new(0), e);
    }
}

/// Keeps the mate of each outermost node for all nodes that hold an end of it.
pub(crate) fn mark_mates(arena: &Arena, graph: &Graph, mates: &mut Vec<Option<EdgeId>>)
    requires possible { CanMark graph.now arena.now (edge_in mates.old.items) }
    requires places { arena.now.vertex_count + most_blossoms arena.now.vertex_count
        < vec_len mates.old }
    ensures bare { IsBare graph.now arena.now.blossoms (edge_in mates.new.items) }
    ensures spread { (a : ℕ) → IsSpread graph.now arena.now.blossoms (edge_in mates.new.items) a }
    ensures outermost { (c : ℕ) → is_child arena.now.blossoms c ≡ false
        → edge_in mates.new.items c ≡ edge_in mates.old.items c }
    ensures len { vec_len mates.new ≡ vec_len mates.old }
{
    for number in 0..arena.node_limit() {
        mark_mate(arena, graph, mates, NodeId::new(number + 1));
    }
}

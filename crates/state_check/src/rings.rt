ghost use Rattle.std.specs.Prelude.{◌≡◌, ◌↔◌, ℕ, true};
ghost use Rattle.graph_theory.specs.Parts.{holds};
ghost use Rattle.blossom_arena.specs.Family.{is_node, names_of, members_of};
ghost use Rattle.alt_forest.specs.Searches.{HasShape, state_of};
ghost use Rattle.state_check.specs.Checks.{node_or, LinkHolds, RingHolds};

use crate::edges::{is_edge, is_pair, slack_at};
use alt_forest::Search;
use base_types::VertexId;
use blossom_arena::{Arena, Link, NodeId};

/// Whether a node has a vertex.
fn has_member(arena: &Arena, node: NodeId, v: VertexId) -> bool
    requires { is_node arena.now.vertex_count arena.now.blossoms node ≡ true }
    ensures { (result ≡ true) ↔ (holds (members_of arena.now.blossoms node) v ≡ true) }
{
    for member in arena.members(node) {
        if member.number() == v.number() {
            return true;
        }
    }
    false
}

/// Whether the edge of a link leads within a blossom from its node to the next one, and is tight.
fn link_holds(search: &Search, b: NodeId, link: Link, next: u32) -> bool
    requires shape { HasShape search.now }
    requires blossom { holds (names_of search.now.arena.blossoms) b ≡ true }
    ensures { (result ≡ true) ↔ LinkHolds (state_of search.now) b link next }
{
    if !is_edge(&search.graph, link.edge) {
        return false;
    }
    let (u, v, _) = search.graph.edge(link.edge);
    if !has_member(&search.arena, b, u) {
        return false;
    }
    if !has_member(&search.arena, b, v) {
        return false;
    }
    let near = search.arena.child_holding(b, u).number();
    let far = search.arena.child_holding(b, v).number();
    if !is_pair(near, far, link.node.number(), next) {
        return false;
    }
    slack_at(search, link.edge) == 0
}

/// The node of a link, or what follows the last one.
fn node_or(link: Option<Link>, after: u32) -> u32
    ensures { result ≡ node_or link after }
{
    match link {
        Some(link) => link.node.number(),
        None => after,
    }
}

/// Whether the circuit of a blossom is a ring of tight edges.
fn ring_holds(search: &Search, b: NodeId) -> bool
    requires shape { HasShape search.now }
    requires blossom { holds (names_of search.now.arena.blossoms) b ≡ true }
    ensures { (result ≡ true) ↔ RingHolds (state_of search.now) b }
{
    let mut following = search.arena.ring(b);
    let first = node_or(following.next(), 0);
    for link in search.arena.ring(b) {
        if !link_holds(search, b, link, node_or(following.next(), first)) {
            return false;
        }
    }
    true
}

/// Whether the circuit of each blossom is a ring of tight edges.
pub(crate) fn rings_hold(search: &Search) -> bool
    requires shape { HasShape search.now }
    ensures { (result ≡ true)
        ↔ ((b : ℕ) → holds (names_of search.now.arena.blossoms) b ≡ true
        → RingHolds (state_of search.now) b) }
{
    for b in search.arena.blossoms() {
        if !ring_holds(search, b) {
            return false;
        }
    }
    true
}

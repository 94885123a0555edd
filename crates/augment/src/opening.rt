ghost use Rattle.graph_theory.specs.Parts.{holds};
ghost use Rattle.std.specs.Prelude.{◌≡◌, ◌<◌, ◌+◌, ℕ, true, [], ◌∷◌, None, vec_len, length};
ghost use Rattle.std.specs.Prelude.{slice_index};
ghost use Rattle.std.specs.List.{AllByRecursion};
ghost use Rattle.std.specs.Option.{ForSome};
ghost use Rattle.graph_theory.specs.Graph.{IsEdgeNumber, IsPerfect};
ghost use Rattle.blossom_arena.specs.declared.links.Link.{Link};
ghost use Rattle.graph_theory.specs.Nested.{most_blossoms};
ghost use Rattle.blossom_arena.specs.Family.{Blossom, is_vertex, names_of, ring_of, members_of};
ghost use Rattle.blossom_arena.specs.Family.{older_than};
ghost use Rattle.alt_forest.specs.State.{IsOutermost, IsTight, next_node};
ghost use Rattle.alt_forest.specs.Searches.{IsSound, state_of, edge_in};
ghost use Rattle.alt_forest.specs.Counts.{IsMatched};
ghost use Rattle.augment.specs.Matching.{IsVertexMate, AreVertexMates, MissesOneEach, mate_counts};
ghost use Rattle.augment.specs.Matching.{leaving};
ghost use Rattle.gallai_theory.specs.Matchings.{IsMatched as IsMatchedBy};
ghost use Rattle.augment.specs.Opening.{IsBare, IsSpread, CanOpen, CanUnpack, Opens, Unpacks};
ghost use Rattle.augment.specs.Opening.{AreInner};
ghost use Rattle.augment.specs.Opening.{links_before, links_after, spread_in, paired};
ghost use Rattle.augment.specs.Opening.{first_matched, waiting_after, base_in};

use crate::marking::{clear_children, mark_ends, mark_mates};
use alt_forest::Search;
use base_types::EdgeId;
use blossom_arena::{Arena, Link, NodeId, Ring};
use weighted_graph::Graph;

/// The first node of a circuit's links that has an edge kept for it, or 0 if none has.
fn matched_node(mates: &[Option<EdgeId>], links: Ring<'_>) -> NodeId
    requires { AllByRecursion (λ (l : Link). l.node < length mates.now) links }
    ensures { result ≡ first_matched (edge_in mates.now) links.entry }
{
    for link in links {
        if mates[link.node.number() as usize].is_some() {
            return link.node;
        }
    }
    NodeId::new(0)
}

/// The links of a circuit after that of a node.
fn links_behind(links: Ring<'_>, node: NodeId) -> Ring<'_>
    ensures { result ≡ links_after links.entry node }
{
    let mut rest = links;
    while let Some(link) = rest.next() {
        if link.node.number() == node.number() {
            return rest;
        }
    }
    rest
}

/// Matches a link's node with that of the link that waits, or lets it wait if there is none. The
/// edge between them is kept for the nodes within them that hold its ends, too.
fn pair(
    arena: &Arena,
    graph: &Graph,
    mates: &mut Vec<Option<EdgeId>>,
    b: NodeId,
    waiting: Option<Link>,
    link: Link,
) -> Option<Link>
    requires vertices { arena.now.vertex_count ≡ graph.now.vertices }
    requires places { arena.now.vertex_count + most_blossoms arena.now.vertex_count
        < vec_len mates.old }
    requires first { ForSome waiting (λ (k : Link). IsEdgeNumber graph.now k.edge) }
    ensures mates { edge_in mates.new.items ≡ paired (spread_in graph.now arena.now.blossoms b)
        (edge_in mates.old.items) waiting (link ∷ []) }
    ensures waiting { result ≡ waiting_after waiting (link ∷ []) }
    ensures len { vec_len mates.new ≡ vec_len mates.old }
{
    match waiting {
        Some(first) => {
            mark_ends(arena, graph, mates, b, first.edge);
            None
        }
        None => Some(link),
    }
}

/// Matches the nodes of a blossom's links two by two, up to that of a node, and answers the link
/// that still waits.
fn pair_until(
    arena: &Arena,
    graph: &Graph,
    mates: &mut Vec<Option<EdgeId>>,
    b: NodeId,
    links: Ring<'_>,
    node: NodeId,
    waiting: Option<Link>,
) -> Option<Link>
    requires vertices { arena.now.vertex_count ≡ graph.now.vertices }
    requires places { arena.now.vertex_count + most_blossoms arena.now.vertex_count
        < vec_len mates.old }
    requires first { ForSome waiting (λ (k : Link). IsEdgeNumber graph.now k.edge) }
    requires each { AllByRecursion (λ (l : Link). IsEdgeNumber graph.now l.edge) links }
    ensures mates { edge_in mates.new.items ≡ paired (spread_in graph.now arena.now.blossoms b)
        (edge_in mates.old.items) waiting (links_before links.entry node) }
    ensures waiting { result ≡ waiting_after waiting (links_before links.entry node) }
    ensures first { ForSome result (λ (k : Link). IsEdgeNumber graph.now k.edge) }
    ensures len { vec_len mates.new ≡ vec_len mates.old }
{
    let mut first = waiting;
    for link in links {
        if link.node.number() == node.number() {
            return first;
        }
        first = pair(arena, graph, mates, b, first, link);
    }
    first
}

/// The first node of a circuit's links, or 0 if there is none.
fn first_node(links: Ring<'_>) -> NodeId
    ensures { result ≡ next_node links.entry 0 }
{
    let mut rest = links;
    match rest.next() {
        Some(link) => link.node,
        None => NodeId::new(0),
    }
}

/// The child of a blossom that isn't paired within it: the one for which an edge is kept; if there
/// is none, the given one, and the first where 0 is given.
fn base_of(arena: &Arena, mates: &[Option<EdgeId>], b: NodeId, inner: NodeId) -> NodeId
    requires node { holds (names_of arena.now.blossoms) b ≡ true }
    requires places { AllByRecursion (λ (l : Link). l.node < length mates.now)
        (ring_of arena.now.blossoms b) }
    ensures { result ≡ base_in (edge_in mates.now) (ring_of arena.now.blossoms b) inner }
{
    let matched = matched_node(mates, arena.ring(b));
    if matched.number() != 0 {
        return matched;
    }
    if inner.number() != 0 {
        return inner;
    }
    first_node(arena.ring(b))
}

/// Opens a blossom: its child that holds the end of the blossom's mate, for which that edge is kept
/// already, keeps it, and the others are paired round the circuit. Where the blossom has no mate,
/// one child is left without one: the given one, and the first where 0 is given.
fn open(arena: &Arena, graph: &Graph, mates: &mut Vec<Option<EdgeId>>, b: NodeId, inner: NodeId)
    requires possible { CanOpen graph.now arena.now (edge_in mates.old.items) b inner }
    requires places { arena.now.vertex_count + most_blossoms arena.now.vertex_count
        < vec_len mates.old }
    ensures opens { Opens graph.now (older_than arena.now.blossoms b) b inner
        (ring_of arena.now.blossoms b) (members_of arena.now.blossoms b)
        (edge_in mates.old.items) (edge_in mates.new.items) }
    ensures bare { IsBare graph.now (older_than arena.now.blossoms b) (edge_in mates.new.items) }
    ensures spread { (a : ℕ) → IsSpread graph.now (older_than arena.now.blossoms b)
        (edge_in mates.new.items) a }
    ensures len { vec_len mates.new ≡ vec_len mates.old }
{
    let base = base_of(arena, mates, b, inner);
    let behind = links_behind(arena.ring(b), base);
    let waiting = pair_until(arena, graph, mates, b, behind, base, None);
    pair_until(arena, graph, mates, b, arena.ring(b), base, waiting);
}

/// The node that a table has for a node, or 0 if it has none.
fn entry_for(table: &[u32], node: NodeId) -> NodeId
    ensures { result ≡ slice_index table.now node }
{
    let place = node.number() as usize;
    if place >= table.len() {
        return NodeId::new(0);
    }
    NodeId::new(table[place])
}

/// Opens all blossoms, the newest first. Of one that has no mate the child that `inner` has for it
/// is left without one, and the first where it has none.
pub(crate) fn open_all(arena: &Arena, graph: &Graph, mates: &mut Vec<Option<EdgeId>>, inner: &[u32])
    requires possible { CanUnpack graph.now arena.now (edge_in mates.old.items) }
    requires places { arena.now.vertex_count + most_blossoms arena.now.vertex_count
        < vec_len mates.old }
    requires inner { AreInner arena.now.blossoms (λ b. slice_index inner.now b) }
    ensures unpacks { Unpacks graph.now arena.now.blossoms (λ b. slice_index inner.now b)
        (edge_in mates.old.items) (edge_in mates.new.items) }
    ensures len { vec_len mates.new ≡ vec_len mates.old }
{
    for b in arena.blossoms() {
        open(arena, graph, mates, b, entry_for(inner, b));
    }
}

/// Gives each vertex its edge of a matching, a perfect one where each outermost node has a mate; of
/// an exposed node the first member is left without an edge. The blossoms are opened, the newest
/// first, and the circuit of each is matched round the child that holds the end of the blossom's
/// mate, or round its first child (chapters 24 and 26). The blossoms, the moments and all else
/// stay. It takes time linear in the vertices and the circuits, since an edge of the matching is
/// kept for all nodes that hold its ends as soon as it is known, and the nodes on each way up are
/// those of no other; and it takes no memory.
pub fn unpack(search: &mut Search)
    requires sound { IsSound search.old }
    ensures sound { IsSound search.new }

    // Opening all blossoms leaves exactly one vertex of each exposed node without a mate, and none
    // of another.
    ensures matching { IsMatchedBy search.old.graph
        (mate_counts search.old.graph (edge_in search.new.mates.items)) }
    ensures misses { MissesOneEach (state_of search.new) (edge_in search.new.mates.items) }
    ensures some { AreVertexMates search.old.graph (edge_in search.new.mates.items) }

    // If no node is exposed, the vertices have a perfect matching of tight edges, and exactly one
    // edge leaves each blossom.
    ensures mates { IsMatched (state_of search.old) → (v : ℕ)
        → is_vertex search.old.graph.vertices v ≡ true
        → IsVertexMate search.old.graph (edge_in search.new.mates.items) v }
    ensures perfect { IsMatched (state_of search.old)
        → IsPerfect search.old.graph
        (mate_counts search.old.graph (edge_in search.new.mates.items)) }
    ensures tight { (v e : ℕ) → is_vertex search.old.graph.vertices v ≡ true
        → edge_in search.new.mates.items v ≡ Some e → IsTight (state_of search.new) e }
    ensures leaves { IsMatched (state_of search.old)
        → AllByRecursion (λ (b : Blossom). leaving search.old.graph
        (mate_counts search.old.graph (edge_in search.new.mates.items)) b.members ≡ 1)
        search.old.arena.blossoms }
    ensures outermost { (a : ℕ) → IsOutermost (state_of search.old) a
        → edge_in search.new.mates.items a ≡ edge_in search.old.mates.items a }
    ensures queue { search.new.queue ≡ search.old.queue }
    ensures frame { search.new ≡ record search.old { mates = search.new.mates } }
{
    clear_children(&search.arena, &mut search.mates);
    mark_mates(&search.arena, &search.graph, &mut search.mates);
    open_all(&search.arena, &search.graph, &mut search.mates, &[]);
}

ghost use Rattle.std.specs.Prelude.{◌≡◌, ◌+◌, ◌≤◌, ◌++◌, ℕ, true, length, vec_len};
ghost use Rattle.std.specs.Vec.{vec_capacity};
ghost use Rattle.graph_theory.specs.Parts.{holds};
ghost use Rattle.blossom_arena.specs.Family.{names_of, nodes_of, in_ring, ring_of};
ghost use Rattle.alt_forest.specs.State.{IsOutermost};
ghost use Rattle.alt_forest.specs.Trees.{path_of};
ghost use Rattle.alt_forest.specs.Searches.{HasShape, IsSound, state_of};
ghost use Rattle.tree_steps.specs.Circuits.{before, links_above, circuit_of, shifted, last_edge};
ghost use Rattle.tree_steps.specs.Expanded.{IsRound};

use crate::way_up::push_way;
use alt_forest::Search;
use base_types::EdgeId;
use blossom_arena::{Link, NodeId, Ring};

/// Gives each node the edge that led to it, the first one the given edge, and answers the edge that
/// leads on from the last one.
fn shift_edges(links: &mut Vec<Link>, first: EdgeId) -> EdgeId
    ensures links { links.new.items ≡ shifted first links.old.items }
    ensures last { result ≡ last_edge first links.old.items }
    ensures len { vec_len links.new ≡ vec_len links.old }
    ensures capacity { vec_capacity links.new ≡ vec_capacity links.old }
{
    let mut edge = first;
    for place in 0..links.len() {
        let link = links[place];
        links[place] = Link {
            node: link.node,
            edge,
        };
        edge = link.edge;
    }
    edge
}

/// Fills the circuit with the ways up from two nodes to the first one that they share, its base,
/// closed by an edge between the two.
pub(crate) fn fill_circuit(search: &mut Search, a: NodeId, b: NodeId, base: NodeId, e: EdgeId)
    requires sound { IsSound search.old }
    requires a_outermost { IsOutermost (state_of search.old) a }
    requires b_outermost { IsOutermost (state_of search.old) b }
    requires a_there { holds (path_of (state_of search.old) a) base ≡ true }
    requires b_there { holds (path_of (state_of search.old) b) base ≡ true }
    requires room { length (before (path_of (state_of search.old) a) base)
        + length (before (path_of (state_of search.old) b) base) + 1
        ≤ vec_capacity search.old.circuit }
    ensures circuit { search.new.circuit.items ≡ circuit_of base e
        (links_above (state_of search.old) (before (path_of (state_of search.old) a) base))
        (links_above (state_of search.old) (before (path_of (state_of search.old) b) base)) }
    ensures frame { search.new ≡ record search.old { circuit = search.new.circuit } }
    ensures sound { IsSound search.new }
{
    search.circuit.clear();
    push_way(search, a, base);
    let edge = shift_edges(&mut search.circuit, e);
    search.circuit.push_reserved(Link { node: base, edge });
    search.circuit.reverse();
    push_way(search, b, base);
}

/// Puts links behind these.
fn push_links(circuit: &mut Vec<Link>, links: Ring<'_>)
    requires room { vec_len circuit.old + length links ≤ vec_capacity circuit.old }
    ensures items { circuit.new.items ≡ circuit.old.items ++ links.entry }
    ensures capacity { vec_capacity circuit.new ≡ vec_capacity circuit.old }
{
    for link in links {
        circuit.push_reserved(link);
    }
}

/// How many links come before that of a node: all of them if none is that node's.
pub(crate) fn place_of(links: &[Link], node: NodeId) -> usize
    ensures place { result ≡ length (before (nodes_of links.now) node) }
    ensures within { result ≤ length links.now }
{
    for place in 0..links.len() {
        if links[place].node.number() == node.number() {
            return place;
        }
    }
    links.len()
}

/// Fills the circuit with the links of a blossom's circuit from behind that of its base round to
/// it, and answers the edge of the base's link.
pub(crate) fn fill_round(search: &mut Search, b: NodeId, base: NodeId) -> EdgeId
    requires shape { HasShape search.old }
    requires blossom { holds (names_of search.old.arena.blossoms) b ≡ true }
    requires base { in_ring (ring_of search.old.arena.blossoms b) base ≡ true }
    ensures round { IsRound (ring_of search.old.arena.blossoms b) base result
        search.new.circuit.items }
    ensures room { vec_len search.new.circuit + 1 ≤ vec_capacity search.new.circuit }
    ensures frame { search.new ≡ record search.old { circuit = search.new.circuit } }
    ensures capacity { vec_capacity search.new.circuit ≡ vec_capacity search.old.circuit }
{
    search.circuit.clear();
    push_links(&mut search.circuit, search.arena.ring(b));
    let place = place_of(&search.circuit, base);
    search.circuit.rotate_left(place + 1);
    match search.circuit.pop() {
        Some(link) => link.edge,
        None => EdgeId::new(0),
    }
}

ghost use Rattle.std.specs.Prelude.{◌≡◌, ◌↔◌, true, length};
ghost use Rattle.std.specs.Vec.{vec_capacity};
ghost use Rattle.graph_theory.specs.Graph.{HasNoLoop};
ghost use Rattle.alt_forest.specs.Searches.{IsSearchGraph, HasRoom, HasShape, IsSound};

use crate::labels::labels_fit;
use crate::mates::mates_hold;
use crate::parity::exposed_agree;
use crate::rings::rings_hold;
use crate::slacks::slacks_hold;
use crate::ways::ways_end;
use alt_forest::Search;
use graph_theory::{GRAPH_EDGE_LIMIT, GRAPH_VERTEX_LIMIT};
use weighted_graph::Graph;

/// Whether no edge of a graph is a loop.
fn has_no_loop(graph: &Graph) -> bool
    ensures { (result ≡ true) ↔ HasNoLoop graph.now }
{
    for edge in graph.edge_list() {
        if edge.u.number() == edge.v.number() {
            return false;
        }
    }
    true
}

/// Whether a graph can be searched: it is within the limits, and has no loops.
pub fn is_search_graph(graph: &Graph) -> bool
    ensures { (result ≡ true) ↔ IsSearchGraph graph.now }
{
    if graph.vertices() > GRAPH_VERTEX_LIMIT {
        return false;
    }
    if graph.edges() > GRAPH_EDGE_LIMIT {
        return false;
    }
    has_no_loop(graph)
}

/// Whether the lists of a search by node have their lengths, and its arena is one for its graph.
fn has_shape(search: &Search) -> bool
    requires room { HasRoom search.now.graph search.now.incidence search.now.queue
        (length search.now.tree_nodes.tree_ids) (vec_capacity search.now.scanned) }
    ensures { (result ≡ true) ↔ HasShape search.now }
{
    if !is_search_graph(&search.graph) {
        return false;
    }
    if search.arena.vertex_count() != search.graph.vertices() {
        return false;
    }
    let places = search.arena.node_limit() as usize + 1;
    if search.labels.len() != places {
        return false;
    }
    if search.parents.len() != places {
        return false;
    }
    if search.mates.len() != places {
        return false;
    }
    search.circuit.capacity() >= search.graph.vertices() as usize
}

/// Whether a search is in the state of a search (chapters 24 and 26), exactly: it recomputes each
/// part from the lists. It is for tests of searches whose fields were written by hand, and slow:
/// for n vertices and m edges its time is at most linear in n (n + m). It counts no step and takes
/// no memory. Which edges are listed by vertex, and what the queue and the tree ids have places
/// for, is the caller's to know: `Search::new` makes them fit the graph, and no call changes that.
pub fn check_search(search: &Search) -> bool
    requires room { HasRoom search.now.graph search.now.incidence search.now.queue
        (length search.now.tree_nodes.tree_ids) (vec_capacity search.now.scanned) }

    // A plain check of a search, for tests: it passes exactly the states that are sound.
    ensures exact { (result ≡ true) ↔ IsSound search.now }
{
    if !has_shape(search) {
        return false;
    }
    if !rings_hold(search) {
        return false;
    }
    if !slacks_hold(search) {
        return false;
    }
    if !mates_hold(search) {
        return false;
    }
    if !exposed_agree(search) {
        return false;
    }
    if !labels_fit(search) {
        return false;
    }
    ways_end(search)
}

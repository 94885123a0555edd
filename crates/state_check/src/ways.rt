ghost use Rattle.std.specs.Prelude.{◌≡◌, ◌↔◌, ◌≤◌, ℕ, true, length};
ghost use Rattle.std.specs.Option.{ForSome};
ghost use Rattle.graph_theory.specs.Graph.{IsEdgeNumber};
ghost use Rattle.alt_forest.specs.State.{IsOutermost};
ghost use Rattle.alt_forest.specs.Trees.{up_edge, up_of, path_of, node_limit};
ghost use Rattle.alt_forest.specs.Searches.{HasShape, state_of};
ghost use Rattle.state_check.specs.Checks.{MateHolds, FitsHere};

use crate::edges::is_outer;
use alt_forest::{Label, Search};
use base_types::EdgeId;
use blossom_arena::NodeId;

/// The edge from an outermost node towards its root.
fn up_edge(search: &Search, node: NodeId) -> Option<EdgeId>
    requires shape { HasShape search.now }
    requires outermost { IsOutermost (state_of search.now) node }
    ensures { result ≡ up_edge (state_of search.now) node }
{
    match search.label(node) {
        Label::Outer => search.mate(node),
        Label::Inner => search.parent(node),
        Label::Out => None,
    }
}

/// The next node towards the root, or 0.
fn up(search: &Search, node: u32) -> u32
    requires shape { HasShape search.now }
    requires outermost { IsOutermost (state_of search.now) node }
    requires edge { ForSome (up_edge (state_of search.now) node) (IsEdgeNumber search.now.graph) }
    ensures { result ≡ up_of (state_of search.now) node }
{
    match up_edge(search, NodeId::new(node)) {
        Some(e) => search.other_node(e, NodeId::new(node)).number(),
        None => 0,
    }
}

/// Whether the way up from an outermost node comes to an end before it has come to as many nodes as
/// there can be.
fn comes_to_end(search: &Search, a: u32) -> bool
    requires shape { HasShape search.now }
    requires outermost { IsOutermost (state_of search.now) a }
    requires mates { (a : ℕ) → IsOutermost (state_of search.now) a
        → MateHolds (state_of search.now) a }
    requires labels { (a : ℕ) → IsOutermost (state_of search.now) a
        → FitsHere (state_of search.now) a }
    ensures { (result ≡ true)
        ↔ (length (path_of (state_of search.now) a) ≤ node_limit search.now.graph.vertices) }
{
    let mut node = a;
    for _ in 0..search.arena.node_limit() {
        if node == 0 {
            return true;
        }
        node = up(search, node);
    }
    node == 0
}

/// Whether the way up from a node that is outermost comes to an end.
fn way_ends(search: &Search, a: u32) -> bool
    requires shape { HasShape search.now }
    requires mates { (a : ℕ) → IsOutermost (state_of search.now) a
        → MateHolds (state_of search.now) a }
    requires labels { (a : ℕ) → IsOutermost (state_of search.now) a
        → FitsHere (state_of search.now) a }
    ensures { (result ≡ true)
        ↔ (IsOutermost (state_of search.now) a
        → length (path_of (state_of search.now) a) ≤ node_limit search.now.graph.vertices) }
{
    if !is_outer(search, a) {
        return true;
    }
    comes_to_end(search, a)
}

/// Whether the way up from each outermost node comes to an end.
pub(crate) fn ways_end(search: &Search) -> bool
    requires shape { HasShape search.now }
    requires mates { (a : ℕ) → IsOutermost (state_of search.now) a
        → MateHolds (state_of search.now) a }
    requires labels { (a : ℕ) → IsOutermost (state_of search.now) a
        → FitsHere (state_of search.now) a }
    ensures { (result ≡ true)
        ↔ ((a : ℕ) → IsOutermost (state_of search.now) a
        → length (path_of (state_of search.now) a) ≤ node_limit search.now.graph.vertices) }
{
    for number in 1..search.arena.node_limit() + 1 {
        if !way_ends(search, number) {
            return false;
        }
    }
    true
}

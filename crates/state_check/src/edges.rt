ghost use Rattle.std.specs.Prelude.{◌≡◌, ◌↔◌, true};
ghost use Rattle.graph_theory.specs.Graph.{IsEdgeNumber};
ghost use Rattle.alt_forest.specs.State.{IsOutermost, Joins, slack_of};
ghost use Rattle.alt_forest.specs.Searches.{HasShape, state_of};
ghost use Rattle.state_check.specs.Checks.{ArePair};

use alt_forest::Search;
use base_types::EdgeId;
use blossom_arena::NodeId;
use graph_theory::Edge;
use weighted_graph::Graph;

/// Whether this is the number of an edge.
pub(crate) fn is_edge(graph: &Graph, e: EdgeId) -> bool
    ensures { (result ≡ true) ↔ IsEdgeNumber graph.now e }
{
    if e.number() < 1 {
        return false;
    }
    e.number() <= graph.edges()
}

/// Whether two nodes are these two.
pub(crate) fn is_pair(near: u32, far: u32, a: u32, b: u32) -> bool
    ensures { (result ≡ true) ↔ ArePair near far a b }
{
    if near == a {
        if far == b {
            return true;
        }
    }
    if near == b {
        return far == a;
    }
    false
}

/// Whether an edge joins two outermost nodes.
pub(crate) fn joins(search: &Search, e: EdgeId, a: u32, b: u32) -> bool
    requires shape { HasShape search.now }
    requires edge { IsEdgeNumber search.now.graph e }
    ensures { (result ≡ true) ↔ Joins search.now.graph search.now.arena.blossoms e a b }
{
    let (u, v, _) = search.graph.edge(e);
    is_pair(
        search.arena.outermost(u).number(),
        search.arena.outermost(v).number(),
        a,
        b,
    )
}

/// The slack of an edge. It counts no step.
pub(crate) fn slack_at(search: &Search, e: EdgeId) -> i128
    requires shape { HasShape search.now }
    requires edge { IsEdgeNumber search.now.graph e }
    ensures { result ≡ slack_of (state_of search.now) e }
{
    let (u, v, w) = search.graph.edge(e);
    search.slack_by(&Edge { u, v, w })
}

/// Whether this is the number of an outermost node.
pub(crate) fn is_outer(search: &Search, number: u32) -> bool
    requires shape { HasShape search.now }
    ensures { (result ≡ true) ↔ IsOutermost (state_of search.now) number }
{
    let node = NodeId::new(number);
    if !search.arena.is_node(node) {
        return false;
    }
    search.arena.is_outermost(node)
}

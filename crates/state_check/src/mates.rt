ghost use Rattle.std.specs.Prelude.{◌≡◌, ◌↔◌, ℕ, true, Some};
ghost use Rattle.alt_forest.specs.State.{IsOutermost, IsMate};
ghost use Rattle.alt_forest.specs.Trees.{other_node};
ghost use Rattle.alt_forest.specs.Searches.{HasShape, state_of};
ghost use Rattle.state_check.specs.Checks.{MateHolds, MateHas};

use crate::edges::{is_edge, is_outer, joins, slack_at};
use alt_forest::{Label, Search};
use base_types::EdgeId;
use blossom_arena::NodeId;

/// Whether two lists keep the same edge.
fn is_same_edge(edge: Option<EdgeId>, e: EdgeId) -> bool
    ensures { (result ≡ true) ↔ (edge ≡ Some e) }
{
    match edge {
        Some(other) => other.number() == e.number(),
        None => false,
    }
}

/// Whether an edge is the mate of an outermost node and of the node at its other end.
fn is_mate(search: &Search, a: u32, e: EdgeId) -> bool
    requires shape { HasShape search.now }
    ensures { (result ≡ true)
        ↔ IsMate (state_of search.now) a e
        (other_node search.now.graph search.now.arena.blossoms e a) }
{
    if !is_edge(&search.graph, e) {
        return false;
    }
    let b = search.other_node(e, NodeId::new(a)).number();
    if !joins(search, e, a, b) {
        return false;
    }
    if a == b {
        return false;
    }
    if slack_at(search, e) != 0 {
        return false;
    }
    is_same_edge(search.mate(NodeId::new(b)), e)
}

/// Whether the mate of a node that is outermost, if it has one, is that of both.
fn mate_holds(search: &Search, a: u32) -> bool
    requires shape { HasShape search.now }
    ensures { (result ≡ true)
        ↔ (IsOutermost (state_of search.now) a → MateHolds (state_of search.now) a) }
{
    if !is_outer(search, a) {
        return true;
    }
    match search.mate(NodeId::new(a)) {
        Some(e) => is_mate(search, a, e),
        None => true,
    }
}

/// Whether the mates of all outermost nodes are mutual.
pub(crate) fn mates_hold(search: &Search) -> bool
    requires shape { HasShape search.now }
    ensures { (result ≡ true)
        ↔ ((a : ℕ) → IsOutermost (state_of search.now) a → MateHolds (state_of search.now) a) }
{
    for number in 1..search.arena.node_limit() + 1 {
        if !mate_holds(search, number) {
            return false;
        }
    }
    true
}

/// Whether the mate of an outermost node, if it has one, has a label.
pub(crate) fn mate_has(search: &Search, a: u32, label: Label) -> bool
    requires shape { HasShape search.now }
    requires outermost { IsOutermost (state_of search.now) a }
    requires mate { MateHolds (state_of search.now) a }
    ensures { (result ≡ true) ↔ MateHas (state_of search.now) a label }
{
    match search.mate(NodeId::new(a)) {
        Some(e) => search.label(search.other_node(e, NodeId::new(a))) == label,
        None => true,
    }
}

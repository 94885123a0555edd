ghost use Rattle.std.specs.Prelude.{◌≡◌, ◌↔◌, ℕ, true, Some};
ghost use Rattle.alt_forest.specs.State.{IsOutermost};
ghost use Rattle.alt_forest.specs.Searches.{HasShape, state_of, edge_in};
ghost use Rattle.state_check.specs.Checks.{MateHolds, LeadsToOuter, Hangs, IsHung, FitsHere};

use crate::edges::{is_edge, is_outer, joins, slack_at};
use crate::mates::mate_has;
use alt_forest::{Label, Search};
use base_types::EdgeId;
use blossom_arena::NodeId;

/// Whether an edge is tight and leads from a node to an outer one.
fn leads_to_outer(search: &Search, a: u32, e: EdgeId) -> bool
    requires shape { HasShape search.now }
    ensures { (result ≡ true) ↔ LeadsToOuter (state_of search.now) a e }
{
    if !is_edge(&search.graph, e) {
        return false;
    }
    let b = search.other_node(e, NodeId::new(a)).number();
    if !joins(search, e, a, b) {
        return false;
    }
    if slack_at(search, e) != 0 {
        return false;
    }
    search.label(NodeId::new(b)) == Label::Outer
}

/// Whether an outermost node hangs by its parent under an outer one.
fn hangs(search: &Search, a: u32) -> bool
    requires shape { HasShape search.now }
    requires outermost { IsOutermost (state_of search.now) a }
    ensures { (result ≡ true) ↔ Hangs (state_of search.now) a }
{
    match search.parent(NodeId::new(a)) {
        Some(e) => leads_to_outer(search, a, e),
        None => false,
    }
}

/// Whether a node has a mate.
fn is_mated(search: &Search, a: u32) -> bool
    requires shape { HasShape search.now }
    requires outermost { IsOutermost (state_of search.now) a }
    ensures { (result ≡ true) ↔ ((e : ℕ) × (edge_in search.now.mates.items a ≡ Some e)) }
{
    match search.mate(NodeId::new(a)) {
        Some(_) => true,
        None => false,
    }
}

/// Whether an inner node hangs by its parent, and its mate is outer.
fn fits_inner(search: &Search, a: u32) -> bool
    requires shape { HasShape search.now }
    requires outermost { IsOutermost (state_of search.now) a }
    requires mate { MateHolds (state_of search.now) a }
    ensures { (result ≡ true) ↔ IsHung (state_of search.now) a }
{
    if !hangs(search, a) {
        return false;
    }
    if !is_mated(search, a) {
        return false;
    }
    mate_has(search, a, Label::Outer)
}

/// Whether the label of an outermost node fits those of the nodes beside it.
fn fits_here(search: &Search, a: u32) -> bool
    requires shape { HasShape search.now }
    requires outermost { IsOutermost (state_of search.now) a }
    requires mate { MateHolds (state_of search.now) a }
    ensures { (result ≡ true) ↔ FitsHere (state_of search.now) a }
{
    match search.label(NodeId::new(a)) {
        Label::Outer => mate_has(search, a, Label::Inner),
        Label::Inner => fits_inner(search, a),
        Label::Out => mate_has(search, a, Label::Out),
    }
}

/// Whether the label of a node that is outermost fits those of the nodes beside it.
fn label_fits(search: &Search, a: u32) -> bool
    requires shape { HasShape search.now }
    requires mates { (a : ℕ) → IsOutermost (state_of search.now) a
        → MateHolds (state_of search.now) a }
    ensures { (result ≡ true)
        ↔ (IsOutermost (state_of search.now) a → FitsHere (state_of search.now) a) }
{
    if !is_outer(search, a) {
        return true;
    }
    fits_here(search, a)
}

/// Whether the label of each outermost node fits those of the nodes beside it.
pub(crate) fn labels_fit(search: &Search) -> bool
    requires shape { HasShape search.now }
    requires mates { (a : ℕ) → IsOutermost (state_of search.now) a
        → MateHolds (state_of search.now) a }
    ensures { (result ≡ true)
        ↔ ((a : ℕ) → IsOutermost (state_of search.now) a → FitsHere (state_of search.now) a) }
{
    for number in 1..search.arena.node_limit() + 1 {
        if !label_fits(search, number) {
            return false;
        }
    }
    true
}

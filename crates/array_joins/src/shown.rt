//! Whether a forest with places proves a join least.
use crate::arcs::{Arc, Arcs};
use crate::forest::Forest;
use crate::leaves::Leaves;
use crate::places::{Place, Places};
use crate::spread::Spread;
use crate::table::set_item;
use mb_base::{EdgeId, VertexId};

/// Whether no node is shorter than 0.
fn are_lengths(forest: &Forest) -> bool {
    for length in &forest.lengths {
        if *length < 0 {
            return false;
        }
    }
    true
}

/// Whether each leaf is reached from no other one.
fn are_apart(leaves: &Leaves, spread: &Spread) -> bool {
    for place in 0..leaves.count {
        let leaf = place + 1;
        if spread.reach(leaves.vertex(leaf)).leaf != leaf {
            return false;
        }
    }
    true
}

/// How long all nodes are together.
pub(crate) fn total_of(forest: &Forest) -> i64 {
    let mut total = 0i64;
    for length in &forest.lengths {
        total = total.wrapping_add(*length);
    }
    total
}

/// Whether the nodes may prove that a join of this length is least.
pub(crate) fn is_balanced(forest: &Forest, leaves: &Leaves, spread: &Spread, length: i64) -> bool {
    if total_of(forest) != length {
        return false;
    }
    if !are_lengths(forest) {
        return false;
    }
    are_apart(leaves, spread)
}

/// How long the forest is from the outside to a place.
fn depth_of(forest: &Forest, place: Place) -> i64 {
    if place.node == 0 {
        return 0;
    }
    forest.base(place.node).wrapping_add(place.height)
}

/// Whether an arc is at least as long as the way between two places that a node holds.
fn is_wide(forest: &Forest, one: Place, other: Place, meet: u32, arc: &Arc) -> bool {
    let one = depth_of(forest, one);
    let other = depth_of(forest, other);
    let least = one.min(other).min(forest.top(meet));
    let way = one.wrapping_add(other).wrapping_sub(least.wrapping_mul(2));
    way <= arc.length
}

/// Notes the first node that holds the places of both ends of each arc from a vertex. Answers
/// whether each arc is at least as long as the way between these places. Between vertices inside
/// the one with the lesser number decides.
fn meet_around(
    meets: &mut [u32],
    arcs: &Arcs,
    forest: &Forest,
    places: &Places,
    vertex: VertexId,
) -> bool {
    let one = places.at(vertex);
    for arc in arcs.at(vertex) {
        let other = places.at(arc.head);
        if other.node == 0 || vertex.number() < arc.head.number() {
            let meet = forest.meet(one.node, other.node);
            set_item(meets, arc.edge.number().wrapping_sub(1), meet);
            if !is_wide(forest, one, other, meet, arc) {
                return false;
            }
        }
    }
    true
}

/// Notes for each loop the node of its end.
fn meet_loops(meets: &mut [u32], loops: &[(EdgeId, VertexId)], places: &Places) {
    for (edge, vertex) in loops {
        let node = places.at(*vertex).node;
        set_item(meets, edge.number().wrapping_sub(1), node);
    }
}

/// Notes for each edge the first node that holds the places of both ends, or 0. At the start all
/// are 0. Answers whether each edge is at least as long as the way between these places.
pub(crate) fn meet_all(meets: &mut [u32], arcs: &Arcs, forest: &Forest, places: &Places) -> bool {
    meet_loops(meets, &arcs.loops, places);
    for vertex in &places.inside {
        if !meet_around(meets, arcs, forest, places, *vertex) {
            return false;
        }
    }
    true
}

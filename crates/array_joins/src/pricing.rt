//! Pairs that a forest is too long for: a path between two leaves that is shorter than the way
//! between them in the forest.
use crate::arcs::{Arcs, length_of};
use crate::forest::Forest;
use crate::found::Found;
use crate::leaves::Leaves;
use crate::pairs::{Pair, add_pair};
use crate::spread::Spread;
use crate::table::item_at;
use mb_base::{OutOfMemory, VertexId};
use mb_problem::{Instance, InstanceEdge};
use std::alloc::Global;

/// A path from a leaf, and how long it is.
#[derive(Clone, Copy)]
struct Arrival {
    leaf: u32,
    length: i64,
}

/// The path that reaches a vertex; it starts at leaf 0 if there is none.
fn arrival_at(forest: &Forest, spread: &Spread, vertex: VertexId) -> Arrival {
    let reach = spread.reach(vertex);
    if reach.leaf == 0 {
        return Arrival { leaf: 0, length: 0 };
    }
    let top = forest.top(forest.leaf(reach.leaf));
    Arrival {
        leaf: reach.leaf,
        length: top.wrapping_sub(reach.height),
    }
}

/// How long the way between two leaves is in the forest.
pub(crate) fn way_between(forest: &Forest, one: u32, other: u32) -> i64 {
    let one = forest.leaf(one);
    let other = forest.leaf(other);
    let meet = forest.top(forest.meet(one, other));
    let both = forest.top(one).wrapping_add(forest.top(other));
    both.wrapping_sub(meet.wrapping_mul(2))
}

/// Adds the pair of the leaves of two paths that meet, if both together are too short.
fn price(
    pairs: &mut Vec<Pair>,
    forest: &Forest,
    one: Arrival,
    other: Arrival,
) -> Result<(), OutOfMemory> {
    if one.leaf == 0 || other.leaf == 0 {
        return Ok(());
    }
    if one.leaf == other.leaf {
        return Ok(());
    }
    let length = one.length.wrapping_add(other.length);
    if way_between(forest, one.leaf, other.leaf) <= length {
        return Ok(());
    }
    add_pair(pairs, one.leaf, other.leaf, length / 2)
}

/// Adds the pair of the leaves on both sides of an edge, if the path over it is too short.
fn price_edge(
    pairs: &mut Vec<Pair>,
    forest: &Forest,
    spread: &Spread,
    edge: &InstanceEdge,
) -> Result<(), OutOfMemory> {
    let one = arrival_at(forest, spread, edge.u);
    let mut other = arrival_at(forest, spread, edge.v);
    other.length = other.length.wrapping_add(length_of(edge));
    price(pairs, forest, one, other)
}

/// Adds such pairs for all edges.
fn price_edges(
    pairs: &mut Vec<Pair>,
    instance: &Instance,
    forest: &Forest,
    spread: &Spread,
) -> Result<(), OutOfMemory> {
    for edge in instance.edge_list() {
        price_edge(pairs, forest, spread, edge)?;
    }
    Ok(())
}

/// Adds a path to the arrivals at a vertex, by how low it comes there.
fn push_arrival(
    arrivals: &mut Vec<(i64, u32, i64)>,
    forest: &Forest,
    arrival: Arrival,
) -> Result<(), OutOfMemory> {
    if arrival.leaf == 0 {
        return Ok(());
    }
    let top = forest.top(forest.leaf(arrival.leaf));
    let depth = arrival.length.wrapping_sub(top);
    arrivals.push((depth, arrival.leaf, arrival.length))?;
    Ok(())
}

/// Adds the pairs of arrivals that come next to each other.
fn price_arrivals(
    pairs: &mut Vec<Pair>,
    forest: &Forest,
    arrivals: &[(i64, u32, i64)],
) -> Result<(), OutOfMemory> {
    let mut before = Arrival { leaf: 0, length: 0 };
    for (_, leaf, length) in arrivals {
        let arrival = Arrival {
            leaf: *leaf,
            length: *length,
        };
        price(pairs, forest, before, arrival)?;
        before = arrival;
    }
    Ok(())
}

/// Adds the pairs of paths that come next to each other at a vertex.
fn price_vertex(
    alloc: Global,
    pairs: &mut Vec<Pair>,
    arcs: &Arcs,
    forest: &Forest,
    spread: &Spread,
    vertex: VertexId,
) -> Result<(), OutOfMemory> {
    let mut arrivals = Vec::new(alloc);
    push_arrival(&mut arrivals, forest, arrival_at(forest, spread, vertex))?;
    for arc in arcs.at(vertex) {
        let mut arrival = arrival_at(forest, spread, arc.head);
        arrival.length = arrival.length.wrapping_add(arc.length);
        push_arrival(&mut arrivals, forest, arrival)?;
    }
    arrivals.sort_unstable();
    price_arrivals(pairs, forest, &arrivals)
}

/// The fewest edges at a vertex around which pairs are sought.
const MANY: usize = 5;

/// Adds such pairs for all vertices of many edges.
fn price_vertices(
    alloc: Global,
    pairs: &mut Vec<Pair>,
    instance: &Instance,
    arcs: &Arcs,
    forest: &Forest,
    spread: &Spread,
) -> Result<(), OutOfMemory> {
    for place in 0..instance.vertices() {
        let vertex = VertexId::new(place + 1);
        if arcs.at(vertex).len() >= MANY {
            price_vertex(alloc, pairs, arcs, forest, spread, vertex)?;
        }
    }
    Ok(())
}

/// Adds such pairs for all leaves: if another one reaches a leaf from a greater height, it is too
/// near to the partner of that leaf.
fn price_leaves(
    pairs: &mut Vec<Pair>,
    leaves: &Leaves,
    forest: &Forest,
    spread: &Spread,
    found: &Found,
) -> Result<(), OutOfMemory> {
    for place in 0..leaves.count {
        let leaf = place + 1;
        let partner = item_at(&found.partners, leaf, 0);
        let beyond = Arrival {
            leaf: partner,
            length: way_between(forest, leaf, partner),
        };
        let arrival = arrival_at(forest, spread, leaves.vertex(leaf));
        price(pairs, forest, beyond, arrival)?;
    }
    Ok(())
}

/// Adds the pairs that the forest is too long for: of leaves on both sides of an edge, around a
/// leaf, and around a vertex of many edges. Answers whether there were any.
pub(crate) fn add_short_pairs(
    alloc: Global,
    pairs: &mut Vec<Pair>,
    instance: &Instance,
    arcs: &Arcs,
    leaves: &Leaves,
    forest: &Forest,
    spread: &Spread,
    found: &Found,
) -> Result<bool, OutOfMemory> {
    let before = pairs.len();
    price_edges(pairs, instance, forest, spread)?;
    price_leaves(pairs, leaves, forest, spread, found)?;
    price_vertices(alloc, pairs, instance, arcs, forest, spread)?;
    Ok(pairs.len() > before)
}

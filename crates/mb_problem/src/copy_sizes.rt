//! The sizes of the graphs of gates, from the values or the greatest degrees of the vertices.
ghost use Rattle.std.specs.Prelude.{◌≡◌, ℕ, ◌+◌, ◌-◌, ◌*◌, ◌<◌, ◌≤◌, min, length, slice_index, All};
ghost use Rattle.graph_theory.specs.Graph.{IsEdgeWithin};
ghost use Rattle.graph_theory.specs.Sums.{sum_to};
ghost use Rattle.mb_problem.specs.Network.{Network, IsNetwork, vertices, plain};
ghost use Rattle.mb_problem.specs.Size.{bounded, limit_by, room_by, capped_size, halves_size};
ghost use Rattle.mb_problem.specs.Size.{spare_copies};

use crate::gadget::Capacities;
use crate::instance::{Instance, InstanceEdge};
use crate::limits::{EDGE_LIMIT, VALUE_LIMIT, VERTEX_LIMIT};

/// The values of all vertices, added up.
pub(crate) fn value_total(values: &[u32]) -> u64
    requires size_limit { length values.now ≤ VERTEX_LIMIT }
    requires within { All (λ b. b ≤ VALUE_LIMIT) values.now }
    ensures total { result ≡ sum_to (λ k. slice_index values.now k) (length values.now) }
    ensures value_limit { result ≤ VALUE_LIMIT * VERTEX_LIMIT }
{
    let mut total = 0;
    for value in values {
        total += u64::from(*value);
    }
    total
}

/// The values at the two ends of an edge.
pub(crate) fn end_values(values: &[u32], edge: &InstanceEdge) -> (u64, u64)
    requires ends { IsEdgeWithin (length values.now) (plain edge.now) }
    requires within { All (λ b. b ≤ VALUE_LIMIT) values.now }
    ensures u { result.0 ≡ slice_index values.now (edge.now.u - 1) }
    ensures v { result.1 ≡ slice_index values.now (edge.now.v - 1) }
    ensures small_u { result.0 ≤ VALUE_LIMIT }
    ensures small_v { result.1 ≤ VALUE_LIMIT }
{
    (
        u64::from(values[edge.u.number() as usize - 1]),
        u64::from(values[edge.v.number() as usize - 1]),
    )
}

/// How often an edge can be used, whatever the values at its ends.
fn limit_by(capacities: Capacities, edge: &InstanceEdge) -> Option<u32>
    ensures { result ≡ limit_by capacities edge.now }
{
    match capacities {
        Capacities::Own => edge.capacity,
        Capacities::Unit => Some(1),
    }
}

/// How often an edge can be used.
fn room(limit: Option<u32>, a: u64, b: u64) -> u64
    ensures room { result ≡ bounded limit (min a b) }
    ensures value_limit { result ≤ a }
{
    let most = a.min(b);
    match limit {
        Some(limit) => most.min(u64::from(limit)),
        None => most,
    }
}

/// The edges of the gadget of an edge that can be used so often, from the values at its ends.
fn gadget_edges(room: u64, a: u64, b: u64) -> u64
    requires room { room ≤ VALUE_LIMIT }
    requires a { a ≤ VALUE_LIMIT }
    requires b { b ≤ VALUE_LIMIT }
    ensures edges { result ≡ room * (a + room + b) }
    ensures value_limit { result ≤ VALUE_LIMIT * (3 * VALUE_LIMIT) }
{
    room * (a + room + b)
}

/// How often an edge can be used, and the edges of its gadget.
fn edge_gadget(values: &[u32], capacities: Capacities, edge: &InstanceEdge) -> (u64, u64)
    requires ends { IsEdgeWithin (length values.now) (plain edge.now) }
    requires within { All (λ b. b ≤ VALUE_LIMIT) values.now }
    ensures room { result.0 ≡ bounded (limit_by capacities edge.now)
        (min (slice_index values.now (edge.now.u - 1)) (slice_index values.now (edge.now.v - 1))) }
    ensures edges { result.1
        ≡ result.0 * (slice_index values.now (edge.now.u - 1) + result.0
        + slice_index values.now (edge.now.v - 1)) }
    ensures few_rooms { result.0 ≤ VALUE_LIMIT }
    ensures few_edges { result.1 ≤ VALUE_LIMIT * (3 * VALUE_LIMIT) }
{
    let (a, b) = end_values(values, edge);
    let room = room(limit_by(capacities, edge), a, b);
    (room, gadget_edges(room, a, b))
}

/// The vertices and edges of the graph for edges with limits, where these are the values of the
/// vertices.
pub(crate) fn capped_size(instance: &Instance, values: &[u32], capacities: Capacities) -> (u64, u64)
    requires one_each { length values.now ≡ vertices instance.now }
    requires within { All (λ b. b ≤ VALUE_LIMIT) values.now }
    ensures vertices { result.0
        ≡ (capped_size (record instance.now { values = values.now }) (room_by capacities
        (record instance.now { values = values.now }))).vertices }
    ensures edges { result.1
        ≡ (capped_size (record instance.now { values = values.now }) (room_by capacities
        (record instance.now { values = values.now }))).edges }
    ensures few_vertices { result.0 ≤ VALUE_LIMIT * VERTEX_LIMIT + 2 * VALUE_LIMIT * EDGE_LIMIT }
    ensures few_edges { result.1 ≤ VALUE_LIMIT * (3 * VALUE_LIMIT) * EDGE_LIMIT }
{
    let mut rooms = 0;
    let mut edges = 0;
    for edge in instance.edge_list() {
        let (room, links) = edge_gadget(values, capacities, edge);
        rooms += room;
        edges += links;
    }
    (value_total(values) + 2 * rooms, edges)
}

/// How many copies may stay free, of all vertices.
fn spare_copies(instance: &Instance) -> u64
    ensures spare { result ≡ sum_to (spare_copies instance.now) (vertices instance.now) }
    ensures value_limit { result ≤ VALUE_LIMIT * VERTEX_LIMIT }
{
    let lows = instance.low_list();
    let mut spare = 0;
    for (k, high) in instance.high_list().iter().enumerate() {
        spare += u64::from(*high - lows[k]);
    }
    spare
}

/// The vertices and edges of the graph for degrees between two bounds.
pub(crate) fn halves_size(instance: &Instance) -> (u64, u64)
    ensures vertices { result.0 ≡ (halves_size instance.now).vertices }
    ensures edges { result.1 ≡ (halves_size instance.now).edges }
{
    let (vertices, edges) = capped_size(instance, instance.high_list(), Capacities::Own);
    (2 * vertices, 2 * edges + spare_copies(instance))
}

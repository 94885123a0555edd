//! Where the vertices stand in the graph for paths of an odd or an even number of edges, and the
//! size of that graph.
ghost use Rattle.std.specs.Prelude.{◌≡◌, ℕ, ◌+◌, ◌-◌, ◌<◌, ◌≤◌, ◌&&◌, ◌==◌, length, slice_index_or};
ghost use Rattle.std.specs.Prelude.{◌*◌, true, false, not, if◌then◌else◌};
ghost use Rattle.graph_theory.specs.Graph.{IsEdgeWithin, is_loop};
ghost use Rattle.graph_theory.specs.Sums.{sum_to};
ghost use Rattle.mb_problem.specs.Network.{Network, IsNetwork, vertices, plain};
ghost use Rattle.mb_problem.specs.Size.{in_first, in_second, joins, sides_size};

use crate::instance::{Instance, InstanceEdge};
use crate::limits::{EDGE_LIMIT, VERTEX_LIMIT};

/// Whether a vertex stands in the first copy, and whether in the second, where `before` vertices
/// before it have odd values.
fn stands(odd: bool, is_odd: bool, before: u32) -> (bool, bool)
    ensures first { result.0 ≡ (if odd then true else not (is_odd && before == 1)) }
    ensures second { result.1 ≡ (if odd then not is_odd else not (is_odd && before == 0)) }
{
    if odd {
        return (true, !is_odd);
    }
    (!(is_odd && before == 1), !(is_odd && before == 0))
}

/// Marks the vertices that stand in the first copy of the graph for paths of an odd or an even
/// number of edges, and those that stand in the second, in one pass over the vertices. The mark of
/// a vertex stands at the place of its number less 1; those behind the last vertex stay.
pub fn mark_sides(instance: &Instance, odd: bool, first: &mut [bool], second: &mut [bool])
    requires first_room { vertices instance.now ≤ length first.old }
    requires second_room { vertices instance.now ≤ length second.old }

    // Which vertices stand in each of the two layers for a path of a given parity.
    ensures first_size { length first.new ≡ length first.old }
    ensures second_size { length second.new ≡ length second.old }
    ensures first { (k : ℕ) → k < vertices instance.now → slice_index_or first.new k false
        ≡ in_first odd instance.now (k + 1) }
    ensures second { (k : ℕ) → k < vertices instance.now → slice_index_or second.new k false
        ≡ in_second odd instance.now (k + 1) }
    ensures first_rest { (k : ℕ) → vertices instance.now ≤ k
        → slice_index_or first.new k false ≡ slice_index_or first.old k false }
    ensures second_rest { (k : ℕ) → vertices instance.now ≤ k
        → slice_index_or second.new k false ≡ slice_index_or second.old k false }
{
    let mut before = 0u32;
    for (k, value) in instance.value_list().iter().enumerate() {
        let is_odd = *value % 2 == 1;
        let (one, two) = stands(odd, is_odd, before);
        first[k] = one;
        second[k] = two;
        before += *value % 2;
    }
}

/// 1 where an edge isn't a loop and both of its ends are marked, else 0.
fn side_copies(edge: &InstanceEdge, there: &[bool]) -> u64
    requires { IsEdgeWithin (length there.now) (plain edge.now) }
    ensures copies { result ≡ (if not (is_loop (plain edge.now))
        && (slice_index_or there.now (edge.now.u - 1) false
        && slice_index_or there.now (edge.now.v - 1) false) then 1 else 0) }
    ensures bit { result ≤ 1 }
{
    if edge.u == edge.v {
        return 0;
    }
    if !there[edge.u.number() as usize - 1] {
        return 0;
    }
    u64::from(there[edge.v.number() as usize - 1])
}

/// How many edges the copies of the graph have, from the marks of the vertices.
fn side_edges(instance: &Instance, first: &[bool], second: &[bool]) -> u64
    requires first_room { vertices instance.now ≤ length first.now }
    requires second_room { vertices instance.now ≤ length second.now }
    ensures edges { result ≡ sum_to (λ k.
        (if joins (λ v. slice_index_or first.now (v - 1) false) instance.now k then 1 else 0)
        + (if joins (λ v. slice_index_or second.now (v - 1) false) instance.now k then 1 else 0))
        (length instance.now.edges) }
    ensures size_limit { result ≤ 2 * EDGE_LIMIT }
{
    let mut edges = 0;
    for edge in instance.edge_list() {
        edges += side_copies(edge, first) + side_copies(edge, second);
    }
    edges
}

/// How many of the first so many marks are set in two lists, and how many in both at once.
fn count_marks(count: u32, first: &[bool], second: &[bool]) -> (u64, u64)
    requires size_limit { count ≤ VERTEX_LIMIT }
    requires first_room { count ≤ length first.now }
    requires second_room { count ≤ length second.now }
    ensures standing { result.0
        ≡ sum_to (λ k. (if slice_index_or first.now k false then 1 else 0)
        + (if slice_index_or second.now k false then 1 else 0)) count }
    ensures both { result.1 ≡ sum_to (λ k.
        if slice_index_or first.now k false && slice_index_or second.now k false then 1 else 0)
        count }
    ensures few_both { result.1 ≤ VERTEX_LIMIT }
{
    let mut standing = 0;
    let mut both = 0;
    for k in 0..count as usize {
        let one = first[k];
        let two = second[k];
        standing += u64::from(one) + u64::from(two);
        both += u64::from(one && two);
    }
    (standing, both)
}

/// The vertices and edges of the graph for paths of an odd or an even number of edges.
pub(crate) fn sides_size(instance: &Instance, odd: bool) -> (u64, u64)
    ensures vertices { result.0
        ≡ (sides_size instance.now (in_first odd instance.now)
        (in_second odd instance.now)).vertices }
    ensures edges { result.1
        ≡ (sides_size instance.now (in_first odd instance.now) (in_second odd instance.now)).edges }
{
    let count = instance.vertices();
    let mut first = [false; VERTEX_LIMIT as usize];
    let mut second = [false; VERTEX_LIMIT as usize];
    mark_sides(instance, odd, &mut first, &mut second);
    let (standing, both) = count_marks(count, &first, &second);
    (standing, side_edges(instance, &first, &second) + both)
}

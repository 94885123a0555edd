ghost use Rattle.std.specs.Prelude.{◌≡◌, ℕ, ◌+◌, ◌<◌, ◌≤◌, ◌%◌, true, length, All, IfOk, IfSome};
ghost use Rattle.std.specs.List.Sorted.{IsStrictlyIncreasing};
ghost use Rattle.graph_theory.specs.Graph.{IsEdgeNumber, degree};
ghost use Rattle.mb_problem.specs.Network.{IsNetwork, graph_of, vertices};
ghost use Rattle.mb_problem.specs.Joins.{ListsJoin, odd_between};

use gadget_base::count_listed;
use mb_base::{EdgeId, OutOfMemory, Sequence, VertexId};
use mb_problem::{Instance, Join, degree};
use std::alloc::Global;

/// Whether the numbers ascend.
fn ascend(edges: &[EdgeId]) -> bool
    ensures { result ≡ true → IsStrictlyIncreasing edges.now }
{
    for k in 1..edges.len() {
        if edges[k - 1].number() >= edges[k].number() {
            return false;
        }
    }
    true
}

/// Whether all are numbers of edges.
fn are_numbers(instance: &Instance, edges: &[EdgeId]) -> bool
    ensures numbers { result ≡ true → All (IsEdgeNumber (graph_of instance.now)) edges.now }
    ensures network { IsNetwork instance.now }
{
    let most = instance.edges();
    for e in edges {
        if e.number() == 0 {
            return false;
        }
        if e.number() > most {
            return false;
        }
    }
    true
}

/// 1 at two vertices, and 0 elsewhere.
fn parity_at(v: u32, s: u32, t: u32) -> u64
    ensures { result ≡ odd_between s t v }
{
    if v == s {
        return 1;
    }
    if v == t {
        return 1;
    }
    0
}

/// Whether the degree of each vertex is odd where it is `s` or `t`, and only there.
fn have_parities(instance: &Instance, counts: &[u32], s: u32, t: u32) -> bool
    requires { length counts.now ≡ length instance.now.edges }
    ensures { result ≡ true → ((v : ℕ) → 1 ≤ v → v ≤ vertices instance.now
        → degree (graph_of instance.now) counts.now v % 2 ≡ odd_between s t v) }
{
    for k in 0..instance.vertices() {
        if degree(instance, counts, VertexId::new(k + 1)) % 2 != parity_at(k + 1, s, t) {
            return false;
        }
    }
    true
}

/// The join of these edges, where they ascend and their degrees are odd at `s` and `t` alone.
pub fn joined(
    alloc: Global,
    instance: &Instance,
    numbers: &[u32],
    s: u32,
    t: u32,
) -> Result<Option<Join>, OutOfMemory>
    ensures { IfOk result (λ found. IfSome found
        (λ join. ListsJoin instance.now (odd_between s t) join.edges)) }
{
    let mut edges = Vec::new(alloc);
    for number in numbers {
        edges.push(EdgeId::new(*number))?;
    }
    if !ascend(&edges) {
        return Ok(None);
    }
    if !are_numbers(instance, &edges) {
        return Ok(None);
    }
    let counts = count_listed(alloc, instance, &edges)?;
    if !have_parities(instance, &counts, s, t) {
        return Ok(None);
    }
    let edges = Sequence::from_vec(edges);
    Ok(Some(Join { edges }))
}

ghost use Rattle.std.specs.Prelude.{◌≡◌, ℕ, ◌+◌, ◌-◌, ◌*◌, ◌<◌, ◌≤◌, ◌^◌, length, pos, neg_ℤ, ◌*ℤ◌};
ghost use Rattle.std.specs.Prelude.{◌≤ℤ◌, All, Some, None, nat_lt, unwrap_or};
ghost use Rattle.std.specs.Prelude.{if◌then◌else◌};
ghost use Rattle.graph_theory.specs.Graph.{degree, ends_at, weight, IsEdgeNumber};
ghost use Rattle.graph_theory.specs.Walk.{walk_weight};
ghost use Rattle.gallai_theory.specs.Matchings.{edges_used};
ghost use Rattle.mb_problem.specs.Network.{Network, IsNetwork, graph_of, plain};
ghost use Rattle.mb_problem.specs.Feasible.{weight_by, weight_of};
ghost use Rattle.mb_problem.specs.declared.kind.Cost.TheVariants.{Total, Heaviest, Size};
ghost use Rattle.mb_problem.specs.Heaviest.{heaviest, heaviest_step, greater_of};
ghost use Rattle.mb_problem.specs.Measured.{HasPlaces};

use crate::answer::Answer;
use crate::instance::{Instance, InstanceEdge};
use crate::kind::{Cost, Kind};
use mb_base::{EdgeId, VertexId};

/// How many ends of an edge are this vertex.
fn ends_at(edge: &InstanceEdge, v: VertexId) -> u64
    ensures ends { result ≡ ends_at (plain edge.now) v }
    ensures value_limit { result ≤ 2 }
{
    u64::from(edge.u == v) + u64::from(edge.v == v)
}

/// The degree of a vertex: the counts of the edges at it, added up.
pub fn degree(instance: &Instance, counts: &[u32], v: VertexId) -> u64
    requires { length counts.now ≡ length instance.now.edges }

    // The degree of a vertex in an answer; a loop counts twice.
    ensures degree { result ≡ degree (graph_of instance.now) counts.now v }
    ensures network { IsNetwork instance.now }
{
    let mut total = 0;
    for (k, edge) in instance.edge_list().iter().enumerate() {
        total += u64::from(counts[k]) * ends_at(edge, v);
    }
    total
}

/// The weight of an edge, as often as it is used.
fn used_weight(count: u32, weight: i64) -> i128
    ensures value { result ≡ pos count *ℤ weight }
    ensures low { neg_ℤ (pos (2 ^ 95)) ≤ℤ result }
    ensures high { result ≤ℤ pos (2 ^ 95) }
{
    i128::from(count) * i128::from(weight)
}

/// The weights of the edges, each as often as it is counted, added up.
fn weight_of_counts(instance: &Instance, counts: &[u32]) -> i128
    requires { length counts.now ≡ length instance.now.edges }
    ensures { result ≡ weight (graph_of instance.now) counts.now }
{
    let mut total = 0;
    for (k, edge) in instance.edge_list().iter().enumerate() {
        total += used_weight(counts[k], edge.w);
    }
    total
}

/// The weights of the edges of a walk, added up.
fn weight_of_walk(instance: &Instance, edges: &[EdgeId]) -> i128
    requires { All (IsEdgeNumber (graph_of instance.now)) edges.now }
    ensures { result ≡ walk_weight (graph_of instance.now) edges.now }
{
    let mut total = 0;
    for edge in edges {
        total += i128::from(instance.edge(*edge).2);
    }
    total
}

/// The weight of an answer: the weights of the edges, each as often as it is used, added up.
fn total(instance: &Instance, answer: &Answer) -> i128
    requires { HasPlaces instance.now answer.now }
    ensures { result ≡ weight_by Total instance.now answer.now }
{
    match answer {
        Answer::Counts(counts) => weight_of_counts(instance, counts.as_slice()),
        Answer::Walk { edges, .. } => weight_of_walk(instance, edges.as_slice()),
        Answer::Nothing => 0,
    }
}

/// The greater of two weights, if either may be missing.
fn greater_of(greatest: Option<i64>, weight: Option<i64>) -> Option<i64>
    ensures { result ≡ greater_of greatest weight }
{
    let (Some(a), Some(b)) = (greatest, weight) else {
        return greatest.or(weight);
    };
    Some(if b <= a { a } else { b })
}

/// The weight of an edge that is used so often, if it is used.
fn weight_if_used(count: u32, weight: i64) -> Option<i64>
    ensures { result ≡ (if nat_lt 0 count then Some weight else None) }
{
    if count > 0 { Some(weight) } else { None }
}

/// A weight, and 0 if it is missing.
fn or_zero(weight: Option<i64>) -> i128
    ensures { result ≡ unwrap_or weight (pos 0) }
{
    match weight {
        Some(weight) => i128::from(weight),
        None => 0,
    }
}

/// The greatest weight of an edge that is counted, and 0 if none is.
fn heaviest_of_counts(instance: &Instance, counts: &[u32]) -> i128
    requires { length counts.now ≡ length instance.now.edges }
    ensures { result ≡ heaviest (graph_of instance.now) counts.now }
{
    let mut greatest = None;
    for (k, edge) in instance.edge_list().iter().enumerate() {
        greatest = greater_of(greatest, weight_if_used(counts[k], edge.w));
    }
    or_zero(greatest)
}

/// The greatest weight of an edge of a walk, and 0 if it has none.
fn heaviest_of_walk(instance: &Instance, edges: &[EdgeId]) -> i128
    requires { All (IsEdgeNumber (graph_of instance.now)) edges.now }
    ensures { result ≡ heaviest_step (graph_of instance.now) edges.now }
{
    let mut greatest = None;
    for edge in edges {
        greatest = greater_of(greatest, Some(instance.edge(*edge).2));
    }
    or_zero(greatest)
}

/// The weight of the heaviest edge that an answer uses, and 0 if it uses none.
fn heaviest(instance: &Instance, answer: &Answer) -> i128
    requires { HasPlaces instance.now answer.now }
    ensures { result ≡ weight_by Heaviest instance.now answer.now }
{
    match answer {
        Answer::Counts(counts) => heaviest_of_counts(instance, counts.as_slice()),
        Answer::Walk { edges, .. } => heaviest_of_walk(instance, edges.as_slice()),
        Answer::Nothing => 0,
    }
}

/// 1 where an edge is used so often, and 0 if it isn't.
fn one_if_used(count: u32) -> u32
    ensures one { result ≡ (if nat_lt 0 count then 1 else 0) }
    ensures value_limit { result ≤ 1 }
{
    u32::from(count > 0)
}

/// How many edges are counted.
fn size_of_counts(instance: &Instance, counts: &[u32]) -> i128
    requires { length counts.now ≡ length instance.now.edges }
    ensures { result ≡ pos (edges_used (graph_of instance.now) counts.now) }
{
    let mut used = 0u32;
    for (k, _) in instance.edge_list().iter().enumerate() {
        used += one_if_used(counts[k]);
    }
    i128::from(used)
}

/// How many edges an answer uses, a walk each as often as it does.
fn size(instance: &Instance, answer: &Answer) -> i128
    requires { HasPlaces instance.now answer.now }
    ensures { result ≡ weight_by Size instance.now answer.now }
{
    match answer {
        Answer::Counts(counts) => size_of_counts(instance, counts.as_slice()),
        Answer::Walk { edges, .. } => edges.as_slice().len() as i128,
        Answer::Nothing => 0,
    }
}

/// What an answer of a kind weighs, by the measure of the kind. It takes time linear in the answer.
pub fn weight(instance: &Instance, kind: Kind, answer: &Answer) -> i128
    requires { HasPlaces instance.now answer.now }

    // The weight of an answer as its kind measures it.
    ensures { result ≡ weight_of kind instance.now answer.now }
{
    match kind.measure() {
        Cost::Total => total(instance, answer),
        Cost::Heaviest => heaviest(instance, answer),
        Cost::Size => size(instance, answer),
    }
}

ghost use Rattle.std.specs.Prelude.{◌≡◌, ℕ, ◌+◌, ◌≤◌, ◌<◌, length, map, slice_index, All, IfOk};
ghost use Rattle.graph_theory.specs.Graph.{weight};
ghost use Rattle.mb_problem.specs.declared.answer.Parity.TheVariants.{OddDegrees};
ghost use Rattle.mb_problem.specs.declared.kind.Kind.TheVariants.{Postman};
ghost use Rattle.mb_problem.specs.Feasible.{AtMostOnce};
ghost use Rattle.mb_problem.specs.Network.{IsNetwork, graph_of, vertices};
ghost use Rattle.mb_problem.specs.Size.{odd_at};
ghost use Rattle.brute_force.specs.Best.{mosts};
ghost use Rattle.brute_force.specs.Digits.{digit_lists};
ghost use Rattle.brute_force.specs.Tours.{IsLeastOddJoin, IsLeastTourWeight, counts_in};
ghost use Rattle.brute_force.specs.declared.limits.TheConstants.{TRIAL_LIMIT};

use crate::enumeration::best;
use mb_base::{OutOfMemory, Sequence, VertexId};
use mb_problem::{Answer, Instance, InstanceEdge, Kind, degree, weight};
use std::alloc::Global;

/// For each vertex 1 where its degree is odd, and 0 elsewhere.
fn odd_degrees(alloc: Global, instance: &Instance) -> Result<Vec<u32>, OutOfMemory>
    ensures size { IfOk result (λ values. length values.items ≡ vertices instance.now) }
    ensures value_limit { IfOk result (λ values. All (λ b. b ≤ 1) values.items) }
    ensures each { IfOk result (λ values. (k : ℕ) → k < vertices instance.now
        → slice_index values.items k ≡ odd_at OddDegrees instance.now (k + 1)) }
{
    let once = vec![in alloc; 1u32; instance.edges() as usize]?;
    let mut values = Vec::new(alloc);
    for k in 0..instance.vertices() {
        let odd = degree(instance, &once, VertexId::new(k + 1)) % 2;
        values.push(odd as u32)?;
    }
    Ok(values)
}

/// The edges of an instance, copied.
fn copied_edges(alloc: Global, instance: &Instance) -> Result<Vec<InstanceEdge>, OutOfMemory>
    ensures edges { IfOk result (λ edges. edges.items ≡ instance.now.edges) }
    ensures network { IsNetwork instance.now }
{
    let mut edges = Vec::new(alloc);
    for edge in instance.edge_list() {
        edges.push(*edge)?;
    }
    Ok(edges)
}

/// The instance with the same edges whose odd values are those of the vertices of odd degree.
fn with_odd_degrees(alloc: Global, instance: &Instance) -> Result<Instance, OutOfMemory>
    ensures edges { IfOk result (λ i. i.edges ≡ instance.now.edges) }
    ensures size { IfOk result (λ i. vertices i ≡ vertices instance.now) }
    ensures each { IfOk result (λ i. (k : ℕ) → k < vertices instance.now → slice_index i.values k
        ≡ odd_at OddDegrees instance.now (k + 1)) }
{
    let edges = copied_edges(alloc, instance)?;
    let values = odd_degrees(alloc, instance)?;
    Instance::from_values(alloc, edges, values)
}

/// The counts of an answer that is counts, and none elsewhere.
fn counts_in(alloc: Global, found: Option<Answer>) -> Sequence<u32>
    ensures { result ≡ counts_in found }
{
    match found {
        Some(Answer::Counts(counts)) => counts,
        Some(Answer::Walk { .. }) | Some(Answer::Nothing) | None => {
            Sequence::from_vec(Vec::new(alloc))
        }
    }
}

/// A least join at the vertices of odd degree, by trying all sets of edges. There always is one, as
/// all edges are a join.
fn least_odd_join(alloc: Global, instance: &Instance) -> Result<Sequence<u32>, OutOfMemory>
    requires { digit_lists (mosts Postman instance.now) ≤ TRIAL_LIMIT }
    ensures { IfOk result (IsLeastOddJoin instance.now) }
{
    let valued = with_odd_degrees(alloc, instance)?;
    let found = best(alloc, &valued, Kind::TJoin)?;
    Ok(counts_in(alloc, found))
}

/// Each edge once, and once more where it is counted.
fn once_more(alloc: Global, counts: &[u32]) -> Result<Sequence<u32>, OutOfMemory>
    requires { AtMostOnce counts.now }
    ensures { IfOk result (λ uses. uses ≡ map (λ c. c + 1) counts.now) }
{
    let mut uses = Vec::new(alloc);
    for count in counts {
        uses.push(*count + 1)?;
    }
    Ok(Sequence::from_vec(uses))
}

/// The weight of a least closed walk through all edges of a small instance, found by its theorem
/// and by trying all sets of edges: each edge is used once, and once more those of a least join at
/// the vertices of odd degree (Schrijver, Combinatorial Optimization, volume A, chapter 29).
/// `is_small` says for tours whether there are few enough sets. Whether such a walk exists, which
/// is whether the edges are connected, isn't asked.
///
/// # Errors
///
/// `OutOfMemory` if an allocation fails.
pub fn least_tour_weight(alloc: Global, instance: &Instance) -> Result<i128, OutOfMemory>
    requires size_limit { digit_lists (mosts Postman instance.now) ≤ TRIAL_LIMIT }

    // The weight of an optimal tour by its theorem, for tests.
    ensures { IfOk result (IsLeastTourWeight instance.now) }
{
    let join = least_odd_join(alloc, instance)?;
    let uses = once_more(alloc, join.as_slice())?;
    Ok(weight(instance, Kind::Postman, &Answer::Counts(uses)))
}

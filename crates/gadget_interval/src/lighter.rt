ghost use Rattle.std.specs.Prelude.{◌≡◌, ◌-◌, ◌<◌, ◌^◌, ◌&&◌};
ghost use Rattle.std.specs.Prelude.{◌*ℤ◌, ◌≤ℤ◌, int_lt, nat_lt, nat_le, pos, IfOk, All, length};
ghost use Rattle.graph_theory.specs.Graph.{IsEdgeNumber};
ghost use Rattle.graph_theory.specs.Walk.{walk_weight};
ghost use Rattle.mb_problem.specs.declared.answer.Answer.TheVariants.{Counts};
ghost use Rattle.mb_problem.specs.declared.kind.Kind.TheVariants.{CapMatch, Interval};
ghost use Rattle.mb_problem.specs.Feasible.{IsFeasible, weight_of};
ghost use Rattle.mb_problem.specs.Measured.{HasPlaces};
ghost use Rattle.mb_problem.specs.Network.{IsNetwork, at_most};
ghost use Rattle.mb_problem.specs.Size.{room_of};
ghost use Rattle.gadget_base.specs.Certified.{gadget_graph, IsPerfectList};
ghost use Rattle.gadget_cap.specs.Places.{entry_counts};
ghost use Rattle.gadget_interval.specs.Halves.{listed_after, in_first_half, in_second_half};
ghost use Rattle.gadget_interval.specs.Halves.{half_counts, lighter_half};

use gadget_cap::count_entries;
use mb_base::{EdgeId, OutOfMemory, Sequence};
use mb_problem::{Answer, EDGE_LIMIT, Instance, Kind, gadget_size, weight};
use std::alloc::Global;

/// Whether an edge is one of the `count` after the first `before`.
fn is_after(number: u64, before: u64, count: u64) -> bool
    ensures { result ≡ (nat_lt before number && nat_le (number - before) count) }
{
    before < number && number - before <= count
}

/// The `count` edges after the first `before` that are listed, by how far they come after these.
fn edges_after(
    alloc: Global,
    edges: &[EdgeId],
    before: u64,
    count: u64,
) -> Result<Vec<EdgeId>, OutOfMemory>
    ensures { IfOk result (λ part. part.items ≡ listed_after before count edges.now) }
{
    let mut part = Vec::new(alloc);
    for edge in edges {
        let number = u64::from(edge.number());
        if is_after(number, before, count) {
            part.push(EdgeId::new((number - before) as u32))?;
        }
    }
    Ok(part)
}

/// The answer that the listed ones of the `count` edges after the first `before` say, by the
/// numbers that these have in a graph of gates.
fn part_answer(
    alloc: Global,
    upper: &Instance,
    edges: &[EdgeId],
    before: u64,
    count: u64,
) -> Result<Answer, OutOfMemory>
    requires numbers { All (IsEdgeNumber (gadget_graph CapMatch upper.now))
        (listed_after before count edges.now) }
    requires size_limit { length edges.now < 2 ^ 32 }
    ensures { IfOk result (λ a. a ≡ Counts (entry_counts upper.now (room_of upper.now)
        (listed_after before count edges.now))) }
{
    let part = edges_after(alloc, edges, before, count)?;
    let counts = count_entries(alloc, upper, false, &part)?;
    Ok(Answer::Counts(Sequence::from_vec(counts)))
}

/// The answers that the two halves of a perfect matching of the graph of `interval` say; `upper` is
/// the instance with the greatest degrees alone.
fn both_answers(
    alloc: Global,
    instance: &Instance,
    upper: &Instance,
    edges: &[EdgeId],
) -> Result<(Answer, Answer), OutOfMemory>
    requires upper { upper.now ≡ at_most instance.now }
    requires perfect { IsPerfectList (gadget_graph Interval instance.now) edges.now }
    ensures first { IfOk result (λ both. both.0
        ≡ Counts (half_counts instance.now (in_first_half instance.now edges.now))) }
    ensures second { IfOk result (λ both. both.1
        ≡ Counts (half_counts instance.now (in_second_half instance.now edges.now))) }
    ensures network { IsNetwork instance.now }
{
    prove!(instance.edges() <= EDGE_LIMIT);
    let (_, size) = gadget_size(upper, Kind::CapMatch);
    let first = part_answer(alloc, upper, edges, 0, size)?;
    let second = part_answer(alloc, upper, edges, size, size)?;
    Ok((first, second))
}

/// Whether the one answer weighs less than the other.
fn weighs_less(instance: &Instance, one: &Answer, other: &Answer) -> bool
    requires one { HasPlaces instance.now one.now }
    requires other { HasPlaces instance.now other.now }
    ensures { result ≡ int_lt (weight_of Interval instance.now one.now)
        (weight_of Interval instance.now other.now) }
{
    weight(instance, Kind::Interval, one) < weight(instance, Kind::Interval, other)
}

/// The answer that a perfect matching of the graph of `interval` stands for, given as the numbers
/// of its edges: that of the lighter half, and of the first if both weigh the same. It takes time
/// linear in the instance, and for each edge of the matching the logarithm of the number of the
/// instance's edges.
///
/// # Errors
///
/// `OutOfMemory` if an allocation fails.
pub fn extract(alloc: Global, instance: &Instance, edges: &[EdgeId]) -> Result<Answer, OutOfMemory>
    requires perfect { IsPerfectList (gadget_graph Interval instance.now) edges.now }

    // The counts of the lighter half, of the first if both weigh the same: feasible, of at most
    // half the matching's weight.
    ensures answer { IfOk result (λ a. a ≡ Counts (lighter_half instance.now edges.now)) }
    ensures feasible { IfOk result (IsFeasible Interval instance.now) }
    ensures lighter { IfOk result (λ a. (pos 2 *ℤ weight_of Interval instance.now a)
        ≤ℤ walk_weight (gadget_graph Interval instance.now) edges.now) }
{
    let upper = instance.at_most()?;
    let both = both_answers(alloc, instance, &upper, edges);
    drop(upper);
    let (first, second) = both?;
    if weighs_less(instance, &second, &first) {
        Ok(second)
    } else {
        Ok(first)
    }
}

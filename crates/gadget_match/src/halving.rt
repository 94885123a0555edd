ghost use Rattle.std.specs.Prelude.{◌≡◌, ℕ, ◌+◌, ◌-◌, ◌*◌, ◌<◌, ◌≤◌, ◌^◌, ◌==◌, if◌then◌else◌};
ghost use Rattle.std.specs.Prelude.{length, slice_index, All, IfOk, pos, neg_ℤ, ◌*ℤ◌, ◌≤ℤ◌, int_lt};
ghost use Rattle.graph_theory.specs.Walk.{walk_weight};
ghost use Rattle.mb_problem.specs.declared.kind.Kind.TheVariants.{Match};
ghost use Rattle.mb_problem.specs.declared.answer.Answer.TheVariants.{Counts};
ghost use Rattle.mb_problem.specs.Feasible.{IsFeasible, weight_of};
ghost use Rattle.mb_problem.specs.Measured.{HasPlaces};
ghost use Rattle.gadget_base.specs.Blocks.{tabled};
ghost use Rattle.gadget_base.specs.Gadgets.{doubled_graph};
ghost use Rattle.gadget_base.specs.Certified.{IsPerfectList};
ghost use Rattle.gadget_base.specs.Listed.{times};
ghost use Rattle.gadget_match.specs.Extracted.{copy_counts, heavier_copy};

use gadget_base::with_loops;
use mb_base::{EdgeId, OutOfMemory, Sequence};
use mb_problem::{Answer, Instance, Kind, link_count, weight};
use std::alloc::Global;

/// Counts an edge of the graph, if it is copy number `copy`, 1 or 2, of an edge.
fn add_copy(counts: &mut [u32], edge: EdgeId, copy: u32)
    requires first { 1 ≤ copy }
    requires last { copy ≤ 2 }
    requires number { 1 ≤ edge }
    requires value_limit { (k : ℕ) → k < length counts.old → slice_index counts.old k < 2 ^ 31 }
    ensures size { length counts.new ≡ length counts.old }
    ensures each { (k : ℕ) → k < length counts.old → slice_index counts.new k
        ≡ slice_index counts.old k + (if edge == 2 * k + copy then 1 else 0) }
{
    let place = edge.number() - 1;
    let k = (place / 2) as usize;
    if place % 2 + 1 == copy && k < counts.len() {
        counts[k] += 1;
    }
}

/// Counts how often copy number `copy`, 1 or 2, of each edge that has some is listed. At the start
/// all counts are 0.
fn add_copies(counts: &mut [u32], edges: &[EdgeId], copy: u32)
    requires first { 1 ≤ copy }
    requires last { copy ≤ 2 }
    requires numbers { All (λ e. 1 ≤ e) edges.now }
    requires size_limit { length edges.now < 2 ^ 31 }
    requires start { (k : ℕ) → k < length counts.old → slice_index counts.old k ≡ 0 }
    ensures { counts.new ≡ tabled (λ k. times edges.now (2 * k + copy)) (length counts.old) }
{
    for edge in edges {
        add_copy(counts, *edge, copy);
    }
}

/// How often copy number `copy`, 1 or 2, of each of `count` edges that have some is listed.
fn listed_copies(
    alloc: Global,
    count: usize,
    edges: &[EdgeId],
    copy: u32,
) -> Result<Vec<u32>, OutOfMemory>
    requires first { 1 ≤ copy }
    requires last { copy ≤ 2 }
    requires numbers { All (λ e. 1 ≤ e) edges.now }
    requires size_limit { length edges.now < 2 ^ 31 }
    ensures { IfOk result
        (λ counts. counts.items ≡ tabled (λ k. times edges.now (2 * k + copy)) count) }
{
    let mut counts = vec![in alloc; 0u32; count]?;
    add_copies(&mut counts, edges, copy);
    Ok(counts)
}

/// How often copy number `copy`, 1 or 2, of each edge is listed; a loop has none.
fn count_copies(
    alloc: Global,
    instance: &Instance,
    edges: &[EdgeId],
    copy: u32,
) -> Result<Vec<u32>, OutOfMemory>
    requires first { 1 ≤ copy }
    requires last { copy ≤ 2 }
    requires numbers { All (λ e. 1 ≤ e) edges.now }
    requires size_limit { length edges.now < 2 ^ 31 }
    ensures { IfOk result (λ counts. counts.items ≡ copy_counts instance.now edges.now copy) }
{
    let counts = listed_copies(alloc, link_count(instance) as usize, edges, copy)?;
    with_loops(alloc, instance, &counts)
}

/// Whether the one answer weighs less than the other.
fn weighs_less(instance: &Instance, one: &Answer, other: &Answer) -> bool
    requires one { HasPlaces instance.now one.now }
    requires other { HasPlaces instance.now other.now }
    ensures { result ≡ int_lt (weight_of Match instance.now one.now)
        (weight_of Match instance.now other.now) }
{
    weight(instance, Kind::Match, one) < weight(instance, Kind::Match, other)
}

/// The matching that a perfect matching of the graph of `double` stands for, given as the numbers
/// of its edges: what it is on the copy of the graph where it weighs more, and on the first if both
/// weigh the same, with each loop 0 times (Schrijver, Combinatorial Optimization, volume A, chapter
/// 26). It takes time linear in the instance.
///
/// # Errors
///
/// `OutOfMemory` if an allocation fails.
pub fn extract_double(
    alloc: Global,
    instance: &Instance,
    edges: &[EdgeId],
) -> Result<Answer, OutOfMemory>
    requires perfect { IsPerfectList (doubled_graph instance.now) edges.now }

    // A perfect matching there gives a matching at least as good as its value says: the better of
    // two copies.
    ensures feasible { IfOk result (IsFeasible Match instance.now) }
    ensures heavier { IfOk result
        (λ a. neg_ℤ (walk_weight (doubled_graph instance.now) edges.now) ≤ℤ
        (pos 2 *ℤ weight_of Match instance.now a)) }
    ensures answer { IfOk result (λ a. a ≡ Counts (heavier_copy instance.now edges.now)) }
{
    prove!(edges.len() <= instance.vertices() as usize);
    let one = count_copies(alloc, instance, edges, 1)?;
    let two = count_copies(alloc, instance, edges, 2)?;
    let first = Answer::Counts(Sequence::from_vec(one));
    let second = Answer::Counts(Sequence::from_vec(two));
    if weighs_less(instance, &first, &second) {
        drop(first);
        Ok(second)
    } else {
        drop(second);
        Ok(first)
    }
}

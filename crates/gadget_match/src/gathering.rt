ghost use Rattle.std.specs.Prelude.{◌≡◌, ℕ, ◌+◌, ◌-◌, ◌*◌, ◌<◌, ◌≤◌, ◌^◌, ◌==◌, if◌then◌else◌};
ghost use Rattle.std.specs.Prelude.{length, slice_index, All, IfOk};
ghost use Rattle.graph_theory.specs.Walk.{walk_weight};
ghost use Rattle.mb_problem.specs.declared.kind.Kind.TheVariants.{BMatch};
ghost use Rattle.mb_problem.specs.declared.answer.Answer.TheVariants.{Counts};
ghost use Rattle.mb_problem.specs.Feasible.{IsFeasible, weight_of};
ghost use Rattle.mb_problem.specs.Network.{IsNetwork};
ghost use Rattle.mb_problem.specs.Size.{copy_pairs};
ghost use Rattle.gadget_base.specs.Gadgets.{copies_graph};
ghost use Rattle.gadget_base.specs.Certified.{IsPerfectList};
ghost use Rattle.gadget_base.specs.Starts.{AreStarts};
ghost use Rattle.gadget_match.specs.Extracted.{pairs_before, gathered};

use gadget_base::{find_block, wide_starts};
use mb_base::{EdgeId, OutOfMemory, Sequence};
use mb_problem::{Answer, Instance, copy_pairs};
use std::alloc::Global;

/// How many edges of the graph stand for each edge of the instance.
fn pair_counts(alloc: Global, instance: &Instance) -> Result<Vec<u32>, OutOfMemory>
    ensures size { IfOk result (λ counts. length counts.items ≡ length instance.now.edges) }
    ensures each { IfOk result (λ counts. (k : ℕ) → k < length instance.now.edges
        → slice_index counts.items k ≡ copy_pairs instance.now k) }
    ensures network { IsNetwork instance.now }
{
    let mut counts = Vec::with_capacity(alloc, instance.edges() as usize)?;
    for edge in instance.edge_list() {
        counts.push(copy_pairs(instance, edge) as u32)?;
    }
    Ok(counts)
}

/// How many edges of the graph stand before those of each edge of the instance, and at last all.
fn pair_starts(alloc: Global, instance: &Instance) -> Result<Vec<u64>, OutOfMemory>
    ensures starts { IfOk result (λ starts. AreStarts (copy_pairs instance.now)
        (length instance.now.edges) starts.items) }
    ensures network { IsNetwork instance.now }
{
    let counts = pair_counts(alloc, instance)?;
    wide_starts(alloc, &counts)
}

/// Adds 1 to the count at a place.
fn add_one(counts: &mut [u32], place: usize)
    requires inside { place < length counts.old }
    requires value_limit { slice_index counts.old place < 2 ^ 31 }
    ensures size { length counts.new ≡ length counts.old }
    ensures each { (k : ℕ) → k < length counts.old → slice_index counts.new k
        ≡ slice_index counts.old k + (if place == k then 1 else 0) }
{
    counts[place] += 1;
}

/// Counts how often edges of the graph that stand for each edge of the instance are listed. At the
/// start all counts are 0.
fn add_pairs(counts: &mut [u32], instance: &Instance, starts: &[u64], edges: &[EdgeId])
    requires starts { AreStarts (copy_pairs instance.now) (length instance.now.edges) starts.now }
    requires numbers { All (λ e. (1 ≤ e)
        × (e ≤ pairs_before instance.now (length instance.now.edges))) edges.now }
    requires size_limit { length edges.now < 2 ^ 31 }
    requires size { length counts.old ≡ length instance.now.edges }
    requires start { (k : ℕ) → k < length counts.old → slice_index counts.old k ≡ 0 }
    ensures { counts.new ≡ gathered instance.now edges.now }
{
    for edge in edges {
        let place = find_block(starts, u64::from(edge.number()) - 1);
        add_one(counts, place);
    }
}

/// How often edges of the graph that stand for each edge of the instance are listed.
fn count_pairs(
    alloc: Global,
    instance: &Instance,
    starts: &[u64],
    edges: &[EdgeId],
) -> Result<Vec<u32>, OutOfMemory>
    requires starts { AreStarts (copy_pairs instance.now) (length instance.now.edges) starts.now }
    requires numbers { All (λ e. (1 ≤ e)
        × (e ≤ pairs_before instance.now (length instance.now.edges))) edges.now }
    requires size_limit { length edges.now < 2 ^ 31 }
    ensures counts { IfOk result (λ counts. counts.items ≡ gathered instance.now edges.now) }
{
    let mut counts = vec![in alloc; 0u32; instance.edges() as usize]?;
    add_pairs(&mut counts, instance, starts, edges);
    Ok(counts)
}

/// The b-matching that a perfect matching of the graph of `copies` stands for, given as the numbers
/// of its edges: each edge of the instance is used as often as copies of its ends are joined
/// (Schrijver, Combinatorial Optimization, volume A, chapter 31). It takes time linear in the
/// instance, and for each edge of the matching the logarithm of the number of the instance's edges.
///
/// # Errors
///
/// `OutOfMemory` if an allocation fails.
pub fn extract_copies(
    alloc: Global,
    instance: &Instance,
    edges: &[EdgeId],
) -> Result<Answer, OutOfMemory>
    requires perfect { IsPerfectList (copies_graph instance.now) edges.now }

    // A perfect matching there gives a feasible answer of the weight that its value says.
    ensures feasible { IfOk result (IsFeasible BMatch instance.now) }
    ensures weighs { IfOk result (λ a. weight_of BMatch instance.now a
        ≡ walk_weight (copies_graph instance.now) edges.now) }
    ensures answer { IfOk result (λ a. a ≡ Counts (gathered instance.now edges.now)) }
{
    let starts = pair_starts(alloc, instance)?;
    let counts = count_pairs(alloc, instance, &starts, edges)?;
    Ok(Answer::Counts(Sequence::from_vec(counts)))
}

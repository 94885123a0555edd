ghost use Rattle.std.specs.Prelude.{◌≡◌, ◌+◌, ◌-◌, ◌<◌, ◌≤◌, ◌^◌, ◌==◌, ℕ, if◌then◌else◌, length};
ghost use Rattle.std.specs.Prelude.{slice_index, All, IfOk};
ghost use Rattle.graph_theory.specs.Graph.{IsEdgeNumber};
ghost use Rattle.graph_theory.specs.Walk.{walk_weight};
ghost use Rattle.graph_theory.specs.Graph.{HasNoLoop};
ghost use Rattle.graph_theory.specs.Limits.{HasSize};
ghost use Rattle.gallai_theory.specs.Decomposition.{unweighted};
ghost use Rattle.mb_problem.specs.declared.kind.Kind.TheVariants.{Perfect, Gallai};
ghost use Rattle.mb_problem.specs.declared.answer.Answer.TheVariants.{Counts};
ghost use Rattle.mb_problem.specs.Network.{graph_of, plain_graph};
ghost use Rattle.mb_problem.specs.Size.{link_count, size_of};
ghost use Rattle.mb_problem.specs.Feasible.{IsFeasible, weight_of};
ghost use Rattle.gadget_base.specs.Certified.{IsPerfectList};
ghost use Rattle.gadget_base.specs.Blocks.{tabled};
ghost use Rattle.gadget_base.specs.Links.{with_loops};
ghost use Rattle.gadget_base.specs.Listed.{times, times_each};

use mb_base::{EdgeId, OutOfMemory, Sequence};
use mb_problem::{Answer, Instance, link_count};
use std::alloc::Global;
use weighted_graph::Graph;

/// Counts an edge once more.
fn add_one(counts: &mut [u32], e: EdgeId)
    requires low { 1 ≤ e }
    requires high { e ≤ length counts.old }
    requires value_limit { slice_index counts.old (e - 1) < 2 ^ 31 }
    ensures size { length counts.new ≡ length counts.old }
    ensures each { (k : ℕ) → k < length counts.old → slice_index counts.new k
        ≡ slice_index counts.old k + (if e == k + 1 then 1 else 0) }
{
    counts[e.number() as usize - 1] += 1;
}

/// Counts how often each edge is listed. At the start all counts are 0.
fn add_listed(counts: &mut [u32], edges: &[EdgeId])
    requires numbers { All (λ e. (1 ≤ e) × (e ≤ length counts.old)) edges.now }
    requires size_limit { length edges.now < 2 ^ 31 }
    requires start { (k : ℕ) → k < length counts.old → slice_index counts.old k ≡ 0 }
    ensures { counts.new ≡ tabled (λ k. times edges.now (k + 1)) (length counts.old) }
{
    for edge in edges {
        add_one(counts, *edge);
    }
}

/// How often each of the numbers 1 to `count` is listed.
fn count_numbers(alloc: Global, count: usize, numbers: &[EdgeId]) -> Result<Vec<u32>, OutOfMemory>
    requires numbers { All (λ e. (1 ≤ e) × (e ≤ count)) numbers.now }
    requires size_limit { length numbers.now < 2 ^ 31 }
    ensures { IfOk result (λ counts. counts.items ≡ tabled (λ k. times numbers.now (k + 1)) count) }
{
    let mut counts = vec![in alloc; 0u32; count]?;
    add_listed(&mut counts, numbers);
    Ok(counts)
}

/// How often each edge is listed.
pub fn count_listed(
    alloc: Global,
    instance: &Instance,
    edges: &[EdgeId],
) -> Result<Vec<u32>, OutOfMemory>
    requires numbers { All (IsEdgeNumber (graph_of instance.now)) edges.now }
    requires size_limit { length edges.now < 2 ^ 31 }
    ensures { IfOk result (λ counts. counts.items ≡ times_each (graph_of instance.now) edges.now) }
{
    count_numbers(alloc, instance.edges() as usize, edges)
}

/// The graph of an instance without its loops, with each weight read as 0. It takes time linear in
/// the edges.
#[tactic(auto, using(crate::proofs::Links::unweighted_size))]
pub fn unweighted(alloc: Global, instance: &Instance) -> Result<Graph, OutOfMemory>
    ensures graph { IfOk result (λ h. h ≡ unweighted (plain_graph instance.now)) }
    ensures size { HasSize (size_of Gallai instance.now) (unweighted (plain_graph instance.now)) }
    ensures loopless { IfOk result HasNoLoop }
{
    let mut graph = Graph::new(alloc, instance.vertices());
    for edge in instance.edge_list() {
        if edge.u != edge.v {
            graph.add(edge.u, edge.v, 0)?;
        }
    }
    Ok(graph)
}

/// Counts of the edges that are no loops, one after another, as counts of all edges: 0 for each
/// loop. The edges of a graph without the instance's loops have other numbers than the instance's.
pub fn with_loops(
    alloc: Global,
    instance: &Instance,
    counts: &[u32],
) -> Result<Vec<u32>, OutOfMemory>
    requires { length counts.now ≡ link_count instance.now }
    ensures { IfOk result (λ all. all.items ≡ with_loops instance.now counts.now) }
{
    let mut all = Vec::with_capacity(alloc, instance.edges() as usize)?;
    let mut place = 0;
    for edge in instance.edge_list() {
        if edge.u == edge.v {
            all.push(0)?;
        } else {
            all.push(counts[place])?;
            place += 1;
        }
    }
    Ok(all)
}

/// A perfect matching of the instance's own graph, given as the numbers of its edges in the graph
/// without loops, as an answer that counts each edge as often as it is listed and each loop 0
/// times. It takes time linear in the edges.
///
/// # Errors
///
/// `OutOfMemory` if an allocation fails.
pub fn extract_plain(
    alloc: Global,
    instance: &Instance,
    edges: &[EdgeId],
) -> Result<Answer, OutOfMemory>
    requires perfect { IsPerfectList (plain_graph instance.now) edges.now }

    // A perfect matching of the instance itself as a feasible answer of its weight.
    ensures counted { IfOk result (λ a. a ≡ Counts (with_loops instance.now
        (times_each (plain_graph instance.now) edges.now))) }
    ensures feasible { IfOk result (IsFeasible Perfect instance.now) }
    ensures weighs { IfOk result (λ a. weight_of Perfect instance.now a
        ≡ walk_weight (plain_graph instance.now) edges.now) }
{
    prove!(edges.len() <= instance.vertices() as usize / 2);
    let counts = count_numbers(alloc, link_count(instance) as usize, edges)?;
    let all = with_loops(alloc, instance, &counts)?;
    Ok(Answer::Counts(Sequence::from_vec(all)))
}

ghost use Rattle.std.specs.Prelude.{◌≡◌, ℕ, ◌+◌, ◌*◌, ◌<◌, ◌≤◌, ◌^◌, ◌++◌, length, All};
ghost use Rattle.std.specs.Prelude.{slice_index, IfOk, OnOk};
ghost use Rattle.graph_theory.specs.Graph.{HasNoLoop};
ghost use Rattle.graph_theory.specs.Limits.{IsWithinLimits, HasSize};
ghost use Rattle.mb_problem.specs.declared.limits.TheConstants.{VERTEX_LIMIT};
ghost use Rattle.mb_problem.specs.Network.{IsNetwork, IsInstanceEdge, vertices};
ghost use Rattle.mb_problem.specs.Network.{instance_edge_at};
ghost use Rattle.mb_problem.specs.Size.{size_of, standing, in_first, in_second};
ghost use Rattle.gadget_base.specs.Blocks.{blocks};
ghost use Rattle.gadget_base.specs.Gadgets.{sides_graph};
ghost use Rattle.gadget_base.specs.Certified.{gadget_graph, ReachesAll};
ghost use Rattle.gadget_parity.specs.Sides.{path_kind};
ghost use Rattle.gadget_parity.specs.Numbers.{is_marked, AreNumbers, copy_by, between_by};

use mb_base::{OutOfMemory, VertexId};
use mb_problem::{Instance, InstanceEdge, mark_sides};
use std::alloc::Global;
use weighted_graph::Graph;

/// How many vertices are marked.
fn count_marked(marks: &[bool]) -> u32
    requires size_limit { length marks.now ≤ VERTEX_LIMIT }
    ensures count { result ≡ standing (is_marked marks.now) (length marks.now) }
    ensures size_limit { result ≤ length marks.now }
{
    let mut count = 0;
    for marked in marks {
        count += u32::from(*marked);
    }
    count
}

/// The number of each vertex that is marked, where these are numbered in order after `before`
/// others, and 0 for each other vertex.
fn number_marked(alloc: Global, marks: &[bool], before: u32) -> Result<Vec<u32>, OutOfMemory>
    requires size_limit { length marks.now ≤ VERTEX_LIMIT }
    requires value_limit { before ≤ VERTEX_LIMIT }
    ensures { IfOk result (λ numbers. AreNumbers (is_marked marks.now) before (length marks.now)
        numbers.items) }
{
    let mut numbers = Vec::with_capacity(alloc, marks.len())?;
    let mut last = before;
    for marked in marks {
        last += u32::from(*marked);
        numbers.push(if *marked { last } else { 0 })?;
    }
    Ok(numbers)
}

/// Adds the copy of an edge, by the numbers of its ends, if it isn't a loop and both stand there.
fn add_copy(graph: &mut Graph, edge: &InstanceEdge, numbers: &[u32]) -> Result<(), OutOfMemory>
    requires edge { IsInstanceEdge (length numbers.now) edge.now }
    requires inside { All (λ x. x ≤ graph.old.vertices) numbers.now }
    requires room { length graph.old.edges + 1 < 2 ^ 32 }
    ensures added { OnOk result (graph.new ≡ record graph.old {
      edges = graph.old.edges ++ copy_by numbers.now edge.now;
    }) }
    ensures size_limit { OnOk result (length graph.new.edges ≤ length graph.old.edges + 1) }
{
    let u = numbers[edge.u.number() as usize - 1];
    let v = numbers[edge.v.number() as usize - 1];
    if edge.u == edge.v {
        return Ok(());
    }
    if u == 0 {
        return Ok(());
    }
    if v == 0 {
        return Ok(());
    }
    graph.add(VertexId::new(u), VertexId::new(v), edge.w)?;
    Ok(())
}

/// Adds the two copies of each edge.
fn add_copies(
    graph: &mut Graph,
    instance: &Instance,
    first: &[u32],
    second: &[u32],
) -> Result<(), OutOfMemory>
    requires first { length first.now ≡ vertices instance.now }
    requires second { length second.now ≡ vertices instance.now }
    requires inside_first { All (λ x. x ≤ graph.old.vertices) first.now }
    requires inside_second { All (λ x. x ≤ graph.old.vertices) second.now }
    requires room { length graph.old.edges + 2 * length instance.now.edges < 2 ^ 32 }
    ensures added { OnOk result (graph.new ≡ record graph.old {
      edges = graph.old.edges ++ blocks
          (λ k. copy_by first.now (instance_edge_at instance.now k)
          ++ copy_by second.now (instance_edge_at instance.now k)) (length instance.now.edges);
    }) }
    ensures size_limit { OnOk result (length graph.new.edges
        ≤ length graph.old.edges + 2 * length instance.now.edges) }
{
    for edge in instance.edge_list() {
        add_copy(graph, edge, first)?;
        add_copy(graph, edge, second)?;
    }
    Ok(())
}

/// Joins a vertex to its other copy, by their numbers, if it stands in both.
fn join_copy(graph: &mut Graph, one: u32, two: u32) -> Result<(), OutOfMemory>
    requires inside_one { one ≤ graph.old.vertices }
    requires inside_two { two ≤ graph.old.vertices }
    requires room { length graph.old.edges + 1 < 2 ^ 32 }
    ensures added { OnOk result (graph.new ≡ record graph.old {
      edges = graph.old.edges ++ between_by one two;
    }) }
{
    if one == 0 {
        return Ok(());
    }
    if two == 0 {
        return Ok(());
    }
    graph.add(VertexId::new(one), VertexId::new(two), 0)?;
    Ok(())
}

/// Joins each vertex that stands in both copies to its other copy.
fn join_copies(graph: &mut Graph, first: &[u32], second: &[u32]) -> Result<(), OutOfMemory>
    requires size { length second.now ≡ length first.now }
    requires inside_first { All (λ x. x ≤ graph.old.vertices) first.now }
    requires inside_second { All (λ x. x ≤ graph.old.vertices) second.now }
    requires room { length graph.old.edges + length first.now < 2 ^ 32 }
    ensures added { OnOk result (graph.new ≡ record graph.old {
      edges = graph.old.edges ++ blocks
          (λ k. between_by (slice_index first.now k) (slice_index second.now k))
          (length first.now);
    }) }
{
    for (k, one) in first.iter().enumerate() {
        join_copy(graph, *one, second[k])?;
    }
    Ok(())
}

/// The numbers of the vertices in the first copy, those in the second, which come after them, and
/// how many numbers there are.
fn number_sides(
    alloc: Global,
    instance: &Instance,
    odd: bool,
) -> Result<(Vec<u32>, Vec<u32>, u32), OutOfMemory>
    ensures first { IfOk result (λ sides. AreNumbers (in_first odd instance.now) 0
        (vertices instance.now) sides.0.items) }
    ensures second { IfOk result (λ sides. AreNumbers (in_second odd instance.now)
        (standing (in_first odd instance.now) (vertices instance.now)) (vertices instance.now)
        sides.1.items) }
    ensures count { IfOk result (λ sides. sides.2
        ≡ standing (in_first odd instance.now) (vertices instance.now)
        + standing (in_second odd instance.now) (vertices instance.now)) }
    ensures network { IsNetwork instance.now }
{
    let n = instance.vertices() as usize;
    let mut first = vec![in alloc; false; n]?;
    let mut second = vec![in alloc; false; n]?;
    mark_sides(instance, odd, &mut first, &mut second);
    let before = count_marked(&first);
    let one = number_marked(alloc, &first, 0)?;
    let two = number_marked(alloc, &second, before)?;
    Ok((one, two, before + count_marked(&second)))
}

/// Builds the graph.
fn build(alloc: Global, instance: &Instance, odd: bool) -> Result<Graph, OutOfMemory>
    ensures graph { IfOk result (λ h. h ≡ sides_graph (in_first odd instance.now)
        (in_second odd instance.now) instance.now) }
    ensures network { IsNetwork instance.now }
{
    let (first, second, count) = number_sides(alloc, instance, odd)?;
    let mut graph = Graph::new(alloc, count);
    add_copies(&mut graph, instance, &first, &second)?;
    join_copies(&mut graph, &first, &second)?;
    Ok(graph)
}

/// The graph whose perfect matchings stand for the paths of an odd or of an even number of edges
/// between the two ends of an instance (Schrijver, Combinatorial Optimization, volume A, chapter
/// 29): the graph without its loops twice, where the first, third, fifth edge of a path is one of
/// the first copy, and the others are of the second. An odd path comes to neither end in the second
/// copy, which leaves out both; an even one leaves the first end in the first copy and comes to the
/// second in the second, so that each copy leaves out one. The two copies of each other vertex are
/// joined at weight 0. It takes time linear in the instance.
///
/// # Errors
///
/// `OutOfMemory` if an allocation fails.
#[tactic(auto, using(crate::proofs::SideGraph::path_size, crate::proofs::Paths::reaches_paths))]
pub fn parity(alloc: Global, instance: &Instance, odd: bool) -> Result<Graph, OutOfMemory>
    requires limits { IsWithinLimits (size_of (path_kind odd) instance.now) }

    // The certificate graph of `oddpath` and `evenpath`, with the same four promises.
    ensures graph { IfOk result (λ h. h ≡ gadget_graph (path_kind odd) instance.now) }
    ensures size { HasSize (size_of (path_kind odd) instance.now)
        (gadget_graph (path_kind odd) instance.now) }
    ensures loopless { IfOk result HasNoLoop }
    ensures reached { ReachesAll (path_kind odd) instance.now }
{
    build(alloc, instance, odd)
}

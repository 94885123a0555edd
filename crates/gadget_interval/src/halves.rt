ghost use Rattle.std.specs.Prelude.{◌≡◌, ℕ, ◌+◌, ◌*◌, ◌<◌, ◌≤◌, ◌^◌, ◌++◌, [], length, pos};
ghost use Rattle.std.specs.Prelude.{OnOk, IfOk};
ghost use Rattle.graph_theory.specs.Graph.{IsGraph, HasNoLoop};
ghost use Rattle.graph_theory.specs.Limits.{IsWithinLimits, HasSize};
ghost use Rattle.graph_theory.specs.Sums.{sum_to};
ghost use Rattle.mb_problem.specs.declared.kind.Kind.TheVariants.{CapMatch, Interval};
ghost use Rattle.mb_problem.specs.Network.{vertices, at_most};
ghost use Rattle.mb_problem.specs.Size.{size_of, spare_copies, value_total};
ghost use Rattle.gadget_base.specs.Blocks.{blocks, tabled};
ghost use Rattle.gadget_base.specs.Certified.{gadget_graph, ReachesAll};
ghost use Rattle.gadget_base.specs.Gadgets.{half_graph, halves_graph, moved, spare_pair};

use gadget_cap::capped;
use mb_base::{OutOfMemory, VertexId};
use mb_problem::{Instance, VERTEX_LIMIT};
use std::alloc::Global;
use weighted_graph::Graph;

/// Adds the edges of a graph with their ends `by` vertices further on.
fn add_moved(graph: &mut Graph, half: &Graph, by: u32) -> Result<(), OutOfMemory>
    requires vertices { half.now.vertices + by ≤ graph.old.vertices }
    requires room { length graph.old.edges + length half.now.edges < 2 ^ 32 }
    ensures added { OnOk result (graph.new ≡ record graph.old {
      edges = graph.old.edges ++ moved by half.now.edges;
    }) }
{
    prove!(graph.vertices() >= half.vertices() + by);
    for edge in half.edge_list() {
        let u = VertexId::new(edge.u.number() + by);
        let v = VertexId::new(edge.v.number() + by);
        graph.add(u, v, edge.w)?;
    }
    Ok(())
}

/// Joins each of the `count` vertices after the first `before + low` to the vertex that comes `by`
/// later.
fn join_twins(
    graph: &mut Graph,
    before: u32,
    low: u32,
    count: u32,
    by: u32,
) -> Result<(), OutOfMemory>
    requires vertices { before + low + count + by ≤ graph.old.vertices }
    requires room { length graph.old.edges + count < 2 ^ 32 }
    ensures added { OnOk result (graph.new ≡ record graph.old {
      edges = graph.old.edges ++ tabled (λ a. record {
        u = before + (low + a) + 1;
        v = before + (low + a) + 1 + by;
        w = pos 0;
      }) count;
    }) }
    ensures graph { IsGraph graph.new }
{
    prove!(graph.vertices() >= before + low + count + by);
    for a in 0..count {
        let copy = before + (low + a) + 1;
        graph.add(VertexId::new(copy), VertexId::new(copy + by), 0)?;
    }
    Ok(())
}

/// Joins each copy of a vertex past its least degree to its twin, `by` vertices further on.
fn add_pairs(graph: &mut Graph, instance: &Instance, by: u32) -> Result<(), OutOfMemory>
    requires copies { value_total (at_most instance.now) ≤ by }
    requires vertices { graph.old.vertices ≡ 2 * by }
    requires room { length graph.old.edges
        + sum_to (spare_copies instance.now) (vertices instance.now) < 2 ^ 32 }
    ensures added { OnOk result (graph.new ≡ record graph.old {
      edges = graph.old.edges ++ blocks
          (λ k. tabled (spare_pair instance.now by k) (spare_copies instance.now k))
          (vertices instance.now);
    }) }
{
    prove!(graph.vertices() == 2 * by);
    let mut before = 0;
    for k in 0..instance.vertices() {
        let (low, high) = instance.range(VertexId::new(k + 1));
        join_twins(graph, before, low, high - low, by)?;
        before += high;
    }
    Ok(())
}

/// The graph of gates for the greatest degrees.
fn half_of(alloc: Global, instance: &Instance) -> Result<Graph, OutOfMemory>
    requires limits { IsWithinLimits (size_of CapMatch (at_most instance.now)) }
    ensures { IfOk result (λ h. h ≡ half_graph instance.now) }
{
    let upper = instance.at_most()?;
    let half = capped(alloc, &upper, false);
    drop(upper);
    half
}

/// The graph of gates for the greatest degrees twice, and the edges between twins.
fn halves_of(alloc: Global, instance: &Instance) -> Result<Graph, OutOfMemory>
    requires limits { IsWithinLimits (size_of Interval instance.now) }
    ensures { IfOk result (λ h. h ≡ halves_graph instance.now) }
{
    prove!(instance.vertices() <= VERTEX_LIMIT);
    let half = half_of(alloc, instance)?;
    let by = half.vertices();
    let mut graph = Graph::new(alloc, 2 * by);
    add_moved(&mut graph, &half, 0)?;
    add_moved(&mut graph, &half, by)?;
    add_pairs(&mut graph, instance, by)?;
    Ok(graph)
}

/// The graph whose perfect matchings stand for the matchings of an instance with a degree between
/// two bounds at each vertex, within the capacities (Schrijver, Combinatorial Optimization, volume
/// A, chapter 35): the graph of gates for the greatest degrees twice, and for each vertex an edge
/// of weight 0 between the twins of each copy past its least degree, which may stay free. It takes
/// time linear in the instance and the graph.
///
/// # Errors
///
/// `OutOfMemory` if an allocation fails.
pub fn interval(alloc: Global, instance: &Instance) -> Result<Graph, OutOfMemory>
    requires limits { IsWithinLimits (size_of Interval instance.now) }

    // The certificate graph of `interval`, with the same four promises.
    ensures graph { IfOk result (λ h. h ≡ gadget_graph Interval instance.now) }
    ensures size { HasSize (size_of Interval instance.now) (gadget_graph Interval instance.now) }
    ensures loopless { IfOk result HasNoLoop }
    ensures reached { ReachesAll Interval instance.now }
{
    prove!(instance.vertices() <= VERTEX_LIMIT);
    halves_of(alloc, instance)
}

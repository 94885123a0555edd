ghost use Rattle.std.specs.Prelude.{◌≡◌, ℕ, ◌+◌, ◌<◌, ◌≤◌, ◌^◌, ◌++◌, length};
ghost use Rattle.std.specs.Prelude.{slice_index, OnOk, IfOk};
ghost use Rattle.graph_theory.specs.Graph.{IsGraph, HasNoLoop};
ghost use Rattle.mb_problem.specs.declared.kind.Kind.TheVariants.{BMatch};
ghost use Rattle.mb_problem.specs.Network.{IsInstanceEdge, vertices};
ghost use Rattle.mb_problem.specs.Size.{size_of, value_total};
ghost use Rattle.gadget_base.specs.Gadgets.{copies_graph};
ghost use Rattle.graph_theory.specs.Limits.{HasSize, IsWithinLimits};
ghost use Rattle.gadget_base.specs.Certified.{ReachesAll};
ghost use Rattle.gadget_base.specs.Starts.{AreStarts};
ghost use Rattle.gadget_match.specs.Copied.{pairs_between};

use gadget_base::{add_clique, add_rectangle, copies_of, starts};
use mb_base::OutOfMemory;
use mb_problem::{Instance, InstanceEdge, VERTEX_LIMIT};
use std::alloc::Global;
use weighted_graph::Graph;

/// Adds an edge between each copy of the one end of an edge and each copy of the other, or, for a
/// loop, between any two copies of its end.
fn add_pairs(
    graph: &mut Graph,
    instance: &Instance,
    starts: &[u32],
    edge: &InstanceEdge,
) -> Result<(), OutOfMemory>
    requires starts { AreStarts (λ k. slice_index instance.now.values k)
        (vertices instance.now) starts.now }
    requires vertices { graph.old.vertices ≡ value_total instance.now }
    requires edge { IsInstanceEdge (vertices instance.now) edge.now }
    requires room { length graph.old.edges + length (pairs_between instance.now edge.now) < 2 ^ 32 }
    ensures added { OnOk result (graph.new ≡ record graph.old {
      edges = graph.old.edges ++ pairs_between instance.now edge.now;
    }) }
    ensures graph { IsGraph graph.new }
{
    let (first, m) = copies_of(instance, starts, edge.u);
    if edge.u == edge.v {
        return add_clique(graph, first, m, edge.w);
    }
    let (second, n) = copies_of(instance, starts, edge.v);
    add_rectangle(graph, first, m, second, n, edge.w)
}

/// Builds the graph of `copies`.
fn build(alloc: Global, instance: &Instance) -> Result<Graph, OutOfMemory>
    requires limits { IsWithinLimits (size_of BMatch instance.now) }
    ensures { IfOk result (λ h. h ≡ copies_graph instance.now) }
{
    let starts = starts(alloc, instance.value_list())?;
    let mut graph = Graph::new(alloc, starts[instance.vertices() as usize]);
    for edge in instance.edge_list() {
        add_pairs(&mut graph, instance, &starts, edge)?;
    }
    Ok(graph)
}

/// The graph in which a b-matching, which has the value of each vertex as its degree, is a perfect
/// matching of the same weight: each vertex as often as its value says, and each edge between any
/// two copies of its ends, a loop between any two different copies of its end (Schrijver,
/// Combinatorial Optimization, volume A, chapter 31). `gadget_size` says whether it is within the
/// limits. It takes time linear in the graph.
///
/// # Errors
///
/// `OutOfMemory` if an allocation fails.
pub fn copies(alloc: Global, instance: &Instance) -> Result<Graph, OutOfMemory>
    requires limits { IsWithinLimits (size_of BMatch instance.now) }

    // The certificate graph of `bmatch`, with the same four promises.
    ensures graph { IfOk result (λ h. h ≡ copies_graph instance.now) }
    ensures size { HasSize (size_of BMatch instance.now) (copies_graph instance.now) }
    ensures loopless { IfOk result HasNoLoop }
    ensures reached { ReachesAll BMatch instance.now }
{
    prove!(instance.vertices() <= VERTEX_LIMIT);
    build(alloc, instance)
}

ghost use Rattle.std.specs.Prelude.{◌≡◌, ℕ, ◌+◌, ◌-◌, ◌*◌, ◌<◌, ◌≤◌, ◌^◌, ◌++◌, ◌∷◌, [], length};
ghost use Rattle.std.specs.Prelude.{OnOk, IfOk, pos, neg_ℤ, if◌then◌else◌};
ghost use Rattle.graph_theory.specs.Graph.{IsGraph, HasNoLoop, is_loop};
ghost use Rattle.mb_problem.specs.declared.kind.Kind.TheVariants.{Match};
ghost use Rattle.mb_problem.specs.Network.{IsInstanceEdge, vertices, plain};
ghost use Rattle.mb_problem.specs.Size.{size_of};
ghost use Rattle.gadget_base.specs.Blocks.{blocks, tabled};
ghost use Rattle.gadget_base.specs.Gadgets.{doubled_graph, two_copies};
ghost use Rattle.graph_theory.specs.Limits.{HasSize, IsWithinLimits};
ghost use Rattle.gadget_base.specs.Certified.{ReachesAll};

use mb_base::{OutOfMemory, VertexId};
use mb_problem::{Instance, InstanceEdge, VERTEX_LIMIT};
use std::alloc::Global;
use weighted_graph::Graph;

/// Adds two copies of an edge with its weight turned round, the second `n` vertices further on, or
/// none of a loop.
fn add_twice(graph: &mut Graph, edge: &InstanceEdge, n: u32) -> Result<(), OutOfMemory>
    requires vertices { graph.old.vertices ≡ 2 * n }
    requires room { length graph.old.edges + 2 < 2 ^ 32 }
    requires edge { IsInstanceEdge n edge.now }
    ensures added { OnOk result (graph.new ≡ record graph.old {
      edges = graph.old.edges ++ (if is_loop (plain edge.now) then [] else record {
        u = edge.now.u;
        v = edge.now.v;
        w = neg_ℤ edge.now.w;
      } ∷ record { u = edge.now.u + n; v = edge.now.v + n; w = neg_ℤ edge.now.w } ∷ []);
    }) }
{
    if edge.u == edge.v {
        return Ok(());
    }
    graph.add(edge.u, edge.v, -edge.w)?;
    let u = VertexId::new(edge.u.number() + n);
    let v = VertexId::new(edge.v.number() + n);
    graph.add(u, v, -edge.w)?;
    Ok(())
}

/// Adds two copies of each edge that isn't a loop, with its weight turned round.
fn add_edges_twice(graph: &mut Graph, instance: &Instance) -> Result<(), OutOfMemory>
    requires limits { IsWithinLimits (size_of Match instance.now) }
    requires start { graph.old ≡ record { vertices = 2 * vertices instance.now; edges = [] } }
    ensures added { OnOk result (graph.new ≡ record {
      vertices = 2 * vertices instance.now;
      edges = blocks (two_copies instance.now) (length instance.now.edges);
    }) }
{
    let n = instance.vertices();
    prove!(graph.vertices() == 2 * n);
    for edge in instance.edge_list() {
        add_twice(graph, edge, n)?;
    }
    Ok(())
}

/// Joins each of the first `n` vertices to its copy.
fn join_copies(graph: &mut Graph, n: u32) -> Result<(), OutOfMemory>
    requires vertices { graph.old.vertices ≡ 2 * n }
    requires room { length graph.old.edges + n < 2 ^ 32 }
    ensures added { OnOk result (graph.new ≡ record graph.old {
      edges = graph.old.edges ++ tabled (λ k. record { u = k + 1; v = k + 1 + n; w = pos 0 }) n;
    }) }
    ensures graph { IsGraph graph.new }
{
    prove!(graph.vertices() == 2 * n);
    for k in 0..n {
        graph.add(VertexId::new(k + 1), VertexId::new(k + 1 + n), 0)?;
    }
    Ok(())
}

/// Builds the graph of `double`.
fn build(alloc: Global, instance: &Instance) -> Result<Graph, OutOfMemory>
    requires limits { IsWithinLimits (size_of Match instance.now) }
    ensures { IfOk result (λ h. h ≡ doubled_graph instance.now) }
{
    let n = instance.vertices();
    let mut graph = Graph::new(alloc, 2 * n);
    add_edges_twice(&mut graph, instance)?;
    join_copies(&mut graph, n)?;
    Ok(graph)
}

/// The graph in which a matching of greatest weight is a perfect matching of least weight: the
/// graph of the instance without its loops, which no matching has, twice with the weights turned
/// round, and each vertex joined to its copy at weight 0 (Schrijver, Combinatorial Optimization,
/// volume A, chapter 26). `gadget_size` says whether it is within the limits. It takes time linear
/// in the instance.
///
/// # Errors
///
/// `OutOfMemory` if an allocation fails.
pub fn double(alloc: Global, instance: &Instance) -> Result<Graph, OutOfMemory>
    requires limits { IsWithinLimits (size_of Match instance.now) }

    // The certificate graph of `match`, edge for edge, of the stated size and without loops; each
    // matching has its perfect matching there.
    ensures graph { IfOk result (λ h. h ≡ doubled_graph instance.now) }
    ensures size { HasSize (size_of Match instance.now) (doubled_graph instance.now) }
    ensures loopless { IfOk result HasNoLoop }
    ensures reached { ReachesAll Match instance.now }
{
    prove!(instance.vertices() <= VERTEX_LIMIT);
    build(alloc, instance)
}

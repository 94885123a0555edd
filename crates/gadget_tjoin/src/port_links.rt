ghost use Rattle.std.specs.Prelude.{◌≡◌, ℕ, ◌+◌, ◌-◌, ◌<◌, ◌≤◌, ◌^◌, ◌==◌, if◌then◌else◌, []};
ghost use Rattle.std.specs.Prelude.{◌∷◌, ◌++◌, length, slice_index, OnOk};
ghost use Rattle.graph_theory.specs.Graph.{IsEdgeWithin, IsWeight, ends_at};
ghost use Rattle.mb_problem.specs.Network.{vertices, plain};
ghost use Rattle.mb_problem.specs.Size.{ports_size};
ghost use Rattle.mb_problem.specs.Size.{odd_at};
ghost use Rattle.gadget_base.specs.Blocks.{tabled};
ghost use Rattle.gadget_base.specs.Gadgets.{ports_below, between_ports, ports_graph};
ghost use Rattle.graph_theory.specs.Limits.{IsWithinLimits};
ghost use Rattle.gadget_tjoin.specs.Groups.{next_link};

use mb_base::{OutOfMemory, VertexId};
use mb_problem::{Instance, InstanceEdge, Parity};
use weighted_graph::Graph;

/// The next port of a vertex, which is taken.
fn take_port(next: &mut [u32], v: VertexId) -> VertexId
    requires low { 1 ≤ v }
    requires high { v ≤ length next.old }
    requires value_limit { slice_index next.old (v - 1) ≤ 2 ^ 31 }
    ensures port { result ≡ slice_index next.old (v - 1) + 1 }
    ensures size { length next.new ≡ length next.old }
    ensures each { (k : ℕ) → k < length next.old → slice_index next.new k
        ≡ slice_index next.old k + (if v == k + 1 then 1 else 0) }
{
    let place = v.number() as usize - 1;
    next[place] += 1;
    VertexId::new(next[place])
}

/// The next ports of the two ends of an edge, which are taken: two that follow one another for a
/// loop.
fn take_ports(next: &mut [u32], edge: &InstanceEdge) -> (VertexId, VertexId)
    requires ends { IsEdgeWithin (length next.old) (plain edge.now) }
    requires small_u { slice_index next.old (edge.now.u - 1) < 2 ^ 31 }
    requires small_v { slice_index next.old (edge.now.v - 1) < 2 ^ 31 }
    ensures u { result.0 ≡ (next_link next.old edge.now).u }
    ensures v { result.1 ≡ (next_link next.old edge.now).v }
    ensures size { length next.new ≡ length next.old }
    ensures each { (k : ℕ) → k < length next.old → slice_index next.new k
        ≡ slice_index next.old k + ends_at (plain edge.now) (k + 1) }
{
    let u = take_port(next, edge.u);
    let v = take_port(next, edge.v);
    (u, v)
}

/// Adds an edge between the next ports of its ends, which are taken.
fn add_link(graph: &mut Graph, edge: &InstanceEdge, next: &mut [u32]) -> Result<(), OutOfMemory>
    requires from { IsEdgeWithin (length next.old) (plain edge.now) }
    requires small_u { slice_index next.old (edge.now.u - 1) < 2 ^ 31 }
    requires small_v { slice_index next.old (edge.now.v - 1) < 2 ^ 31 }
    requires room { length graph.old.edges < 2 ^ 32 - 1 }
    requires ends { IsEdgeWithin graph.old.vertices (next_link next.old edge.now) }
    requires weight { IsWeight edge.now.w }
    ensures added { OnOk result (graph.new ≡ record graph.old {
      edges = graph.old.edges ++ next_link next.old edge.now ∷ [];
    }) }
    ensures size { length next.new ≡ length next.old }
    ensures each { (k : ℕ) → k < length next.old → slice_index next.new k
        ≡ slice_index next.old k + ends_at (plain edge.now) (k + 1) }
{
    let (u, v) = take_ports(next, edge);
    graph.add(u, v, edge.w)?;
    Ok(())
}

/// Adds each edge between its ports. `next` has for each vertex how many vertices stand before its
/// ports at the start.
pub fn add_links(
    graph: &mut Graph,
    instance: &Instance,
    parity: Parity,
    next: &mut [u32],
) -> Result<(), OutOfMemory>
    requires limits { IsWithinLimits (ports_size instance.now (odd_at parity instance.now)) }
    requires start { graph.old ≡ record {
      vertices = (ports_graph instance.now (odd_at parity instance.now)).vertices;
      edges = [];
    } }
    requires size { vertices instance.now ≤ length next.old }
    requires before { (k : ℕ) → k < vertices instance.now → slice_index next.old k
        ≡ ports_below instance.now (odd_at parity instance.now) (k + 1) }
    ensures added { OnOk result (graph.new
        ≡ record graph.old {
          edges = tabled (between_ports instance.now
              (odd_at parity instance.now)) (length instance.now.edges);
        }) }
{
    let _ = parity;
    for edge in instance.edge_list() {
        add_link(graph, edge, next)?;
    }
    Ok(())
}

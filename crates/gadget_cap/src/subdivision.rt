ghost use Rattle.std.specs.Prelude.{◌≡◌, ℕ, ◌+◌, ◌*◌, ◌<◌, ◌≤◌, ◌^◌, ◌++◌, length, slice_index};
ghost use Rattle.std.specs.Prelude.{OnOk, IfOk, pos};
ghost use Rattle.graph_theory.specs.Graph.{IsGraph, HasNoLoop};
ghost use Rattle.mb_problem.specs.Network.{vertices, IsInstanceEdge};
ghost use Rattle.mb_problem.specs.Size.{size_of, value_total};
ghost use Rattle.gadget_base.specs.Blocks.{rectangle};
ghost use Rattle.graph_theory.specs.Limits.{IsWithinLimits, HasSize};
ghost use Rattle.gadget_base.specs.Certified.{gadget_graph, ReachesAll};
ghost use Rattle.gadget_base.specs.Starts.{AreStarts};
ghost use Rattle.gadget_cap.specs.Capped.{capped_kind};
ghost use Rattle.gadget_cap.specs.Places.{gates_of};

use crate::rooms::{kind_of, room_at};
use gadget_base::{add_rectangle, copies_of, starts};
use mb_base::OutOfMemory;
use mb_problem::{Instance, InstanceEdge, VERTEX_LIMIT, gadget_size};
use std::alloc::Global;
use weighted_graph::Graph;

/// Joins each of the `room` vertices after `before` to each of the `room` vertices after these.
fn add_crossing(graph: &mut Graph, before: u32, room: u32) -> Result<(), OutOfMemory>
    requires vertices { before + 2 * room ≤ graph.old.vertices }
    requires room { length graph.old.edges + room * room < 2 ^ 32 }
    ensures added { OnOk result (graph.new ≡ record graph.old {
      edges = graph.old.edges
          ++ rectangle before room (before + room) room (pos 0);
    }) }
    ensures graph { IsGraph graph.new }
{
    prove!(graph.vertices() >= before + 2 * room);
    add_rectangle(graph, before, room, before + room, room, 0)
}

/// Adds the edges that stand for an edge whose gates have `room` vertices and come after `before`
/// others; `starts` are the sums of the first values.
fn add_gates(
    graph: &mut Graph,
    instance: &Instance,
    starts: &[u32],
    edge: &InstanceEdge,
    before: u32,
    room: u32,
) -> Result<(), OutOfMemory>
    requires starts { AreStarts (λ k. slice_index instance.now.values k)
        (vertices instance.now) starts.now }
    requires edge { IsInstanceEdge (vertices instance.now) edge.now }
    requires copies { value_total instance.now ≤ before }
    requires vertices { before + 2 * room ≤ graph.old.vertices }
    requires room { length graph.old.edges + length
        (gates_of instance.now edge.now before room) < 2 ^ 32 }
    ensures added { OnOk result (graph.new ≡ record graph.old {
      edges = graph.old.edges
          ++ gates_of instance.now edge.now before room;
    }) }
    ensures graph { IsGraph graph.new }
{
    let (u_before, u_count) = copies_of(instance, starts, edge.u);
    let (v_before, v_count) = copies_of(instance, starts, edge.v);
    add_rectangle(graph, u_before, u_count, before, room, edge.w)?;
    add_crossing(graph, before, room)?;
    add_rectangle(graph, before + room, room, v_before, v_count, 0)?;
    Ok(())
}

/// The graph of `capped`: the copies of each vertex, and the edges of the gates in turn.
fn gated_graph(alloc: Global, instance: &Instance, unit: bool) -> Result<Graph, OutOfMemory>
    requires limits { IsWithinLimits (size_of (capped_kind unit) instance.now) }
    ensures { IfOk result (λ h. h ≡ gadget_graph (capped_kind unit) instance.now) }
{
    let (vertices, _) = gadget_size(instance, kind_of(unit));
    let copied = instance.vertices() as usize;
    let starts = starts(alloc, instance.value_list())?;
    let mut graph = Graph::new(alloc, vertices as u32);
    let mut before = starts[copied];
    for edge in instance.edge_list() {
        let room = room_at(instance, unit, edge);
        add_gates(&mut graph, instance, &starts, edge, before, room)?;
        before += 2 * room;
    }
    Ok(graph)
}

/// The graph whose perfect matchings are the matchings of an instance with a degree for each vertex
/// and a limit on each edge: the capacities, or, where `unit` is set, 1 for each edge (Schrijver,
/// Combinatorial Optimization A, chapters 32 and 33). Each vertex has as many copies as its value
/// says. Each edge has two gates, with a vertex for each time that it can be used: the copies of
/// its first end are joined to the first gate at the edge's weight, the first gate to the second at
/// weight 0, and the second to the copies of the other end at weight 0, which for a loop are those
/// of the same end, so that each use of it takes two. It takes time linear in the instance and the
/// graph.
///
/// # Errors
///
/// `OutOfMemory` if an allocation fails.
pub fn capped(alloc: Global, instance: &Instance, unit: bool) -> Result<Graph, OutOfMemory>
    requires limits { IsWithinLimits (size_of (capped_kind unit) instance.now) }

    // The certificate graph of `capmatch` and `ffactor`, with the same four promises.
    ensures graph { IfOk result (λ h. h ≡ gadget_graph (capped_kind unit) instance.now) }
    ensures size { HasSize (size_of (capped_kind unit) instance.now)
        (gadget_graph (capped_kind unit) instance.now) }
    ensures loopless { IfOk result HasNoLoop }
    ensures reached { ReachesAll (capped_kind unit) instance.now }
{
    prove!(instance.vertices() <= VERTEX_LIMIT);
    gated_graph(alloc, instance, unit)
}

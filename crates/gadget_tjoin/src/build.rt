ghost use Rattle.std.specs.Prelude.{◌≡◌, IfOk};
ghost use Rattle.graph_theory.specs.Graph.{HasNoLoop};
ghost use Rattle.mb_problem.specs.Network.{Network, IsNetwork};
ghost use Rattle.mb_problem.specs.Ready.{HasWeightsFromZero};
ghost use Rattle.mb_problem.specs.Size.{ports_size, odd_at};
ghost use Rattle.gadget_base.specs.Gadgets.{ports_graph};
ghost use Rattle.graph_theory.specs.Limits.{IsWithinLimits, HasSize};
ghost use Rattle.gadget_base.specs.Certified.{ReachesAll};
ghost use Rattle.mb_problem.specs.declared.kind.Kind.TheVariants.{TJoin, Postman, Path};
ghost use Rattle.mb_problem.specs.declared.answer.Parity.TheVariants.{Values, OddDegrees};
ghost use Rattle.gadget_tjoin.specs.Joins.{ReachesJoins};
ghost use Rattle.gadget_tjoin.specs.Groups.{AreGroups};

use crate::groups::{add_cliques, group_sizes};
use crate::port_links::add_links;
use gadget_base::starts;
use mb_base::OutOfMemory;
use mb_problem::{Instance, Parity};
use std::alloc::Global;
use weighted_graph::Graph;

/// Builds the graph from the groups of ports. `next` is `before` at the start, and changes.
fn fill(
    alloc: Global,
    instance: &Instance,
    parity: Parity,
    before: &[u32],
    sizes: &[u32],
    next: &mut [u32],
) -> Result<Graph, OutOfMemory>
    requires limits { IsWithinLimits (ports_size instance.now (odd_at parity instance.now)) }
    requires groups { AreGroups instance.now (odd_at parity instance.now) before.now sizes.now }
    requires start { next.old ≡ before.now }
    ensures graph { IfOk result (λ h. h ≡ ports_graph instance.now (odd_at parity instance.now)) }
{
    let count = instance.vertices() as usize;
    let mut graph = Graph::new(alloc, before[count]);
    add_links(&mut graph, instance, parity, next)?;
    add_cliques(&mut graph, before, sizes)?;
    Ok(graph)
}

/// Builds the graph.
fn build(alloc: Global, instance: &Instance, parity: Parity) -> Result<Graph, OutOfMemory>
    requires limits { IsWithinLimits (ports_size instance.now (odd_at parity instance.now)) }
    ensures graph { IfOk result (λ h. h ≡ ports_graph instance.now (odd_at parity instance.now)) }
    ensures network { IsNetwork instance.now }
{
    let sizes = group_sizes(alloc, instance, parity)?;
    let before = starts(alloc, &sizes)?;
    let mut next = Vec::from_slice(alloc, &before)?;
    fill(alloc, instance, parity, &before, &sizes, &mut next)
}

/// The graph in which the joins of this parity are perfect matchings: each vertex as one port for
/// each edge at it, and a spare where the number of these and the parity that it asks for differ;
/// each edge between its two ports, with its weight and number, so that a loop joins two ports of
/// one vertex; and the ports of a vertex all joined, at weight 0 (Schrijver, Combinatorial
/// Optimization, volume A, chapter 29). It takes time linear in the instance and the graph.
///
/// # Errors
///
/// `OutOfMemory` if an allocation fails.
pub fn ports(alloc: Global, instance: &Instance, parity: &Parity) -> Result<Graph, OutOfMemory>
    requires limits { IsWithinLimits (ports_size instance.now (odd_at parity.now instance.now)) }

    // The certificate graph of `tjoin`, `postman` and `path`, with the same promises.
    ensures graph { IfOk result (λ h. h
        ≡ ports_graph instance.now (odd_at parity.now instance.now)) }
    ensures size { HasSize (ports_size instance.now (odd_at parity.now instance.now))
        (ports_graph instance.now (odd_at parity.now instance.now)) }
    ensures loopless { IfOk result HasNoLoop }
    ensures reached { ReachesJoins parity.now instance.now }

    // Each T-join, each tour (`postman`, if no weight is negative) and each path (`path`) has its
    // perfect matching there.
    ensures tjoin { parity.now ≡ Values → ReachesAll TJoin instance.now }
    ensures postman { parity.now ≡ OddDegrees → HasWeightsFromZero instance.now
        → ReachesAll Postman instance.now }
    ensures path { parity.now ≡ Values → ReachesAll Path instance.now }
{
    build(alloc, instance, *parity)
}

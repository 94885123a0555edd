ghost use Rattle.std.specs.Prelude.{◌≡◌, IfOk, IfSome};
ghost use Rattle.gadget_base.specs.Certified.{gadget_graph};

use gadget_base::unweighted;
use gadget_cap::capped;
use gadget_interval::interval;
use gadget_match::{copies, double};
use gadget_parity::parity;
use gadget_tjoin::ports;
use graph_theory::{GRAPH_EDGE_LIMIT, GRAPH_VERTEX_LIMIT};
use mb_base::OutOfMemory;
use mb_problem::{Capacities, GadgetForm, Instance, Kind, gadget_size};
use std::alloc::Global;
use weighted_graph::Graph;

/// The graph of an instance's certificates, if it is within the limits. A path's graph isn't built
/// here: it is that of its joins.
pub fn graph_of(
    alloc: Global,
    instance: &Instance,
    kind: Kind,
) -> Result<Option<Graph>, OutOfMemory>
    ensures { IfOk result (λ found. IfSome found (λ h. h ≡ gadget_graph kind instance.now)) }
{
    let (vertices, edges) = gadget_size(instance, kind);
    if vertices > u64::from(GRAPH_VERTEX_LIMIT) {
        return Ok(None);
    }
    if edges > u64::from(GRAPH_EDGE_LIMIT) {
        return Ok(None);
    }
    let graph = match kind.gadget() {
        GadgetForm::Itself => instance.plain()?,
        GadgetForm::Doubled => double(alloc, instance)?,
        GadgetForm::Copies => copies(alloc, instance)?,
        GadgetForm::Capped(Capacities::Own) => capped(alloc, instance, false)?,
        GadgetForm::Capped(Capacities::Unit) => capped(alloc, instance, true)?,
        GadgetForm::Ports(parity) => ports(alloc, instance, &parity)?,
        GadgetForm::PathPorts => return Ok(None),
        GadgetForm::Halves => interval(alloc, instance)?,
        GadgetForm::Sides { odd } => parity(alloc, instance, odd)?,
        GadgetForm::Unweighted => unweighted(alloc, instance)?,
    };
    Ok(Some(graph))
}

/// Whether a graph has so many vertices and exactly these edges.
pub fn is_graph(graph: &Graph, vertices: u32, edges: &[(u32, u32, i64)]) -> bool {
    if graph.vertices() != vertices {
        return false;
    }
    if graph.edge_list().len() != edges.len() {
        return false;
    }
    for (k, edge) in graph.edge_list().iter().enumerate() {
        if (edge.u.number(), edge.v.number(), edge.w) != edges[k] {
            return false;
        }
    }
    true
}

ghost use Rattle.std.specs.Prelude.{◌≡◌, ◌≤◌, IfOk};
ghost use Rattle.graph_theory.specs.Graph.{IsGraph, HasNoLoop};
ghost use Rattle.graph_theory.specs.Limits.{IsWithinLimits, HasSize};
ghost use Rattle.mb_problem.specs.declared.kind.Kind.TheVariants.{Perfect};
ghost use Rattle.mb_problem.specs.Network.{IsNetwork, plain_graph};
ghost use Rattle.mb_problem.specs.Ready.{HasNeededWeights};
ghost use Rattle.mb_problem.specs.Size.{size_by, size_of, certified_by, certified_size};
ghost use Rattle.gadget_base.specs.Certified.{gadget_graph, ReachesAll, ReachesAllBy};
ghost use Rattle.gadget_base.specs.Gadgets.{graph_by};

use gadget_base::unweighted;
use gadget_cap::capped;
use gadget_interval::interval;
use gadget_match::{copies, double};
use gadget_parity::parity;
use gadget_tjoin::ports;
use graph_theory::GRAPH_VERTEX_LIMIT;
use mb_base::OutOfMemory;
use mb_problem::{Capacities, GadgetForm, Instance, Kind, Parity, VERTEX_LIMIT, certified_size};
use std::alloc::Global;
use weighted_graph::Graph;

/// How many vertices the certificate graph of a kind has.
pub fn certified_vertices(instance: &Instance, kind: Kind) -> u32
    requires { IsWithinLimits (size_of kind instance.now) }
    ensures count { result ≡ (gadget_graph kind instance.now).vertices }
    ensures size_limit { result ≤ GRAPH_VERTEX_LIMIT }
{
    let (vertices, _) = certified_size(instance, kind);
    vertices as u32
}

/// The graph of an instance without its loops: perfect matchings have none of them.
fn plain(instance: &Instance) -> Result<Graph, OutOfMemory>
    ensures graph { IfOk result (λ h. h ≡ plain_graph instance.now) }
    ensures size { HasSize (size_of Perfect instance.now) (plain_graph instance.now) }
    ensures loopless { IfOk result HasNoLoop }
    ensures reached { ReachesAll Perfect instance.now }
{
    prove!(instance.vertices() <= VERTEX_LIMIT);
    instance.plain()
}

/// The graph that is built so, by the builder that knows the answers of its kinds.
fn build(alloc: Global, instance: &Instance, gadget: GadgetForm) -> Result<Graph, OutOfMemory>
    requires limits { IsWithinLimits (size_by gadget instance.now) }
    ensures graph { IfOk result (λ h. h ≡ graph_by gadget instance.now) }
    ensures size { IfOk result (HasSize (certified_by gadget instance.now)) }
    ensures loopless { IfOk result HasNoLoop }
    ensures reached { ReachesAllBy gadget instance.now }
    ensures network { IsNetwork instance.now }
{
    prove!(instance.vertices() <= VERTEX_LIMIT);
    match gadget {
        GadgetForm::Itself => plain(instance),
        GadgetForm::Doubled => double(alloc, instance),
        GadgetForm::Copies => copies(alloc, instance),
        GadgetForm::Capped(Capacities::Own) => capped(alloc, instance, false),
        GadgetForm::Capped(Capacities::Unit) => capped(alloc, instance, true),
        GadgetForm::Ports(parity) => ports(alloc, instance, &parity),
        GadgetForm::PathPorts => ports(alloc, instance, &Parity::Values),
        GadgetForm::Halves => interval(alloc, instance),
        GadgetForm::Sides { odd } => parity(alloc, instance, odd),
        GadgetForm::Unweighted => unweighted(alloc, instance),
    }
}

/// The certificate graph of a kind: each feasible answer has its perfect matching there, if the
/// kind's proofs want one, and no edge is a loop. It takes time linear in the instance and the
/// graph.
///
/// # Errors
///
/// `OutOfMemory` if an allocation fails.
pub fn certified(alloc: Global, instance: &Instance, kind: Kind) -> Result<Graph, OutOfMemory>
    requires limits { IsWithinLimits (size_of kind instance.now) }
    requires weights { HasNeededWeights kind instance.now }
    ensures graph { IfOk result (λ h. h ≡ gadget_graph kind instance.now) }
    ensures size { IfOk result (HasSize (certified_size kind instance.now)) }
    ensures loopless { IfOk result HasNoLoop }

    // The certificate graph of an instance, in which each feasible answer has its perfect matching.
    ensures reached { IfOk result (λ h. ReachesAll kind instance.now) }

    // Both are what `laws` asks of an instance and its graph.
    ensures is_graph { IfOk result (λ h. IsGraph (gadget_graph kind instance.now)) }
    ensures network { IsNetwork instance.now }
{
    let graph = build(alloc, instance, kind.gadget())?;
    prove!(graph.vertices() <= GRAPH_VERTEX_LIMIT);
    Ok(graph)
}

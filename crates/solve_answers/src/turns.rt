ghost use Rattle.std.specs.Prelude.{◌≤ℤ◌, IfOk};
ghost use Rattle.graph_theory.specs.Walk.{walk_weight};
ghost use Rattle.mb_problem.specs.Feasible.{IsFeasible, weight_of};
ghost use Rattle.mb_problem.specs.Ready.{HasEnds, HasWeightsFromZero};
ghost use Rattle.gadget_base.specs.Certified.{gadget_graph, IsPerfectList};
ghost use Rattle.gadget_parity.specs.Sides.{path_kind};
ghost use Rattle.solve_answers.specs.Chosen.{IsChosenAnswer};
ghost use Rattle.solve_answers.specs.Stands.{HasFewSteps};

use gadget_parity::extract;
use mb_base::{EdgeId, OutOfMemory};
use mb_problem::{Answer, Instance};
use std::alloc::Global;

/// The path of an odd or an even number of edges that a perfect matching of the graph of two sides
/// stands for.
pub fn extract_parity(
    alloc: Global,
    instance: &Instance,
    odd: bool,
    edges: &[EdgeId],
) -> Result<Answer, OutOfMemory>
    requires ends { HasEnds instance.now }
    requires weights { HasWeightsFromZero instance.now }
    requires perfect { IsPerfectList (gadget_graph (path_kind odd) instance.now) edges.now }
    ensures feasible { IfOk result (IsFeasible (path_kind odd) instance.now) }
    ensures few_steps { IfOk result (HasFewSteps instance.now) }
    ensures chosen { IfOk result (IsChosenAnswer (path_kind odd) instance.now) }
    ensures weighs { IfOk result (λ a. weight_of (path_kind odd) instance.now a
        ≤ℤ walk_weight (gadget_graph (path_kind odd) instance.now) edges.now) }
{
    extract(alloc, instance, odd, edges)
}

ghost use Rattle.std.specs.Prelude.{◌≡◌, true, IfOk};
ghost use Rattle.mb_problem.specs.Kinds.{are_duals, proof_of};
ghost use Rattle.mb_problem.specs.Network.{IsNetwork};
ghost use Rattle.gadget_base.specs.Certified.{gadget_graph, IsPerfectList};
ghost use Rattle.solve_answers.specs.Open.{IsOpen};
ghost use Rattle.solve_answers.specs.Stands.{IsAnswerTo};

use crate::joins::{extract_join, extract_path, extract_tour};
use crate::turns::extract_parity;
use gadget_base::extract_plain;
use gadget_cap::extract;
use gadget_interval::extract as extract_halves;
use gadget_match::{extract_copies, extract_double};
use mb_base::{EdgeId, OutOfMemory};
use mb_problem::{Answer, AnswerForm, Capacities, GadgetForm, Instance, Kind};
use std::alloc::Global;

/// The answer that a perfect matching of the kind's graph stands for, given as the numbers of its
/// edges (Schrijver, Combinatorial Optimization, volume A, chapter 26 for matchings, 29 for joins,
/// tours and paths, 31 to 33 for b-matchings, capacities and factors). Its value is at most the
/// weight of the matching, doubled.
///
/// # Errors
///
/// `OutOfMemory` if an allocation fails.
pub fn answer(
    alloc: Global,
    instance: &Instance,
    kind: Kind,
    edges: &[EdgeId],
) -> Result<Answer, OutOfMemory>
    requires network { IsNetwork instance.now }
    requires duals { are_duals (proof_of kind) ≡ true }
    requires well_formed { IsOpen kind instance.now }
    requires perfect { IsPerfectList (gadget_graph kind instance.now) edges.now }
    ensures { IfOk result (IsAnswerTo kind instance.now edges.now) }
{
    match kind.gadget() {
        GadgetForm::Itself | GadgetForm::Unweighted => extract_plain(alloc, instance, edges),
        GadgetForm::Doubled => extract_double(alloc, instance, edges),
        GadgetForm::Copies => extract_copies(alloc, instance, edges),
        GadgetForm::Capped(Capacities::Own) => extract(alloc, instance, false, edges),
        GadgetForm::Capped(Capacities::Unit) => extract(alloc, instance, true, edges),
        GadgetForm::Ports(_) => match kind.form() {
            AnswerForm::Counts => extract_join(alloc, instance, edges),
            AnswerForm::Walk => extract_tour(alloc, instance, edges),
        },
        GadgetForm::PathPorts => extract_path(alloc, instance, edges),
        GadgetForm::Halves => extract_halves(alloc, instance, edges),
        GadgetForm::Sides { odd } => extract_parity(alloc, instance, odd, edges),
    }
}

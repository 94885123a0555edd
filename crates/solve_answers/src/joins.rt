ghost use Rattle.std.specs.Prelude.{◌≡◌, ◌+ℤ◌, ◌≤ℤ◌, length, All, IfOk};
ghost use Rattle.std.specs.List.Sorted.{IsStrictlyIncreasing};
ghost use Rattle.graph_theory.specs.Graph.{IsEdgeNumber};
ghost use Rattle.graph_theory.specs.Walk.{walk_weight};
ghost use Rattle.mb_problem.specs.declared.kind.Kind.TheVariants.{TJoin, Postman, Path};
ghost use Rattle.mb_problem.specs.declared.kind.Cost.TheVariants.{Total};
ghost use Rattle.mb_problem.specs.declared.answer.Answer.TheVariants.{Counts};
ghost use Rattle.mb_problem.specs.declared.answer.Parity.TheVariants.{Values, OddDegrees};
ghost use Rattle.mb_problem.specs.Network.{IsNetwork, graph_of};
ghost use Rattle.mb_problem.specs.Feasible.{IsFeasible, weight_by, weight_of};
ghost use Rattle.mb_problem.specs.Joins.{HasNoNegativeEvenSet, listed_counts};
ghost use Rattle.mb_problem.specs.Ready.{HasEnds};
ghost use Rattle.mb_problem.specs.Size.{odd_at};
ghost use Rattle.mb_problem.specs.Values.{total_weight};
ghost use Rattle.gadget_base.specs.Certified.{IsPerfectList};
ghost use Rattle.gadget_base.specs.Gadgets.{ports_graph};
ghost use Rattle.graph_parts.specs.Connected.{HasConnectedEdges};
ghost use Rattle.solve_answers.specs.Chosen.{IsChosenAnswer};
ghost use Rattle.solve_answers.specs.Stands.{HasFewSteps};

use conservative_paths::path_in;
use gadget_base::count_listed;
use gadget_tjoin::extract;
use mb_base::{EdgeId, OutOfMemory, Sequence};
use mb_problem::{Answer, Instance, Join, Parity, ends};
use postman_walk::closed_walk;
use std::alloc::Global;

/// A join (chapter 29) as counts: 1 for each of its edges.
///
/// # Errors
///
/// `OutOfMemory` if an allocation fails.
pub fn as_counts(alloc: Global, instance: &Instance, join: &Join) -> Result<Answer, OutOfMemory>
    requires network { IsNetwork instance.now }
    requires ascending { IsStrictlyIncreasing join.now.edges }
    requires in_range { All (IsEdgeNumber (graph_of instance.now)) join.now.edges }
    ensures counts { IfOk result
        (λ a. a ≡ Counts (listed_counts join.now.edges (length instance.now.edges))) }
    ensures weighs { IfOk result
        (λ a. weight_by Total instance.now a ≡ walk_weight (graph_of instance.now) join.now.edges) }
{
    let counts = count_listed(alloc, instance, join.edges.as_slice())?;
    Ok(Answer::Counts(Sequence::from_vec(counts)))
}

/// The join that a perfect matching of the graph of ports stands for, as counts.
pub fn extract_join(
    alloc: Global,
    instance: &Instance,
    edges: &[EdgeId],
) -> Result<Answer, OutOfMemory>
    requires network { IsNetwork instance.now }
    requires perfect { IsPerfectList
        (ports_graph instance.now (odd_at Values instance.now)) edges.now }
    ensures feasible { IfOk result (IsFeasible TJoin instance.now) }
    ensures few_steps { IfOk result (HasFewSteps instance.now) }
    ensures chosen { IfOk result (IsChosenAnswer TJoin instance.now) }
    ensures weighs { IfOk result
        (λ a. weight_of TJoin instance.now a
        ≡ walk_weight (ports_graph instance.now (odd_at Values instance.now)) edges.now) }
{
    let join = extract(alloc, instance, &Parity::Values, edges)?;
    let answer = as_counts(alloc, instance, &join);
    drop(join);
    let answer = answer?;
    Ok(answer)
}

/// The tour of all edges and those of the join that a perfect matching of the graph of ports stands
/// for.
pub fn extract_tour(
    alloc: Global,
    instance: &Instance,
    edges: &[EdgeId],
) -> Result<Answer, OutOfMemory>
    requires network { IsNetwork instance.now }
    requires perfect { IsPerfectList
        (ports_graph instance.now (odd_at OddDegrees instance.now)) edges.now }
    requires connected { HasConnectedEdges (graph_of instance.now) }
    ensures feasible { IfOk result (IsFeasible Postman instance.now) }
    ensures few_steps { IfOk result (HasFewSteps instance.now) }
    ensures chosen { IfOk result (IsChosenAnswer Postman instance.now) }
    ensures weighs { IfOk result
        (λ a. weight_of Postman instance.now a ≡ total_weight instance.now
        +ℤ walk_weight (ports_graph instance.now (odd_at OddDegrees instance.now)) edges.now) }
{
    let join = extract(alloc, instance, &Parity::OddDegrees, edges)?;
    let answer = closed_walk(alloc, instance, &join);
    drop(join);
    let answer = answer?;
    Ok(answer)
}

/// A path within the join that a perfect matching of the graph of ports stands for.
pub fn extract_path(
    alloc: Global,
    instance: &Instance,
    edges: &[EdgeId],
) -> Result<Answer, OutOfMemory>
    requires network { IsNetwork instance.now }
    requires perfect { IsPerfectList
        (ports_graph instance.now (odd_at Values instance.now)) edges.now }
    requires ends { HasEnds instance.now }
    requires even_sets { HasNoNegativeEvenSet instance.now }
    ensures feasible { IfOk result (IsFeasible Path instance.now) }
    ensures few_steps { IfOk result (HasFewSteps instance.now) }
    ensures chosen { IfOk result (IsChosenAnswer Path instance.now) }
    ensures weighs { IfOk result
        (λ a. weight_of Path instance.now a
        ≤ℤ walk_weight (ports_graph instance.now (odd_at Values instance.now)) edges.now) }
{
    let join = extract(alloc, instance, &Parity::Values, edges)?;
    let (s, t) = ends(instance);
    let answer = path_in(alloc, instance, &join, s, t);
    drop(join);
    answer
}

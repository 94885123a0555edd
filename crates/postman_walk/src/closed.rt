ghost use Rattle.std.specs.Prelude.{◌≡◌, ◌+ℤ◌, length, IfOk};
ghost use Rattle.graph_theory.specs.Walk.{walk_weight};
ghost use Rattle.mb_problem.specs.declared.kind.Kind.TheVariants.{Postman};
ghost use Rattle.mb_problem.specs.declared.answer.Parity.TheVariants.{OddDegrees};
ghost use Rattle.mb_problem.specs.Network.{graph_of};
ghost use Rattle.mb_problem.specs.Feasible.{IsFeasible, IsWalkWith, weight_of};
ghost use Rattle.mb_problem.specs.Joins.{ListsJoin};
ghost use Rattle.mb_problem.specs.Size.{odd_at};
ghost use Rattle.mb_problem.specs.Values.{total_weight};
ghost use Rattle.graph_parts.specs.Connected.{HasConnectedEdges};
ghost use Rattle.postman_walk.specs.Tours.{IsLeastMet, UsesOnceAndJoinTwice};

use crate::start::least_met;
use crate::trace::trace;
use crate::uses::uses_of;
use mb_base::{OutOfMemory, Sequence};
use mb_problem::{Answer, Instance, Join};
use std::alloc::Global;

/// A closed walk for the postman (Schrijver, Combinatorial Optimization, volume A, chapter 29):
/// each edge of the instance once, and those of the join once more. The join has odd degree where
/// an odd number of edges meets, and all edges lie in one component. The walk starts at the least
/// vertex that an edge meets; without edges the answer is `Nothing`. It takes time linear in the
/// vertices and the edges.
///
/// # Errors
///
/// `OutOfMemory` if an allocation fails.
pub fn closed_walk(alloc: Global, instance: &Instance, join: &Join) -> Result<Answer, OutOfMemory>
    requires connected { HasConnectedEdges (graph_of instance.now) }
    requires join { ListsJoin instance.now (odd_at OddDegrees instance.now) join.now.edges }

    // A closed walk that uses each edge once and those of a join twice.
    ensures feasible { IfOk result (IsFeasible Postman instance.now) }
    ensures uses { IfOk result
        (IsWalkWith (λ start edges. UsesOnceAndJoinTwice instance.now join.now.edges edges)
        (length instance.now.edges ≡ 0)) }

    // It starts at the least vertex that an edge meets, and weighs what its edges do.
    ensures start { IfOk result
        (IsWalkWith (λ start edges. IsLeastMet (graph_of instance.now) start)
        (length instance.now.edges ≡ 0)) }
    ensures weighs { IfOk result
        (λ answer. weight_of Postman instance.now answer
        ≡ total_weight instance.now +ℤ walk_weight (graph_of instance.now) join.now.edges) }
{
    let graph = instance.graph()?;
    let Some(start) = least_met(&graph) else {
        return Ok(Answer::Nothing);
    };
    let uses = uses_of(alloc, instance.edges() as usize, join.edges.as_slice())?;
    let edges = Sequence::from_vec(trace(alloc, &graph, uses, start)?);
    Ok(Answer::Walk { start, edges })
}

ghost use Rattle.std.specs.Prelude.{◌≡◌, ◌-◌, [], ◌∷◌, ◌++◌, if◌then◌else◌, IfOk, OnOk};
ghost use Rattle.graph_theory.specs.Graph.{IsEdgeNumber};
ghost use Rattle.mb_problem.specs.Network.{graph_of};
ghost use Rattle.mb_problem.specs.Size.{is_loop_at};
ghost use Rattle.gallai.specs.Decompositions.{link_numbers};

use mb_base::{EdgeId, OutOfMemory};
use mb_problem::Instance;
use std::alloc::Global;

/// Puts the number of an edge at the end, if it isn't a loop.
fn push_link(
    numbers: &mut Vec<EdgeId>,
    instance: &Instance,
    number: EdgeId,
) -> Result<(), OutOfMemory>
    requires { IsEdgeNumber (graph_of instance.now) number }
    ensures { OnOk result (numbers.new.items ≡ numbers.old.items
        ++ (if is_loop_at instance.now (number - 1) then [] else number ∷ [])) }
{
    let (u, v, _, _) = instance.edge(number);
    if u == v {
        return Ok(());
    }
    numbers.push(number)?;
    Ok(())
}

/// The numbers in an instance of its edges that are no loops, in order.
pub fn link_numbers(alloc: Global, instance: &Instance) -> Result<Vec<EdgeId>, OutOfMemory>
    ensures { IfOk result (λ v. v.items ≡ link_numbers instance.now) }
{
    let mut numbers = Vec::new(alloc);
    for place in 0..instance.edges() {
        push_link(&mut numbers, instance, EdgeId::new(place + 1))?;
    }
    Ok(numbers)
}

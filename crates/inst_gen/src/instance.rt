ghost use Rattle.std.specs.Prelude.{◌≡◌, ◌<◌, ◌≤◌, IfOk};
ghost use Rattle.mb_problem.specs.declared.kind.VertexValue.TheVariants.{End};
ghost use Rattle.mb_problem.specs.Kinds.{vertex_value_of};
ghost use Rattle.mb_problem.specs.Network.{IsNetwork};
ghost use Rattle.mb_problem.specs.Ready.{IsReady};
ghost use Rattle.inst_gen.specs.Made.{made};

use crate::draws::Draws;
use crate::edges::make_edges;
use crate::values::make_values;
use mb_base::OutOfMemory;
use mb_problem::{EDGE_LIMIT, Instance, Kind, VERTEX_LIMIT};
use std::alloc::Global;

/// The instance of n vertices and m edges that the kind and the start determine, for trials. Its
/// first edges are those of a path through all vertices, the ends of the others are drawn. Weights
/// are at most `MADE_WEIGHT_LIMIT` in absolute value. It takes time linear in n + m.
///
/// # Errors
///
/// `OutOfMemory` if an allocation fails.
pub fn make(alloc: Global, kind: Kind, start: u64, n: u32, m: u32) -> Result<Instance, OutOfMemory>
    requires vertices { n ≤ VERTEX_LIMIT }
    requires edges { m ≤ EDGE_LIMIT }
    requires ends { 0 < m → 2 ≤ n }
    requires path { vertex_value_of kind ≡ End → 2 ≤ n }

    // The instance of the stated rule, which is a well-formed instance of its kind.
    ensures made { IfOk result (λ i. i ≡ made kind start n m) }
    ensures well_formed { IfOk result (IsReady kind) }
    ensures network { IfOk result IsNetwork }
{
    let mut draws = Draws::new(start);
    let values = make_values(alloc, kind, n, &mut draws)?;
    let edges = make_edges(alloc, kind, n, m, &mut draws)?;
    Instance::from_values(alloc, edges, values)
}

ghost use Rattle.std.specs.Prelude.{IfOk};
ghost use Rattle.weighted_graph.specs.Index.{IsIndex};
ghost use Rattle.graph_parts.specs.Forests.{IsSpanningForest};

use crate::links::Link;
use crate::marks::no_marks;
use crate::odd::visit;
use mb_base::{OutOfMemory, VertexId};
use std::alloc::Global;
use weighted_graph::{Graph, Incidence};

/// The links of a spanning forest, in the order in which they are found: a tree for each component,
/// from its least vertex. It takes time linear in vertices and edges.
pub(crate) fn spanning_forest(
    alloc: Global,
    graph: &Graph,
    index: &Incidence,
) -> Result<Vec<Link>, OutOfMemory>
    requires { IsIndex graph.now index.now }
    ensures { IfOk result (λ links. IsSpanningForest graph.now links.items) }
{
    let places = graph.vertices() as usize + 1;
    let removed = no_marks(alloc, places)?;
    let mut seen = no_marks(alloc, places)?;
    let mut reached = Vec::new(alloc);
    let mut links = Vec::new(alloc);
    for number in 0..graph.vertices() {
        let vertex = VertexId::new(number + 1);
        visit(
            graph,
            index,
            &removed,
            vertex,
            &mut seen,
            &mut reached,
            &mut links,
        )?;
    }
    Ok(links)
}

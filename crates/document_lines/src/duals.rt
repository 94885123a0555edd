ghost use Rattle.std.specs.Prelude.{◌≡◌, map, length, All, Some, IfOk};
ghost use Rattle.graph_theory.specs.Duals.{IsNumber};
ghost use Rattle.doc_format.specs.Form.{AscendsBy};
ghost use Rattle.certificates.specs.Within.{IsDualWithin};
ghost use Rattle.mwpm_engine.specs.declared.outcome.Outcome.TheVariants.{Matched};

use doc_format::DualLine;
use mb_base::{OutOfMemory, VertexId};
use mwpm_engine::Engine;
use std::alloc::Global;
use weighted_graph::Graph;

/// The `y` lines: the dual of each vertex, in time linear in the vertices.
pub fn dual_lines(
    alloc: Global,
    engine: &Engine,
    graph: &Graph,
) -> Result<Vec<DualLine>, OutOfMemory>
    requires matched { engine.now.outcome ≡ Some Matched }
    requires same_graph { engine.now.graph ≡ graph.now }
    requires one_each { length engine.now.duals ≡ graph.now.vertices }
    requires in_range { All IsNumber engine.now.duals }

    // The duals of a perfect matching of minimum weight, by vertex.
    ensures duals { IfOk result (λ v. map (λ y. y.dual) v.items ≡ engine.now.duals) }
    ensures ascending { IfOk result (λ v. AscendsBy (λ y. y.vertex) v.items) }
    ensures unread { IfOk result (λ v. All (λ y. y.line ≡ 1) v.items) }
    ensures in_range { IfOk result (λ v. All (IsDualWithin graph.now.vertices) v.items) }
{
    let mut lines = Vec::new(alloc);
    for place in 0..graph.vertices() {
        let number = place + 1;
        lines.push(DualLine {
            line: 1,
            vertex: i64::from(number),
            dual: engine.dual(VertexId::new(number)),
        })?;
    }
    Ok(lines)
}

ghost use Rattle.std.specs.Prelude.{◌≡◌, ◌<◌, Some};
ghost use Rattle.mwpm_engine.specs.declared.outcome.Outcome.TheVariants.{Matched, Barrier};

use mb_base::{OutOfMemory, Steps, VertexId};
use mwpm_engine::{Engine, Outcome};
use state_check::is_search_graph;
use std::alloc::Global;
use std::process::Abort;
use std::sync::ledger::{Blank, Ledger};
use weighted_graph::Graph;

/// Whether the edges at the vertices are these.
fn has_mates(engine: &Engine, graph: &Graph, mates: &[u32]) -> bool
    requires matched { engine.now.outcome ≡ Some Matched }
    requires same_graph { engine.now.graph ≡ graph.now }
{
    if mates.len() != graph.vertices() as usize {
        return false;
    }
    for place in 0..graph.vertices() {
        if engine.mate(VertexId::new(place + 1)).number() != mates[place as usize] {
            return false;
        }
    }
    true
}

/// Whether the barrier has the vertices that are marked with 1, and no other.
fn has_barrier(engine: &Engine, graph: &Graph, marks: &[u32]) -> bool
    requires barrier { engine.now.outcome ≡ Some Barrier }
    requires same_graph { engine.now.graph ≡ graph.now }
{
    if marks.len() != graph.vertices() as usize {
        return false;
    }
    for place in 0..graph.vertices() {
        if engine.in_barrier(VertexId::new(place + 1)) != (marks[place as usize] == 1) {
            return false;
        }
    }
    true
}

/// Whether a run ends with a matching that has these edges at the vertices, or with the barrier of
/// the vertices that are marked with 1.
pub fn ends_with<L: Ledger>(
    rt: &impl Abort,
    alloc: Global,
    graph: &Graph,
    matched: bool,
    marks: &[u32],
    blank: Blank,
) -> Result<bool, OutOfMemory>
    requires name { blank.name ≡ L.name }
    requires parts { blank.parts ≡ L.parts }
    requires some { 0 < blank.parts }
{
    let mut steps = Steps::<L>::new(blank);
    assert!(rt; is_search_graph(graph));
    let mut engine = Engine::new(alloc, graph)?;
    let ends = match engine.run(graph, &mut steps) {
        Outcome::Matched => matched && has_mates(&engine, graph, marks),
        Outcome::Barrier => !matched && has_barrier(&engine, graph, marks),
    };
    drop(engine);
    Ok(ends)
}

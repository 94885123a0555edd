ghost use Rattle.std.specs.Prelude.{◌≡◌, ◌<◌, Some};
ghost use Rattle.mwpm_engine.specs.declared.outcome.Outcome.TheVariants.{Barrier};

use mb_base::{EdgeId, OutOfMemory, Steps, VertexId};
use mwpm_engine::{Engine, Outcome};
use state_check::is_search_graph;
use std::alloc::Global;
use std::process::Abort;
use std::sync::ledger::{Blank, Ledger};
use weighted_graph::Graph;

/// Whether the outer vertices are those that are marked with 2, and the barrier has those that are
/// marked with 1.
fn has_sets(engine: &Engine, graph: &Graph, marks: &[u32]) -> bool
    requires barrier { engine.now.outcome ≡ Some Barrier }
    requires same_graph { engine.now.graph ≡ graph.now }
{
    if marks.len() != graph.vertices() as usize {
        return false;
    }
    for place in 0..graph.vertices() {
        let v = VertexId::new(place + 1);
        if engine.in_outer(v) != (marks[place as usize] == 2) {
            return false;
        }
        if engine.in_barrier(v) != (marks[place as usize] == 1) {
            return false;
        }
    }
    true
}

/// Whether this is a vertex that the matching misses.
fn is_missed(engine: &Engine, graph: &Graph, v: u32) -> bool
    requires barrier { engine.now.outcome ≡ Some Barrier }
    requires same_graph { engine.now.graph ≡ graph.now }
{
    if v < 1 || graph.vertices() < v {
        return false;
    }
    engine.mate_of(VertexId::new(v)).is_none()
}

/// Whether the matching misses so many vertices.
fn misses(engine: &Engine, graph: &Graph, missed: u32) -> bool
    requires barrier { engine.now.outcome ≡ Some Barrier }
    requires same_graph { engine.now.graph ≡ graph.now }
{
    let mut left = missed;
    for place in 0..graph.vertices() {
        if is_missed(engine, graph, place + 1) {
            if left == 0 {
                return false;
            }
            left -= 1;
        }
    }
    left == 0
}

/// The vertex to which these edges lead from one, or 0 if they aren't a walk.
fn end_of(graph: &Graph, v: u32, path: &[EdgeId]) -> u32 {
    let mut at = v;
    for e in path {
        if e.number() < 1 || graph.edges() < e.number() {
            return 0;
        }
        let (from, to, _) = graph.edge(*e);
        if from.number() != at && to.number() != at {
            return 0;
        }
        at = if from.number() == at {
            to.number()
        } else {
            from.number()
        };
    }
    at
}

/// Whether an even path leads from each outer vertex to one that the matching misses.
fn lead_to_missed(engine: &Engine, graph: &Graph) -> Result<bool, OutOfMemory>
    requires barrier { engine.now.outcome ≡ Some Barrier }
    requires same_graph { engine.now.graph ≡ graph.now }
{
    for place in 0..graph.vertices() {
        let v = VertexId::new(place + 1);
        if engine.in_outer(v) {
            let path = engine.even_path(v)?;
            if path.len() % 2 != 0 || !is_missed(engine, graph, end_of(graph, place + 1, &path)) {
                return Ok(false);
            }
        }
    }
    Ok(true)
}

/// Whether a stuck run has left these sets, a matching that misses so many vertices, and the paths
/// of the outer ones.
fn has_left(engine: &Engine, graph: &Graph, marks: &[u32], missed: u32) -> Result<bool, OutOfMemory>
    requires barrier { engine.now.outcome ≡ Some Barrier }
    requires same_graph { engine.now.graph ≡ graph.now }
{
    if !has_sets(engine, graph, marks) {
        return Ok(false);
    }
    if !misses(engine, graph, missed) {
        return Ok(false);
    }
    lead_to_missed(engine, graph)
}

/// Whether a run is stuck, and leaves these sets, a matching that misses so many vertices, and the
/// paths of the outer ones.
pub fn leaves_sets<L: Ledger>(
    rt: &impl Abort,
    alloc: Global,
    graph: &Graph,
    marks: &[u32],
    missed: u32,
    blank: Blank,
) -> Result<bool, OutOfMemory>
    requires name { blank.name ≡ L.name }
    requires parts { blank.parts ≡ L.parts }
    requires some { 0 < blank.parts }
{
    let mut steps = Steps::<L>::new(blank);
    assert!(rt; is_search_graph(graph));
    let mut engine = Engine::new(alloc, graph)?;
    let left = match engine.run(graph, &mut steps) {
        Outcome::Matched => Ok(false),
        Outcome::Barrier => has_left(&engine, graph, marks, missed),
    };
    drop(engine);
    left
}

ghost use Rattle.std.specs.Prelude.{◌≡◌, ℕ, ◌+◌, ◌-◌, ◌<◌, ◌≤◌, length, slice_index, All, IfOk};
ghost use Rattle.std.specs.Prelude.{MatchOption};
ghost use Rattle.graph_theory.specs.Graph.{IsEdgeNumber, CountsNoneAt};
ghost use Rattle.weighted_graph.specs.Index.{IsIndex};
ghost use Rattle.mb_problem.specs.Network.{graph_of};
ghost use Rattle.mb_problem.specs.Joins.{listed_counts};
ghost use Rattle.conservative_paths.specs.Trails.{IsLeft, Takes};

use mb_base::{EdgeId, OutOfMemory, VertexId};
use mb_problem::Instance;
use std::alloc::Global;
use weighted_graph::{Graph, Incidence, take_left};

/// Counts 1 for each edge that is listed, and 0 for each other one.
fn counts_of(alloc: Global, m: usize, edges: &[EdgeId]) -> Result<Vec<u32>, OutOfMemory>
    requires { All (λ e. (1 ≤ e) × (e ≤ m)) edges.now }
    ensures { IfOk result (λ counts. counts.items ≡ listed_counts edges.now m) }
{
    let mut counts = vec![in alloc; 0u32; m]?;
    for edge in edges {
        counts[edge.number() as usize - 1] = 1;
    }
    Ok(counts)
}

/// An edge, and the end of it that is come to.
#[derive(Clone, Copy)]
pub(crate) struct Step {
    pub(crate) edge: EdgeId,
    pub(crate) there: VertexId,
}

/// What is left of a set of edges: how often each edge is, and for each vertex how many of its
/// edges were looked at, none of which is left.
#[derive(Drop)]
pub(crate) struct EdgesLeft {
    pub(crate) counts: Vec<u32>,
    pub(crate) looked: Vec<usize>,
}

impl EdgesLeft {
    /// All of these edges.
    pub(crate) fn of(
        alloc: Global,
        instance: &Instance,
        edges: &[EdgeId],
    ) -> Result<Self, OutOfMemory>
        requires { All (IsEdgeNumber (graph_of instance.now)) edges.now }
        ensures counts { IfOk result
            (λ left. left.counts.items ≡ listed_counts edges.now (length instance.now.edges)) }
        ensures left { IfOk result (IsLeft (graph_of instance.now)) }
    {
        let counts = counts_of(alloc, instance.edges() as usize, edges)?;
        let looked = vec![in alloc; 0usize; instance.vertices() as usize + 1]?;
        Ok(EdgesLeft { counts, looked })
    }

    /// Takes an edge that is left at the vertex, if there is one, and answers where it leads to.
    pub(crate) fn take(
        &mut self,
        graph: &Graph,
        index: &Incidence,
        vertex: VertexId,
    ) -> Option<Step>
        requires index { IsIndex graph.now index.now }
        requires vertex { vertex ≤ graph.now.vertices }
        requires left { IsLeft graph.now self.old }
        ensures left { IsLeft graph.now self.new }
        ensures step { MatchOption result
            ((self.new.counts.items ≡ self.old.counts.items)
            × CountsNoneAt graph.now self.new.counts.items vertex)
            (λ step. Takes graph.now vertex step.edge step.there self.old.counts.items
            self.new.counts.items) }
    {
        if let Some(edge) = take_left(graph, index, &mut self.looked, &mut self.counts, vertex) {
            let there = graph.other_end(edge, vertex);
            return Some(Step { edge, there });
        }
        None
    }
}

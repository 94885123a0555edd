ghost use Rattle.std.specs.Prelude.{◌≡◌, ℕ, ◌-◌, ◌<◌, ◌≤◌, length, slice_index, All, MatchOption};
ghost use Rattle.graph_theory.specs.Graph.{CountsNoneAt};
ghost use Rattle.weighted_graph.specs.Index.{IsIndex};
ghost use Rattle.weighted_graph.specs.Left.{NoneLeft, ArePassed, TakesOne};

use crate::graph::Graph;
use crate::incidence::Incidence;
use base_types::{EdgeId, VertexId};

/// The first place from this one on whose edge is left, or the length.
fn next_left(numbers: &[EdgeId], from: usize, left: &[u32]) -> usize
    requires numbers { All (λ e. (1 ≤ e) × (e ≤ length left.now)) numbers.now }
    requires from { from ≤ length numbers.now }
    requires passed { NoneLeft left.now numbers.now from }
    ensures high { result ≤ length numbers.now }
    ensures passed { NoneLeft left.now numbers.now result }
    ensures left { result < length numbers.now
        → 0 < slice_index left.now (slice_index numbers.now result - 1) }
{
    for place in from..numbers.len() {
        if left[numbers[place].number() as usize - 1] > 0 {
            return place;
        }
    }
    numbers.len()
}

/// Takes an edge at the vertex of which some count is left, and one off its count; `None` where
/// none is left there. The cursor of the vertex passes the edges that are used up, so that all
/// calls together take time linear in the edges and the counts.
pub fn take_left(
    graph: &Graph,
    index: &Incidence,
    cursors: &mut [usize],
    left: &mut [u32],
    vertex: VertexId,
) -> Option<EdgeId>
    requires index { IsIndex graph.now index.now }
    requires size { length left.old ≡ length graph.now.edges }
    requires vertex { vertex ≤ graph.now.vertices }
    requires passed { ArePassed graph.now left.old cursors.old }

    // Takes one of the counted edges at a vertex, or reports that none is left there.
    ensures passed { ArePassed graph.now left.new cursors.new }
    ensures taken { MatchOption result
        ((left.new ≡ left.old) × CountsNoneAt graph.now left.old vertex)
        (TakesOne graph.now left.old left.new vertex) }
{
    let numbers = index.at(vertex);
    let at = vertex.number() as usize;
    let place = next_left(numbers, cursors[at], left);
    cursors[at] = place;
    if place == numbers.len() {
        return None;
    }
    let edge = numbers[place];
    left[edge.number() as usize - 1] -= 1;
    Some(edge)
}

ghost use Rattle.std.specs.Prelude.{◌≡◌, ◌≤◌, ◌+◌, ◌-◌, ◌*◌, ◌≤ℤ◌, ◌+ℤ◌, ℕ, pos, true, None};
ghost use Rattle.std.specs.Prelude.{length};
ghost use Rattle.graph_theory.specs.Graph.{IsEdgeNumber, IsWeight, edge_of, edges_around, touches};
ghost use Rattle.graph_theory.specs.Sums.{sum_to};
ghost use Rattle.blossom_arena.specs.Family.{dual_at, is_vertex};
ghost use Rattle.alt_forest.specs.declared.weights.Weights.TheVariants.{Given, Zero};
ghost use Rattle.alt_forest.specs.Searches.{HasShape, IsSound, IsStart, edge_in, state_of};
ghost use Rattle.alt_forest.specs.Trees.{SameParity};
ghost use Rattle.search_start.specs.Starts.{IsBegun, IsLifted};

use crate::moving::move_dual;
use alt_forest::{Search, Weights};
use base_types::{Steps, VertexId};
use std::sync::ledger::Ledger;

/// The least weight of an edge at a vertex, at one look for each; the start of the pass where it
/// has no edge.
fn least_around<L: Ledger>(search: &Search, v: VertexId, steps: &mut Steps<L>) -> i64
    requires shape { HasShape search.now }
    requires start { IsStart search.now.graph Given search.now.start }
    requires vertex { is_vertex search.now.graph.vertices v ≡ true }
    ensures weight { IsWeight result }
    ensures low { search.now.start ≤ℤ result }
    ensures each { (e : ℕ) → IsEdgeNumber search.now.graph e
        → touches (edge_of search.now.graph e) v ≡ true → result ≤ℤ (edge_of search.now.graph e).w }
    ensures inspections { steps.new ≡ steps.old + length (edges_around search.now.graph v) }
{
    let incidence = search.incidence.at(v, steps);
    if incidence.is_empty() {
        return search.start;
    }
    let first = incidence[0];
    let mut least = first.weight;
    for place in 1..incidence.len() {
        let incident = incidence[place];
        least = least.min(incident.weight);
    }
    least
}

/// The greatest even number by which the one weight can rise and stay within the other.
fn even_room(from: i64, to: i64) -> i64
    requires from { IsWeight from }
    requires to { IsWeight to }
    requires order { from ≤ℤ to }
    ensures low { pos 0 ≤ℤ result }
    ensures high { (from +ℤ result) ≤ℤ to }
    ensures even { SameParity result (pos 0) }
{
    let half = (to - from) / 2;
    half + half
}

/// Raises the dual of a vertex from the start of the pass to the least weight of its edges, or to 1
/// less, so that its parity stays. It looks at each of its edges once.
fn lift<L: Ledger>(search: &mut Search, v: VertexId, steps: &mut Steps<L>)
    requires sound { IsSound search.old }
    requires start { IsStart search.old.graph Given search.old.start }
    requires lifted { IsLifted (state_of search.old) search.old.start (v - 1) }
    requires vertex { is_vertex search.old.graph.vertices v ≡ true }
    ensures sound { IsSound search.new }
    ensures lifted { IsLifted (state_of search.new) search.new.start v }
    ensures frame { search.new
        ≡ record search.old { arena = record search.old.arena { duals = search.new.arena.duals } } }
    ensures inspections { steps.new ≡ steps.old + length (edges_around search.old.graph v) }
{
    let least = least_around(search, v, steps);
    let more = even_room(search.start, least);
    move_dual(search, v, more);
}

/// Raises the dual of each vertex towards the weights of its edges, if weights are used.
pub fn lift_all<L: Ledger>(search: &mut Search, steps: &mut Steps<L>)
    requires sound { IsSound search.old }
    requires start { IsStart search.old.graph search.old.weights search.old.start }
    requires started { IsBegun (state_of search.old) search.old.start }
    requires duals { (v : ℕ) → is_vertex search.old.graph.vertices v ≡ true
        → dual_at search.old.arena.duals v ≡ search.old.start }
    requires mates { (a : ℕ) → edge_in search.old.mates.items a ≡ None }
    ensures sound { IsSound search.new }
    ensures started { IsBegun (state_of search.new) search.new.start }
    ensures frame { search.new
        ≡ record search.old { arena = record search.old.arena { duals = search.new.arena.duals } } }
    ensures inspections { steps.new ≤ steps.old + 2 * length search.old.graph.edges }

    // Raising the duals counts each inspection exactly.
    ensures exact { search.old.weights ≡ Given → steps.new ≡ steps.old
        + sum_to (λ i. length (edges_around search.old.graph (i + 1))) search.old.graph.vertices }
    ensures flat { search.old.weights ≡ Zero → steps.new ≡ steps.old }
{
    if search.weights == Weights::Zero {
        return;
    }
    for place in 0..search.graph.vertices() {
        lift(search, VertexId::new(place + 1), steps);
    }
}

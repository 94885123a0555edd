ghost use Rattle.std.specs.Prelude.{◌≡◌, ◌≤◌, ◌+◌, ◌*◌, ℕ, true, false, length, if◌then◌else◌};
ghost use Rattle.std.specs.Option.{ForSome};
ghost use Rattle.graph_theory.specs.Graph.{edges_around};
ghost use Rattle.blossom_arena.specs.Family.{dual_at, is_vertex};
ghost use Rattle.alt_forest.specs.declared.weights.Weights.TheVariants.{Given, Zero};
ghost use Rattle.alt_forest.specs.State.{IsExposed, slack_of};
ghost use Rattle.alt_forest.specs.Searches.{IsSound, state_of};
ghost use Rattle.alt_forest.specs.Counts.{is_exposed};
ghost use Rattle.search_start.specs.Starts.{IsBegun, JoinsExposed};
ghost use Rattle.search_start.specs.Sweeps.{IsLead, CanTake, IsFirstExposed, sweep_looks};

use crate::exposed::is_exposed;
use crate::freeing::free;
use crate::moving::move_dual;
use crate::pairing::{pair, start_all};
use crate::reaching::{Lead, lead_at};
use crate::slacks::vertex_dual;
use alt_forest::{Search, Weights};
use base_types::{Steps, VertexId};
use blossom_arena::NodeId;
use std::sync::ledger::Ledger;

/// By how much the dual at the far end of the least edge falls where the vertex takes that end: by
/// 0 if it is exposed, else as far as the dual of the vertex can rise by as much; none if it can't
/// fall.
fn fall_for(search: &Search, v: VertexId, lead: &Lead) -> Option<i64>
    requires sound { IsSound search.now }
    requires started { IsBegun (state_of search.now) search.now.start }
    requires vertex { is_vertex search.now.graph.vertices v ≡ true }
    requires lead { IsLead search.now.graph (slack_of (state_of search.now)) v lead.now }
    ensures fall { ForSome result
        (CanTake (dual_at search.now.arena.duals lead.now.least.far) search.now.start lead.now) }
{
    let far = lead.least.far;
    if is_exposed(search, NodeId::new(far.number())) {
        return Some(0);
    }
    let gap = lead.next.by - lead.least.by;
    let room = vertex_dual(search, far) - search.start;
    if gap == 0 {
        return None;
    }
    if room == 0 {
        return None;
    }
    if room < gap {
        return Some(room);
    }
    Some(gap)
}

/// Matches an exposed vertex by its edge of least slack, whose far end is taken from its mate, if
/// it has one: the dual there falls, and that of the vertex rises by the slack and as much more.
fn take_partner(search: &mut Search, v: VertexId, lead: &Lead, fall: i64)
    requires sound { IsSound search.old }
    requires started { IsBegun (state_of search.old) search.old.start }
    requires weights { search.old.weights ≡ Given }
    requires vertex { is_vertex search.old.graph.vertices v ≡ true }
    requires exposed { IsExposed (state_of search.old) v }
    requires lead { IsLead search.old.graph (slack_of (state_of search.old)) v lead.now }
    requires fall { CanTake (dual_at search.old.arena.duals lead.now.least.far) search.old.start
        lead.now fall }
    ensures sound { IsSound search.new }
    ensures started { IsBegun (state_of search.new) search.new.start }
    ensures frame { search.new
        ≡ record search.old {
          arena = record search.old.arena { duals = search.new.arena.duals };
          mates = search.new.mates;
        } }
{
    free(search, lead.least.far);
    move_dual(search, lead.least.far, -fall);
    move_dual(search, v, lead.least.by + fall);
    pair(search, lead.least.edge);
}

/// The turn of a vertex in a sweep, if it is exposed: its dual rises by the least slack of its
/// edges, and it is matched where the edge leads to an exposed vertex. Else it rises by the least
/// slack of an edge that leads elsewhere, and takes the far end of its least edge from its mate,
/// where the dual falls by the difference, but not below the start; where it can't fall the vertex
/// only rises by the least slack. It looks at each of its edges once.
fn sweep_at<L: Ledger>(search: &mut Search, v: VertexId, steps: &mut Steps<L>)
    requires sound { IsSound search.old }
    requires started { IsBegun (state_of search.old) search.old.start }
    requires weights { search.old.weights ≡ Given }
    requires vertex { is_vertex search.old.graph.vertices v ≡ true }
    ensures sound { IsSound search.new }
    ensures started { IsBegun (state_of search.new) search.new.start }
    ensures frame { search.new
        ≡ record search.old {
          arena = record search.old.arena { duals = search.new.arena.duals };
          mates = search.new.mates;
        } }
    ensures unchanged { is_exposed (state_of search.old) v ≡ false → search.new ≡ search.old }
    ensures exact { steps.new ≡ steps.old + (if is_exposed (state_of search.old) v
        then length (edges_around search.old.graph v) else 0) }
{
    if !is_exposed(search, NodeId::new(v.number())) {
        return;
    }
    let Some(lead) = lead_at(search, v, steps) else {
        return;
    };
    if let Some(fall) = fall_for(search, v, &lead) {
        take_partner(search, v, &lead, fall);
        return;
    }
    move_dual(search, v, lead.least.by);
}

/// One sweep: each vertex in turn.
fn sweep_all<L: Ledger>(search: &mut Search, steps: &mut Steps<L>)
    requires sound { IsSound search.old }
    requires started { IsBegun (state_of search.old) search.old.start }
    requires weights { search.old.weights ≡ Given }
    ensures sound { IsSound search.new }
    ensures started { IsBegun (state_of search.new) search.new.start }
    ensures frame { search.new
        ≡ record search.old {
          arena = record search.old.arena { duals = search.new.arena.duals };
          mates = search.new.mates;
        } }
    ensures inspections { steps.new ≤ steps.old + 2 * length search.old.graph.edges }
    ensures grows { steps.old ≤ steps.new }
    ensures made { (v : ℕ) → IsFirstExposed (state_of search.old) v
        → steps.old + length (edges_around search.old.graph v) ≤ steps.new }
{
    for place in 0..search.graph.vertices() {
        sweep_at(search, VertexId::new(place + 1), steps);
    }
}

/// Two sweeps, if weights are used: a vertex that is exposed still takes the far end of its least
/// edge from its mate, which is exposed then and has its own turn (the row reduction that augments,
/// as Jonker and Volgenant make it for assignments). A round of `start_all` ends them, so that
/// again no tight edge joins two exposed vertices. With fewer than ten vertices there is none: the
/// search needs so few steps then that the looks of sweeps would be a good part of them.
pub fn sweep_twice<L: Ledger>(search: &mut Search, steps: &mut Steps<L>)
    requires sound { IsSound search.old }
    requires started { IsBegun (state_of search.old) search.old.start }
    requires maximal { (e : ℕ) → JoinsExposed (state_of search.old) e → ⊥ }
    ensures sound { IsSound search.new }
    ensures started { IsBegun (state_of search.new) search.new.start }
    ensures frame { search.new
        ≡ record search.old {
          arena = record search.old.arena { duals = search.new.arena.duals };
          mates = search.new.mates;
        } }
    ensures maximal { (e : ℕ) → JoinsExposed (state_of search.new) e → ⊥ }
    ensures inspections { steps.new
        ≤ steps.old + sweep_looks search.old.graph.vertices * length search.old.graph.edges }
    ensures flat { search.old.weights ≡ Zero → steps.new ≡ steps.old }

    // The same count for the sweeps that follow.
    ensures made { search.old.weights ≡ Given → 10 ≤ search.old.graph.vertices
        → (v : ℕ) → IsFirstExposed (state_of search.old) v
        → steps.old + length (edges_around search.old.graph v) ≤ steps.new }
{
    if search.weights == Weights::Zero {
        return;
    }
    if search.graph.vertices() < 10 {
        return;
    }
    sweep_all(search, steps);
    sweep_all(search, steps);
    start_all(search, steps);
}

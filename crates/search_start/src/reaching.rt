ghost use Rattle.std.specs.Prelude.{◌≡◌, ◌⊎◌, ◌+◌, ◌≤ℤ◌, ℕ, ℤ, true, length};
ghost use Rattle.std.specs.Option.{ForSome};
ghost use Rattle.graph_theory.specs.Graph.{edges_around};
ghost use Rattle.blossom_arena.specs.Family.{is_vertex};
ghost use Rattle.alt_forest.specs.State.{slack_of};
ghost use Rattle.alt_forest.specs.Searches.{IsSound, state_of};
ghost use Rattle.search_tables.specs.IncidentEdges.{IsIncidentEdge};
ghost use Rattle.search_start.specs.Starts.{IsBegun};
ghost use Rattle.search_start.specs.Sweeps.{IsReach, IsBehind, IsLead};

use crate::slacks::slack_at;
use alt_forest::{IncidentEdge, Search};
use base_types::{EdgeId, Steps, VertexId};
use std::sync::ledger::Ledger;

/// An edge at a vertex, with its slack and its far end.
#[derive(Clone, Copy)]
pub(crate) struct Reach {
    pub(crate) by: i64,
    pub(crate) edge: EdgeId,
    pub(crate) far: VertexId,
}

/// Of the edges at a vertex that of least slack, and of those that lead elsewhere that of least
/// slack; if none does, any edge.
#[derive(Clone, Copy)]
pub(crate) struct Lead {
    pub(crate) least: Reach,
    pub(crate) next: Reach,
}

/// An edge at a vertex with its slack.
fn reach_by(search: &Search, v: VertexId, incident: &IncidentEdge) -> Reach
    requires sound { IsSound search.now }
    requires started { IsBegun (state_of search.now) search.now.start }
    requires vertex { is_vertex search.now.graph.vertices v ≡ true }
    requires incident { IsIncidentEdge search.now.graph v incident.now }
    ensures reach { IsReach search.now.graph (slack_of (state_of search.now)) v result }
    ensures edge { result.edge ≡ incident.now.edge }
{
    Reach {
        by: slack_at(search, v, incident),
        edge: incident.edge,
        far: incident.far,
    }
}

/// The two edges of least slack that lead to different ends, once one edge more is seen.
fn with_one(lead: &Lead, reach: &Reach) -> Lead
    ensures least { (result.least ≡ lead.now.least) ⊎ (result.least ≡ reach.now) }
    ensures next { (result.next ≡ lead.now.next) ⊎ (result.next ≡ lead.now.least)
        ⊎ (result.next ≡ reach.now) }
    ensures order { lead.now.least.by ≤ℤ lead.now.next.by → result.least.by ≤ℤ result.next.by }
    ensures seen { IsBehind result reach.now.far reach.now.by }
    ensures kept { (far : ℕ) → (slack : ℤ) → IsBehind lead.now far slack
        → IsBehind result far slack }
{
    let least = lead.least;
    let same = reach.far.number() == lead.least.far.number();
    if reach.by < lead.least.by {
        if same {
            return Lead {
                least: *reach,
                next: lead.next,
            };
        }
        return Lead {
            least: *reach,
            next: least,
        };
    }
    if same {
        return *lead;
    }
    if lead.next.far.number() == lead.least.far.number() {
        return Lead {
            least,
            next: *reach,
        };
    }
    if reach.by < lead.next.by {
        return Lead {
            least,
            next: *reach,
        };
    }
    *lead
}

/// The two edges of least slack at a vertex that lead to different ends, by one look at each of its
/// edges.
pub(crate) fn lead_at<L: Ledger>(search: &Search, v: VertexId, steps: &mut Steps<L>) -> Option<Lead>
    requires sound { IsSound search.now }
    requires started { IsBegun (state_of search.now) search.now.start }
    requires vertex { is_vertex search.now.graph.vertices v ≡ true }
    ensures lead { ForSome result (IsLead search.now.graph (slack_of (state_of search.now)) v) }
    ensures inspections { steps.new ≡ steps.old + length (edges_around search.now.graph v) }
{
    let incidence = search.incidence.at(v, steps);
    if incidence.is_empty() {
        return None;
    }
    let least = reach_by(search, v, &incidence[0]);
    let next = least;
    let mut lead = Lead { least, next };
    for place in 1..incidence.len() {
        let reach = reach_by(search, v, &incidence[place]);
        lead = with_one(&lead, &reach);
    }
    Some(lead)
}

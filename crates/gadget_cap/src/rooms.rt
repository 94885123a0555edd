ghost use Rattle.std.specs.Prelude.{◌≡◌, ℕ, ◌≤◌, min};
ghost use Rattle.graph_theory.specs.Graph.{IsEdgeWithin};
ghost use Rattle.mb_problem.specs.declared.limits.TheConstants.{VALUE_LIMIT};
ghost use Rattle.mb_problem.specs.Network.{vertices, plain, value_of};
ghost use Rattle.mb_problem.specs.Size.{bounded, limit_by};
ghost use Rattle.gadget_cap.specs.Capped.{capped_kind, capacities_by, room_at};

use mb_problem::{Instance, InstanceEdge, Kind};

/// Factors where each edge is used at most once, or matchings with capacities.
pub fn kind_of(unit: bool) -> Kind
    ensures { result ≡ capped_kind unit }
{
    if unit { Kind::FFactor } else { Kind::CapMatch }
}

/// The limit on an edge, where it has one.
fn limit_of(unit: bool, edge: &InstanceEdge) -> Option<u32>
    ensures { result ≡ limit_by (capacities_by unit) edge.now }
{
    if unit { Some(1) } else { edge.capacity }
}

/// The lesser of a limit and `most`.
fn bounded(limit: Option<u32>, most: u32) -> u32
    ensures bounded { result ≡ bounded limit most }
    ensures value_limit { result ≤ most }
{
    match limit {
        Some(limit) => most.min(limit),
        None => most,
    }
}

/// How often an edge can be used.
pub fn room_at(instance: &Instance, unit: bool, edge: &InstanceEdge) -> u32
    requires { IsEdgeWithin (vertices instance.now) (plain edge.now) }
    ensures room { result ≡ room_at unit instance.now edge.now }
    ensures value_limit { result ≤ VALUE_LIMIT }
{
    let most = instance.value(edge.u).min(instance.value(edge.v));
    bounded(limit_of(unit, edge), most)
}

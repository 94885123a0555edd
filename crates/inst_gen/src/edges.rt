ghost use Rattle.std.specs.Prelude.{◌≡◌, ◌+◌, ◌-◌, ◌<◌, ◌≤◌, IfOk, if◌then◌else◌, nat_lt};
ghost use Rattle.inst_gen.specs.Draws.{next_state, state_after};
ghost use Rattle.inst_gen.specs.Made.{is_from_zero, weight_at, capacity_at, label_draws};
ghost use Rattle.inst_gen.specs.Made.{edge_between, other_than};
ghost use Rattle.inst_gen.specs.Made.{edge_at, edges_from};

use crate::draws::Draws;
use crate::limits::{MADE_CAPACITY_LIMIT, MADE_WEIGHT_LIMIT};
use mb_base::{OutOfMemory, VertexId};
use mb_problem::{EDGE_LIMIT, EdgeUse, InstanceEdge, Kind, Precondition, VERTEX_LIMIT};
use std::alloc::Global;

/// Whether no negative weight is drawn.
fn is_from_zero(kind: Kind) -> bool
    ensures { result ≡ is_from_zero kind }
{
    match kind.needs() {
        Precondition::Unrestricted => kind.asks_conservative(),
        Precondition::WeightsFromZero => true,
        Precondition::Ends => kind.asks_conservative(),
        Precondition::EndsAndWeightsFromZero => true,
    }
}

fn weight(kind: Kind, draws: &mut Draws) -> i64
    ensures weight { result ≡ weight_at kind draws.old.state }
    ensures state { draws.new.state ≡ next_state draws.old.state }
{
    if is_from_zero(kind) {
        return i64::from(draws.draw(MADE_WEIGHT_LIMIT + 1));
    }
    i64::from(draws.draw(2 * MADE_WEIGHT_LIMIT + 1)) - i64::from(MADE_WEIGHT_LIMIT)
}

fn capacity(kind: Kind, draws: &mut Draws) -> Option<u32>
    ensures capacity { result ≡ capacity_at kind draws.old.state }
    ensures state { draws.new.state ≡ state_after draws.old.state (label_draws kind - 1) }
{
    match kind.edge_use() {
        EdgeUse::Once => None,
        EdgeUse::AnyNumber => None,
        EdgeUse::WithinCapacity => Some(1 + draws.draw(MADE_CAPACITY_LIMIT)),
        EdgeUse::WithinBounds => Some(1 + draws.draw(MADE_CAPACITY_LIMIT)),
    }
}

/// The edge with these ends.
fn between(kind: Kind, u: u32, v: u32, draws: &mut Draws) -> InstanceEdge
    ensures edge { result ≡ edge_between kind draws.old.state u v }
    ensures state { draws.new.state ≡ state_after draws.old.state (label_draws kind) }
{
    let w = weight(kind, draws);
    let capacity = capacity(kind, draws);
    InstanceEdge {
        u: VertexId::new(u),
        v: VertexId::new(v),
        w,
        capacity,
    }
}

/// A vertex other than u.
fn other(u: u32, number: u32) -> u32
    requires { number ≤ VERTEX_LIMIT }
    ensures { result ≡ other_than u number }
{
    if u <= 1 + number {
        2 + number
    } else {
        1 + number
    }
}

/// The edge at place k.
fn edge(kind: Kind, n: u32, k: u32, draws: &mut Draws) -> InstanceEdge
    requires some { 2 ≤ n }
    requires size_limit { n ≤ VERTEX_LIMIT }
    requires place { k < EDGE_LIMIT }
    ensures edge { result ≡ edge_at kind draws.old.state n k }
    ensures state { draws.new.state
        ≡ state_after draws.old.state (label_draws kind + (if nat_lt (k + 1) n then 0 else 2)) }
{
    if k + 1 < n {
        return between(kind, k + 1, k + 2, draws);
    }
    let u = 1 + draws.draw(n);
    let v = other(u, draws.draw(n - 1));
    between(kind, u, v, draws)
}

/// The m edges.
pub fn make_edges(
    alloc: Global,
    kind: Kind,
    n: u32,
    m: u32,
    draws: &mut Draws,
) -> Result<Vec<InstanceEdge>, OutOfMemory>
    requires vertices { n ≤ VERTEX_LIMIT }
    requires edges { m ≤ EDGE_LIMIT }
    requires ends { 0 < m → 2 ≤ n }
    ensures { IfOk result (λ v. v.items ≡ edges_from kind draws.old.state n m) }
{
    let mut edges = Vec::with_capacity(alloc, m as usize)?;
    for k in 0..m {
        edges.push(edge(kind, n, k, draws))?;
    }
    Ok(edges)
}

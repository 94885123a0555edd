ghost use Rattle.std.specs.Prelude.{◌≡◌, ◌≤◌, min, All, IfOk};
ghost use Rattle.graph_theory.specs.Graph.{IsEdgeWithin};
ghost use Rattle.mb_problem.specs.Network.{IsNetwork, vertices, plain, value_of, high_of};
ghost use Rattle.mb_problem.specs.Size.{bounded, most_by};
ghost use Rattle.mb_problem.specs.declared.limits.TheConstants.{VALUE_LIMIT};
ghost use Rattle.brute_force.specs.Best.{most_of, mosts};

use mb_base::OutOfMemory;
use mb_problem::{AnswerForm, EdgeUse, Instance, InstanceEdge, Kind};
use std::alloc::Global;

/// The lesser of the values at the ends of an edge.
fn valued(instance: &Instance, edge: &InstanceEdge) -> u32
    requires { IsEdgeWithin (vertices instance.now) (plain edge.now) }
    ensures value { result ≡ min (value_of instance.now edge.now.u)
        (value_of instance.now edge.now.v) }
    ensures value_limit { result ≤ VALUE_LIMIT }
{
    instance.value(edge.u).min(instance.value(edge.v))
}

/// The lesser of the greatest degrees at the ends of an edge.
fn highest(instance: &Instance, edge: &InstanceEdge) -> u32
    requires { IsEdgeWithin (vertices instance.now) (plain edge.now) }
    ensures degree { result ≡ min (high_of instance.now edge.now.u)
        (high_of instance.now edge.now.v) }
    ensures value_limit { result ≤ VALUE_LIMIT }
{
    instance.range(edge.u).1.min(instance.range(edge.v).1)
}

/// The lesser of a capacity, if there is one, and `most`.
fn capped(capacity: Option<u32>, most: u32) -> u32
    ensures bounded { result ≡ bounded capacity most }
    ensures value_limit { result ≤ most }
{
    match capacity {
        Some(capacity) => capacity.min(most),
        None => most,
    }
}

/// How often an answer of counts may use an edge.
fn most_by(instance: &Instance, edge_use: EdgeUse, edge: &InstanceEdge) -> u32
    requires { IsEdgeWithin (vertices instance.now) (plain edge.now) }
    ensures most { result ≡ most_by edge_use instance.now edge.now }
    ensures value_limit { result ≤ VALUE_LIMIT }
{
    match edge_use {
        EdgeUse::Once => 1,
        EdgeUse::AnyNumber => valued(instance, edge),
        EdgeUse::WithinCapacity => capped(edge.capacity, valued(instance, edge)),
        EdgeUse::WithinBounds => capped(edge.capacity, highest(instance, edge)),
    }
}

/// How often an edge is tried at most.
fn most_of(instance: &Instance, kind: Kind, edge: &InstanceEdge) -> u32
    requires { IsEdgeWithin (vertices instance.now) (plain edge.now) }
    ensures most { result ≡ most_of kind instance.now edge.now }
    ensures value_limit { result ≤ VALUE_LIMIT }
{
    match kind.form() {
        AnswerForm::Counts => most_by(instance, kind.edge_use(), edge),
        AnswerForm::Walk => 1,
    }
}

/// How often each edge can be used at most.
pub fn mosts(alloc: Global, instance: &Instance, kind: Kind) -> Result<Vec<u32>, OutOfMemory>
    ensures mosts { IfOk result (λ v. v.items ≡ mosts kind instance.now) }
    ensures value_limit { IfOk result (λ v. All (λ most. most ≤ VALUE_LIMIT) v.items) }
    ensures network { IsNetwork instance.now }
{
    let mut list = Vec::new(alloc);
    for edge in instance.edge_list() {
        list.push(most_of(instance, kind, edge))?;
    }
    Ok(list)
}

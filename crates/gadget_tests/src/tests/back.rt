ghost use Rattle.std.specs.Prelude.{◌≡◌, true, All, count_by};
ghost use Rattle.graph_theory.specs.Graph.{IsEdgeNumber, edge_of, touches};
ghost use Rattle.mb_problem.specs.Ready.{IsReady};
ghost use Rattle.gadget_base.specs.Certified.{IsPerfectList};

use super::there::graph_of;
use gadget_base::extract_plain;
use gadget_match::{extract_copies, extract_double};
use mb_base::{EdgeId, OutOfMemory, Sequence, VertexId};
use mb_problem::{Answer, Capacities, GadgetForm, Instance, Join, Kind};
use std::alloc::Global;
use weighted_graph::Graph;

/// Whether `v` is an end of an edge.
fn meets(graph: &Graph, e: EdgeId, v: VertexId) -> bool
    requires { IsEdgeNumber graph.now e }
    ensures { result ≡ touches (edge_of graph.now e) v }
{
    let (from, to, _) = graph.edge(e);
    from == v || to == v
}

/// How many of the listed edges have `v` as an end.
fn count_at(graph: &Graph, edges: &[EdgeId], v: VertexId) -> usize
    requires { All (IsEdgeNumber graph.now) edges.now }
    ensures { result ≡ count_by (λ e. touches (edge_of graph.now e) v) edges.now }
{
    let mut count = 0;
    for e in edges {
        if meets(graph, *e, v) {
            count += 1;
        }
    }
    count
}

/// Whether all are numbers of edges.
fn are_numbers(graph: &Graph, edges: &[EdgeId]) -> bool
    ensures { result ≡ true → All (IsEdgeNumber graph.now) edges.now }
{
    let most = graph.edges();
    for e in edges {
        if e.number() == 0 {
            return false;
        }
        if e.number() > most {
            return false;
        }
    }
    true
}

/// Whether each vertex is an end of exactly one of the listed edges.
fn is_perfect(graph: &Graph, edges: &[EdgeId]) -> bool
    ensures { result ≡ true → IsPerfectList graph.now edges.now }
{
    if !are_numbers(graph, edges) {
        return false;
    }
    let vertices = graph.vertices();
    for k in 0..vertices {
        if count_at(graph, edges, VertexId::new(k + 1)) != 1 {
            return false;
        }
    }
    true
}

/// The edges of these numbers.
pub fn numbered(alloc: Global, numbers: &[u32]) -> Result<Vec<EdgeId>, OutOfMemory> {
    let mut edges = Vec::new(alloc);
    for number in numbers {
        edges.push(EdgeId::new(*number))?;
    }
    Ok(edges)
}

/// The counts that edges stand for, if they are a perfect matching of the graph of the kind.
pub fn counts_of(
    alloc: Global,
    instance: &Instance,
    kind: Kind,
    numbers: &[u32],
) -> Result<Option<Sequence<u32>>, OutOfMemory> {
    let Some(graph) = graph_of(alloc, instance, kind)? else {
        return Ok(None);
    };
    let edges = numbered(alloc, numbers)?;
    if !is_perfect(&graph, &edges) {
        return Ok(None);
    }
    let answer = match kind.gadget() {
        GadgetForm::Doubled => extract_double(alloc, instance, &edges)?,
        GadgetForm::Copies => extract_copies(alloc, instance, &edges)?,
        GadgetForm::Capped(Capacities::Own) => gadget_cap::extract(alloc, instance, false, &edges)?,
        GadgetForm::Capped(Capacities::Unit) => gadget_cap::extract(alloc, instance, true, &edges)?,
        GadgetForm::Itself => extract_plain(alloc, instance, &edges)?,
        GadgetForm::Halves => gadget_interval::extract(alloc, instance, &edges)?,
        GadgetForm::Ports(_) | GadgetForm::PathPorts => Answer::Nothing,
        GadgetForm::Sides { .. } => Answer::Nothing,
        // Its answers needn't be perfect matchings.
        GadgetForm::Unweighted => Answer::Nothing,
    };
    match answer {
        Answer::Counts(counts) => Ok(Some(counts)),
        _ => Ok(None),
    }
}

/// The join that edges stand for, if they are a perfect matching of the graph of the joins.
pub fn join_of(
    alloc: Global,
    instance: &Instance,
    kind: Kind,
    numbers: &[u32],
) -> Result<Option<Join>, OutOfMemory> {
    let Some(graph) = graph_of(alloc, instance, kind)? else {
        return Ok(None);
    };
    let edges = numbered(alloc, numbers)?;
    if !is_perfect(&graph, &edges) {
        return Ok(None);
    }
    let GadgetForm::Ports(parity) = kind.gadget() else {
        return Ok(None);
    };
    Ok(Some(gadget_tjoin::extract(alloc, instance, &parity, &edges)?))
}

/// The path that edges stand for, if they are a perfect matching of the graph of two copies.
pub fn path_of(
    alloc: Global,
    instance: &Instance,
    kind: Kind,
    numbers: &[u32],
) -> Result<Option<Answer>, OutOfMemory>
    requires { IsReady kind instance.now }
{
    let Some(graph) = graph_of(alloc, instance, kind)? else {
        return Ok(None);
    };
    let edges = numbered(alloc, numbers)?;
    if !is_perfect(&graph, &edges) {
        return Ok(None);
    }
    let path = match kind {
        Kind::OddPath => gadget_parity::extract(alloc, instance, true, &edges)?,
        Kind::EvenPath => gadget_parity::extract(alloc, instance, false, &edges)?,
        _ => return Ok(None),
    };
    Ok(Some(path))
}

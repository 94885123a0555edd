//! Paths that are found quickly and tested before they are used.
ghost use Rattle.std.specs.Prelude.{◌<◌, ◌≤◌, ◌^◌, length, All, IfOk, IfSome};
ghost use Rattle.graph_theory.specs.Graph.{IsEdgeNumber};
ghost use Rattle.gallai_theory.specs.Decomposition.{IsEvenPath};
ghost use Rattle.mb_problem.specs.Network.{IsNetwork, vertices, graph_of};
ghost use Rattle.gadget_base.specs.Listed.{times_each};
ghost use Rattle.gallai.specs.Finders.{Finds};

use alternating_paths::{Forest, is_even_path};
use gadget_base::count_listed;
use mb_base::{EdgeId, OutOfMemory, VertexId};
use mb_problem::{Instance, degrees_of};
use std::alloc::Global;

/// A forest that has paths, with what they are tested by: how often a matching has each edge, and
/// the degree of each vertex in it.
#[derive(Drop)]
pub(crate) struct Finder {
    pub forest: Forest,
    pub counts: Vec<u32>,
    pub degrees: Vec<u64>,
}

/// The finder of paths along a matching.
pub(crate) fn finder_of(
    alloc: Global,
    instance: &Instance,
    matching: &[EdgeId],
) -> Result<Finder, OutOfMemory>
    requires numbers { All (IsEdgeNumber (graph_of instance.now)) matching.now }
    requires size_limit { length matching.now < 2 ^ 31 }
    ensures { IfOk result (Finds instance.now (times_each (graph_of instance.now) matching.now)) }
{
    let counts = count_listed(alloc, instance, matching)?;
    let degrees = degrees_of(alloc, instance, &counts)?;
    let graph = instance.graph()?;
    let forest = Forest::of(alloc, &graph, matching)?;
    Ok(Finder {
        forest,
        counts,
        degrees,
    })
}

/// The forest's path from a vertex, if it is an even path.
pub(crate) fn tested_path(
    alloc: Global,
    instance: &Instance,
    finder: &Finder,
    vertex: VertexId,
) -> Result<Option<Vec<EdgeId>>, OutOfMemory>
    requires network { IsNetwork instance.now }
    requires finds { Finds instance.now finder.now.counts.items finder.now }
    requires low { 1 ≤ vertex }
    requires high { vertex ≤ vertices instance.now }
    ensures { IfOk result (λ path. IfSome path (λ es.
        IsEvenPath (graph_of instance.now) finder.now.counts.items vertex es.items)) }
{
    let edges = finder.forest.path(vertex)?;
    if !is_even_path(
        alloc,
        instance,
        &finder.counts,
        &finder.degrees,
        vertex,
        &edges,
    )? {
        return Ok(None);
    }
    Ok(Some(edges))
}

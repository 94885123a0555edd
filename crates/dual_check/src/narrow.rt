ghost use Rattle.std.specs.Prelude.{◌≡◌, ◌≢◌, ℕ, ◌-◌, ◌<◌, ◌^◌, ◌||◌, true, []};
ghost use Rattle.std.specs.Prelude.{not, length, min, slice_index, slice_index_or, All, IfOk};
ghost use Rattle.graph_theory.specs.Sums.{sum_to};
ghost use Rattle.graph_theory.specs.OddSets.{IsGivenWithin};
ghost use Rattle.weighted_graph.specs.Index.{IsIndex};
ghost use Rattle.graph_parts.specs.Marks.{is_marked};

use graph_parts::no_marks;
use graph_theory::OddSet;
use mb_base::{OutOfMemory, VertexId};
use std::alloc::Global;
use weighted_graph::{Graph, Incidence};

/// How many edges there are at the members, counted at each member.
fn edges_at(incidence: &Incidence, members: &[VertexId]) -> usize
    requires { All (λ m. m < length incidence.now) members.now }
    ensures { result ≡ min (2 ^ 64 - 1) (sum_to (λ k. length (slice_index_or incidence.now
        (slice_index members.now k) [])) (length members.now)) }
{
    let mut edges = 0usize;
    for vertex in members {
        edges = edges.saturating_add(incidence.at(*vertex).len());
    }
    edges
}

/// How many edges a narrow set spares: those at its members, where the pairs of its members take
/// less time, an edge as much as four pairs. A set that is not alone spares none.
fn spared_edges(incidence: &Incidence, members: &[VertexId], is_alone: bool) -> usize
    requires { All (λ m. m < length incidence.now) members.now }
    ensures alone { result ≢ 0 → is_alone ≡ true }
{
    if !is_alone {
        return 0;
    }
    let edges = edges_at(incidence, members);
    let pairs = members.len().saturating_mul(members.len());
    if pairs / 4 < edges {
        return edges;
    }
    0
}

/// For each set whether it is narrow: alone, and its pairs of members take less time than the edges
/// at them. None is where all these edges take less time than a table of a number for each two
/// vertices, in which pairs are added up, or where a set has a number past 32 bits. It says which
/// of two ways is faster, and either answer is right.
pub(crate) fn narrow_sets(
    alloc: Global,
    graph: &Graph,
    incidence: &Incidence,
    sets: &[OddSet],
    alone: &[bool],
) -> Result<Vec<bool>, OutOfMemory>
    requires index { IsIndex graph.now incidence.now }
    requires within { All (IsGivenWithin graph.now.vertices) sets.now }
    requires one_each { length alone.now ≡ length sets.now }
    ensures size { IfOk result (λ narrow. length narrow.items ≡ length sets.now) }
    ensures numbered { IfOk result (λ narrow. (k : ℕ) → is_marked narrow.items k ≡ true
        → length sets.now < 2 ^ 32) }
    ensures alone { IfOk result (λ narrow. (k : ℕ) → is_marked narrow.items k ≡ true
        → is_marked alone.now k ≡ true) }
{
    if sets.len() > u32::MAX as usize {
        return no_marks(alloc, sets.len());
    }
    let vertices = graph.vertices() as usize;
    let mut narrow = Vec::with_capacity(alloc, sets.len())?;
    let mut spared = 0usize;
    for (k, set) in sets.iter().enumerate() {
        let edges = spared_edges(incidence, set.vertices.as_slice(), alone[k]);
        spared = spared.saturating_add(edges);
        narrow.push(edges > 0)?;
    }
    if spared < vertices.saturating_mul(vertices) / 4 {
        return no_marks(alloc, sets.len());
    }
    Ok(narrow)
}

/// For each set whether its edges are left out: those of sets that are narrow or not alone.
pub(crate) fn left_out(
    alloc: Global,
    narrow: &[bool],
    alone: &[bool],
) -> Result<Vec<bool>, OutOfMemory>
    requires one_each { length narrow.now ≡ length alone.now }
    ensures size { IfOk result (λ left. length left.items ≡ length alone.now) }
    ensures flags { IfOk result (λ left. (k : ℕ) → k < length alone.now
        → is_marked left.items k ≡ (is_marked narrow.now k || not (is_marked alone.now k))) }
{
    let mut left = Vec::with_capacity(alloc, alone.len())?;
    for (k, is_alone) in alone.iter().enumerate() {
        left.push(narrow[k] || !*is_alone)?;
    }
    Ok(left)
}

ghost use Rattle.std.specs.Prelude.{◌≡◌, length, IfOk};
ghost use Rattle.mb_problem.specs.Measured.{HasPlaces};

use alt_forest::Search;
use brute_force::{best, is_small};
use mb_base::{EdgeId, OutOfMemory, Sequence, VertexId};
use mb_problem::{Answer, Instance, Kind, feasible, weight};
use std::alloc::Global;

/// The number of the edge at a node of a search, or 0 if there is none.
fn mate_number(search: &Search, node: u32) -> u32 {
    match search.mates.get(node as usize) {
        Some(&Some(e)) => e.number(),
        _ => 0,
    }
}

/// The numbers of the edges at so many vertices, which follow one another.
pub fn mates_of(alloc: Global, search: &Search, vertices: u32) -> Result<Vec<u32>, OutOfMemory> {
    let mut mates = Vec::new(alloc);
    for place in 0..vertices {
        mates.push(mate_number(search, place.saturating_add(1)))?;
    }
    Ok(mates)
}

/// The number of the edge at a vertex, or 0 if there is none.
fn mate_at(mates: &[u32], v: VertexId) -> u32 {
    match mates.get((v.number() as usize).saturating_sub(1)) {
        Some(number) => *number,
        None => 0,
    }
}

/// How often an edge is used by a matching: once if both its ends have it.
fn use_count(mates: &[u32], number: u32, u: VertexId, v: VertexId) -> u32 {
    if mate_at(mates, u) != number {
        return 0;
    }
    if mate_at(mates, v) != number {
        return 0;
    }
    1
}

/// The matching that has these edges at its vertices, as an answer to the instance of its graph.
fn answer_of(alloc: Global, instance: &Instance, mates: &[u32]) -> Result<Answer, OutOfMemory>
    ensures { IfOk result (HasPlaces instance.now) }
{
    let mut counts = vec![in alloc; 0u32; instance.edges() as usize]?;
    for place in 0..instance.edges() {
        let (u, v, _, _) = instance.edge(EdgeId::new(place + 1));
        counts[place as usize] = use_count(mates, place + 1, u, v);
    }
    Ok(Answer::Counts(Sequence::from_vec(counts)))
}

/// Whether the matching that has these edges at its vertices is perfect and no perfect one weighs
/// less.
pub fn is_best(alloc: Global, instance: &Instance, mates: &[u32]) -> Result<bool, OutOfMemory> {
    if !is_small(alloc, instance, Kind::Perfect)? {
        return Ok(false);
    }
    let least = match best(alloc, instance, Kind::Perfect)? {
        Some(least) => weight(instance, Kind::Perfect, &least),
        None => return Ok(false),
    };
    let answer = answer_of(alloc, instance, mates)?;
    if !feasible(alloc, instance, Kind::Perfect, &answer)? {
        return Ok(false);
    }
    Ok(weight(instance, Kind::Perfect, &answer) == least)
}

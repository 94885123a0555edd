//! A forest and places as `join_check` reads them.
use crate::forest::Forest;
use crate::places::Places;
use crate::table::set_item;
use join_check::Levels;
use mb_base::{OutOfMemory, Sequence};
use std::alloc::Global;

/// Notes the node and the height of each vertex inside. At the start all are 0.
fn note_places(nodes: &mut [u32], heights: &mut [i64], places: &Places) {
    for vertex in &places.inside {
        let place = places.at(*vertex);
        let index = vertex.number().wrapping_sub(1);
        set_item(nodes, index, place.node);
        set_item(heights, index, place.height);
    }
}

/// A forest, with a place for each of so many vertices and a meet for each edge.
pub(crate) fn levels_of(
    alloc: Global,
    forest: &Forest,
    places: &Places,
    vertices: u32,
    meets: Vec<u32>,
) -> Result<Levels, OutOfMemory> {
    let mut nodes = vec![in alloc; 0u32; vertices as usize]?;
    let mut heights = vec![in alloc; 0i64; vertices as usize]?;
    note_places(&mut nodes, &mut heights, places);
    Ok(Levels {
        lengths: Sequence::from_vec(Vec::from_slice(alloc, &forest.lengths)?),
        befores: Sequence::from_vec(Vec::from_slice(alloc, &forest.befores)?),
        nodes: Sequence::from_vec(nodes),
        heights: Sequence::from_vec(heights),
        meets: Sequence::from_vec(meets),
    })
}

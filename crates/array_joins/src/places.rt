//! A place in the forest for each vertex: where the path ends that reaches it from a leaf at the
//! greatest height.
use crate::arcs::Arcs;
use crate::forest::Forest;
use crate::leaves::Leaves;
use crate::spread::Spread;
use crate::table::{item_at, set_item};
use mb_base::{OutOfMemory, VertexId};
use std::alloc::Global;

/// A place: a node, and how much of its length lies below. Node 0 is the outside.
#[derive(Clone, Copy)]
pub(crate) struct Place {
    pub node: u32,
    pub height: i64,
}

/// The place outside.
pub(crate) fn outside() -> Place {
    Place { node: 0, height: 0 }
}

/// The places of vertices.
#[derive(Drop)]
pub(crate) struct Places {
    /// By vertex, from 1.
    places: Vec<Place>,
    /// The vertices whose places have been noted.
    pub inside: Vec<VertexId>,
}

impl Places {
    /// The places of so many vertices, all outside.
    pub fn new(alloc: Global, vertices: u32) -> Result<Places, OutOfMemory> {
        Ok(Places {
            places: vec![in alloc; outside(); vertices as usize + 1]?,
            inside: Vec::new(alloc),
        })
    }

    /// The place of a vertex.
    pub fn at(&self, vertex: VertexId) -> Place {
        item_at(&self.places, vertex.number(), outside())
    }

    /// Notes the place of a vertex.
    fn note(&mut self, vertex: VertexId, place: Place) -> Result<(), OutOfMemory> {
        set_item(&mut self.places, vertex.number(), place);
        self.inside.push(vertex)?;
        Ok(())
    }

    /// Puts all vertices outside, in time linear in those whose places have been noted.
    fn clear(&mut self) {
        for vertex in &self.inside {
            set_item(&mut self.places, vertex.number(), outside());
        }
        self.inside.clear();
    }
}

/// Lets a search start from each leaf, at the height of its node.
fn start_all(spread: &mut Spread, forest: &Forest, leaves: &Leaves) -> Result<(), OutOfMemory> {
    for place in 0..leaves.count {
        let leaf = place + 1;
        let height = forest.top(forest.leaf(leaf));
        spread.start(leaves.vertex(leaf), height, leaf)?;
    }
    Ok(())
}

/// The place of a vertex that a search has come to, from that of the vertex before.
fn place_of(places: &Places, spread: &Spread, forest: &Forest, vertex: VertexId) -> Place {
    let reach = spread.reach(vertex);
    let below = if reach.edge.number() == 0 {
        forest.leaf(reach.leaf)
    } else {
        places.at(reach.from).node
    };
    let node = forest.climb(below, reach.height);
    if node == 0 {
        return outside();
    }
    Place {
        node,
        height: reach.height.wrapping_sub(forest.base(node)),
    }
}

/// Finds the places of all vertices. It leaves the search as it ended, with how each vertex is
/// reached.
pub(crate) fn find_places(
    places: &mut Places,
    arcs: &Arcs,
    leaves: &Leaves,
    forest: &Forest,
    spread: &mut Spread,
) -> Result<(), OutOfMemory> {
    places.clear();
    start_all(spread, forest, leaves)?;
    for _ in 0..leaves.numbers.len() {
        let Some(vertex) = spread.settle() else {
            break;
        };
        let place = place_of(places, spread, forest, vertex);
        places.note(vertex, place)?;
        spread.follow(arcs, vertex, 0)?;
    }
    Ok(())
}

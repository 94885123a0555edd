//! Spanning trees, and the order of a walk along them.
use crate::arcs::Arcs;
use crate::table::{item_at, set_item};
use mb_base::{OutOfMemory, VertexId};
use std::alloc::Global;

/// Where a vertex is in its spanning tree.
#[derive(Clone, Copy)]
struct TreePlace {
    /// The number of the root of its tree, or 0 if no tree has come to it.
    root: u32,
    parent: VertexId,
    depth: u32,
    /// How many vertices the walk comes to before it.
    rank: u32,
    /// How far it is from the root.
    distance: i64,
}

/// A vertex that no tree has come to.
fn unseen() -> TreePlace {
    TreePlace {
        root: 0,
        parent: VertexId::new(0),
        depth: 0,
        rank: 0,
        distance: 0,
    }
}

/// A spanning tree of each component, and a walk along them, a vertex before those below it.
#[derive(Drop)]
pub(crate) struct Trees {
    places: Vec<TreePlace>,
    /// The vertices as the walk comes to them.
    order: Vec<VertexId>,
    /// The vertices that the walk has yet to go on from.
    stack: Vec<VertexId>,
    /// How many trees there are.
    pub count: u32,
}

impl Trees {
    /// Where a vertex is.
    fn place(&self, vertex: VertexId) -> TreePlace {
        item_at(&self.places, vertex.number(), unseen())
    }

    /// The number of the root of the tree of a vertex.
    pub fn root(&self, vertex: VertexId) -> u32 {
        self.place(vertex).root
    }

    /// How many vertices the walk comes to before a vertex.
    pub fn rank(&self, vertex: VertexId) -> u32 {
        self.place(vertex).rank
    }

    /// The vertex that the walk comes to after so many.
    pub fn ranked(&self, rank: u32) -> VertexId {
        item_at(&self.order, rank, VertexId::new(0))
    }

    /// How far two vertices of a tree are apart in it.
    pub fn distance(&self, one: VertexId, other: VertexId) -> i64 {
        let mut here = one;
        let mut there = other;
        for _ in 0..self.places.len() {
            if here == there {
                break;
            }
            if self.place(here).depth >= self.place(there).depth {
                here = self.place(here).parent;
            } else {
                there = self.place(there).parent;
            }
        }
        let above = self.place(here).distance.wrapping_mul(2);
        let one = self.place(one).distance;
        let other = self.place(other).distance;
        one.wrapping_add(other).wrapping_sub(above)
    }

    /// Adds a vertex to a tree, from which the walk goes on later.
    fn see(&mut self, vertex: VertexId, place: TreePlace) -> Result<(), OutOfMemory> {
        set_item(&mut self.places, vertex.number(), place);
        self.stack.push(vertex)?;
        Ok(())
    }

    /// Adds the neighbours of a vertex to its tree.
    fn see_neighbours(&mut self, arcs: &Arcs, vertex: VertexId) -> Result<(), OutOfMemory> {
        let place = self.place(vertex);
        for arc in arcs.at(vertex) {
            if self.root(arc.head) == 0 {
                let next = TreePlace {
                    root: place.root,
                    parent: vertex,
                    depth: place.depth.wrapping_add(1),
                    rank: 0,
                    distance: place.distance.wrapping_add(arc.length),
                };
                self.see(arc.head, next)?;
            }
        }
        Ok(())
    }

    /// Notes that the walk comes to a vertex.
    fn note_rank(&mut self, vertex: VertexId) -> Result<(), OutOfMemory> {
        let mut place = self.place(vertex);
        place.rank = u32::try_from(self.order.len()).unwrap_or(0);
        set_item(&mut self.places, vertex.number(), place);
        self.order.push(vertex)?;
        Ok(())
    }

    /// Walks along the tree of a root.
    fn walk_from(&mut self, arcs: &Arcs, root: VertexId) -> Result<(), OutOfMemory> {
        let mut first = unseen();
        first.root = root.number();
        self.see(root, first)?;
        for _ in 0..self.places.len() {
            let Some(vertex) = self.stack.pop() else {
                return Ok(());
            };
            self.note_rank(vertex)?;
            self.see_neighbours(arcs, vertex)?;
        }
        Ok(())
    }

    /// Walks along all trees.
    fn walk_all(&mut self, arcs: &Arcs, vertices: u32) -> Result<(), OutOfMemory> {
        for place in 0..vertices {
            let vertex = VertexId::new(place + 1);
            if self.root(vertex) == 0 {
                self.count = self.count.wrapping_add(1);
                self.walk_from(arcs, vertex)?;
            }
        }
        Ok(())
    }

    /// Spanning trees of a graph of so many vertices, in time linear in vertices and edges.
    pub fn of(alloc: Global, arcs: &Arcs, vertices: u32) -> Result<Trees, OutOfMemory> {
        let mut trees = Trees {
            places: vec![in alloc; unseen(); vertices as usize + 1]?,
            order: Vec::new(alloc),
            stack: Vec::new(alloc),
            count: 0,
        };
        trees.walk_all(arcs, vertices)?;
        Ok(trees)
    }
}

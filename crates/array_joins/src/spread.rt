//! Shortest paths from several vertices at once, each with a height to start from (Dijkstra).
//! Heights fall along arcs by their lengths, and a vertex keeps the greatest that reaches it.
use crate::arcs::{Arc, Arcs};
use crate::table::{item_at, set_item};
use mb_base::{EdgeId, OutOfMemory, VertexId};
use std::alloc::Global;
use std::collections::BinaryHeap;

/// The height of a vertex that nothing reaches.
pub(crate) const NONE: i64 = i64::MIN;

/// How a vertex is reached: at which height, from which leaf, and by which edge from which vertex.
/// Where a search starts there is no edge.
#[derive(Clone, Copy)]
pub(crate) struct Reach {
    pub height: i64,
    pub leaf: u32,
    pub edge: EdgeId,
    pub from: VertexId,
}

/// How a vertex is reached to which nothing leads.
fn unreached() -> Reach {
    Reach {
        height: NONE,
        leaf: 0,
        edge: EdgeId::new(0),
        from: VertexId::new(0),
    }
}

/// What is added to heights before they are compared, so that none is negative.
const SEA_LEVEL: i64 = 1_125_899_906_842_624;

/// How many vertices keys tell apart.
const VERTICES: u64 = 8_192;

/// A vertex and its height as one number, in which the height comes first. Heights that are too far
/// from 0 come out of order.
fn key_of(height: i64, number: u32) -> u64 {
    let raised = height.wrapping_add(SEA_LEVEL).cast_unsigned();
    raised
        .wrapping_mul(VERTICES)
        .wrapping_add(u64::from(number))
}

/// The vertex of a key.
fn vertex_of(key: u64) -> VertexId {
    VertexId::new((key % VERTICES) as u32)
}

/// A search for shortest paths.
#[derive(Drop)]
pub(crate) struct Spread {
    reaches: Vec<Reach>,
    touched: Vec<VertexId>,
    heap: BinaryHeap<u64>,
    /// How many arcs have been followed by all searches.
    pub looks: u64,
}

impl Spread {
    /// A search among so many vertices that has not begun.
    pub fn new(alloc: Global, vertices: u32) -> Result<Spread, OutOfMemory> {
        let reaches = vec![in alloc; unreached(); vertices as usize + 1]?;
        Ok(Spread {
            reaches,
            touched: Vec::new(alloc),
            heap: BinaryHeap::new(alloc),
            looks: 0,
        })
    }

    /// How a vertex is reached.
    pub fn reach(&self, vertex: VertexId) -> Reach {
        item_at(&self.reaches, vertex.number(), unreached())
    }

    /// Lets a vertex be reached so, if nothing reaches it from a greater height or the same.
    fn raise(&mut self, vertex: VertexId, reach: Reach) -> Result<(), OutOfMemory> {
        let height = reach.height;
        let number = vertex.number();
        let before = self.reach(vertex).height;
        if height <= before {
            return Ok(());
        }
        if before == NONE {
            self.touched.push(vertex)?;
        }
        set_item(&mut self.reaches, number, reach);
        self.heap.push(key_of(height, number))?;
        Ok(())
    }

    /// Lets a search start from a vertex, too.
    pub fn start(&mut self, vertex: VertexId, height: i64, leaf: u32) -> Result<(), OutOfMemory> {
        let mut reach = unreached();
        reach.height = height;
        reach.leaf = leaf;
        self.raise(vertex, reach)
    }

    /// The next vertex that no greater height can reach.
    pub fn settle(&mut self) -> Option<VertexId> {
        for _ in 0..self.heap.len() {
            let key = self.heap.pop()?;
            let vertex = vertex_of(key);
            if key_of(self.reach(vertex).height, vertex.number()) == key {
                return Some(vertex);
            }
        }
        None
    }

    /// Goes on along an arc, if that ends above the floor.
    pub fn go_on(
        &mut self,
        arc: &Arc,
        vertex: VertexId,
        reach: &Reach,
        floor: i64,
    ) -> Result<(), OutOfMemory> {
        let height = reach.height.wrapping_sub(arc.length);
        if height <= floor {
            return Ok(());
        }
        let next = Reach {
            height,
            leaf: reach.leaf,
            edge: arc.edge,
            from: vertex,
        };
        self.raise(arc.head, next)
    }

    /// Goes on along all arcs that leave a vertex and end above the floor.
    pub fn follow(&mut self, arcs: &Arcs, vertex: VertexId, floor: i64) -> Result<(), OutOfMemory> {
        let reach = self.reach(vertex);
        let leaving = arcs.at(vertex);
        self.looks = self.looks.wrapping_add(leaving.len() as u64);
        for arc in leaving {
            self.go_on(arc, vertex, &reach, floor)?;
        }
        Ok(())
    }

    /// Forgets the search, so that another one can start. It takes time linear in what was reached.
    pub fn clear(&mut self) {
        self.heap.clear();
        for vertex in &self.touched {
            set_item(&mut self.reaches, vertex.number(), unreached());
        }
        self.touched.clear();
    }
}

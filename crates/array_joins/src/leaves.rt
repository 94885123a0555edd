//! The vertices that a join has to pair, in the order of a walk along spanning trees.
use crate::table::{item_at, set_item};
use crate::trees::Trees;
use graph_theory::WEIGHT_LIMIT;
use mb_base::{OutOfMemory, VertexId};
use mb_problem::{Instance, Parity};
use std::alloc::Global;

/// The vertices at which a join has odd degree once negative edges are turned: the leaves, numbered
/// from 1. Leaves 1 and 2 are in one component, and so on.
#[derive(Drop)]
pub(crate) struct Leaves {
    /// By leaf: its vertex. Place 0 isn't a leaf.
    pub vertices: Vec<VertexId>,
    /// By vertex: its leaf, or 0.
    pub numbers: Vec<u32>,
    /// For leaves 1 and 2, 3 and 4, and so on: how far they are apart in their tree.
    pub distances: Vec<i64>,
    /// How many leaves there are.
    pub count: u32,
    /// The ranks of the leaves in the walk.
    ranks: Vec<u32>,
}

/// Changes the parity of a vertex.
fn flip(odd: &mut [bool], vertex: VertexId) {
    let before = item_at(odd, vertex.number(), false);
    set_item(odd, vertex.number(), !before);
}

/// Whether an edge changes the parity of its ends: it is counted, or turned, and not both.
fn flips_ends(parity: Parity, weight: i64) -> bool {
    let is_turned = weight < 0;
    match parity {
        Parity::Empty => is_turned,
        Parity::Values => is_turned,
        Parity::OddDegrees => !is_turned,
    }
}

/// Whether the edges alone make a join have odd degree at a vertex once negative edges are turned,
/// by vertex.
pub(crate) fn odd_by_edges(
    alloc: Global,
    instance: &Instance,
    parity: Parity,
) -> Result<Vec<bool>, OutOfMemory> {
    let mut odd = vec![in alloc; false; instance.vertices() as usize + 1]?;
    for edge in instance.edge_list() {
        if flips_ends(parity, edge.w) {
            flip(&mut odd, edge.u);
            flip(&mut odd, edge.v);
        }
    }
    Ok(odd)
}

/// Whether the value of a vertex changes its parity.
fn flips_vertex(parity: Parity, value: u32) -> bool {
    match parity {
        Parity::Empty => false,
        Parity::Values => value % 2 == 1,
        Parity::OddDegrees => false,
    }
}

impl Leaves {
    /// No leaves, in a graph of so many vertices.
    pub fn new(alloc: Global, vertices: u32) -> Result<Leaves, OutOfMemory> {
        Ok(Leaves {
            vertices: Vec::new(alloc),
            numbers: vec![in alloc; 0u32; vertices as usize + 1]?,
            distances: Vec::new(alloc),
            count: 0,
            ranks: Vec::new(alloc),
        })
    }

    /// The vertex of a leaf.
    pub fn vertex(&self, leaf: u32) -> VertexId {
        item_at(&self.vertices, leaf, VertexId::new(0))
    }

    /// The leaf of a vertex, or 0.
    pub fn number(&self, vertex: VertexId) -> u32 {
        item_at(&self.numbers, vertex.number(), 0)
    }

    /// Forgets the leaves, in time linear in them.
    fn clear(&mut self) {
        for vertex in &self.vertices {
            set_item(&mut self.numbers, vertex.number(), 0);
        }
        self.vertices.clear();
        self.distances.clear();
        self.ranks.clear();
        self.count = 0;
    }

    /// Notes the ranks of the vertices that are leaves.
    fn rank_all(
        &mut self,
        instance: &Instance,
        parity: Parity,
        odd: &[bool],
        trees: &Trees,
    ) -> Result<(), OutOfMemory> {
        for (place, value) in instance.value_list().iter().enumerate() {
            let number = place as u32 + 1;
            if item_at(odd, number, false) != flips_vertex(parity, *value) {
                self.ranks.push(trees.rank(VertexId::new(number)))?;
            }
        }
        Ok(())
    }

    /// Numbers a vertex. If the number is even, the leaf before is its pair, and their distance is
    /// noted. Answers whether both are in one tree.
    fn number_one(&mut self, trees: &Trees, vertex: VertexId) -> Result<bool, OutOfMemory> {
        let leaf = self.count.wrapping_add(1);
        self.count = leaf;
        set_item(&mut self.numbers, vertex.number(), leaf);
        self.vertices.push(vertex)?;
        if leaf % 2 == 1 {
            return Ok(true);
        }
        let before = self.vertex(leaf.wrapping_sub(1));
        if trees.root(before) != trees.root(vertex) {
            return Ok(false);
        }
        let weight = trees.distance(before, vertex) / 2;
        self.distances.push(weight.min(WEIGHT_LIMIT))?;
        Ok(true)
    }

    /// Numbers the leaves by their ranks, and answers whether each component has an even number.
    fn number_all(&mut self, trees: &Trees) -> Result<bool, OutOfMemory> {
        self.ranks.sort_unstable();
        self.vertices.push(VertexId::new(0))?;
        let count = u32::try_from(self.ranks.len()).unwrap_or(0);
        for place in 0..count {
            let vertex = trees.ranked(item_at(&self.ranks, place, 0));
            if !self.number_one(trees, vertex)? {
                return Ok(false);
            }
        }
        Ok(self.count % 2 == 0)
    }

    /// Finds the leaves of an instance. Answers whether each component has an even number of them:
    /// otherwise there is no join.
    pub fn find(
        &mut self,
        instance: &Instance,
        parity: Parity,
        odd: &[bool],
        trees: &Trees,
    ) -> Result<bool, OutOfMemory> {
        self.clear();
        self.rank_all(instance, parity, odd, trees)?;
        self.number_all(trees)
    }
}

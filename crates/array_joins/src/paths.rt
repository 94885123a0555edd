//! The join of the shortest paths between matched leaves.
use crate::arcs::{Arcs, length_of};
use crate::forest::Forest;
use crate::found::Found;
use crate::leaves::Leaves;
use crate::pairs::{Pair, add_pair};
use crate::pricing::way_between;
use crate::spread::{NONE, Spread};
use crate::table::{item_at, set_item};
use mb_base::{EdgeId, OutOfMemory, VertexId};
use mb_problem::Instance;
use std::alloc::Global;

/// Searches from a vertex until another one is reached, above a floor.
fn search_path(
    spread: &mut Spread,
    arcs: &Arcs,
    from: VertexId,
    to: VertexId,
    floor: i64,
    places: usize,
) -> Result<(), OutOfMemory> {
    spread.start(from, 0, 0)?;
    for _ in 0..places {
        let Some(vertex) = spread.settle() else {
            break;
        };
        if vertex == to {
            break;
        }
        spread.follow(arcs, vertex, floor)?;
    }
    Ok(())
}

/// The edges of paths: each of an odd number of paths is used.
#[derive(Drop)]
pub(crate) struct Paths {
    /// By edge from 1: whether it is used.
    used: Vec<bool>,
    /// The edges of all paths; at the end those that are used, ascending.
    edges: Vec<u32>,
}

impl Paths {
    /// No paths, in a graph of so many edges.
    pub fn new(alloc: Global, edges: u32) -> Result<Paths, OutOfMemory> {
        Ok(Paths {
            used: vec![in alloc; false; edges as usize + 1]?,
            edges: Vec::new(alloc),
        })
    }

    /// Forgets the paths, in time linear in their edges.
    fn clear(&mut self) {
        for edge in &self.edges {
            set_item(&mut self.used, *edge, false);
        }
        self.edges.clear();
    }

    /// Changes for an edge whether it is used.
    fn change(&mut self, edge: EdgeId) -> Result<(), OutOfMemory> {
        let number = edge.number();
        let before = item_at(&self.used, number, false);
        set_item(&mut self.used, number, !before);
        self.edges.push(number)?;
        Ok(())
    }

    /// Changes for each edge of the path to a vertex whether it is used.
    fn use_path(&mut self, spread: &Spread, to: VertexId) -> Result<(), OutOfMemory> {
        let mut at = to;
        for _ in 0..self.used.len() {
            let reach = spread.reach(at);
            if reach.edge.number() == 0 {
                break;
            }
            self.change(reach.edge)?;
            at = reach.from;
        }
        Ok(())
    }

    /// Keeps the edges that are used, ascending.
    fn keep_used(&mut self) {
        self.edges.sort_unstable();
        let count = u32::try_from(self.edges.len()).unwrap_or(0);
        let mut kept = 0u32;
        let mut last = 0u32;
        for place in 0..count {
            let edge = item_at(&self.edges, place, 0);
            if edge != last && item_at(&self.used, edge, false) {
                set_item(&mut self.edges, kept, edge);
                kept = kept.wrapping_add(1);
            }
            last = edge;
        }
        self.edges.truncate(kept as usize);
    }

    /// How long the edges are that are used.
    pub fn length(&self, instance: &Instance) -> i64 {
        let edges = instance.edge_list();
        let mut total = 0i64;
        for edge in &self.edges {
            let place = edge.wrapping_sub(1) as usize;
            if place < edges.len() {
                total = total.wrapping_add(length_of(&edges[place]));
            }
        }
        total
    }

    /// The edges that are used, ascending.
    fn listed(&self, alloc: Global) -> Result<Vec<EdgeId>, OutOfMemory> {
        let mut edges = Vec::with_capacity(alloc, self.edges.len())?;
        for edge in &self.edges {
            edges.push(EdgeId::new(*edge))?;
        }
        Ok(edges)
    }

    /// The edges that are used or negative, and not both.
    fn turned(&self, alloc: Global, instance: &Instance) -> Result<Vec<EdgeId>, OutOfMemory> {
        let mut edges = Vec::new(alloc);
        for (place, edge) in instance.edge_list().iter().enumerate() {
            let number = place as u32 + 1;
            let is_negative = edge.w < 0;
            if item_at(&self.used, number, false) != is_negative {
                edges.push(EdgeId::new(number))?;
            }
        }
        Ok(edges)
    }

    /// The join: the edges that are used or negative, and not both.
    pub fn join(
        &self,
        alloc: Global,
        instance: &Instance,
        has_negative: bool,
    ) -> Result<Vec<EdgeId>, OutOfMemory> {
        if has_negative {
            return self.turned(alloc, instance);
        }
        self.listed(alloc)
    }
}

/// Uses a shortest path between two leaves, and answers how long it is. It is no longer than the
/// way between them in the forest of a search that has matched them.
fn use_shortest(
    paths: &mut Paths,
    arcs: &Arcs,
    leaves: &Leaves,
    forest: &Forest,
    spread: &mut Spread,
    leaf: u32,
    partner: u32,
) -> Result<i64, OutOfMemory> {
    let from = leaves.vertex(leaf);
    let to = leaves.vertex(partner);
    let most = way_between(forest, leaf, partner);
    let floor = (-1i64).wrapping_sub(most);
    search_path(spread, arcs, from, to, floor, leaves.numbers.len())?;
    paths.use_path(spread, to)?;
    let height = spread.reach(to).height;
    spread.clear();
    if height == NONE {
        return Ok(most);
    }
    Ok(0i64.wrapping_sub(height))
}

/// Uses a shortest path between each two partners, and no other edge. The paths become pairs, and
/// the answer is how long they are together.
pub(crate) fn use_paths(
    paths: &mut Paths,
    arcs: &Arcs,
    leaves: &Leaves,
    forest: &Forest,
    spread: &mut Spread,
    found: &Found,
    pairs: &mut Vec<Pair>,
) -> Result<i64, OutOfMemory> {
    let mut total = 0i64;
    paths.clear();
    for place in 0..leaves.count {
        let leaf = place + 1;
        let partner = item_at(&found.partners, leaf, 0);
        if leaf < partner {
            let length = use_shortest(paths, arcs, leaves, forest, spread, leaf, partner)?;
            add_pair(pairs, leaf, partner, length / 2)?;
            total = total.wrapping_add(length);
        }
    }
    paths.keep_used();
    Ok(total)
}

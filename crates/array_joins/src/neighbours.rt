//! Pairs of leaves whose regions meet: each vertex belongs to the region of its nearest leaf.
use crate::arcs::{Arc, Arcs};
use crate::clusters::Clusters;
use crate::leaves::Leaves;
use crate::pairs::{Pair, add_pair};
use crate::spread::{NONE, Reach, Spread};
use mb_base::{OutOfMemory, VertexId};
use std::alloc::Global;

/// Regions that grow.
#[derive(Drop)]
struct Regions {
    clusters: Clusters,
    /// How long the longest path is on which regions have met, while some cluster was odd.
    widest: i64,
    /// Below this height no region grows.
    floor: i64,
}

/// Lets a search start from each leaf.
fn start_all(spread: &mut Spread, leaves: &Leaves) -> Result<(), OutOfMemory> {
    for place in 0..leaves.count {
        let leaf = place + 1;
        spread.start(leaves.vertex(leaf), 0, leaf)?;
    }
    Ok(())
}

impl Regions {
    /// Lets two regions meet on a path of this length. Once each cluster is even, regions grow no
    /// further than to the middle of the longest such path.
    fn meet(&mut self, one: u32, other: u32, length: i64) {
        if !self.clusters.has_odd() {
            return;
        }
        self.clusters.join(one, other);
        self.widest = self.widest.max(length);
        if !self.clusters.has_odd() {
            self.floor = 0i64.wrapping_sub(self.widest / 2);
        }
    }

    /// Looks along an arc that leaves a region: it meets another one, or grows.
    fn look(
        &mut self,
        pairs: &mut Vec<Pair>,
        spread: &mut Spread,
        arc: &Arc,
        vertex: VertexId,
        reach: &Reach,
    ) -> Result<(), OutOfMemory> {
        let there = spread.reach(arc.head);
        if there.height < reach.height {
            return spread.go_on(arc, vertex, reach, self.floor);
        }
        if there.leaf == reach.leaf {
            return Ok(());
        }
        let both = reach.height.wrapping_add(there.height);
        let length = arc.length.wrapping_sub(both);
        self.meet(reach.leaf, there.leaf, length);
        add_pair(pairs, reach.leaf, there.leaf, length / 2)
    }

    /// Looks along all arcs that leave a vertex.
    fn look_around(
        &mut self,
        pairs: &mut Vec<Pair>,
        spread: &mut Spread,
        arcs: &Arcs,
        vertex: VertexId,
    ) -> Result<(), OutOfMemory> {
        let reach = spread.reach(vertex);
        let leaving = arcs.at(vertex);
        spread.looks = spread.looks.wrapping_add(leaving.len() as u64);
        for arc in leaving {
            self.look(pairs, spread, arc, vertex, &reach)?;
        }
        Ok(())
    }
}

/// Adds the pairs of leaves whose regions meet. These grow from all leaves at once, no further than
/// they must until each cluster of regions that meet has an even number of leaves.
pub(crate) fn add_neighbours(
    alloc: Global,
    pairs: &mut Vec<Pair>,
    arcs: &Arcs,
    leaves: &Leaves,
    spread: &mut Spread,
) -> Result<(), OutOfMemory> {
    let mut regions = Regions {
        clusters: Clusters::new(alloc, leaves.count)?,
        widest: 0,
        floor: NONE,
    };
    start_all(spread, leaves)?;
    for _ in 0..leaves.numbers.len() {
        let Some(vertex) = spread.settle() else {
            break;
        };
        regions.look_around(pairs, spread, arcs, vertex)?;
    }
    spread.clear();
    Ok(())
}

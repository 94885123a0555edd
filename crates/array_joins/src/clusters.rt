//! Clusters of leaves, and how many have an odd number of them.
use crate::table::{item_at, set_item};
use mb_base::OutOfMemory;
use std::alloc::Global;

/// Clusters of leaves, each with a leaf that stands for it.
#[derive(Drop)]
pub(crate) struct Clusters {
    /// By leaf: another one of its cluster that is nearer to the one that stands for it, or itself.
    nexts: Vec<u32>,
    /// By leaf that stands for a cluster: how many leaves that has.
    sizes: Vec<u32>,
    /// By leaf that stands for a cluster: whether that has an odd number of leaves.
    odd: Vec<bool>,
    /// How many clusters have an odd number of leaves.
    odd_count: u32,
}

impl Clusters {
    /// A cluster for each leaf, of so many.
    pub fn new(alloc: Global, leaves: u32) -> Result<Clusters, OutOfMemory> {
        let mut nexts = Vec::with_capacity(alloc, leaves as usize + 1)?;
        for leaf in 0..leaves {
            nexts.push(leaf)?;
        }
        nexts.push(leaves)?;
        Ok(Clusters {
            nexts,
            sizes: vec![in alloc; 1u32; leaves as usize + 1]?,
            odd: vec![in alloc; true; leaves as usize + 1]?,
            odd_count: leaves,
        })
    }

    /// Whether a cluster has an odd number of leaves.
    pub fn has_odd(&self) -> bool {
        self.odd_count > 0
    }

    /// The leaf that stands for the cluster of a leaf, in time logarithmic in its leaves.
    fn root(&self, leaf: u32) -> u32 {
        let mut at = leaf;
        for _ in 0..self.nexts.len() {
            let next = item_at(&self.nexts, at, at);
            if next == at {
                return at;
            }
            at = next;
        }
        at
    }

    /// The leaves that stand for the clusters of two leaves, that of the smaller cluster first.
    fn roots(&self, one: u32, other: u32) -> (u32, u32) {
        let first = self.root(one);
        let second = self.root(other);
        if item_at(&self.sizes, first, 0) > item_at(&self.sizes, second, 0) {
            return (second, first);
        }
        (first, second)
    }

    /// Makes the clusters of two leaves one: the smaller one becomes part of the other.
    pub fn join(&mut self, one: u32, other: u32) {
        let (from, to) = self.roots(one, other);
        if from == to {
            return;
        }
        let is_odd = item_at(&self.odd, from, false);
        let was_odd = item_at(&self.odd, to, false);
        if is_odd && was_odd {
            self.odd_count = self.odd_count.saturating_sub(2);
        }
        let size = item_at(&self.sizes, from, 0).saturating_add(item_at(&self.sizes, to, 0));
        set_item(&mut self.nexts, from, to);
        set_item(&mut self.sizes, to, size);
        set_item(&mut self.odd, to, is_odd != was_odd);
    }
}

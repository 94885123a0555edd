//! The forest of leaves and sets, with their duals for lengths.
use crate::found::Found;
use crate::table::{add_to, item_at, set_item};
use mb_base::OutOfMemory;
use std::alloc::Global;

/// A forest. Its nodes have numbers from 1, each after those that it holds; node 0 is the outside.
#[derive(Drop)]
pub(crate) struct Forest {
    /// By node: its length.
    pub lengths: Vec<i64>,
    /// By node: how many nodes come before the first that it holds.
    pub befores: Vec<u32>,
    /// By node: the node that holds it, or 0.
    pub parents: Vec<u32>,
    /// By node: how long it is with all nodes that hold it.
    pub tops: Vec<i64>,
    /// By leaf: its node.
    pub leaves: Vec<u32>,
}

impl Forest {
    /// How long a node is.
    pub fn length(&self, node: u32) -> i64 {
        item_at(&self.lengths, node, 0)
    }

    /// How long a node is with all that hold it.
    pub fn top(&self, node: u32) -> i64 {
        item_at(&self.tops, node, 0)
    }

    /// How long all that hold a node are.
    pub fn base(&self, node: u32) -> i64 {
        self.top(node).wrapping_sub(self.length(node))
    }

    /// The node that holds a node, or 0.
    pub fn parent(&self, node: u32) -> u32 {
        item_at(&self.parents, node, 0)
    }

    /// The node of a leaf.
    pub fn leaf(&self, leaf: u32) -> u32 {
        item_at(&self.leaves, leaf, 0)
    }

    /// The first node from this one upwards whose base is below a height, or 0.
    pub fn climb(&self, node: u32, height: i64) -> u32 {
        let mut at = node;
        for _ in 0..self.parents.len() {
            if at == 0 || self.base(at) < height {
                return at;
            }
            at = self.parent(at);
        }
        0
    }

    /// The first node that holds two nodes, or 0.
    pub fn meet(&self, one: u32, other: u32) -> u32 {
        let low = one.min(other);
        let high = one.max(other);
        let mut at = low;
        for _ in 0..self.parents.len() {
            if at == 0 || at >= high {
                return at;
            }
            at = self.parent(at);
        }
        0
    }
}

/// The nodes in an order in which each comes after those that it holds, though not right after:
/// first the leaves, then the sets by their sizes.
#[derive(Drop)]
struct Nodes {
    duals: Vec<i64>,
    parents: Vec<u32>,
    /// By node: how many nodes it holds, itself too.
    counts: Vec<u32>,
}

/// How many leaves there are.
fn leaf_count(found: &Found) -> u32 {
    u32::try_from(found.duals.len())
        .unwrap_or(0)
        .saturating_sub(1)
}

/// The sets by their sizes.
fn sets_by_size(alloc: Global, found: &Found) -> Result<Vec<(usize, usize)>, OutOfMemory> {
    let mut order = Vec::with_capacity(alloc, found.sets.len())?;
    for (place, set) in found.sets.iter().enumerate() {
        order.push((set.end.wrapping_sub(set.start), place))?;
    }
    order.sort_unstable();
    Ok(order)
}

/// The members from a place to another in the list of all members.
fn members_between(members: &[u32], start: usize, end: usize) -> &[u32] {
    if start > end {
        return &[];
    }
    if end > members.len() {
        return &[];
    }
    &members[start..end]
}

/// Makes a node hold the outermost nodes of its members, and be that of them.
fn hold_members(parents: &mut [u32], outermost: &mut [u32], members: &[u32], node: u32) {
    for leaf in members {
        let below = item_at(outermost, *leaf, 0);
        if below != node {
            set_item(parents, below, node);
        }
        set_item(outermost, *leaf, node);
    }
}

/// The numbers from 0 to a number.
fn numbers_to(alloc: Global, last: u32) -> Result<Vec<u32>, OutOfMemory> {
    let mut numbers = Vec::with_capacity(alloc, last as usize + 1)?;
    for number in 0..last {
        numbers.push(number)?;
    }
    numbers.push(last)?;
    Ok(numbers)
}

/// Adds the sets to the leaves.
fn add_sets(
    alloc: Global,
    found: &Found,
    nodes: &mut Nodes,
    leaves: u32,
) -> Result<(), OutOfMemory> {
    let order = sets_by_size(alloc, found)?;
    let mut outermost = numbers_to(alloc, leaves)?;
    let mut node = leaves;
    for (_, place) in order.as_slice() {
        node = node.wrapping_add(1);
        if *place < found.sets.len() {
            let set = found.sets[*place];
            let members = members_between(&found.members, set.start, set.end);
            nodes.duals.push(set.dual)?;
            hold_members(&mut nodes.parents, &mut outermost, members, node);
        }
    }
    Ok(())
}

/// Counts for each node those that it holds.
fn count_held(counts: &mut [u32], parents: &[u32]) {
    for (node, parent) in parents.iter().enumerate() {
        if node < counts.len() {
            let count = counts[node];
            if *parent != 0 {
                add_to(counts, *parent, count);
            }
        }
    }
}

/// The nodes of what a search has found.
fn nodes_of(alloc: Global, found: &Found) -> Result<Nodes, OutOfMemory> {
    let places = found.duals.len().saturating_add(found.sets.len());
    let mut nodes = Nodes {
        duals: Vec::from_slice(alloc, &found.duals)?,
        parents: vec![in alloc; 0u32; places]?,
        counts: vec![in alloc; 1u32; places]?,
    };
    add_sets(alloc, found, &mut nodes, leaf_count(found))?;
    count_held(&mut nodes.counts, &nodes.parents);
    Ok(nodes)
}

/// Gives each node its number, the outermost nodes first: it comes after all that it holds.
fn number_all(nodes: &Nodes, befores: &mut [u32], numbers: &mut [u32], cursors: &mut [u32]) {
    let places = nodes.parents.len();
    for place in 1..places {
        let node = u32::try_from(places - place).unwrap_or(0);
        let parent = item_at(&nodes.parents, node, 0);
        let count = item_at(&nodes.counts, node, 0);
        let before = item_at(cursors, parent, 0);
        add_to(cursors, parent, count);
        set_item(cursors, node, before);
        let number = before.wrapping_add(count);
        set_item(numbers, node, number);
        set_item(befores, number, before);
    }
}

/// Gives each node its length and the node that holds it, by its number.
fn fill(forest: &mut Forest, nodes: &Nodes, numbers: &[u32]) {
    for (node, number) in numbers.iter().enumerate() {
        let node = u32::try_from(node).unwrap_or(0);
        let parent = item_at(&nodes.parents, node, 0);
        if node != 0 {
            set_item(&mut forest.lengths, *number, item_at(&nodes.duals, node, 0));
            set_item(&mut forest.parents, *number, item_at(numbers, parent, 0));
        }
    }
}

/// Adds the lengths of the nodes up, from the outermost ones.
fn add_up(forest: &mut Forest) {
    let places = forest.parents.len();
    for place in 1..places {
        let node = u32::try_from(places - place).unwrap_or(0);
        let above = forest.top(forest.parent(node));
        let top = above.wrapping_add(forest.length(node));
        set_item(&mut forest.tops, node, top);
    }
}

/// The forest of what a search has found. It takes time linear in the sizes of all sets, besides
/// sorting these.
pub(crate) fn forest_of(alloc: Global, found: &Found) -> Result<Forest, OutOfMemory> {
    let nodes = nodes_of(alloc, found)?;
    let places = nodes.parents.len();
    let mut numbers = vec![in alloc; 0u32; places]?;
    let mut cursors = vec![in alloc; 0u32; places]?;
    let mut befores = vec![in alloc; 0u32; places]?;
    number_all(&nodes, &mut befores, &mut numbers, &mut cursors);
    let mut forest = Forest {
        lengths: vec![in alloc; 0i64; places]?,
        befores,
        parents: vec![in alloc; 0u32; places]?,
        tops: vec![in alloc; 0i64; places]?,
        leaves: Vec::new(alloc),
    };
    fill(&mut forest, &nodes, &numbers);
    add_up(&mut forest);
    numbers.truncate(found.duals.len());
    forest.leaves = numbers;
    Ok(forest)
}

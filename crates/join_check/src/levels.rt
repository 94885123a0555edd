use mb_base::Sequence;

/// A forest of nodes with lengths, and a place in it for each vertex.
///
/// Nodes have numbers from 1, each after those that it holds; node 0 is the outside. Lengths are in
/// doubled units, and half of their sum is what each join weighs at least, if no weight is
/// negative.
#[derive(Drop)]
pub struct Levels {
    /// By node, from 0: its length.
    pub lengths: Sequence<i64>,
    /// By node, from 0: how many nodes stand before the first that it holds.
    pub befores: Sequence<u32>,
    /// By vertex: the node of its place, 0 for the outside.
    pub nodes: Sequence<u32>,
    /// By vertex: how much of that node's length lies below its place.
    pub heights: Sequence<i64>,
    /// By edge: a node that holds the places of both ends, 0 for none.
    pub meets: Sequence<u32>,
}

/// An instance as arrays, one row an edge and one a vertex. Edges and vertices count from 1. A
/// slice of no items where others would do stands for items that are all alike, as its field says.
#[derive(Clone, Copy)]
pub struct InstanceArrays<'a> {
    /// How many vertices there are.
    pub vertices: u32,
    /// The one end of each edge.
    pub from: &'a [u32],
    /// The other end of each edge.
    pub to: &'a [u32],
    /// The weight of each edge; without items each weighs 1.
    pub weights: &'a [i64],
    /// The capacity of each edge, -1 where it has none; without items no edge has one.
    pub capacities: &'a [i64],
    /// The value of each vertex; without items each has the default of the kind. For a kind with
    /// bounds the least and the greatest degree of each vertex, in turn; without items 0 and 1.
    pub values: &'a [u32],
}

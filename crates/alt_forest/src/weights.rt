/// The weights that slacks use.
#[derive(Clone, Copy, PartialEq, Eq)]
pub enum Weights {
    /// 0 for each edge.
    Zero,
    /// Those of the graph.
    Given,
}

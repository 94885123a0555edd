/// What a run found.
#[derive(Clone, Copy, PartialEq, Eq)]
pub enum Outcome {
    /// A perfect matching of least weight, with duals that prove it.
    Matched,
    /// A set of vertices that excludes perfect matchings.
    Barrier,
}

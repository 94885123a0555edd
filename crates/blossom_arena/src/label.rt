/// How an outermost node stands in the trees.
#[derive(Clone, Copy, PartialEq, Eq)]
pub enum Label {
    /// An even number of edges from its root.
    Outer,
    /// An odd number of edges from its root.
    Inner,
    /// In no tree.
    Out,
}

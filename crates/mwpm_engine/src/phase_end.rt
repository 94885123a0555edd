/// How a phase ends.
#[derive(Clone, Copy)]
pub enum PhaseEnd {
    /// The matching has been augmented: two exposed nodes are matched, and no tree is left.
    Augmented,
    /// The forest is stuck: no change of duals lets any of its trees grow.
    Stuck,
}

/// Where an item stands among those of the same moment.
#[derive(Clone, Copy)]
pub(crate) enum TieRank {
    /// Before all that are late.
    Early,
    /// Behind those that are early.
    Late,
}

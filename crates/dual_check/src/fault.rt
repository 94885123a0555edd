use mb_base::{EdgeId, OutOfMemory};
use thiserror::Error;

/// Why duals prove no bound.
#[derive(Clone, Copy, PartialEq, Eq, Debug, Error)]
pub enum DualFault {
    /// The set of this number, counted from 1, has fewer than three items, an even number of them,
    /// items that do not ascend, a set that an earlier set refers to, or a member of two items. Its
    /// items are its vertices and the sets that it refers to.
    #[error("set {0} is no odd number of at least three ascending items that are disjoint")]
    SetForm(u64),
    /// The slack of this edge is negative.
    #[error("the slack of edge {} is below 0", .0.number())]
    Slack(EdgeId),
    /// There isn't enough memory.
    #[error("out of memory")]
    OutOfMemory,
}

impl From<OutOfMemory> for DualFault {
    ghost use Rattle.std.specs.Prelude.{◌≡◌};
    ghost use Rattle.dual_check.specs.declared.fault.DualFault.TheVariants.{OutOfMemory};

    ghost from_gives = { λ _ e. e ≡ OutOfMemory };

    fn from(_: OutOfMemory) -> DualFault {
        DualFault::OutOfMemory
    }
}

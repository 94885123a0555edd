ghost use Rattle.std.specs.Prelude.{◌≡◌};
ghost use Rattle.dimacs_read.specs.declared.error.InstanceError.TheVariants.{OutOfMemory};

use crate::rule::Rule;
use std::alloc::AllocError;
use thiserror::Error;

/// Why there is no instance.
#[derive(Clone, Copy, Debug, PartialEq, Eq, Error)]
pub enum InstanceError {
    /// The text breaks this rule at this line.
    #[error("{rule} at line {line}")]
    Malformed { rule: Rule, line: u64 },
    /// There isn't enough memory.
    #[error("out of memory")]
    OutOfMemory,
}

impl From<AllocError> for InstanceError {
    ghost from_gives = { λ _ e. e ≡ OutOfMemory };

    fn from(_error: AllocError) -> InstanceError {
        InstanceError::OutOfMemory
    }
}

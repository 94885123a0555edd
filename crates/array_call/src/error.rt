ghost use Rattle.std.specs.Prelude.{◌≡◌};
ghost use Rattle.array_call.specs.declared.error.ArrayError.TheVariants.{OutOfMemory};

use crate::rule::ArrayFault;
use std::alloc::AllocError;
use thiserror::Error;

/// Why there is no answer to arrays.
#[derive(Clone, Copy, Debug, Error)]
pub enum ArrayError {
    /// The arrays are no instance of the kind.
    #[error("the arrays break rule {} at {}", .0.rule.number(), .0.place)]
    Malformed(ArrayFault),
    /// The certificate graph, of this size, is past a limit.
    #[error("the graph has {vertices} vertices and {edges} edges, past a limit")]
    TooLarge { vertices: u64, edges: u64 },
    /// There isn't enough memory.
    #[error("out of memory")]
    OutOfMemory,
}

impl From<AllocError> for ArrayError {
    ghost from_gives = { λ _ e. e ≡ OutOfMemory };

    fn from(_error: AllocError) -> ArrayError {
        ArrayError::OutOfMemory
    }
}

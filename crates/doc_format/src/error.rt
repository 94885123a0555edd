ghost use Rattle.std.specs.Prelude.{◌≡◌};
ghost use Rattle.doc_format.specs.declared.error.DocError.TheVariants.{OutOfMemory};

use std::alloc::AllocError;
use thiserror::Error;

/// Why there is no document.
#[derive(Clone, Copy, Debug, PartialEq, Eq, Error)]
pub enum DocError {
    /// This line is the first that no document has there.
    #[error("no document has line {line}")]
    DocForm { line: u64 },
    /// There isn't enough memory.
    #[error("out of memory")]
    OutOfMemory,
}

impl From<AllocError> for DocError {
    ghost from_gives = { λ _ e. e ≡ OutOfMemory };

    fn from(_error: AllocError) -> DocError {
        DocError::OutOfMemory
    }
}

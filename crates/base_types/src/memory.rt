use std::alloc::AllocError;

/// There isn't enough memory. A call that answers this has left what it was lent as it was.
pub type OutOfMemory = AllocError;

/// The most bytes of an instance that `solve` reads.
pub const SOLVE_BYTE_LIMIT: u64 = 16_777_216;

/// The most bytes of an instance and a document that `check` reads.
pub const CHECK_BYTE_LIMIT: u64 = 536_870_912;

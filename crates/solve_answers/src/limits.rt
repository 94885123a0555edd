/// The most bytes of the text of a computed document.
pub const DOCUMENT_BYTE_LIMIT: usize = 8_388_608;

/// The same where it has a path from each vertex that some greatest matching misses.
pub const PATHS_BYTE_LIMIT: usize = 134_217_728;

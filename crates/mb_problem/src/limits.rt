/// The most vertices of an instance.
pub const VERTEX_LIMIT: u32 = 4_096;

/// The most edges of an instance.
pub const EDGE_LIMIT: u32 = 65_536;

/// The greatest value of a vertex, capacity of an edge, and count of an edge in a document.
pub const VALUE_LIMIT: u32 = 4_096;

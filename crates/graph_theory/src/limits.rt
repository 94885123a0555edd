/// The greatest weight of an edge, in absolute value.
pub const WEIGHT_LIMIT: i64 = 1_000_000_000_000;

/// The greatest dual, or weight of an answer, in a document or a search, in absolute value.
pub const NUMBER_LIMIT: i64 = 1_000_000_000_000_000_000;

/// The most vertices of a graph whose perfect matchings are sought or certified.
pub const GRAPH_VERTEX_LIMIT: u32 = 16_384;

/// The most edges of a graph whose perfect matchings are sought or certified.
pub const GRAPH_EDGE_LIMIT: u32 = 1_048_576;

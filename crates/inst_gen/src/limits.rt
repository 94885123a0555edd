/// The multiplier of the generator of numbers.
pub const MULTIPLIER: u64 = 6_364_136_223_846_793_005;

/// What the generator adds after it has multiplied.
pub const INCREMENT: u64 = 1_442_695_040_888_963_407;

/// The greatest weight of an edge of a made instance, in absolute value.
pub const MADE_WEIGHT_LIMIT: u32 = 1_000;

/// The greatest capacity of an edge of a made instance.
pub const MADE_CAPACITY_LIMIT: u32 = 3;

use std::alloc::Global;

/// The next number of a linear congruential generator.
pub fn next(state: u64) -> u64 {
    state
        .wrapping_mul(6_364_136_223_846_793_005)
        .wrapping_add(1_442_695_040_888_963_407)
}

/// A checksum as a line.
pub fn line(alloc: Global, sum: u64) -> Option<Vec<u8>> {
    let text = format!(in alloc; "{sum}\n").ok()?;
    Some(text.into_bytes())
}

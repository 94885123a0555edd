//! Tests of what is found along trees and walks: components, joins, tours and paths, alternating
//! ones among them, on worked instances; of the check of joins, by forests that prove a join and
//! for each of its tests forests that pass all others; and of the guess of joins, which most drawn
//! instances have. It depends on `dimacs_read`, `graph_parts`, `alternating_paths`, the crates of
//! walks and those of joins, and has no call of its own.
#![tactic(auto)]

#[cfg(test)]
mod tests;

//! The end of a phase and of a pass: an augmenting path between two roots is flipped, and a
//! matching is unpacked from its blossoms. It depends on `alt_forest`, `search_keys` and what is
//! below, and promises a sound search with two exposed nodes fewer, a matching of the vertices by
//! edges of slack 0, a perfect one where no node is exposed, and matchings that miss a given
//! vertex.
#![tactic(auto)]

mod dissolving;
mod flips;
mod join_by_keys;
mod joining;
mod marking;
mod missing;
mod opening;
mod tree_sizes;
mod turning;

pub use flips::flip;
pub use join_by_keys::join_bounding;
pub use joining::join;
pub use missing::mates_missing;
pub use opening::unpack;

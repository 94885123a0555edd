//! Edmonds' search for a perfect matching (Schrijver, Combinatorial Optimization, volume A,
//! chapters 24 and 26). It depends on the crates of the search, from `blossom_arena` to `augment`.
//! It promises that a run ends with a perfect matching and duals that prove it least, or with a
//! barrier, and beside that a greatest matching and the sets of Gallai and Edmonds.
#![tactic(auto)]

mod engine;
mod even_paths;
mod law;
mod outcome;
mod pass;
mod phase_end;
mod phases;
mod running;
mod solving;

pub use blossom_arena::Members;
pub use engine::Engine;
pub use law::laws;
pub use outcome::Outcome;
pub use phase_end::PhaseEnd;
pub use phases::phase;
pub use search_start::start_duals;

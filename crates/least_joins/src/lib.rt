//! The engine's perfect matching as a list of edges and its barrier as a list of vertices, and a
//! join of least weight by one search. It depends on `mwpm_engine`, and on `gadget_tjoin` for the
//! graph whose perfect matchings are joins. It promises each edge as often as the matching has it
//! and the vertices of the barrier, ascending, and that no join weighs less.
#![tactic(auto)]

mod barrier;
mod edge_numbers;
mod least;
mod matched;

pub use barrier::barrier_vertices;
pub use edge_numbers::numbers_of;
pub use least::least_join;
pub use matched::matching;

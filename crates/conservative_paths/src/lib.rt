//! Paths and circuits within a join, and weights that are conservative. It depends on `mb_base`,
//! `graph_theory`, `weighted_graph`, `mb_problem`, `gadget_base` and `gadget_tjoin`. It promises a
//! path between the two odd vertices of a join that weighs no more than the join where no even set
//! of edges weighs less than 0, a circuit that weighs less than 0 within an even set that does, and
//! that these two say the same of the weights.
#![tactic(auto)]

mod advance;
mod circuit;
mod edges_left;
mod law;
mod path;
mod trail;

pub use circuit::negative_circuit;
pub use law::laws;
pub use path::path_in;

//! Paths of an odd or an even number of edges as perfect matchings: two copies of the graph, and
//! the two copies of each vertex joined. It depends on `mb_base`, `graph_theory`, `weighted_graph`,
//! `mb_problem`, `gadget_base`, `gadget_tjoin` and `conservative_paths`. It promises that `parity`
//! makes the certificate graph of the two kinds, that each feasible path is a perfect matching
//! there of its weight, and that `extract` turns a perfect matching into a feasible path of at most
//! its weight.
#![tactic(auto)]

mod layers;
mod path;

pub use layers::parity;
pub use path::extract;

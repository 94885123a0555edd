//! Greatest matchings, and the vertices that some of them miss. It depends on `mb_base`,
//! `graph_theory`, `gallai_theory`, `weighted_graph`, `mb_problem`, `gadget_base`,
//! `alternating_paths`, `mwpm_engine` and `least_joins`. It promises that `decompose` finds a
//! greatest matching, exactly the vertices that some greatest one misses with a path for each, and
//! their neighbours.
#![tactic(auto)]

mod decomposing;
mod edge_numbers;
mod finding;
mod found;
mod reading;

pub use decomposing::decompose;
pub use found::Decomposition;

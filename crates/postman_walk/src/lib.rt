//! Closed walks that use each edge, for a postman. It depends on `mb_base`, `graph_theory`,
//! `weighted_graph`, `mb_problem`, `gadget_base` and `graph_parts`. It promises a closed walk that
//! uses each edge once and those of a join twice, from the least vertex that an edge meets.
#![tactic(auto)]

mod closed;
mod start;
mod trace;
mod uses;

pub use closed::closed_walk;
pub use start::least_met;

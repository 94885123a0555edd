//! Degrees between two bounds as perfect matchings: the graph of gates for the greatest degrees
//! twice, and the copies that may stay free joined to their twins. It depends on `mb_base`,
//! `graph_theory`, `weighted_graph`, `mb_problem`, `gadget_base` and `gadget_cap`. It promises that
//! `interval` makes the certificate graph of the kind, that each feasible answer is a perfect
//! matching there of twice its weight, and that `extract` turns a perfect matching into a feasible
//! answer of at most half of its weight.
#![tactic(auto)]

mod halves;
mod lighter;

pub use halves::interval;
pub use lighter::extract;

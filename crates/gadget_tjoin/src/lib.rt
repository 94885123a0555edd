//! Joins as perfect matchings: the graph of ports, and the join of a perfect matching there. It
//! depends on `mb_base`, `graph_theory`, `weighted_graph`, `mb_problem` and `gadget_base`. It
//! promises that each join, tour and path has its perfect matching, and each perfect matching its
//! join.
#![tactic(auto)]

mod build;
mod extraction;
mod groups;
mod port_links;

pub use build::ports;
pub use extraction::{extract, marked};

//! Perfect matchings that minimise the largest edge weight. It depends on `mb_base`,
//! `graph_theory`, `gallai_theory`, `weighted_graph`, `mb_problem`, `gadget_base`, `dual_change`,
//! `mwpm_engine` and `least_joins`. It promises that `threshold` finds one, with a barrier of the
//! graph of all lighter edges, or a barrier of the graph if there is no perfect matching.
#![tactic(auto)]

mod choosing;
mod found;
mod halving;
mod least;
mod range;
mod searching;
mod starting;
mod weights;

pub use found::Bottleneck;
pub use least::threshold;

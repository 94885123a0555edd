//! Matchings with a degree for each vertex and a limit on each edge, as perfect matchings of a
//! graph with two gates for each edge. It depends on `mb_base`, `graph_theory`, `weighted_graph`,
//! `mb_problem` and `gadget_base`. It promises that `capped` makes the certificate graph of the two
//! kinds, that each feasible answer is a perfect matching there, and that `extract` turns a perfect
//! matching into a feasible answer of the same weight; `count_entries` counts for any edges of the
//! graph what they say of the instance.
#![tactic(auto)]

mod entries;
mod rooms;
mod subdivision;

pub use entries::{count_entries, extract};
pub use subdivision::capped;

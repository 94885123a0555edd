//! A plain check of every part of the state of a search from its lists, for tests. It depends on
//! `base_types`, `graph_theory`, `weighted_graph`, `blossom_arena` and `alt_forest`, and promises
//! that it passes exactly the searches that are in such a state.
#![tactic(auto)]

mod check;
mod edges;
mod labels;
mod mates;
mod parity;
mod rings;
mod slacks;
mod ways;

pub use check::{check_search, is_search_graph};

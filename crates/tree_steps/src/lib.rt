//! The steps of a search that change its trees: a tree grows, an odd circuit is shrunk into one
//! node, and an inner blossom is expanded. It depends on `base_types`, `graph_theory`,
//! `weighted_graph`, `blossom_arena`, `search_heap`, `alt_forest` and `search_keys`, and promises
//! that each step leaves a search in the state of a search, with the moment of each event that can
//! come in its queue, or with bounds of these moments, and that less is left to do.
#![tactic(auto)]

mod circuit;
mod entering;
mod expanding;
mod growth;
mod insertion;
mod pairs;
mod scanning;
mod shrinking;
mod steps_by_keys;
mod way_up;

pub use expanding::expand;
pub use growth::grow;
pub use shrinking::shrink;
pub use steps_by_keys::{expand_bounding, grow_bounding, shrink_bounding};

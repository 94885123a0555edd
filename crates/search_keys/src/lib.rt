//! Lower bounds of the moments at which the events of a search come, one for each vertex, beside
//! the exact moment of each inner blossom. It depends on `base_types`, `graph_theory`,
//! `weighted_graph`, `blossom_arena`, `search_heap` and `alt_forest`, and takes all its memory when
//! it is made. It promises that no event comes before the least bound, and counts each edge that it
//! looks at.
#![tactic(auto)]

mod bounds;
mod entering;
mod keys;
mod looking;
mod planting;

pub use bounds::EventBounds;
pub use planting::plant;

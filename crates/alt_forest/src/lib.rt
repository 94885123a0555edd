//! The state of a search for a perfect matching: alternating trees over the outermost nodes of an
//! arena. It depends on `base_types`, `graph_theory`, `weighted_graph`, `blossom_arena`,
//! `search_heap` and `search_tables`.
#![tactic(auto)]

mod entries;
mod grandparent;
mod law;
mod meet;
mod motions;
mod path;
mod search;
mod slack;
mod starts;
mod tables;
mod tree_lists;
mod weights;

pub use blossom_arena::Label;
pub use grandparent::GrandparentLink;
pub use law::laws;
pub use path::RootPath;
pub use search::Search;
pub use search_heap::{EdgeQueue, Item};
pub use search_tables::{IncidentEdge, IncidentEdges, TreeNodes, room_for};
pub use slack::doubled;
pub use tables::{set_edge, set_label};
pub use weights::Weights;

//! The lists that a search keeps and that no blossom comes into: for each vertex the edges at it,
//! and the nodes that are listed, each with a tree id. It depends on `base_types`, `graph_theory`,
//! `circular_lists` and `weighted_graph`. It promises that the edges at a vertex are exactly those
//! of the graph, ascending, that each look at one of them is counted, and that each call on the
//! nodes that are listed says which nodes these are afterwards and with what tree ids.
#![tactic(auto)]

mod incident_edges;
mod room;
mod tree_nodes;

pub use incident_edges::{IncidentEdge, IncidentEdges};
pub use room::room_for;
pub use tree_nodes::TreeNodes;

//! The types that every other crate cites: numbers of vertices, edges and nodes, lists inside
//! public types, the error for memory that runs out, and counted steps. It depends on std. It
//! promises that a number is the one that it was made of, that a list is its items, and that a
//! counter rises by one a tick.
#![tactic(auto)]

mod ids;
mod memory;
mod sequence;
mod steps;

pub use ids::{EdgeId, NodeId, VertexId};
pub use memory::OutOfMemory;
pub use sequence::Sequence;
pub use steps::Steps;

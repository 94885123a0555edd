//! A nested family of odd sets of vertices with duals, for searches that shrink blossoms to nodes.
//! It depends on `base_types`, `graph_theory` and `slab`, and takes all its memory when it is made.
//! It promises that each call changes the family as one equation says, and keeps it nested and in
//! range.
#![tactic(auto)]

mod arena;
mod blossoms;
mod chain;
mod dual_table;
mod label;
mod law;
mod links;
mod members;
mod order;
mod partition;
mod ring;
mod runs;
mod shares;
mod tables;

pub use arena::Arena;
pub use base_types::NodeId;
pub use blossoms::Blossoms;
pub use chain::Chain;
pub use label::Label;
pub use law::laws;
pub use links::Link;
pub use members::Members;
pub use ring::Ring;

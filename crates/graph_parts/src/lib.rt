//! The components that a graph falls into where a set of vertices is removed, and joins along trees
//! that span them. It depends on `mb_base`, `graph_theory`, `gallai_theory`, `weighted_graph` and
//! `mb_problem`. It promises the component of a vertex, ascending; the number of components of odd
//! size, also if they have to lie within a set; whether all edges lie in one component; and for
//! each parity a join, or the first component that excludes one.
#![tactic(auto)]

mod carrying;
mod components;
mod connected;
mod flags;
mod forest;
mod joins;
mod links;
mod marks;
mod odd;
mod search;

pub use components::component;
pub use connected::edge_connected;
pub use joins::{JoinOrOdd, join_or_odd};
pub use marks::{mark_all, no_marks, unmark_all};
pub use odd::{odd_components, odd_components_within};

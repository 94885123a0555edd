//! Graphs with integer weights, and the index of their edges by vertex. It depends on `base_types`
//! and `graph_theory`. It promises that a graph is its number of vertices and the list of the edges
//! that were added, that a counted look is one step, that the index lists exactly the edges at each
//! vertex, ascending, and that of counted edges one at a vertex is taken, or none is left there.
#![tactic(auto)]

mod by_vertex;
mod graph;
mod incidence;
mod left;

pub use by_vertex::ByVertex;
pub use graph::Graph;
pub use incidence::Incidence;
pub use left::take_left;

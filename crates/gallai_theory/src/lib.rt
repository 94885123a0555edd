//! Matchings that needn't be perfect, and the sets of Gallai and Edmonds: the vertices that some
//! greatest matching misses, and their neighbours. It depends on `graph_theory`, and holds the
//! definitions that contracts cite and lemmas about them. It promises Berge's bound, and that even
//! paths and a count of odd components prove a matching greatest and a set the one of all vertices
//! that greatest matchings miss.
#![tactic(auto)]

mod law;

pub use law::laws;

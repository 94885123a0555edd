//! Alternating paths of even length from the vertices that maximum matchings miss. It depends on
//! `mb_base`, `graph_theory`, `gallai_theory`, `weighted_graph` and `mb_problem`. It promises that
//! `is_even_path` says exactly whether edges are such a path. A `Forest` finds paths quickly, and
//! promises nothing of them: whoever uses one tests it.
#![tactic(auto)]

mod bases;
mod forest;
mod growing;
mod label;
mod path_test;
mod tracing;

pub use forest::Forest;
pub use path_test::is_even_path;

//! What the reductions to perfect matching share: the certificate graphs, for all kinds, rows,
//! rectangles and cliques of edges, where blocks of given sizes start, and the answer that a
//! perfect matching of the instance's own graph is. It depends on `mb_base`, `graph_theory`,
//! `gallai_theory`, `weighted_graph` and `mb_problem`. It promises that each call that adds edges
//! adds exactly those that it names, and that this answer is feasible and weighs what the matching
//! does.
#![tactic(auto)]

mod copies;
mod offsets;
mod plain;
mod rows;

pub use copies::copies_of;
pub use offsets::{find_block, starts, wide_starts};
pub use plain::{count_listed, extract_plain, unweighted, with_loops};
pub use rows::{add_clique, add_rectangle, add_row};

//! Matchings of greatest weight and b-matchings of least weight as perfect matchings of least
//! weight. It depends on `mb_base`, `graph_theory`, `weighted_graph`, `mb_problem` and
//! `gadget_base`. It promises that the graph that is built is the certificate graph, that each
//! feasible answer has a perfect matching there, and that each perfect matching there gives a
//! feasible answer.
#![tactic(auto)]

mod copying;
mod doubling;
mod gathering;
mod halving;

pub use copying::copies;
pub use doubling::double;
pub use gathering::extract_copies;
pub use halving::extract_double;

//! The solver of every kind: the document of a best answer with the certificate that proves it
//! best, or of what excludes every answer. Duals prove an answer best, a barrier of lighter edges
//! after halving over weights, or even paths after one search that may end stuck. It depends on
//! `mwpm_engine`, `bottleneck` and `gallai` for the searches, on `solve_answers` for the answers
//! that matchings stand for and what excludes answers without a search, on `least_joins` and
//! `conservative_paths` for even sets of edges, on `document_lines` for the lines of documents, and
//! on `certificates` for what a document has to prove. It promises of each kind that every document
//! proves what it states, and that there always is one.
#![tactic(auto)]

mod barriers;
mod conservative;
mod duals;
mod even_paths;
mod optimal;
mod searching;
mod sized;
mod solving;

pub use sized::{SolveError, solve_sized};
pub use solve_answers::{DOCUMENT_BYTE_LIMIT, PATHS_BYTE_LIMIT, infeasible_by};
pub use solving::solve;

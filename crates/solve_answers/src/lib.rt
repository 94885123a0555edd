//! What the kinds differ in beside their searches: the answer that a perfect matching of a kind's
//! graph stands for, the documents of what excludes all answers, and what is promised of a
//! document. It depends on the gadget crates for the answers, on `graph_parts`, `postman_walk` and
//! `conservative_paths` for parts, tours and paths, on `document_lines` for lines, and on
//! `certificates` for what a document has to prove; nothing here makes a search. It promises that
//! an answer is feasible and pays for its matching, and that a document of a part proves that none
//! is.
#![tactic(auto)]

mod detail;
mod joins;
mod limits;
mod obstruction;
mod parts;
mod reading;
mod turns;

pub use detail::Detail;
pub use joins::as_counts;
pub use limits::{DOCUMENT_BYTE_LIMIT, PATHS_BYTE_LIMIT};
pub use obstruction::{infeasible, infeasible_by};
pub use parts::excluded;
pub use reading::answer;

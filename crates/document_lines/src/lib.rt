//! The lines of a document out of an answer and out of the outcome of a search, and what the lines
//! of nested sets name: nothing here knows of kinds. It depends on `doc_format` for the lines, on
//! `certificates` for what they claim, on `mwpm_engine` for the outcome, and on `blossom_arena` for
//! the members of a set. It promises that the lines list the counts, the walk, a set of vertices
//! and the duals as they are, ascending, and the odd sets by vertices and the greatest sets inside,
//! with all numbers in their ranges, and that what is gathered for the line of a set is what no
//! line before it holds.
#![tactic(auto)]

mod counts;
mod duals;
mod gathering;
mod items;
mod marked;
mod marks;
mod ordering;
mod sets;
mod tables;
mod vertex_set;
mod walk;

pub use counts::count_lines;
pub use duals::dual_lines;
pub use gathering::gather;
pub use items::items_of;
pub use ordering::{arrange, sort};
pub use sets::set_lines;
pub use tables::Tables;
pub use vertex_set::member_line;
pub use walk::walk_line;

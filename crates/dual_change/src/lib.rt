//! Changes of the duals in a search for a perfect matching: which comes next, and what it does. It
//! depends on `base_types`, `graph_theory`, `weighted_graph`, `blossom_arena`, `search_heap`,
//! `alt_forest` and `search_keys`. It promises that what it finds comes with the least change,
//! that a change keeps the state of a search, and that a forest that is stuck shows a barrier.
#![tactic(auto)]

mod event;
mod find_by_keys;
mod find_by_queue;
mod law;
mod raise;

pub use event::{Event, Next};
pub use find_by_keys::{apply_bounding, find_bounding};
pub use find_by_queue::find;
pub use law::laws;
pub use raise::apply;

//! Moments of edges and of blossoms, the least first, for the events of a search. It depends on
//! `base_types`, with lemmas of `graph_theory`, and takes all its memory when it is made. It
//! promises that each call changes the moment of its item alone, and that `least` answers an item
//! whose moment is least.
#![tactic(auto)]

mod buckets;
mod ends;
mod entry;
mod filing;
mod heap;
mod highs;
mod item;
mod law;
mod order;
mod queue;
mod rising;
mod setting;
mod sift;
mod slots;
mod tables;
mod tie_rank;

pub use item::Item;
pub use law::laws;
pub use queue::EdgeQueue;
pub use rising::RisingQueue;

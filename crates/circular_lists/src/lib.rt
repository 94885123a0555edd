//! Circular lists of numbered places, linked both ways. It depends on `base_types`, with lemmas of
//! `graph_theory`. It promises which links each call changes, and that all places stay linked.
#![tactic(auto)]

mod lists;

pub use lists::{CircularLists, put_behind, take_off};

//! The judge of documents: whether one proves what it states of an instance. It depends on
//! `certificates`, which says what proves what, and on `dual_check`. It promises that the verdict
//! names the first rule that a document breaks, that an accepted one proves what it states, and
//! that this is true.
#![tactic(auto)]

mod border;
mod circuit;
mod claims;
mod extent;
mod infeasible;
mod judging;
mod lighter;
mod optimal;
mod parts;
mod paths;
mod ranges;
mod rule;
mod set_form;
mod value_ranges;

pub use judging::judge;
pub use rule::{DocRule, Verdict};

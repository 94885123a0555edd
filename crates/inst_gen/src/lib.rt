//! Instances that are made by rule, for trials: the kind, a start and two counts determine each. It
//! depends on `mb_problem`. It promises that an instance is the one of its definition, and that it
//! is one of its kind.
#![tactic(auto)]

mod draws;
mod edges;
mod instance;
mod limits;
mod values;

pub use instance::make;

//! A best answer to a small instance by trying all counts, for tests that compare a solver with it.
//! It depends on `mb_base` and `mb_problem`. It promises that what `best` answers is best by the
//! definition itself, that nothing means that no answer is feasible, and that `least_tour_weight`
//! is what each edge once and a least join once more weigh.
#![tactic(auto)]

mod digits;
mod enumeration;
mod limits;
mod mosts;
mod tours;

pub use enumeration::{best, is_small};
pub use limits::TRIAL_LIMIT;
pub use tours::least_tour_weight;

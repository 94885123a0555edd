//! The solver over arrays: an instance as the ends, weights, capacities and values of its edges and
//! vertices in, the answer as numbers out. Nothing is spelled or read on the way. It depends on
//! `mb_problem` for instances and on `solve_kinds` for the solver. It promises which arrays are
//! refused, by the first fault in a stated order, and of all others the answer that
//! `solve_kinds::solve` promises of the instance that they are.
#![tactic(auto)]

mod arrays;
mod building;
mod calling;
mod checking;
mod counts;
mod error;
mod faults;
mod laying;
mod making;
mod parting;
mod rule;
mod solving;

pub use arrays::InstanceArrays;
pub use calling::{ArrayAnswer, ArrayStatus, answer_to, check_to, size_to};
pub use checking::check_arrays;
pub use error::ArrayError;
pub use laying::numbers_of;
pub use making::instance_of;
pub use rule::{ArrayFault, ArrayRule};
pub use solving::solve_arrays;

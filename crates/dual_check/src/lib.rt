//! Bounds that duals prove on the weight of each perfect matching, and barriers, which exclude all
//! of them. It depends on `mb_base`, `graph_theory`, `weighted_graph` and `graph_parts`. It
//! promises the value of feasible duals, which no perfect matching's doubled weight is below, the
//! first fault of others, and whether a set is a barrier.
#![tactic(auto)]

mod barrier;
mod climbing;
mod crossings;
mod duals;
mod fault;
mod forest;
mod holders;
mod named;
mod narrow;
mod nested;
mod overlap;
mod parents;
mod sets;
mod shares;
mod slacks;
mod stretches;
mod totals;

pub use barrier::is_barrier;
pub use duals::bound;
pub use fault::DualFault;
pub use graph_theory::OddSet;
pub use sets::first_set_fault;

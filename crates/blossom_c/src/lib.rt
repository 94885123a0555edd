//! The calls for C and for languages that call C, over the caller's buffers: `match_cli::call`
//! over texts, `array_call::answer_to` over arrays, and `array_joins::joins_to` over a graph and
//! many sets of terminals. It depends on these three. It promises of what it leaves in a buffer
//! what they promise of their answers, for every input and every buffer.
#![tactic(auto)]

mod array_border;
mod array_ending;
mod border;
mod buffer;
mod call_numbers;
mod call_status;
mod join_border;

pub use array_border::{blossom_certificate_size, blossom_check_arrays, blossom_solve_arrays};
pub use border::{blossom_abi, blossom_call};
pub use join_border::blossom_join_arrays;

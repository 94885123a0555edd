//! Tests of the search by its public calls alone: whole passes with weights, from a search with no
//! mate to an unpacked perfect matching, each against a best answer found by trying all, and runs
//! of the engine. It depends on the crates of the search and on `brute_force`, and has no call of
//! its own.
#![tactic(auto)]

#[cfg(test)]
mod tests;

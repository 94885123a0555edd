//! Tests of the solver and of all that reads or writes text. On a table of small instances the
//! solver's answers are as good as a best one that was found by trying all, and stand in documents
//! that say so. Bytes and their sources and sinks, instances, documents, and the program's `run`
//! over sources and sinks in memory are read and written. It depends on the readers, on
//! `match_cli`, on `solve_kinds` and on `brute_force`, and has no call of its own. What the built
//! program shows by itself stands in tests/cases, and not here.
#![tactic(auto)]

#[cfg(test)]
mod tests;

//! Minimum-weight T-joins of one graph for many sets of terminals, over arrays: the graph is read
//! and checked once, and each set has an answer of its own. A guess with a forest of lengths is
//! tried first, which a check proves. It depends on `array_call` for arrays, their faults and
//! statuses, on `mwpm_engine` for searches over pairs of vertices, on `join_check` for the check of
//! a guess, and if there is none on `graph_parts` for whether there is a join and on `least_joins`
//! for one of minimum weight. It promises of each set a join of minimum weight, that there is none,
//! or its first fault; a wrong set changes no other answer. A guess takes at most half the steps of
//! a search of the graph of ports.
#![tactic(auto)]

mod arcs;
mod calling;
mod clusters;
mod forest;
mod found;
mod guessed;
mod guessing;
mod joining;
mod laying;
mod leaves;
mod levels;
mod marking;
mod neighbours;
mod outcome;
mod pair_graph;
mod pairs;
mod paths;
mod places;
mod pricing;
mod rounds;
mod searching;
mod sets;
mod shown;
mod spread;
mod table;
mod trees;
mod weighing;

pub use calling::joins_to;
pub use guessed::guessed_join;
pub use outcome::{SetOutcome, TerminalFault, TerminalRule};
pub use rounds::GuessTables;
